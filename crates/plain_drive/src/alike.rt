//! Laws of drives that a guest can't tell apart.

ghost use Rattle.std.specs.Prelude.{◌≡◌, false};
ghost use Rattle.ata_taskfile.specs.declared.Access.{Access};
ghost use Rattle.ata_taskfile.specs.declared.Step.{Step as StepOf};
ghost use Rattle.ata_taskfile.specs.declared.Stepped.{Stepped};
ghost use Rattle.ata_taskfile.specs.Access.{accessed, answer_to};
ghost use Rattle.ata_taskfile.specs.Lawful.{IsLawful};
ghost use Rattle.plain_drive.specs.Plain.{Plain};
ghost use Rattle.plain_drive.specs.Change.{change_made};
ghost use Rattle.plain_drive.specs.Step.{acts, step_made};
ghost use Rattle.plain_drive.specs.Seen.{HasStepped, HasLetGo};
ghost use Rattle.plain_drive.specs.Alike.{IsAlike, ReadAlike, beside_command, after_access, gives_command};

/// Each drive is like itself, and is like each drive that is like it.
pub fn likeness_is_mutual()
    ensures itself { (d : Plain) → IsAlike d d }
    ensures back { (d e : Plain) → IsAlike d e → IsAlike e d }
{}

/// Two drives that are alike give each access the same answer.
pub fn alike_drives_answer_alike()
    ensures { (access : Access) (d e : Plain) → IsAlike d e
        → answer_to access e.device ≡ answer_to access d.device }
{}

/// An access keeps two drives alike, where each sector has the same value in both that is read from then on. A command
/// alone makes that others than before.
pub fn accesses_keep_drives_alike()
    ensures any { (access : Access) (d e : Plain) → IsAlike d e
        → ReadAlike (accessed access d.device).file.phase d.device e.device
        → IsAlike (after_access access d) (after_access access e) }
    ensures no_command { (access : Access) (d e : Plain) → IsAlike d e
        → gives_command access d.device.file ≡ false
        → IsAlike (after_access access d) (after_access access e) }
{}

/// A step, good or failing, keeps two drives alike, and does the same to the sectors of both, where it has an effect on
/// both or on none.
pub fn steps_keep_drives_alike()
    ensures acts { (step : StepOf) (d e : Plain) → IsAlike d e → acts step e ≡ acts step d }
    ensures change { (step : StepOf) (d e : Plain) → IsAlike d e
        → change_made step e ≡ change_made step d }
    ensures after { (step : StepOf) (d e : Plain) → IsLawful d.device → IsAlike d e
        → IsAlike (step_made step d) (step_made step e) }

    // One of them may let older values of its sectors go meanwhile, and at any other time.
    ensures cached { (step : StepOf) (answer : Stepped) (d e new : Plain) → IsLawful d.device
        → IsAlike d e → HasStepped step answer d new → IsAlike new (step_made step e) }
    ensures destage { (d e new : Plain) → IsAlike d e → HasLetGo d new → IsAlike new e }
{}

/// Two drives that differ in the byte of the last command alone answer alike, and differ in no more after the same
/// access or step, which has an effect on both or on none.
pub fn nothing_looks_at_the_last_command()
    ensures answer { (access : Access) (d e : Plain) → beside_command e ≡ beside_command d
        → answer_to access e.device ≡ answer_to access d.device }
    ensures access { (access : Access) (d e : Plain) → beside_command e ≡ beside_command d
        → beside_command (after_access access e) ≡ beside_command (after_access access d) }
    ensures acts { (step : StepOf) (d e : Plain) → beside_command e ≡ beside_command d
        → acts step e ≡ acts step d }
    ensures step { (step : StepOf) (d e : Plain) → beside_command e ≡ beside_command d
        → beside_command (step_made step e) ≡ beside_command (step_made step d) }
{}
