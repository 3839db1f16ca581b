//! Laws: what the drive's steps between two calls keep, and when the drive takes a command.

ghost use Rattle.std.specs.Prelude.{◌≡◌, true, not};
ghost use Rattle.ata_taskfile.specs.declared.Step.{Step as StepOf};
ghost use Rattle.ata_taskfile.specs.declared.Reg.TheVariants.{Status};
ghost use Rattle.ata_taskfile.specs.declared.task_file.TaskFile.{TaskFile as FileOf};
ghost use Rattle.ata_taskfile.specs.TaskFile.{is_ignored};
ghost use Rattle.plain_drive.specs.Plain.{Plain};
ghost use Rattle.plain_drive.specs.Step.{acts, step_made};
ghost use Rattle.port_lease.specs.declared.view.View.{View as ViewOf};
ghost use Rattle.port_lease.specs.View.{IsKept, IsGiven};
ghost use Rattle.port_lease.specs.Seen.{drive_on_guest_side};
ghost use Rattle.port_lease.specs.Free.{is_free, shows_rest};

/// On the guest's side every step of the drive, good or failing, keeps what `take` and `access` rest on.
pub fn steps_keep_what_is_kept()
    ensures kept { (v : ViewOf) (step : StepOf) (p : Plain) → IsKept v p.device.file
        → IsKept v (step_made step p).device.file }
    ensures given { (v : ViewOf) (step : StepOf) (p : Plain) → IsGiven v p.device
        → IsGiven v (step_made step p).device }
{}

/// On the monitor's side no step has an effect while the drive is free, so what `give` and `remove` find stays.
pub fn steps_leave_a_free_drive()
    ensures { (step : StepOf) (p : Plain) → is_free p.device.file ≡ true → step_made step p ≡ p }
{}

/// On the guest's side a step of the drive is one of the drive that the guest sees there, its memory and its sectors
/// too, and it has an effect on both or on none.
pub fn steps_are_the_guests()
    ensures same { (v : ViewOf) (step : StepOf) (p : Plain) → IsGiven v p.device
        → drive_on_guest_side v (step_made step p) ≡ step_made step (drive_on_guest_side v p) }
    ensures acts { (v : ViewOf) (step : StepOf) (p : Plain) → IsGiven v p.device
        → acts step (drive_on_guest_side v p) ≡ acts step p }
{}

/// The drive ignores a write of Command exactly where it doesn't show that it rests: BSY, DRQ or DEV is 1.
pub fn commands_are_taken_at_rest()
    ensures { (f : FileOf) → is_ignored Status f ≡ not (shows_rest f) }
{}
