//! Laws: what the drive's steps make of an own command between two polls.

ghost use Rattle.std.specs.Prelude.{◌≡◌, ◌≢◌, ℕ, List};
ghost use Rattle.ata_taskfile.specs.declared.Step.{Step as StepOf};
ghost use Rattle.ata_taskfile.specs.declared.Stepped.{Stepped as SteppedOf};
ghost use Rattle.ata_taskfile.specs.Device.{Cell};
ghost use Rattle.ata_taskfile.specs.Lawful.{IsLawful};
ghost use Rattle.plain_drive.specs.Plain.{Plain};
ghost use Rattle.plain_drive.specs.Step.{step_made};
ghost use Rattle.plain_drive.specs.Seen.{HasStepped, HasLetGo};
ghost use Rattle.own_pio.specs.declared.job.OwnJob.{OwnJob as JobOf};
ghost use Rattle.own_pio.specs.Job.{IsFit};
ghost use Rattle.own_pio.specs.Running.{IsRunning};
ghost use Rattle.own_pio.specs.Poll.{answer_of};
ghost use Rattle.own_pio.specs.Kept.{IsDoneSoFar};

use crate::Poll;

/// Every step, good or failing, leaves an own command running, or ended for the next poll to find; a destage leaves it
/// as it is.
pub fn steps_keep_running()
    ensures stepped { (job : JobOf) (done : ℕ) (step : StepOf) (answer : SteppedOf)
        (old new : Plain) → IsFit job → IsLawful old.device → IsRunning job done old.device
        → HasStepped step answer old new → IsRunning job done new.device }
    ensures let_go { (job : JobOf) (done : ℕ) (old new : Plain) →
        IsRunning job done old.device → HasLetGo old new → IsRunning job done new.device }
{}

/// After a step, good or failing, no poll answers Waiting.
pub fn a_step_ends_the_wait()
    ensures { (job : JobOf) (done left : ℕ) (step : StepOf) (answer : SteppedOf)
        (old new : Plain) → IsRunning job done old.device → HasStepped step answer old new
        → answer_of job left new.device.file ≢ Poll.Waiting }
{}

/// Every step and every destage leave the sectors what the job makes of them, as far as it has come, but for older
/// values let go: a write's are its bytes one after the other, a flush's are durable, and any other sector is as it was
/// at the begin. A block that waits in Data stays its sector's.
pub fn steps_keep_what_was_done()
    ensures stepped { (job : JobOf) (done : ℕ) (bytes start : List ℕ) (origin : List Cell)
        (step : StepOf) (answer : SteppedOf) (old new : Plain) → IsLawful old.device
        → IsRunning job done old.device → IsDoneSoFar job done bytes start origin old.device
        → HasStepped step answer old new → IsDoneSoFar job done bytes start origin new.device }
    ensures let_go { (job : JobOf) (done : ℕ) (bytes start : List ℕ) (origin : List Cell)
        (old new : Plain) → IsDoneSoFar job done bytes start origin old.device
        → HasLetGo old new → IsDoneSoFar job done bytes start origin new.device }
{}

/// The guest sees nothing of a step while an own command runs: bus master and memory stay, as line and nIEN do.
pub fn steps_are_unseen()
    ensures bus { (job : JobOf) (done : ℕ) (step : StepOf) (p : Plain) →
        IsRunning job done p.device → (step_made step p).device.bus ≡ p.device.bus }
    ensures memory { (job : JobOf) (done : ℕ) (step : StepOf) (p : Plain) →
        IsRunning job done p.device → (step_made step p).memory ≡ p.memory }
{}
