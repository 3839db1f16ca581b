//! Laws of what is left of opening.

ghost use Rattle.std.specs.Prelude.{◌≡◌, ◌≤◌, ◌+◌, Bool, false};
ghost use Rattle.ata_taskfile.specs.declared.Access.{Access as AccessOf};
ghost use Rattle.ata_taskfile.specs.declared.registers.TheConstants.{BSY};
ghost use Rattle.ata_taskfile.specs.declared.Step.TheVariants.{Good, Bad};
ghost use Rattle.ata_taskfile.specs.declared.Stepped.{Stepped as SteppedOf};
ghost use Rattle.ata_taskfile.specs.Device.{Device};
ghost use Rattle.ata_taskfile.specs.Lawful.{IsLawful};
ghost use Rattle.ata_taskfile.specs.TaskFile.{has_bit, status};
ghost use Rattle.plain_drive.specs.Plain.{Plain};
ghost use Rattle.plain_drive.specs.Seen.{HasLetGo, HasStepped};
ghost use Rattle.port_lease.specs.declared.view.View.{View as ViewOf};
ghost use Rattle.guest_view.specs.Drive.{drive_after};
ghost use Rattle.monitor_state.specs.declared.state.State.{State as StateOf};
ghost use Rattle.monitor_state.specs.declared.parts.Parts.{Parts as PartsOf};
ghost use Rattle.monitor_state.specs.State.{is_opened};
ghost use Rattle.monitor_state.specs.Fits.{Fits};
ghost use Rattle.monitor_state.specs.SameAsks.{HaveSameAsks};
ghost use Rattle.monitor_state.specs.Opening.{OpensOnKept, opening_left};

/// Only a failing step raises what is left of an opening, by 4 at most. No good step does, and what is left stays the
/// same behind a destage, an access of the guest's, and while the client asks for the same.
///
/// That the next job is on the sectors that the monitor keeps is `kept` of `Opening::next`.
pub fn only_a_failed_step_raises_what_is_left()
    ensures good { (s : StateOf) (p : PartsOf) (answer : SteppedOf) (old new : Plain) →
        OpensOnKept p → is_opened p ≡ false → IsLawful old.device → Fits s p old.device
        → HasStepped Good answer old new
        → opening_left s p new.device ≤ opening_left s p old.device }
    ensures bad { (s : StateOf) (p : PartsOf) (answer : SteppedOf) (old new : Plain) →
        OpensOnKept p → is_opened p ≡ false → Fits s p old.device
        → HasStepped Bad answer old new
        → opening_left s p new.device ≤ opening_left s p old.device + 4 }
    ensures let_go { (s : StateOf) (p : PartsOf) (old new : Plain) → HasLetGo old new
        → opening_left s p new.device ≡ opening_left s p old.device }
    ensures accessed { (s : StateOf) (p : PartsOf) (waits : Bool) (v : ViewOf) (a : AccessOf)
        (d : Device) → opening_left s p (drive_after waits v a d) ≡ opening_left s p d }
    ensures asks { (s : StateOf) (old new : PartsOf) (d : Device) → HaveSameAsks old new
        → opening_left s new d ≡ opening_left s old d }
{}

/// Until opening has ended the drive isn't at work behind a good step of it: its reset is over, and so is what it had
/// to do for the command that stands.
pub fn a_good_step_ends_the_wait()
    ensures { (s : StateOf) (p : PartsOf) (answer : SteppedOf) (old new : Plain) →
        is_opened p ≡ false → Fits s p old.device → HasStepped Good answer old new
        → has_bit BSY (status new.device.file) ≡ false }
{}
