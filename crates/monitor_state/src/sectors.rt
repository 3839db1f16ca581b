//! Laws of whose value each sector has: which calls keep the sectors of a plain drive.

ghost use Rattle.std.specs.Prelude.{◌≡◌, List, true, false};
ghost use Rattle.ata_taskfile.specs.declared.Step.{Step as StepOf};
ghost use Rattle.ata_taskfile.specs.declared.Stepped.{Stepped as SteppedOf};
ghost use Rattle.ata_taskfile.specs.Device.{Cell, Device};
ghost use Rattle.ata_taskfile.specs.Lawful.{IsLawful};
ghost use Rattle.plain_drive.specs.Alike.{ReadAlike};
ghost use Rattle.plain_drive.specs.Plain.{Plain};
ghost use Rattle.plain_drive.specs.Seen.{HasLetGo, HasStepped};
ghost use Rattle.plain_drive.specs.Step.{step_made};
ghost use Rattle.port_lease.specs.declared.guest_side.GuestSide.{GuestSide as GuestSideOf};
ghost use Rattle.monitor_state.specs.declared.state.State.{State as StateOf};
ghost use Rattle.monitor_state.specs.declared.state.State.TheVariants.{Guest};
ghost use Rattle.monitor_state.specs.declared.parts.Parts.{Parts as PartsOf};
ghost use Rattle.monitor_state.specs.State.{is_guests, is_opened};
ghost use Rattle.monitor_state.specs.Fits.{Fits};
ghost use Rattle.monitor_state.specs.Seen.{Shows};
ghost use Rattle.monitor_state.specs.Overlaid.{HasSectors, Known};

/// Steps and destages keep every plain drive's sectors those that a deployment gives its guest: on the guest's side it
/// makes the same step, and else none of its sectors changes.
pub fn steps_keep_the_sectors()
    ensures guest { (k : Known) (side : GuestSideOf) (p : PartsOf) (step : StepOf)
        (answer : SteppedOf) (old new q : Plain) → IsLawful old.device
        → Fits (Guest side) p old.device → Shows (Guest side) p old.device old.memory q
        → HasStepped step answer old new
        → HasSectors k (Guest side) p old.device q.device.cells
        → HasSectors k (Guest side) p new.device (step_made step q).device.cells }
    ensures monitor { (k : Known) (s : StateOf) (p : PartsOf) (step : StepOf)
        (answer : SteppedOf) (old new : Plain) (plain : List Cell) → is_guests s ≡ false
        → IsLawful old.device → Fits s p old.device → HasStepped step answer old new
        → HasSectors k s p old.device plain → HasSectors k s p new.device plain }
    ensures let_go { (k : Known) (s : StateOf) (p : PartsOf) (old new : Plain)
        (plain : List Cell) → HasLetGo old new → HasSectors k s p old.device plain
        → HasSectors k s p new.device plain }
{}

/// Once opening has ended the sectors stay what they are under whatever changes neither the drive's nor the bitmap.
pub fn register_accesses_keep_the_sectors()
    ensures { (k : Known) (s t : StateOf) (p r : PartsOf) (d e : Device) (plain : List Cell) →
        is_opened p ≡ true → r.area ≡ p.area → r.id ≡ p.id → r.opening ≡ p.opening
        → r.bitmap ≡ p.bitmap → e.cells ≡ d.cells → HasSectors k s p d plain
        → HasSectors k t r e plain }
{}

/// Each sector that a command on the guest's side reads has the plain drive's value.
pub fn the_guests_drive_reads_the_plain_drives_sectors()
    ensures { (k : Known) (side : GuestSideOf) (p : PartsOf) (d : Device) (q : Plain) →
        IsLawful d → Fits (Guest side) p d → HasSectors k (Guest side) p d q.device.cells
        → ReadAlike d.file.phase d q.device }
{}
