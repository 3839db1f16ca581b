//! Laws of which sectors a step of the drive changes.

ghost use Rattle.std.specs.Prelude.{◌≡◌, ℕ, true, List};
ghost use Rattle.ata_taskfile.specs.declared.Step.{Step};
ghost use Rattle.ata_taskfile.specs.Lawful.{IsLawful};
ghost use Rattle.plain_drive.specs.Plain.{Plain};
ghost use Rattle.plain_drive.specs.Change.{change_made, writes, flushes};
ghost use Rattle.plain_drive.specs.Step.{step_made, went};
ghost use Rattle.overlay.specs.Steps.{leaves_sectors, WritesWithin, FlushesIn};

/// Where the drive is at work on no order, or on one that gives data, no step changes a sector, however many follow
/// until the next access.
pub fn reads_leave_the_sectors()
    ensures step { (s : Step) (p : Plain) → leaves_sectors p.device.file.phase ≡ true
        → (step_made s p).device.cells ≡ p.device.cells }
    ensures phase { (s : Step) (p : Plain) → leaves_sectors p.device.file.phase ≡ true
        → leaves_sectors (step_made s p).device.file.phase ≡ true }
    ensures went { (n : ℕ) (p : Plain) → leaves_sectors p.device.file.phase ≡ true
        → (went n p).device.cells ≡ p.device.cells }
{}

/// A step writes no sector but one in the range of an order whose data goes to the drive, and makes sectors durable
/// for a flush alone.
pub fn steps_change_what_their_order_names()
    ensures writes { (s : Step) (p : Plain) (sector : ℕ) (value : List ℕ) → IsLawful p.device
        → change_made s p ≡ writes sector value → WritesWithin p.device.file.phase sector }
    ensures flushes { (s : Step) (p : Plain) → IsLawful p.device
        → change_made s p ≡ flushes → FlushesIn p.device.file.phase }
{}
