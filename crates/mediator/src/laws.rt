//! Laws of what happens between two calls of the mediator, and of what all calls so far come to.

ghost use Rattle.std.specs.Prelude.{ℕ, List};
ghost use Rattle.ata_taskfile.specs.Device.{Device};
ghost use Rattle.plain_drive.specs.Plain.{Plain};
ghost use Rattle.plain_drive.specs.Seen.{HasLetGo};
ghost use Rattle.fill_bitmap.specs.Area.{bitmap_sectors_of};
ghost use Rattle.streaming.specs.Helpful.{IsReadyInTime};
ghost use Rattle.streaming.specs.Lines.{Line};
ghost use Rattle.monitor_state.specs.Overlaid.{Known};
ghost use Rattle.mediator.specs.declared.mediator.Mediator.{Mediator as MediatorOf};
ghost use Rattle.mediator.specs.Couples.{Couples};
ghost use Rattle.mediator.specs.Mediator.{parts_of};

/// A destage keeps every plain drive for which mediator, drive and memory stand.
pub fn a_destage_keeps_the_plain_drive()
    ensures { (k : Known) (m : MediatorOf) (old new q : Plain) (lines : List Line) →
        HasLetGo old new → Couples k m old.device old.memory q lines
        → Couples k m new.device new.memory q lines }
{}

/// Where the guest writes its own memory, mediator and drive stand for the plain drive with the same memory.
pub fn the_guests_memory_is_the_plain_drives()
    ensures { (k : Known) (m : MediatorOf) (d : Device) (memory left : List ℕ) (q : Plain)
        (lines : List Line) → Couples k m d memory q lines
        → Couples k m d left (record q { memory = left }) lines }
{}

/// From power-on, or from a failing step that changed the drive, up to the next such step fewer helpful turns than the
/// bound stand as long as it isn't told that the monitor is ready.
pub fn a_monitor_is_ready_in_time()
    ensures { (k : Known) (m : MediatorOf) (d : Device) (memory : List ℕ) (q : Plain)
        (lines : List Line) → Couples k m d memory q lines
        → IsReadyInTime (parts_of m).area.block (bitmap_sectors_of (parts_of m).area) lines }
{}
