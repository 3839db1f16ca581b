//! Laws of what a guest finds on the disk: at power-on, and after a power cut.

ghost use Rattle.std.specs.Prelude.{◌≡◌, ◌<◌, ℕ, List, length, true};
ghost use Rattle.ata_taskfile.specs.Device.{Cell, Device, powered_on};
ghost use Rattle.plain_drive.specs.Cut.{IsOutcome};
ghost use Rattle.plain_drive.specs.Plain.{stored};
ghost use Rattle.port_lease.specs.declared.monitor_side.MonitorSide.{MonitorSide as SideOf};
ghost use Rattle.fill_bitmap.specs.declared.area.Area.{Area};
ghost use Rattle.fill_bitmap.specs.Area.{IsSuitable};
ghost use Rattle.fill_bitmap.specs.Disk.{HasHeader, guest_view, stored_blocks};
ghost use Rattle.monitor_state.specs.declared.state.State.{State as StateOf};
ghost use Rattle.monitor_state.specs.declared.state.State.TheVariants.{Monitor};
ghost use Rattle.monitor_state.specs.declared.parts.Parts.{Parts as PartsOf};
ghost use Rattle.monitor_state.specs.State.{is_opened};
ghost use Rattle.monitor_state.specs.Fits.{Fits};
ghost use Rattle.monitor_state.specs.Start.{IsBegun};
ghost use Rattle.monitor_state.specs.Overlaid.{HasSectors, Known};

use plain_drive::one_outcome_without_writes;

/// At power-on the plain drive has the sectors that a guest finds on the disk.
pub fn sectors_begin_as_the_guest_finds_them()
    ensures { (image disk : List (List ℕ)) (area : Area) (id buffers : ℕ) (p : PartsOf)
        (side : SideOf) → IsSuitable area → 0 < area.image → length disk ≡ area.sectors
        → IsBegun area id buffers p
        → HasSectors (record {
          image = image;
          disk = disk;
          durable = stored_blocks area id disk;
        }) (Monitor side) p (powered_on (stored disk) area.sectors)
        (stored (guest_view area id image disk)) }
{}

/// Whatever a cut leaves of the drive, what a guest finds there is what a cut may leave of the plain drive.
pub fn a_cut_leaves_what_the_plain_drive_may_have()
    ensures { (k : Known) (s : StateOf) (p : PartsOf) (d : Device) (plain : List Cell)
        (outcome : List (List ℕ)) → Fits s p d → HasSectors k s p d plain
        → IsOutcome d.cells outcome → IsOutcome plain (guest_view p.area p.id k.image outcome) }
{
    one_outcome_without_writes();
}

/// Once opening has ended a cut leaves the run's header.
pub fn an_opened_drive_has_its_header()
    ensures { (k : Known) (s : StateOf) (p : PartsOf) (d : Device) (plain : List Cell)
        (outcome : List (List ℕ)) → is_opened p ≡ true → HasSectors k s p d plain
        → IsOutcome d.cells outcome → HasHeader p.area p.id outcome }
{}
