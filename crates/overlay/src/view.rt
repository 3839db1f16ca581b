//! Laws of what a guest finds on the drive, at the start and after a power cut.

ghost use Rattle.std.specs.Prelude.{◌≡◌, ◌<◌, ℕ, Bool, List};
ghost use Rattle.ata_taskfile.specs.Device.{Cell};
ghost use Rattle.plain_drive.specs.Cells.{Each};
ghost use Rattle.plain_drive.specs.Cut.{IsOutcome};
ghost use Rattle.plain_drive.specs.Plain.{stored as store_of};
ghost use Rattle.fill_bitmap.specs.declared.area.Area.{Area};
ghost use Rattle.fill_bitmap.specs.Area.{reserved_of};
ghost use Rattle.fill_bitmap.specs.Disk.{guest_view, sector_at, stored_blocks};
ghost use Rattle.fill_store.specs.Cells.{KeepsBits};
ghost use Rattle.overlay.specs.Overlay.{HasValues, Survives};

/// Where each sector below the reserved ones has the value of a disk alone, and the disk's stored blocks are filled,
/// stored and durable, the plain drive is the one with the sectors that the guest finds on the disk.
pub fn a_drive_begins_as_the_guest_finds_it()
    ensures values { (area : Area) (id : ℕ) (image disk : List (List ℕ)) (cells : List Cell) →
        ((s : ℕ) → s < reserved_of area → Each (λ value. value ≡ sector_at s disk) s cells) →
        HasValues area (stored_blocks area id disk) image cells
        (store_of (guest_view area id image disk)) }
    ensures survives { (area : Area) (id : ℕ) (image disk : List (List ℕ)) (cells : List Cell) →
        ((s : ℕ) → s < reserved_of area → Each (λ value. value ≡ sector_at s disk) s cells) →
        Survives area (stored_blocks area id disk) (stored_blocks area id disk) image cells
        (store_of (guest_view area id image disk)) }
{}

/// What a guest finds after a cut, by the header and the bitmap that it left, is what a cut may leave of the plain
/// drive.
pub fn what_survives_is_an_outcome()
    ensures { (area : Area) (id : ℕ) (stored durable : List Bool) (image outcome : List (List ℕ))
        (cells plain : List Cell) → KeepsBits area id stored durable cells →
        Survives area stored durable image cells plain → IsOutcome cells outcome →
        IsOutcome plain (guest_view area id image outcome) }
{}
