//! Laws of what becomes of the drive's sectors, and of the filled blocks.

ghost use Rattle.std.specs.Prelude.{◌≡◌, ◌<◌, ◌≤◌, ℕ, Bool, true, false, List, length, slice_set};
ghost use Rattle.ata_taskfile.specs.Device.{Cell};
ghost use Rattle.plain_drive.specs.Plain.{appended, all_flushed};
ghost use Rattle.plain_drive.specs.Cells.{value_at, ForgetsOld};
ghost use Rattle.plain_drive.specs.Physical.{AreEndsOf};
ghost use Rattle.fill_bitmap.specs.declared.area.Area.{Area};
ghost use Rattle.fill_bitmap.specs.Area.{block_at, reserved_of};
ghost use Rattle.fill_bitmap.specs.BlockSet.{IsWithin};
ghost use Rattle.fill_bitmap.specs.Disk.{is_empty_at, sector_at};
ghost use Rattle.overlay.specs.Overlay.{HasValues, Survives};

/// The same write to the drive and to the plain one keeps the newest values, where its sector is in no empty block;
/// what a cut leaves it keeps wherever it is.
pub fn a_write_to_both_is_kept()
    ensures values { (area : Area) (filled : List Bool) (image : List (List ℕ))
        (cells plain : List Cell) (sector : ℕ) (bytes : List ℕ) →
        HasValues area filled image cells plain → is_empty_at area filled sector ≡ false →
        sector < length cells → sector < length plain →
        HasValues area filled image (appended sector bytes cells) (appended sector bytes plain) }
    ensures survives { (area : Area) (stored durable : List Bool) (image : List (List ℕ))
        (cells plain : List Cell) (sector : ℕ) (bytes : List ℕ) →
        Survives area stored durable image cells plain →
        Survives area stored durable image (appended sector bytes cells)
        (appended sector bytes plain) }
{}

/// A write to the drive alone, to a sector of an empty block, is seen neither now nor after a cut.
pub fn a_write_to_an_empty_block_is_unseen()
    ensures values { (area : Area) (filled : List Bool) (image : List (List ℕ))
        (cells plain : List Cell) (sector : ℕ) (bytes : List ℕ) →
        HasValues area filled image cells plain → is_empty_at area filled sector ≡ true →
        HasValues area filled image (appended sector bytes cells) plain }
    ensures survives { (area : Area) (stored durable : List Bool) (image : List (List ℕ))
        (cells plain : List Cell) (sector : ℕ) (bytes : List ℕ) →
        Survives area stored durable image cells plain →
        is_empty_at area durable sector ≡ true →
        Survives area stored durable image (appended sector bytes cells) plain }
{}

/// A write to the drive alone, to a reserved sector, is seen neither now nor after a cut.
pub fn a_write_of_reserved_sectors_is_unseen()
    ensures values { (area : Area) (filled : List Bool) (image : List (List ℕ))
        (cells plain : List Cell) (sector : ℕ) (bytes : List ℕ) →
        HasValues area filled image cells plain → reserved_of area ≤ sector →
        HasValues area filled image (appended sector bytes cells) plain }
    ensures survives { (area : Area) (stored durable : List Bool) (image : List (List ℕ))
        (cells plain : List Cell) (sector : ℕ) (bytes : List ℕ) →
        Survives area stored durable image cells plain → reserved_of area ≤ sector →
        Survives area stored durable image (appended sector bytes cells) plain }
{}

/// A flush of both keeps the newest values; and these alone survive it, which the guest finds after a cut where each
/// filled block is stored.
pub fn a_flush_of_both_keeps_the_values()
    ensures values { (area : Area) (filled : List Bool) (image : List (List ℕ))
        (cells plain : List Cell) → HasValues area filled image cells plain →
        HasValues area filled image (all_flushed cells) (all_flushed plain) }
    ensures survives { (area : Area) (stored durable filled : List Bool) (image : List (List ℕ))
        (cells plain : List Cell) → HasValues area filled image cells plain →
        length plain ≡ reserved_of area → IsWithin durable filled → IsWithin filled stored →
        Survives area stored durable image (all_flushed cells) (all_flushed plain) }
{}

/// The drive may forget older values of its sectors, as it does where a flush makes the newest durable, and where its
/// cells hold the newest of others' values alone.
pub fn older_values_may_be_forgotten()
    ensures values { (area : Area) (filled : List Bool) (image : List (List ℕ))
        (old new plain : List Cell) → HasValues area filled image old plain →
        ForgetsOld old new → HasValues area filled image new plain }
    ensures survives { (area : Area) (stored durable : List Bool) (image : List (List ℕ))
        (old new plain : List Cell) → Survives area stored durable image old plain →
        ForgetsOld old new → Survives area stored durable image new plain }
    ensures values_of_ends { (area : Area) (filled : List Bool) (image : List (List ℕ))
        (old new plain : List Cell) → HasValues area filled image old plain →
        AreEndsOf new old → HasValues area filled image new plain }
    ensures survives_of_ends { (area : Area) (stored durable : List Bool)
        (image : List (List ℕ)) (old new plain : List Cell) →
        Survives area stored durable image old plain → AreEndsOf new old →
        Survives area stored durable image new plain }
{}

/// A block may count as filled once each of its sectors of the image has the image's value on the drive.
pub fn a_block_is_filled_from_the_image()
    ensures { (area : Area) (filled : List Bool) (image : List (List ℕ)) (cells plain : List Cell)
        (b : ℕ) → HasValues area filled image cells plain →
        ((s : ℕ) → s < area.image → block_at area s ≡ b → value_at s cells ≡ sector_at s image) →
        HasValues area (slice_set filled b true) image cells plain }
{}
