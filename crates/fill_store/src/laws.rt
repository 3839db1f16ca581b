//! Laws that show what stands on the drive while an opening or a settling goes on, and what a power cut may leave then.
//! Each holds of every value, and its body does nothing.

ghost use Rattle.std.specs.Prelude.{◌≡◌, ◌<◌, ℕ, Bool, List, length, map, false};
ghost use Rattle.ata_taskfile.specs.Device.{Cell};
ghost use Rattle.plain_drive.specs.Plain.{current, stored, appended, all_flushed};
ghost use Rattle.plain_drive.specs.Cut.{IsOutcome};
ghost use Rattle.plain_drive.specs.Physical.{AreEndsOf};
ghost use Rattle.own_pio.specs.declared.job.OwnJob.TheVariants.{Write};
ghost use Rattle.fill_bitmap.specs.declared.area.Area.{Area};
ghost use Rattle.fill_bitmap.specs.Area.{IsSuitable, blocks_of, bitmap_sectors_of, reserved_of};
ghost use Rattle.fill_bitmap.specs.Bitmap.{Sets, IsNested, blocks_in, empty_sets, with_filled, frozen_now};
ghost use Rattle.fill_bitmap.specs.BlockSet.{IsWithin};
ghost use Rattle.fill_bitmap.specs.Disk.{HasHeader, header_of, sector_at, bitmap_sector, stored_blocks, guest_view};
ghost use Rattle.fill_store.specs.Sectors.{zero_bits};
ghost use Rattle.plain_drive.specs.Cells.{Each, ForgetsOld, value_at};
ghost use Rattle.fill_store.specs.Cells.{KeepsBits};
ghost use Rattle.fill_store.specs.Opening.{OpeningState, opening_of, next_in_opening};
ghost use Rattle.fill_store.specs.OpeningCells.{IsEither, HasOnlyZeros, Opens, MadeByOpening};
ghost use Rattle.fill_store.specs.Settle.{SettleState, settle_of, next_in_settling};
ghost use Rattle.fill_store.specs.SettleCells.{Settles, MadeBySettling};

use plain_drive::{current_values_are_an_outcome, ends_forget_older_values};

/// An opening begins at power-on, with the drive's durable sectors and a bitmap without a block.
pub fn an_opening_begins_at_power_on()
    ensures { (area : Area) (id : ℕ) (disk : List (List ℕ)) →
        IsSuitable area → 0 < area.image → length disk ≡ area.sectors →
        Opens disk (opening_of area id) (empty_sets (blocks_of area)) (stored disk) }
{}

/// An opening stands while its job is in hand, whether the drive has made it or not, and where older values of sectors
/// are forgotten because newer ones became durable, as where a drive's cells hold the newest values of others alone.
pub fn an_opening_stands_between_its_jobs()
    ensures in_hand { (disk : List (List ℕ)) (o : OpeningState) (buffer : List ℕ) (sets : Sets)
        (old new : List Cell) → Opens disk o sets old → MadeByOpening false o buffer old new →
        Opens disk o sets new }
    ensures forgotten { (disk : List (List ℕ)) (o : OpeningState) (sets : Sets)
        (old new : List Cell) → Opens disk o sets old → ForgetsOld old new → Opens disk o sets new }
    ensures ends { (disk : List (List ℕ)) (o : OpeningState) (sets : Sets)
        (old new : List Cell) → Opens disk o sets old → AreEndsOf new old → Opens disk o sets new }
{
    ends_forget_older_values();
}

/// The header is written only once the zeros are durable: a cut then leaves nothing else of the bitmap.
pub fn the_header_is_written_behind_durable_zeros()
    ensures { (disk : List (List ℕ)) (o : OpeningState) (sets : Sets) (cells : List Cell)
        (count : ℕ) → Opens disk o sets cells →
        next_in_opening o ≡ Some (Write (reserved_of o.area) count) → HasOnlyZeros o.area cells }
{}

/// A cut in an opening leaves each sector below the reserved ones as it was at power-on, the header old or the run's,
/// and each sector of the bitmap old or zeros.
pub fn a_cut_in_an_opening_leaves_old_or_new()
    ensures others { (disk : List (List ℕ)) (o : OpeningState) (sets : Sets) (cells : List Cell)
        (outcome : List (List ℕ)) → Opens disk o sets cells → IsOutcome cells outcome →
        (s : ℕ) → s < reserved_of o.area → sector_at s outcome ≡ sector_at s disk }
    ensures header { (disk : List (List ℕ)) (o : OpeningState) (sets : Sets) (cells : List Cell)
        (outcome : List (List ℕ)) → Opens disk o sets cells → IsOutcome cells outcome →
        let first = reserved_of o.area in
        IsEither (sector_at first disk) (header_of o.area o.id) (sector_at first outcome) }
    ensures bits { (disk : List (List ℕ)) (o : OpeningState) (sets : Sets) (cells : List Cell)
        (outcome : List (List ℕ)) → Opens disk o sets cells → IsOutcome cells outcome →
        (k : ℕ) → k < bitmap_sectors_of o.area →
        IsEither (bitmap_sector o.area disk k) zero_bits (bitmap_sector o.area outcome k) }
{}

/// A cut in an opening leaves the stored blocks that the disk had at power-on, and a guest finds what it would have
/// found then.
pub fn a_cut_in_an_opening_stores_what_was_stored()
    ensures blocks { (disk : List (List ℕ)) (o : OpeningState) (sets : Sets) (cells : List Cell)
        (outcome : List (List ℕ)) → Opens disk o sets cells → IsOutcome cells outcome →
        stored_blocks o.area o.id outcome ≡ stored_blocks o.area o.id disk }
    ensures view { (disk : List (List ℕ)) (o : OpeningState) (sets : Sets) (cells : List Cell)
        (image outcome : List (List ℕ)) → Opens disk o sets cells → IsOutcome cells outcome →
        guest_view o.area o.id image outcome ≡ guest_view o.area o.id image disk }
{}

/// Where an opening has ended, the bitmap's stored blocks are those of the drive's sectors, and the filled ones are the
/// same; a cut leaves exactly these stored.
pub fn an_ended_opening_has_the_stored_blocks()
    ensures stored { (disk : List (List ℕ)) (o : OpeningState) (sets : Sets) (cells : List Cell) →
        Opens disk o sets cells → next_in_opening o ≡ None →
        sets.stored ≡ stored_blocks o.area o.id (map current cells) }
    ensures filled { (disk : List (List ℕ)) (o : OpeningState) (sets : Sets) (cells : List Cell) →
        Opens disk o sets cells → next_in_opening o ≡ None → sets.filled ≡ sets.stored }
    ensures kept { (disk : List (List ℕ)) (o : OpeningState) (sets : Sets) (cells : List Cell) →
        Opens disk o sets cells → next_in_opening o ≡ None →
        KeepsBits o.area o.id sets.stored sets.stored cells }
{
    current_values_are_an_outcome();
}

/// A settling begins as the bitmap is frozen, where each block whose data is durable is filled.
pub fn a_settling_begins_with_the_filled_blocks()
    ensures { (area : Area) (id : ℕ) (durable : List Bool) (sets : Sets) (cells : List Cell) →
        IsNested sets → blocks_in sets ≡ blocks_of area → IsWithin durable sets.filled →
        KeepsBits area id sets.stored durable cells →
        Settles id durable (settle_of area) (frozen_now sets) cells }
{}

/// A settling stands while its job is in hand, whether the drive has made it or not, where older values of sectors are
/// forgotten because newer ones became durable, as where a drive's cells hold the newest values of others alone, and
/// where a sector below the reserved ones is written.
pub fn a_settling_stands_between_its_jobs()
    ensures in_hand { (id : ℕ) (durable : List Bool) (s : SettleState) (sets : Sets)
        (old new : List Cell) → Settles id durable s sets old
        → MadeBySettling false s sets old new →
        Settles id durable s sets new }
    ensures forgotten { (id : ℕ) (durable : List Bool) (s : SettleState) (sets : Sets)
        (old new : List Cell) → Settles id durable s sets old → ForgetsOld old new →
        Settles id durable s sets new }
    ensures ends { (id : ℕ) (durable : List Bool) (s : SettleState) (sets : Sets)
        (old new : List Cell) → Settles id durable s sets old → AreEndsOf new old →
        Settles id durable s sets new }
    ensures elsewhere { (id : ℕ) (durable : List Bool) (s : SettleState) (sets : Sets)
        (sector : ℕ) (bytes : List ℕ) (cells : List Cell) → Settles id durable s sets cells →
        sector < reserved_of s.area → Settles id durable s sets (appended sector bytes cells) }
{
    ends_forget_older_values();
}

/// A block that is filled during a settling leaves it as it is: the frozen blocks are written, and this one waits for
/// the next settling.
pub fn a_fill_keeps_a_settling()
    ensures { (id : ℕ) (durable : List Bool) (s : SettleState) (sets : Sets) (cells : List Cell)
        (b : ℕ) → b < blocks_in sets → Settles id durable s sets cells →
        Settles id durable s (with_filled b sets) cells }
{}

/// A settling may be dropped at any step. What a cut leaves of header and bitmap stays between its sets, and each block
/// whose data is durable is filled, so that the next settling may begin.
pub fn a_settling_may_be_dropped()
    ensures kept { (id : ℕ) (durable : List Bool) (s : SettleState) (sets : Sets)
        (cells : List Cell) → Settles id durable s sets cells →
        KeepsBits s.area id sets.stored durable cells }
    ensures filled { (id : ℕ) (durable : List Bool) (s : SettleState) (sets : Sets)
        (cells : List Cell) → Settles id durable s sets cells → IsWithin durable sets.filled }
{}

/// Bits are written only once the first flush was done, so that the data of each frozen block is durable.
pub fn bits_are_written_behind_durable_data()
    ensures { (id : ℕ) (durable : List Bool) (s : SettleState) (sets : Sets) (cells : List Cell)
        (sector count : ℕ) → Settles id durable s sets cells →
        next_in_settling s ≡ Some (Write sector count) → durable ≡ sets.frozen }
{}

/// A cut in a settling leaves the header, each stored block stored, and no other block stored than those whose data is
/// durable.
pub fn a_cut_in_a_settling_stores_durable_blocks()
    ensures header { (id : ℕ) (durable : List Bool) (s : SettleState) (sets : Sets)
        (cells : List Cell) (outcome : List (List ℕ)) → Settles id durable s sets cells →
        IsOutcome cells outcome → HasHeader s.area id outcome }
    ensures stored { (id : ℕ) (durable : List Bool) (s : SettleState) (sets : Sets)
        (cells : List Cell) (outcome : List (List ℕ)) → Settles id durable s sets cells →
        IsOutcome cells outcome → IsWithin sets.stored (stored_blocks s.area id outcome) }
    ensures durable { (id : ℕ) (durable : List Bool) (s : SettleState) (sets : Sets)
        (cells : List Cell) (outcome : List (List ℕ)) → Settles id durable s sets cells →
        IsOutcome cells outcome → IsWithin (stored_blocks s.area id outcome) durable }
{}

/// Where whatever a cut leaves of header and bitmap has its bits between two sets, the stored blocks of what one left
/// are between them; and they are exactly one set where the two are one, as behind a settling that succeeded.
pub fn a_cut_stores_between_the_sets()
    ensures least { (area : Area) (id : ℕ) (least most : List Bool) (cells : List Cell)
        (outcome : List (List ℕ)) → KeepsBits area id least most cells → IsOutcome cells outcome →
        IsWithin least (stored_blocks area id outcome) }
    ensures most { (area : Area) (id : ℕ) (least most : List Bool) (cells : List Cell)
        (outcome : List (List ℕ)) → KeepsBits area id least most cells → IsOutcome cells outcome →
        IsWithin (stored_blocks area id outcome) most }
    ensures exact { (area : Area) (id : ℕ) (set : List Bool) (cells : List Cell)
        (outcome : List (List ℕ)) → KeepsBits area id set set cells → IsOutcome cells outcome →
        stored_blocks area id outcome ≡ set }
{}

/// What a cut leaves of header and bitmap stays between its sets where older values of sectors are forgotten, as where
/// a drive's cells hold the newest values of others alone, and where a sector below the reserved ones is written.
pub fn kept_bits_stand()
    ensures forgotten { (area : Area) (id : ℕ) (least most : List Bool) (old new : List Cell) →
        KeepsBits area id least most old → ForgetsOld old new → KeepsBits area id least most new }
    ensures ends { (area : Area) (id : ℕ) (least most : List Bool) (old new : List Cell) →
        KeepsBits area id least most old → AreEndsOf new old → KeepsBits area id least most new }
    ensures elsewhere { (area : Area) (id : ℕ) (least most : List Bool) (sector : ℕ)
        (bytes : List ℕ) (cells : List Cell) → KeepsBits area id least most cells →
        sector < reserved_of area → KeepsBits area id least most (appended sector bytes cells) }
{
    ends_forget_older_values();
}

/// A flush forgets the older values of every sector, and leaves the newest one alone.
pub fn a_flush_leaves_the_newest_values()
    ensures forgotten { (cells : List Cell) → ForgetsOld cells (all_flushed cells) }
    ensures newest { (cells : List Cell) (s : ℕ) →
        Each (λ value. value ≡ value_at s cells) s (all_flushed cells) }
{}
