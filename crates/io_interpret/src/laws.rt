//! Laws that show what the definitions mean. Each holds of every value, and no code runs.

ghost use Rattle.std.specs.Prelude.{◌≡◌, ◌<◌, ◌≤◌, ◌+◌, ◌↔◌, ℕ, Bool, true, false, List};
ghost use Rattle.ata_taskfile.specs.declared.Kind.TheVariants.{Read, Write};
ghost use Rattle.ata_taskfile.specs.declared.Request.{Request};
ghost use Rattle.ata_taskfile.specs.Order.{has_range};
ghost use Rattle.fill_bitmap.specs.declared.area.Area.{Area};
ghost use Rattle.fill_bitmap.specs.Area.{IsSuitable, reserved_of};
ghost use Rattle.fill_bitmap.specs.Bitmap.{Sets};
ghost use Rattle.fill_bitmap.specs.Disk.{is_empty_at};
ghost use Rattle.io_interpret.specs.Blocks.{empty_block, touches_empty};
ghost use Rattle.io_interpret.specs.Class.{class_of_request, touches};
ghost use Rattle.io_interpret.specs.Piece.{piece_end};
ghost use Rattle.io_interpret.specs.declared.class.Class.TheVariants.{Local, Reserved};

/// A range touches no empty block exactly where none of its sectors lies in one.
pub fn untouched_ranges_have_no_empty_sector()
    ensures { (area : Area) (filled : List Bool) (first count : ℕ) →
        (touches_empty area filled first count ≡ false)
        ↔ ((s : ℕ) → first ≤ s → s < first + count → is_empty_at area filled s ≡ false) }
{}

/// The sectors of a piece lie in the block of its first sector, and in an empty one exactly where that does.
pub fn a_piece_lies_in_one_block()
    ensures { (area : Area) (filled : List Bool) (first end s : ℕ) →
        IsSuitable area → first ≤ s → s < piece_end area first end →
        empty_block area filled s ≡ empty_block area filled first }
{}

/// A command is Reserved exactly where it has a range that ends above the first reserved sector, whatever is filled.
pub fn reserved_commands_end_above_the_first_reserved_sector()
    ensures { (request : Request) (area : Area) (sets : Sets) →
        (class_of_request request area sets ≡ Reserved)
        ↔ ((has_range request.kind ≡ true) × (reserved_of area < request.first + request.count)) }
{}

/// A read or write that is Local touches no empty block.
pub fn local_reads_and_writes_touch_no_empty_block()
    ensures read { (request : Request) (area : Area) (sets : Sets) → request.kind ≡ Read →
        class_of_request request area sets ≡ Local → touches request area sets ≡ false }
    ensures write { (request : Request) (area : Area) (sets : Sets) → request.kind ≡ Write →
        class_of_request request area sets ≡ Local → touches request area sets ≡ false }
{}
