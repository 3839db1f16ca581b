//! The first piece of a range: as much of it as lies in one block.

ghost use Rattle.std.specs.Prelude.{◌≡◌, ◌<◌, ◌≤◌, ◌+◌, ◌-◌, IfSome};
ghost use Rattle.fill_bitmap.specs.Area.{IsSuitable, blocks_of};
ghost use Rattle.fill_bitmap.specs.Bitmap.{blocks_in};
ghost use Rattle.io_interpret.specs.Blocks.{empty_block};
ghost use Rattle.io_interpret.specs.Piece.{piece_end};

use crate::blocks::empty_block;
use fill_bitmap::{Area, Bitmap};

/// Sectors of one block (own).
#[derive(Clone, Copy, Debug, PartialEq, Eq)]
pub struct Piece {
    /// The first sector.
    pub first: u64,
    /// How many sectors.
    pub count: u32,
    /// Their block, where that is empty.
    pub empty: Option<u32>,
}

/// The first piece of the sectors from `first` up to, and without, `end`: up to the next multiple of a block's sectors,
/// or to `end` (own).
pub fn first_piece(first: u64, end: u64, area: &Area, bitmap: &Bitmap) -> Piece
    requires range { first < end }
    requires suitable { IsSuitable area.now }
    requires blocks { blocks_in bitmap.now ≡ blocks_of area.now }
    ensures first { result.first ≡ first }
    ensures count { result.count ≡ piece_end area.now first end - first }
    ensures some { 0 < result.count }
    ensures most { result.count ≤ area.now.block }
    ensures within { first + result.count ≤ end }
    ensures empty { result.empty ≡ empty_block area.now bitmap.now.filled first }
    ensures below { IfSome result.empty (λ b. b < blocks_of area.now) }
{
    let block = u64::from(area.block);
    let to_next_block = block - first % block;
    Piece {
        first,
        count: to_next_block.min(end - first) as u32,
        empty: empty_block(first, area, bitmap),
    }
}
