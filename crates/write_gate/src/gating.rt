//! The gate of a write.

ghost use Rattle.std.specs.Prelude.{◌≡◌, ◌↔◌, ℕ, ◌<◌, ◌≤◌, true, false, IfSome, IsNone};
ghost use Rattle.fill_bitmap.specs.Area.{IsSuitable, blocks_of};
ghost use Rattle.fill_bitmap.specs.Bitmap.{blocks_in};
ghost use Rattle.fill_bitmap.specs.BlockSet.{has};
ghost use Rattle.io_interpret.specs.Class.{touches};
ghost use Rattle.write_gate.specs.declared.gating.Gated.TheVariants.{Pass};
ghost use Rattle.write_gate.specs.Gate.{IfFill, IsLowestEmpty, gate_of};

use ata_taskfile::Request;
use fill_bitmap::{Area, Bitmap};

/// What stands before a write (own).
#[derive(Clone, Copy, Debug, PartialEq, Eq)]
pub enum Gated {
    /// This block has to be filled first.
    Fill(u32),
    /// Nothing: the range touches no empty block.
    Pass,
}

/// The lowest empty block that the range of `request` touches, and `Pass` exactly where it touches none (own).
///
/// It looks at each block from the range's first up to the one that it names, and at no sector. Where it passes it may
/// have looked at every block of the image, each at most twice.
pub fn gate(request: &Request, area: &Area, bitmap: &Bitmap) -> Gated
    requires suitable { IsSuitable area.now }
    requires blocks { blocks_in bitmap.now ≡ blocks_of area.now }
    ensures gated { result ≡ gate_of request.now area.now bitmap.now }
    ensures pass { (result ≡ Pass) ↔ (touches request.now area.now bitmap.now ≡ false) }
    ensures lowest { IfFill result
        (IsLowestEmpty area.now bitmap.now.filled request.now.first request.now.count) }
{
    // A sum that no number holds is past every image too.
    let end = request
        .first
        .saturating_add(u64::from(request.count))
        .min(area.image);
    if request.first >= end {
        return Gated::Pass;
    }
    match lowest_empty(area.block_at(request.first), area.block_at(end - 1), bitmap) {
        Some(b) => Gated::Fill(b),
        None => Gated::Pass,
    }
}

// The lowest empty block from `low` up to, and with, `high`.
fn lowest_empty(low: u32, high: u32, bitmap: &Bitmap) -> Option<u32>
    requires low { low ≤ high }
    requires high { high < blocks_in bitmap.now }
    ensures within { IfSome result (λ b. (low ≤ b) × (b ≤ high)) }
    ensures empty { IfSome result (λ b. has bitmap.now.filled b ≡ false) }
    ensures lowest { IfSome result (λ b. (k : ℕ) → low ≤ k → k < b
        → has bitmap.now.filled k ≡ true) }
    ensures none { IsNone result → (k : ℕ) → low ≤ k → k ≤ high
        → has bitmap.now.filled k ≡ true }
{
    // The search starts anew at block 0 where no block from `low` on is empty. So it may find one below, or one
    // above `high`: neither is wanted.
    let found = bitmap.first_empty_from(low)?;
    if low <= found && found <= high {
        Some(found)
    } else {
        None
    }
}
