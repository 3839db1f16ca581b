//! The bitmap: which blocks of the image are stored, frozen and filled.

ghost use Rattle.std.specs.Prelude.{◌≡◌, ℕ, ◌<◌, ◌≤◌, ◌↔◌, false, IfOk, IfSome, IsNone, IsTrue};
ghost use Rattle.fill_bitmap.specs.Bits.{has_bit, sector_of, sector_with_bit};
ghost use Rattle.fill_bitmap.specs.BlockSet.{IsWhole, has, with_sector, next_outside};
ghost use Rattle.fill_bitmap.specs.Bitmap.{IsNested, blocks_in, sectors_in, empty_sets, with_filled, loaded, frozen_now, frozen_stored};

use crate::block_set::BlockSet;
use crate::lengths::SECTOR_BYTES;
use std::alloc::{AllocError, Global};
use std::marker::Model;

/// Which blocks of an image are on the disk, as three sets of blocks (own).
///
/// A filled block is one whose sectors the guest reads from the disk; any other is empty, and is read from the image.
/// A frozen block was filled when the last settling began. A stored block has its bit in the bitmap on the disk,
/// written behind a flush of its sectors, so it is filled after a power cut too. The stored blocks are always within
/// the frozen ones, and these within the filled ones.
#[derive(Drop)]
pub struct Bitmap {
    stored: BlockSet,
    frozen: BlockSet,
    filled: BlockSet,
}

impl Model for Bitmap {
    ghost use Rattle.fill_bitmap.specs.Bitmap.{Sets, these_sets, IsNested};

    ghost Value = { Sets };

    ghost view = { λ a. these_sets a.stored a.frozen a.filled };

    ghost invariant = { λ a. IsNested (these_sets a.stored a.frozen a.filled) };
}

impl Bitmap {
    /// The bitmap of an image of so many blocks, none of them in any set. It fails only for want of memory.
    pub fn new(alloc: Global, blocks: u32) -> Result<Bitmap, AllocError>
        ensures empty { IfOk result (λ bitmap. bitmap ≡ empty_sets blocks) }
        ensures nested { IfOk result IsNested }
    {
        Ok(Bitmap {
            stored: BlockSet::none(alloc, blocks)?,
            frozen: BlockSet::none(alloc, blocks)?,
            filled: BlockSet::none(alloc, blocks)?,
        })
    }

    /// Takes every block out of all three sets, as at power-on.
    pub fn clear(&mut self)
        ensures empty { self.new ≡ empty_sets (blocks_in self.old) }
        ensures count { blocks_in self.new ≡ blocks_in self.old }
        ensures nested { IsNested self.new }
    {
        self.stored.clear();
        self.frozen.clear();
        self.filled.clear();
    }

    /// Adds the blocks whose bits are set in `sector`, the bitmap's sector `k`, to all three sets.
    ///
    /// Bits past the last block are ignored.
    #[tactic(auto, using(crate::proofs::Nested::blocks_kept))]
    pub fn load(&mut self, k: u32, sector: &[u8; SECTOR_BYTES])
        requires { k < sectors_in self.old }
        ensures loaded { self.new ≡ loaded k sector.now self.old }
        ensures count { blocks_in self.new ≡ blocks_in self.old }
        ensures nested { IsNested self.new }
    {
        add_to_each(
            &mut self.stored,
            &mut self.frozen,
            &mut self.filled,
            k,
            sector,
        );
    }

    /// Block `b` is filled from now on.
    pub fn fill(&mut self, b: u32)
        requires { b < blocks_in self.old }
        ensures filled { self.new ≡ with_filled b self.old }
        ensures count { blocks_in self.new ≡ blocks_in self.old }
        ensures nested { IsNested self.new }
    {
        self.filled.insert(b);
    }

    /// Whether block `b` is filled.
    pub fn is_filled(&self, b: u32) -> bool
        requires { b < blocks_in self.now }
        ensures answer { result ≡ has self.now.filled b }
    {
        self.filled.has(b)
    }

    /// Whether block `b` is stored.
    pub fn is_stored(&self, b: u32) -> bool
        requires { b < blocks_in self.now }
        ensures answer { result ≡ has self.now.stored b }
    {
        self.stored.has(b)
    }

    /// The first empty block from `b` on, else the first from 0 on. None exactly where every block is filled.
    #[tactic(auto, using(crate::proofs::Outside::next_none, crate::proofs::Outside::next_below, crate::proofs::Outside::next_empty))]
    pub fn first_empty_from(&self, b: u32) -> Option<u32>
        requires { b ≤ blocks_in self.now }
        ensures first { result ≡ next_outside b self.now.filled }
        ensures none { IsNone result ↔ IsWhole self.now.filled }
        ensures below { IfSome result (λ found. found < blocks_in self.now) }
        ensures empty { IfSome result (λ found. has self.now.filled found ≡ false) }
    {
        self.filled.next_outside(b)
    }

    /// Whether every block is filled.
    pub fn all_filled(&self) -> bool
        ensures answer { IsTrue result ↔ IsWhole self.now.filled }
        ensures nested { IsNested self.now }
    {
        self.filled.is_whole()
    }

    /// Whether every block is stored.
    pub fn all_stored(&self) -> bool
        ensures answer { IsTrue result ↔ IsWhole self.now.stored }
        ensures nested { IsNested self.now }
    {
        self.stored.is_whole()
    }

    /// Whether the filled blocks are the stored ones.
    pub fn filled_is_stored(&self) -> bool
        ensures answer { IsTrue result ↔ (self.now.filled ≡ self.now.stored) }
        ensures nested { IsNested self.now }
    {
        self.filled.held() == self.stored.held()
    }

    /// The frozen blocks are from now on those that are filled now.
    pub fn freeze(&mut self)
        ensures frozen { self.new ≡ frozen_now self.old }
        ensures count { blocks_in self.new ≡ blocks_in self.old }
        ensures nested { IsNested self.new }
    {
        self.frozen.copy_from(&self.filled);
    }

    /// Fills `into` with the bytes of the bitmap's sector `k`, in which the frozen blocks have their bits set.
    ///
    /// Bits past the last block are 0.
    #[tactic(auto, using(crate::proofs::Bytes::bit_written))]
    pub fn frozen_sector(&self, k: u32, into: &mut [u8; SECTOR_BYTES])
        requires { k < sectors_in self.now }
        ensures bytes { into.new ≡ sector_of k self.now.frozen }
        ensures bits { (b : ℕ) → sector_with_bit b ≡ k →
            has_bit into.new b ≡ has self.now.frozen b }
    {
        self.frozen.put_sector(k, into);
    }

    /// The stored blocks are from now on the frozen ones: the bitmap on the disk says them, and was flushed.
    pub fn store_frozen(&mut self)
        ensures stored { self.new ≡ frozen_stored self.old }
        ensures count { blocks_in self.new ≡ blocks_in self.old }
        ensures nested { IsNested self.new }
    {
        self.stored.copy_from(&self.frozen);
    }
}

// Adds the blocks of the bitmap's sector `k` to three sets. Between one and the next they aren't a bitmap's.
fn add_to_each(
    stored: &mut BlockSet,
    frozen: &mut BlockSet,
    filled: &mut BlockSet,
    k: u32,
    sector: &[u8; SECTOR_BYTES],
)
    ensures stored { stored.new ≡ with_sector k sector.now stored.old }
    ensures frozen { frozen.new ≡ with_sector k sector.now frozen.old }
    ensures filled { filled.new ≡ with_sector k sector.now filled.old }
{
    stored.add_sector(k, sector);
    frozen.add_sector(k, sector);
    filled.add_sector(k, sector);
}
