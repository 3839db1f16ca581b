//! A set of blocks of the image, and its bits in the bitmap's sectors.

ghost use Rattle.std.specs.Prelude.{◌≡◌, ◌<◌, ◌≤◌, ◌*◌, ◌^◌, ◌↔◌, true, not, length, position, slice_set, IfOk, IfSome, IsTrue};
ghost use Rattle.fill_bitmap.specs.Bits.{has_bit, byte_from, sector_of};
ghost use Rattle.fill_bitmap.specs.BlockSet.{IsWhole, has, held_in, empty_set, with_sector, first_outside, next_outside};

use crate::area::BLOCKS_OF_SECTOR;
use crate::lengths::SECTOR_BYTES;
use std::alloc::{AllocError, Global};
use std::marker::Model;

// How many blocks have their bits in one sector, to count by.
const SECTOR_BITS: usize = BLOCKS_OF_SECTOR as usize;

// A truth value for every block of an image: whether the set has it. The blocks that it has are counted.
#[derive(Drop)]
pub(crate) struct BlockSet {
    blocks: Vec<bool>,
    held: u32,
}

impl Model for BlockSet {
    ghost use Rattle.std.specs.Prelude.{Bool, List, ◌≡◌, ◌<◌, ◌^◌, length};
    ghost use Rattle.fill_bitmap.specs.BlockSet.{held_in};

    ghost Value = { List Bool };

    ghost view = { λ a. a.blocks.items };

    ghost invariant = { λ a. (length a.blocks.items < 2 ^ 32)
        × (a.held ≡ held_in a.blocks.items) };
}

impl BlockSet {
    // A set of none of so many blocks. It fails only for want of memory.
    #[tactic(auto, using(crate::proofs::Counts::held_none))]
    pub(crate) fn none(alloc: Global, blocks: u32) -> Result<BlockSet, AllocError>
        ensures empty { IfOk result (λ set. set ≡ empty_set blocks) }
    {
        Ok(BlockSet {
            blocks: vec![in alloc; false; blocks as usize]?,
            held: 0,
        })
    }

    // Takes every block out.
    #[tactic(auto, using(crate::proofs::Counts::held_none))]
    pub(crate) fn clear(&mut self)
        ensures empty { self.new ≡ empty_set (length self.old) }
    {
        self.blocks.fill(false);
        self.held = 0;
    }

    // Takes the blocks of another set in place of its own.
    pub(crate) fn copy_from(&mut self, other: &BlockSet)
        requires { length self.old ≡ length other.now }
        ensures copied { self.new ≡ other.now }
    {
        self.blocks.copy_from_slice(&other.blocks);
        self.held = other.held;
    }

    pub(crate) fn insert(&mut self, b: u32)
        requires { b < length self.old }
        ensures inserted { self.new ≡ slice_set self.old b true }
    {
        self.held = self.held_with(b);
        self.blocks[b as usize] = true;
    }

    // How many blocks the set has once `b` is among them: one more exactly where it lacks this one.
    #[tactic(auto, using(crate::proofs::Counts::held_room, crate::proofs::Counts::held_again, crate::proofs::Counts::held_more))]
    fn held_with(&self, b: u32) -> u32
        requires { b < length self.now }
        ensures count { result ≡ held_in (slice_set self.now b true) }
    {
        if self.has(b) {
            self.held
        } else {
            self.held + 1
        }
    }

    // How many blocks the set has.
    pub(crate) fn held(&self) -> u32
        ensures count { result ≡ held_in self.now }
    {
        self.held
    }

    pub(crate) fn has(&self, b: u32) -> bool
        requires { b < length self.now }
        ensures answer { result ≡ has self.now b }
    {
        self.blocks[b as usize]
    }

    #[tactic(auto, using(crate::proofs::Counts::whole_by_count))]
    pub(crate) fn is_whole(&self) -> bool
        ensures answer { IsTrue result ↔ IsWhole self.now }
    {
        self.held as usize == self.blocks.len()
    }

    // The first block from `b` on that the set lacks, else the first from 0 on.
    pub(crate) fn next_outside(&self, b: u32) -> Option<u32>
        requires { b ≤ length self.now }
        ensures next { result ≡ next_outside b self.now }
    {
        match first_outside(&self.blocks, b as usize) {
            Some(found) => Some(found),
            None => first_outside(&self.blocks, 0),
        }
    }

    // Adds the blocks whose bits are set in the bitmap's sector `k`.
    pub(crate) fn add_sector(&mut self, k: u32, sector: &[u8; SECTOR_BYTES])
        ensures added { self.new ≡ with_sector k sector.now self.old }
    {
        let first = k as usize * SECTOR_BITS;
        let end = self.blocks.len().min(first + SECTOR_BITS);
        for b in first..end {
            if is_bit_set(sector, b) {
                self.insert(b as u32);
            }
        }
    }

    // Fills `into` with the bytes of the bitmap's sector `k`. Bits past the last block are 0.
    pub(crate) fn put_sector(&self, k: u32, into: &mut [u8; SECTOR_BYTES])
        ensures bytes { into.new ≡ sector_of k self.now }
    {
        let first = k as usize * SECTOR_BITS;
        for (i, byte) in into.iter_mut().enumerate() {
            *byte = byte_at(&self.blocks, first + 8 * i);
        }
    }
}

// Whether the sector of the bitmap that holds block `b` has its bit set.
fn is_bit_set(sector: &[u8; SECTOR_BYTES], b: usize) -> bool
    ensures answer { result ≡ has_bit sector.now b }
{
    sector[b % SECTOR_BITS / 8] >> (b % 8) & 1 == 1
}

// The byte of the eight blocks from `b` on, the lowest bit first. Bits past the last block are 0.
fn byte_at(blocks: &[bool], b: usize) -> u8
    requires { b < 2 ^ 60 }
    ensures byte { result ≡ byte_from b blocks.now }
{
    let mut byte = 0;
    for i in (0..8usize).rev() {
        byte = 2 * byte + u8::from(holds(blocks, b + i));
    }
    byte
}

// Whether block `b` is in the set; one past the last isn't.
fn holds(blocks: &[bool], b: usize) -> bool
    ensures answer { result ≡ has blocks.now b }
{
    blocks.get(b).copied().unwrap_or(false)
}

// The first block from `b` on that isn't in the set.
fn first_outside(blocks: &[bool], b: usize) -> Option<u32>
    requires room { b ≤ length blocks.now }
    requires few { length blocks.now < 2 ^ 32 }
    ensures first { result ≡ first_outside b blocks.now }
{
    let at = first_missing(&blocks[b..])?;
    Some((b + at) as u32)
}

fn first_missing(blocks: &[bool]) -> Option<usize>
    ensures place { result ≡ position not blocks.now }
    ensures within { IfSome result (λ at. at < length blocks.now) }
{
    blocks.iter().position(|held| !*held)
}
