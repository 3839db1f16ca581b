//! The pool and its calls.

ghost use Rattle.std.specs.Prelude.{◌≡◌, ◌+◌, ◌↔◌, length, IfOk, IsNone, option_map};
ghost use Rattle.std.specs.Borrow.{sem};
ghost use Rattle.mon_pool.specs.Region.{IsOf, HasWholeBuffers, all_free, leased_bytes, first_free, free_of, given, lease_of, leased, out_of, buffers_in};
ghost use Rattle.mon_pool.specs.Lending.{LendsBytes};

use crate::Lease;
use std::alloc::{AllocError, Global};
use std::marker::Model;

/// One block of memory, taken once, in buffers of one length that are leased one by one.
///
/// A contract sees where the block lies, which buffers are free, and the block (`Region` of `specs/Region.antt`).
#[derive(Drop)]
pub struct Pool {
    room: usize,
    free: Vec<bool>,
    block: Vec<u8>,
}

impl Model for Pool {
    ghost use Rattle.std.specs.Prelude.{◌≡◌, ◌<◌, ◌*◌, ◌^◌, length};
    ghost use Rattle.mon_pool.specs.Region.{Region};

    ghost Value = { Region };

    ghost view = { λ p. record {
      base = p.block.ptr;
      room = p.room;
      free = p.free.items;
      block = p.block.items;
    } };

    ghost invariant = { λ p. (length p.free.items < 2 ^ 32)
        × (length p.block.items ≡ length p.free.items * p.room) };
}

impl Pool {
    /// A pool of so many buffers of so many bytes each, all free and zero. It fails only for want of memory; no later
    /// call takes any.
    pub fn new(alloc: Global, buffers: u32, bytes: u32) -> Result<Pool, AllocError>
        ensures { IfOk result (λ pool. pool ≡ all_free pool.base buffers bytes) }
    {
        Ok(Pool {
            room: bytes as usize,
            free: vec![in alloc; true; buffers as usize]?,
            block: vec![in alloc; 0; buffers as usize * bytes as usize]?,
        })
    }

    /// Leases the lowest free buffer; None exactly where no buffer is free. The bytes are what they were.
    pub fn take(&mut self) -> Option<Lease>
        ensures lease { result ≡ option_map (lease_of self.old) (first_free self.old) }
        ensures after { self.new ≡ leased (first_free self.old) self.old }
        ensures none { IsNone result ↔ (free_of self.old ≡ 0) }
    {
        let buffer = self.first_free()?;
        self.free[buffer] = false;
        Some(Lease {
            pool: self.block.as_ptr(),
            buffer,
        })
    }

    /// The lease's bytes.
    #[tactic(auto, using(crate::proofs::Leases::buffer_within))]
    pub fn bytes(&self, lease: &Lease) -> &[u8]
        requires { IsOf lease.now self.now }
        ensures value { result.now ≡ leased_bytes lease.now self.now }
        ensures long { length result.now ≡ self.now.room }
    {
        let at = lease.buffer * self.room;
        &self.block[at..at + self.room]
    }

    /// The lease's bytes, to be written.
    pub fn bytes_mut(&mut self, lease: &mut Lease) -> &mut [u8]
        requires { IsOf lease.old self.old }
        ensures* writes_back { sem 𝓛 (LendsBytes self.entry lease.old result) }
        ensures value { result.now ≡ leased_bytes lease.old self.old }
        ensures long { length result.now ≡ self.old.room }
        ensures lease { lease.new ≡ lease.old }
    {
        let at = lease.buffer * self.room;
        self.block.slice_mut(at..at + self.room)
    }

    /// Takes a lease back: its buffer is free.
    pub fn give(&mut self, lease: Lease)
        requires { IsOf lease self.old }
        ensures { self.new ≡ given lease self.old }
    {
        let Lease { buffer, pool: _ } = lease;
        self.free[buffer] = true;
    }

    /// How many buffers are free.
    #[tactic(auto, using(crate::proofs::Leases::free_and_out))]
    pub fn free(&self) -> u32
        ensures free { result ≡ free_of self.now }
        ensures add_up { result + out_of self.now ≡ buffers_in self.now }
    {
        self.free.iter().filter(|free| **free).count() as u32
    }

    // The lowest free buffer.
    fn first_free(&self) -> Option<usize>
        ensures { result ≡ first_free self.now }
    {
        self.free.iter().position(|free| *free)
    }

    // How many bytes a buffer has.
    pub(crate) fn room(&self) -> usize
        ensures room { result ≡ self.now.room }
        ensures whole { HasWholeBuffers self.now }
    {
        self.room
    }
}
