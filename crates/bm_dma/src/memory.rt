//! The memory of the guest.

ghost use Rattle.std.specs.Prelude.{◌≡◌, ◌≤◌, IfOk, length, replicate, slice_index_or, slice_set};

use std::alloc::{AllocError, Global};
use std::marker::Model;

/// The most bytes that a guest's memory has: 16 MiB (own).
pub const MOST_BYTES: u32 = 16_777_216;

/// The bytes of the guest's memory, from address 0 on. A contract sees them as a list.
#[derive(Drop)]
pub struct GuestMemory {
    bytes: Vec<u8>,
}

impl Model for GuestMemory {
    ghost use Rattle.std.specs.Prelude.{ℕ, List, ◌≤◌, length};
    ghost use Rattle.bm_dma.specs.declared.memory.TheConstants.{MOST_BYTES};

    ghost Value = { List ℕ };

    ghost view = { λ memory. memory.bytes.items };

    ghost invariant = { λ memory. length memory.bytes.items ≤ MOST_BYTES };
}

impl GuestMemory {
    /// A memory of so many bytes, each of them 0. It fails only for want of memory; no later call takes any.
    pub fn new(alloc: Global, bytes: u32) -> Result<GuestMemory, AllocError>
        requires { bytes ≤ MOST_BYTES }
        ensures zeros { IfOk result (λ memory. memory ≡ replicate bytes 0) }
    {
        Ok(GuestMemory {
            bytes: vec![in alloc; 0; bytes as usize]?,
        })
    }

    /// The byte at an address. Outside of the memory it is FFh (own).
    pub fn get(&self, address: u32) -> u8
        ensures byte { result ≡ slice_index_or self.now address 255 }
    {
        self.bytes.get(address as usize).copied().unwrap_or(0xff)
    }

    /// Sets the byte at an address. Outside of the memory it does nothing (own).
    pub fn set(&mut self, address: u32, v: u8)
        ensures byte { self.new ≡ slice_set self.old address v }
        ensures size { length self.new ≡ length self.old }
    {
        if let Some(byte) = self.bytes.get_mut(address as usize) {
            *byte = v;
        }
    }

    /// Makes every byte 0, as at power-on.
    pub fn clear(&mut self)
        ensures zeros { self.new ≡ replicate (length self.old) 0 }
        ensures size { length self.new ≡ length self.old }
    {
        self.bytes.fill(0);
    }

    pub(crate) fn as_slice(&self) -> &[u8]
        ensures bytes { result.now ≡ self.now }
        ensures few { length result.now ≤ MOST_BYTES }
    {
        &self.bytes
    }
}
