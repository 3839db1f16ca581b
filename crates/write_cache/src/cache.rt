//! The cache and its calls.

ghost use Rattle.std.specs.Prelude.{◌≡◌, ◌≤◌, [], length, drop, slice_get, option_copied, option_map, IfOk};
ghost use Rattle.write_cache.specs.Cache.{entry_of, holding, newest_of, put_out, taken_at, written};

use crate::ring::take_out;
use crate::{Entry, SECTOR_BYTES};
use circular_buffer::HeapCircularBuffer;
use std::alloc::{AllocError, Global};
use std::marker::Model;

/// The values that were written and aren't durable yet: a list of entries in order of writing, the oldest first.
///
/// A contract sees the list and the room for it (`Cached` of `specs/Cache.antt`).
#[derive(Drop)]
pub struct Cache {
    ring: HeapCircularBuffer<Entry>,
}

impl Model for Cache {
    ghost use Rattle.std.specs.Prelude.{◌<◌, ◌≤◌, length};
    ghost use Rattle.write_cache.specs.Cache.{Cached};

    ghost Value = { Cached };

    ghost view = { λ c. record { entries = c.ring.items; room = c.ring.capacity } };

    ghost invariant = { λ c. (0 < c.ring.capacity) × (length c.ring.items ≤ c.ring.capacity) };
}

impl Cache {
    ghost use Rattle.std.specs.Prelude.{◌<◌};

    /// An empty cache with room for so many entries. It fails only for want of memory; no later call takes any.
    pub fn new(alloc: Global, entries: u32) -> Result<Cache, AllocError>
        requires { 0 < entries }
        ensures { IfOk result (λ c. c ≡ record { entries = []; room = entries }) }
    {
        Ok(Cache {
            ring: HeapCircularBuffer::with_capacity(alloc, entries as usize)?,
        })
    }

    /// Writes these bytes to a sector. The entry that it puts out, the oldest, is handed back exactly where the cache
    /// was full.
    pub fn put(&mut self, sector: u64, bytes: &[u8; SECTOR_BYTES]) -> Option<Entry>
        ensures after { self.new ≡ written (entry_of sector bytes.now) self.old }
        ensures oldest { result ≡ put_out self.old }
    {
        self.ring.push_back(Entry {
            sector,
            bytes: *bytes,
        })
    }

    /// The bytes last written to a sector; None exactly where no entry is of it.
    pub fn newest(&self, sector: u64) -> Option<&[u8; SECTOR_BYTES]>
        ensures { option_copied result
            ≡ option_map (λ entry. entry.bytes) (newest_of sector self.now.entries) }
    {
        Some(&newest_entry(&self.ring, sector)?.bytes)
    }

    /// Takes entry `k`, the oldest being entry 0, out of the list, and lets go the older ones of its sector. None
    /// exactly where there is no entry `k`, and then all stay.
    pub fn take(&mut self, k: u32) -> Option<Entry>
        ensures after { self.new ≡ holding (taken_at k self.old.entries) self.old }
        ensures entry { result ≡ slice_get self.old.entries k }
    {
        take_out(&mut self.ring, k as usize)
    }

    /// Takes the oldest entry; None exactly where there is none.
    pub fn first(&mut self) -> Option<Entry>
        ensures after { self.new ≡ holding (drop 1 self.old.entries) self.old }
        ensures entry { result ≡ slice_get self.old.entries 0 }
    {
        self.ring.pop_front()
    }

    /// Lets all entries go.
    pub fn clear(&mut self)
        ensures { self.new ≡ holding [] self.old }
    {
        self.ring.clear();
    }
}

/// A cache never holds more entries than there is room for.
pub fn no_more_entries_than_room(cache: &Cache)
    ensures { length cache.now.entries ≤ cache.now.room }
{
    let _ring = &cache.ring;
}

fn newest_entry(ring: &HeapCircularBuffer<Entry>, sector: u64) -> Option<&Entry>
    ensures { option_copied result ≡ newest_of sector ring.now.items }
{
    ring.iter().rev().find(|entry| entry.sector == sector)
}
