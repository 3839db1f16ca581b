//! The search of a table for the places of one sector.

ghost use Rattle.std.specs.Prelude.{◌≡◌, ◌+◌, ◌-◌, ◌≤◌, ◌<◌, ◌^◌, ◌++◌, [], false, length};
ghost use Rattle.std.specs.List.{range_with_len};
ghost use Rattle.bm_dma.specs.Descriptor.{with_piece};
ghost use Rattle.bm_dma.specs.Run.{run_of, sector_places, found_in};

use crate::descriptor::{DESCRIPTOR_BYTES, Descriptor};
use crate::memory::MOST_BYTES;
use arrayvec::ArrayVec;
use ata_taskfile::registers::SECTOR_BYTES;

/// The addresses of the bytes of one sector, in order, as far as they were found.
pub(crate) type Places = ArrayVec<u32, SECTOR_BYTES>;

/// How a search for the places of a sector ended.
#[derive(Clone, Copy)]
pub(crate) enum Found {
    /// All were found; it says whether the last of them is the table's last.
    All(bool),
    /// The table ended before.
    TableEnded,
    /// A bad descriptor was met before.
    Bad,
}

// Finds the places of the sector behind `moved` others, and puts them into `places`. It looks at each descriptor from
// the table's top to the last one that the sector needs, and at no other.
pub(crate) fn find_places(memory: &[u8], pointer: u32, moved: u32, places: &mut Places) -> Found
    requires few { length memory.now ≤ MOST_BYTES }
    requires empty { places.old.items ≡ [] }
    ensures places { places.new.items ≡ sector_places moved (run_of pointer memory.now) }
    ensures found { result ≡ found_in moved (run_of pointer memory.now) }
    ensures one_more { result ≡ Found.All false → moved + 1 < 2 ^ 32 }
{
    let size = memory.len();
    let top = pointer as usize;
    let mut skipped = moved as usize * SECTOR_BYTES;
    for i in 0..size.saturating_sub(top) / DESCRIPTOR_BYTES {
        let descriptor = Descriptor::read(memory, top + DESCRIPTOR_BYTES * i);
        if !descriptor.is_good(size) {
            return Found::Bad;
        }
        let end = skipped + (SECTOR_BYTES - places.len());
        add_piece(&descriptor, skipped, end, places);
        if places.is_full() {
            return Found::All(descriptor.ends_table_at(end));
        }
        if descriptor.is_last {
            return Found::TableEnded;
        }
        skipped = skipped.saturating_sub(descriptor.count as usize);
    }
    // The next descriptor isn't all in memory, and so is a bad one.
    Found::Bad
}

// Adds the places of a descriptor behind its first `start`, up to the one behind its first `end`.
fn add_piece(descriptor: &Descriptor, start: usize, end: usize, places: &mut Places)
    requires within { descriptor.now.base + descriptor.now.count ≤ MOST_BYTES }
    requires few { length places.old.items ≤ SECTOR_BYTES }
    requires room { end ≡ start + (SECTOR_BYTES - length places.old.items) }
    ensures piece { places.new.items ≡ with_piece descriptor.now start places.old.items }
{
    let count = descriptor.count as usize;
    let first = descriptor.base + start.min(count) as u32;
    let behind = descriptor.base + end.min(count) as u32;
    push_range(first, behind, places);
}

fn push_range(first: u32, behind: u32, places: &mut Places)
    requires order { first ≤ behind }
    requires room { length places.old.items + (behind - first) ≤ SECTOR_BYTES }
    ensures range { places.new.items ≡ places.old.items ++ range_with_len first (behind - first) }
{
    for place in first..behind {
        places.push(place);
    }
}
