//! Moving one sector between the drive and the guest's memory.

ghost use Rattle.std.specs.Prelude.{◌≡◌, ◌+◌, ◌<◌, ◌≤◌, ◌^◌, [], ℕ, false, map, length};
ghost use Rattle.bm_dma.specs.Memory.{AreElsewhere, byte_at, scattered};
ghost use Rattle.bm_dma.specs.Move.{places_next, outcome, moved_as, walk_over, bus_after, bus_next, memory_after, sector_after};

use crate::memory::GuestMemory;
use crate::search::{Found, Places, find_places};
use arrayvec::ArrayVec;
use ata_taskfile::Bus;
use ata_taskfile::registers::SECTOR_BYTES;

/// What became of moving one sector (own).
#[derive(Clone, Copy, Debug, PartialEq, Eq)]
pub enum Moved {
    /// All bytes of the sector have their places.
    Whole,
    /// The table ends after so many of the sector's places.
    Short(u32),
    /// A bad descriptor is met before the places are complete.
    Outside,
    /// No walk is running.
    Waiting,
}

/// Moves a sector of the drive into memory, by the places that the table names for the walk's next sector
/// (Bus Master IDE 1.0, descriptor table).
///
/// All places are found before the first byte moves, and the bytes move in the order of the places, so a sector may
/// overwrite the table that names its places. Where the table is too short the sector's first bytes move, and after
/// `Outside` and `Waiting` memory is as it was (own).
pub fn move_in(bus: &mut Bus, memory: &mut GuestMemory, sector: &[u8; SECTOR_BYTES]) -> Moved
    ensures result { result ≡ outcome bus.old memory.old }
    ensures bus { bus.new ≡ bus_next bus.old memory.old }
    ensures memory { memory.new
        ≡ memory_after result (places_next bus.old memory.old) sector.now memory.old }
    ensures unnamed { (place : ℕ) → AreElsewhere place (places_next bus.old memory.old) →
        byte_at memory.new place ≡ byte_at memory.old place }
    ensures size { length memory.new ≡ length memory.old }
{
    let mut places = ArrayVec::new();
    let moved = next_places(bus, memory, &mut places);
    match moved {
        Moved::Whole | Moved::Short(_) => scatter(memory, &places, sector),
        Moved::Outside | Moved::Waiting => {}
    }
    moved
}

/// Moves a sector out of memory, from the places that the table names for the walk's next sector (Bus Master IDE 1.0,
/// descriptor table).
///
/// Only after `Whole` is `sector` what memory has there; after any other answer it is as it was (own).
pub fn move_out(bus: &mut Bus, memory: &GuestMemory, sector: &mut [u8; SECTOR_BYTES]) -> Moved
    ensures result { result ≡ outcome bus.old memory.now }
    ensures bus { bus.new ≡ bus_next bus.old memory.now }
    ensures sector { sector.new
        ≡ sector_after result (places_next bus.old memory.now) memory.now sector.old }
{
    let mut places = ArrayVec::new();
    let moved = next_places(bus, memory, &mut places);
    if moved == Moved::Whole {
        gather(memory, &places, sector);
    }
    moved
}

// Finds the places of the walk's next sector, and takes the walk on, or ends it.
fn next_places(bus: &mut Bus, memory: &GuestMemory, places: &mut Places) -> Moved
    requires { places.old.items ≡ [] }
    ensures places { places.new.items ≡ places_next bus.old memory.now }
    ensures result { result ≡ outcome bus.old memory.now }
    ensures bus { bus.new ≡ bus_next bus.old memory.now }
{
    let Some(done) = bus.walk else {
        return Moved::Waiting;
    };
    let found = find_places(memory.as_slice(), bus.pointer, done, places);
    take_on(bus, done, found);
    moved_as(found, places.len() as u32)
}

// The bus master after such a search for the sector behind `done` others.
fn take_on(bus: &mut Bus, done: u32, found: Found)
    requires { found ≡ Found.All false → done + 1 < 2 ^ 32 }
    ensures after { bus.new ≡ bus_after found done bus.old }
{
    match found {
        Found::All(false) => bus.walk = Some(done + 1),
        Found::All(true) | Found::TableEnded => end(bus),
        Found::Bad => {
            bus.error = true;
            end(bus);
        }
    }
}

fn end(bus: &mut Bus)
    ensures over { bus.new ≡ walk_over bus.old }
{
    bus.active = false;
    bus.end_walk();
}

// The answer, where so many places were found.
fn moved_as(found: Found, places: u32) -> Moved
    ensures answer { result ≡ moved_as found places }
{
    match found {
        Found::All(_) => Moved::Whole,
        Found::TableEnded => Moved::Short(places),
        Found::Bad => Moved::Outside,
    }
}

fn scatter(memory: &mut GuestMemory, places: &[u32], sector: &[u8; SECTOR_BYTES])
    requires { length places.now ≤ SECTOR_BYTES }
    ensures moved { memory.new ≡ scattered places.now sector.now memory.old }
{
    for (i, place) in places.iter().enumerate() {
        memory.set(*place, sector[i]);
    }
}

fn gather(memory: &GuestMemory, places: &[u32], sector: &mut [u8; SECTOR_BYTES])
    requires { length places.now ≡ SECTOR_BYTES }
    ensures bytes { sector.new ≡ map (byte_at memory.now) places.now }
{
    for (i, byte) in sector.iter_mut().enumerate() {
        *byte = memory.get(places[i]);
    }
}
