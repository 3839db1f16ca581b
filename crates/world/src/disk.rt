//! The disk's sectors: read before the run, and written to Out after it.

ghost use Rattle.std.specs.Prelude.{◌≡◌, ◌+◌, ◌*◌, ◌≤◌, ◌<◌, ◌^◌, ◌++◌, ℕ, List, All, [], take, length, IfOk, OnOk, slice_index_or};
ghost use Rattle.std.specs.List.{concat};
ghost use Rattle.bm_host.specs.Outside.{Becomes, Counted, IfTold, Reads, SameBytes, Writes};
ghost use Rattle.bm_host.specs.declared.Role.TheVariants.{Disk, Out};
ghost use Rattle.plain_drive.specs.Plain.{sectors_in};
ghost use Rattle.world.specs.Faults.{FailsAtStart};
ghost use Rattle.world.specs.Machine.{list_of, physical};
ghost use Rattle.streaming.specs.World.{drive_over};
ghost use Rattle.block_writes.specs.Kept.{KeepsFilesBut, KeepsLooked};
ghost use Rattle.block_writes.specs.Waiting.{Waits};

use crate::fault::{HostFault, StartFault};
use crate::machine::Machine;
use arrayvec::ArrayVec;
use ata_taskfile::registers::SECTOR_BYTES;
use block_writes::{make_room, write_waiting};
use bm_dma::{GuestMemory, MOST_BYTES};
use bm_host::{Failed, Host, Role};
use drive_model::Drive;
use drive_store::{MemoryStore, Store};
use std::alloc::Global;

/// The bytes of the drive that are written in one call.
const PIECE: usize = 65_536;

/// Makes a drive of the first so many sectors of the disk, with a guest's memory of so many zeros.
pub(crate) fn load<H: Host>(
    alloc: Global,
    host: &mut H,
    sectors: u64,
    memory: u32,
) -> Result<Machine, StartFault>
    requires few { SECTOR_BYTES * sectors < 2 ^ 64 }
    requires memory { memory ≤ MOST_BYTES }
    requires told { IfTold ((H.outside host.old).told Disk)
        (λ bytes. SECTOR_BYTES * sectors ≤ length bytes) }
    ensures fault { FailsAtStart result (H.outside host.old) (H.outside host.new) }
    ensures looked { KeepsLooked (H.outside host.old) (H.outside host.new) }
    ensures bytes { SameBytes (H.outside host.old) (H.outside host.new) }
    ensures began { IfOk result (λ machine.
        physical machine ≡ drive_over memory (physical machine).kept.durable) }
    ensures count { IfOk result (λ machine.
        length (physical machine).kept.durable ≡ sectors) }
    ensures sectors { IfOk result (λ machine.
        All (λ sector. length sector ≡ SECTOR_BYTES) (physical machine).kept.durable) }
    ensures disk { IfOk result (λ machine. IfTold ((H.outside host.old).told Disk)
        (λ bytes. (physical machine).kept.durable ≡ sectors_in sectors bytes)) }
{
    let Ok(mut store) = MemoryStore::new(alloc, sectors) else {
        return Err(StartFault::NoMemory);
    };
    let Ok(()) = read_disk(host, &mut store) else {
        return Err(StartFault::Host(HostFault::Read(Role::Disk)));
    };
    let Ok(memory) = GuestMemory::new(alloc, memory) else {
        return Err(StartFault::NoMemory);
    };
    let Ok(drive) = Drive::new(alloc, store) else {
        return Err(StartFault::NoMemory);
    };
    Ok(Machine { drive, memory })
}

// Reads all sectors of a store from the disk.
fn read_disk<H: Host>(host: &mut H, store: &mut MemoryStore) -> Result<(), Failed>
    requires few { SECTOR_BYTES * length (list_of store.old) < 2 ^ 64 }
    requires told { IfTold ((H.outside host.old).told Disk)
        (λ bytes. SECTOR_BYTES * length (list_of store.old) ≤ length bytes) }
    ensures cause { Counted Reads Disk (H.outside host.old) (H.outside host.new) result }
    ensures looked { KeepsLooked (H.outside host.old) (H.outside host.new) }
    ensures bytes { SameBytes (H.outside host.old) (H.outside host.new) }
    ensures count { length (list_of store.new) ≡ length (list_of store.old) }
    ensures disk { OnOk result (IfTold ((H.outside host.old).told Disk)
        (λ disk. list_of store.new ≡ sectors_in (length (list_of store.old)) disk)) }
{
    for sector in 0..store.sectors() {
        read_sector(host, store, sector)?;
    }
    Ok(())
}

// Reads a sector from the disk.
fn read_sector<H: Host>(host: &mut H, store: &mut MemoryStore, sector: u64) -> Result<(), Failed>
    requires within { sector < length (list_of store.old) }
    requires few { SECTOR_BYTES * length (list_of store.old) < 2 ^ 64 }
    requires told { IfTold ((H.outside host.old).told Disk)
        (λ bytes. SECTOR_BYTES * length (list_of store.old) ≤ length bytes) }
    ensures cause { Counted Reads Disk (H.outside host.old) (H.outside host.new) result }
    ensures looked { KeepsLooked (H.outside host.old) (H.outside host.new) }
    ensures bytes { SameBytes (H.outside host.old) (H.outside host.new) }
    ensures count { length (list_of store.new) ≡ length (list_of store.old) }
    ensures disk { OnOk result (IfTold ((H.outside host.old).told Disk)
        (λ disk. take sector (list_of store.old) ≡ sectors_in sector disk
        → take (sector + 1) (list_of store.new) ≡ sectors_in (sector + 1) disk)) }
{
    let mut bytes = [0; SECTOR_BYTES];
    host.read_at(Role::Disk, sector * SECTOR_BYTES as u64, &mut bytes)?;
    // A store in memory has no fault.
    store.set(sector, &bytes).unwrap();
    Ok(())
}

/// The bytes of the drive that wait to be written.
type Piece = ArrayVec<u8, PIECE>;

/// Appends to Out what a power cut at this moment leaves of the drive: the durable value of each sector, in order.
pub(crate) fn write_out<H: Host>(host: &mut H, machine: &mut Machine) -> Result<(), Failed>
    ensures cause { Counted Writes Out (H.outside host.old) (H.outside host.new) result }
    ensures looked { KeepsLooked (H.outside host.old) (H.outside host.new) }
    ensures files { KeepsFilesBut Out (H.outside host.old) (H.outside host.new) }
    ensures out { OnOk result (Becomes (λ before after.
        after ≡ before ++ concat (physical machine.old).kept.durable)
        ((H.outside host.old).told Out) ((H.outside host.new).told Out)) }
{
    let mut piece = ArrayVec::new();
    for sector in 0..machine.drive.sectors() {
        write_sector(host, machine, sector, &mut piece)?;
    }
    write_waiting(host, Role::Out, &mut piece)
}

// Appends a sector's durable value.
fn write_sector<H: Host>(
    host: &mut H,
    machine: &mut Machine,
    sector: u64,
    piece: &mut Piece,
) -> Result<(), Failed>
    requires { sector < length (physical machine.old).kept.durable }
    ensures cause { Counted Writes Out (H.outside host.old) (H.outside host.new) result }
    ensures looked { KeepsLooked (H.outside host.old) (H.outside host.new) }
    ensures files { KeepsFilesBut Out (H.outside host.old) (H.outside host.new) }
    ensures machine { physical machine.new ≡ physical machine.old }
    ensures waits { OnOk result ((text : List ℕ)
        → Waits Out piece.old.items (H.outside host.old) text
        → Waits Out piece.new.items (H.outside host.new)
        (text ++ slice_index_or (physical machine.old).kept.durable sector [])) }
{
    let mut value = [0; SECTOR_BYTES];
    // A store in memory has no fault.
    machine.drive.durable(sector, &mut value).unwrap();
    make_room(host, Role::Out, piece, SECTOR_BYTES)?;
    piece.try_extend_from_slice(&value).unwrap();
    Ok(())
}
