//! The machine of the runs: the drive over sectors in memory, and the guest's memory.

ghost use Rattle.std.specs.Prelude.{◌≡◌, true, length, IfOk};
ghost use Rattle.ata_taskfile.specs.Device.{after_write8};
ghost use Rattle.plain_drive.specs.Physical.{physical_destaged, physical_step};
ghost use Rattle.port_lease.specs.Free.{is_free};
ghost use Rattle.drive_model.specs.Drive.{count_of, device_of, physical_of};
ghost use Rattle.drive_store.specs.MemoryStore.{sectors_of};

use ata_taskfile::registers::{DEV, has_bit};
use ata_taskfile::{Phase, Ports, Reg, Step};
use bm_dma::GuestMemory;
use drive_model::Drive;
use drive_store::{MemoryStore, Store, StoreFault};
use std::alloc::{AllocError, Global};

/// How many sectors the drive has.
pub(crate) const SECTORS: u64 = 512;

/// The word in all places of sectors 0, 1 and 2; that of the others is 0.
pub(crate) const WORDS: [u16; 3] = [0x5678, 0x1234, 0xabcd];

// The drive over sectors in memory, and the guest's memory.
#[derive(Drop)]
pub(crate) struct Machine {
    pub(crate) drive: Drive<MemoryStore>,
    pub(crate) memory: GuestMemory,
    ghost sectors: { count_of drive ≡ 512 },
}

impl Machine {
    /// After the reset of power-on, which leaves the drive free.
    pub(crate) fn new(alloc: Global) -> Result<Machine, AllocError> {
        let mut machine = Machine {
            drive: Drive::new(alloc, store(alloc)?)?,
            memory: GuestMemory::new(alloc, 0x2000)?,
        };
        machine.step(Step::Good);
        Ok(machine)
    }

    /// A write to a register of the drive.
    pub(crate) fn write(&mut self, reg: Reg, v: u8)
        ensures { device_of self.new.drive ≡ after_write8 reg v (device_of self.old.drive) }
    {
        self.drive.write8(reg, v);
    }

    /// A step of the drive.
    pub(crate) fn step(&mut self, step: Step)
        ensures { physical_of self.new.drive self.new.memory
            ≡ physical_step step (physical_of self.old.drive self.old.memory) }
    {
        match self.drive.step(step, &mut self.memory) {
            Ok(_) => {}
            Err(StoreFault) => {}
        }
    }

    /// The oldest entry of the cache becomes durable.
    pub(crate) fn destage(&mut self)
        ensures { physical_of self.new.drive self.new.memory
            ≡ physical_destaged 0 (physical_of self.old.drive self.old.memory) }
    {
        match self.drive.destage(0) {
            Ok(_) => {}
            Err(StoreFault) => {}
        }
    }

    /// Whether the monitor may have the drive.
    pub(crate) fn is_free(&self) -> bool
        ensures { result ≡ true → is_free (device_of self.now.drive).file ≡ true }
    {
        let file = *self.drive.file();
        if let Phase::Idle = file.phase {
            !file.pending && !has_bit(DEV, file.device)
        } else {
            false
        }
    }

    /// The word in all places of a sector's durable value; FFFFh where they aren't the same.
    pub(crate) fn durable(&mut self, sector: u64) -> u16 {
        let mut value = [0xff; 512];
        if sector < SECTORS {
            let _none_fails = self.drive.durable(sector, &mut value);
        }
        let word = u16::from_le_bytes([value[0], value[1]]);
        if value == filled(word) { word } else { 0xffff }
    }
}

fn store(alloc: Global) -> Result<MemoryStore, AllocError>
    ensures { IfOk result (λ s. (sectors_of s).count ≡ 512) }
{
    let mut store = MemoryStore::new(alloc, SECTORS)?;
    let [first, second, third] = WORDS;
    let _none_fails = [
        store.set(0, &filled(first)),
        store.set(1, &filled(second)),
        store.set(2, &filled(third)),
    ];
    Ok(store)
}

/// A sector with this word in all places, the low byte first.
fn filled(word: u16) -> [u8; 512] {
    let [low, high] = word.to_le_bytes();
    let mut bytes = [low; 512];
    for place in 0..256usize {
        bytes[2 * place + 1] = high;
    }
    bytes
}

/// Two sectors, one after the other, with one word each in all places, the low byte first.
pub(crate) fn two_sectors(alloc: Global, words: [u16; 2]) -> Result<Vec<u8>, AllocError>
    ensures { IfOk result (λ bytes. length bytes.items ≡ 1024) }
{
    let [first, second] = words;
    let mut bytes = Vec::with_capacity(alloc, 1024)?;
    bytes.extend_from_slice(&filled(first))?;
    bytes.extend_from_slice(&filled(second))?;
    Ok(bytes)
}
