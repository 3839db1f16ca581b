//! A store of four sectors, of which one call fails by its number.

ghost use Rattle.std.specs.Prelude.{◌≡◌};
ghost use Rattle.drive_store.specs.FailingStore.{sectors_behind, faults_so_far};

use ata_taskfile::registers::SECTOR_BYTES;
use drive_store::{FailingStore, MemoryStore, Store, StoreFault};
use std::alloc::{AllocError, Global};

// That there are four is a fact of its type, so a sector below 4 is one of the drive's.
#[derive(Drop)]
pub(crate) struct FourSectors {
    inner: FailingStore,
    ghost four: { (sectors_behind inner).count ≡ 4 },
}

impl FourSectors {
    // 10h, 11h, 12h and 13h in each byte.
    pub(crate) fn new(alloc: Global, failing: u32) -> Result<FourSectors, AllocError> {
        let mut memory = MemoryStore::new(alloc, 4)?;
        let _none_fails = [
            memory.set(0, &[0x10; SECTOR_BYTES]),
            memory.set(1, &[0x11; SECTOR_BYTES]),
            memory.set(2, &[0x12; SECTOR_BYTES]),
            memory.set(3, &[0x13; SECTOR_BYTES]),
        ];
        Ok(FourSectors {
            inner: FailingStore::new(memory, failing),
        })
    }
}

impl Store for FourSectors {
    ghost Rest = { Unit {0} };

    ghost sectors = { λ s. record { count = 4; told = (sectors_behind s.inner).told } };

    ghost faults = { λ s. faults_so_far s.inner };

    ghost rest = { λ _. tt };

    ghost whole = { λ s. record { number = s.four; values = s.inner.memory.values } };

    fn sectors(&self) -> u64 {
        4
    }

    fn get(&mut self, sector: u64, into: &mut [u8; SECTOR_BYTES]) -> Result<(), StoreFault> {
        self.inner.get(sector, into)
    }

    fn set(&mut self, sector: u64, from: &[u8; SECTOR_BYTES]) -> Result<(), StoreFault> {
        self.inner.set(sector, from)
    }
}
