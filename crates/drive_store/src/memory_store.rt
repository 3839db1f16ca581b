//! The store that keeps its sectors in memory.

ghost use Rattle.std.specs.Prelude.{All};
ghost use Rattle.ata_taskfile.specs.Sectors.{IsSector};

use crate::{Store, StoreFault};
use ata_taskfile::registers::SECTOR_BYTES;
use std::alloc::{AllocError, Global};

/// Sectors in memory, all told. No call of it fails, and none but `new` takes memory.
#[derive(Drop)]
pub struct MemoryStore {
    sectors: Vec<[u8; SECTOR_BYTES]>,
    ghost values: { All IsSector sectors.items },
}

impl MemoryStore {
    ghost use Rattle.std.specs.Prelude.{◌≡◌, IfOk};
    ghost use Rattle.drive_store.specs.MemoryStore.{sectors_of, zeroed};

    /// So many sectors, each of them zeros. It fails only for want of memory.
    pub fn new(alloc: Global, sectors: u64) -> Result<MemoryStore, AllocError>
        ensures { IfOk result (λ s. sectors_of s ≡ zeroed sectors) }
    {
        let mut zeros = Vec::with_capacity(alloc, sectors as usize)?;
        for _ in 0..sectors {
            zeros.push([0; SECTOR_BYTES])?;
        }
        Ok(MemoryStore { sectors: zeros })
    }
}

impl Store for MemoryStore {
    ghost use Rattle.std.specs.Prelude.{◌≡◌, ◌<◌, Some, IfSome, IsOk, OnOk, slice_get, slice_set, refl, ⊤};
    ghost use Rattle.drive_store.specs.Store.{Becomes, Counted};
    ghost use Rattle.drive_store.specs.MemoryStore.{faults_of, sectors_of};

    ghost Rest = { Unit {0} };

    ghost sectors = { sectors_of };

    ghost faults = { faults_of };

    ghost rest = { λ _. tt };

    ghost whole = { λ s. record { number = refl; values = s.values } };

    fn sectors(&self) -> u64 {
        self.sectors.len() as u64
    }

    fn get(&mut self, sector: u64, into: &mut [u8; SECTOR_BYTES]) -> Result<(), StoreFault>
        requires { sector < (sectors_of self.old).count }
        ensures cause { Counted (faults_of self.old) (faults_of self.new) result }
        ensures unmoved { sectors_of self.new ≡ sectors_of self.old }
        ensures read { OnOk result (IfSome (sectors_of self.old).told
            (λ list. slice_get list sector ≡ Some into.new)) }
        ensures ok { IsOk result }
    {
        *into = self.sectors[sector as usize];
        Ok(())
    }

    fn set(&mut self, sector: u64, from: &[u8; SECTOR_BYTES]) -> Result<(), StoreFault>
        requires { sector < (sectors_of self.old).count }
        ensures cause { Counted (faults_of self.old) (faults_of self.new) result }
        ensures count { (sectors_of self.new).count ≡ (sectors_of self.old).count }
        ensures written { OnOk result (Becomes (λ old new. new ≡ slice_set old sector from.now)
            (sectors_of self.old).told (sectors_of self.new).told) }
        ensures unknown { Becomes (λ _ _. ⊤)
            (sectors_of self.old).told (sectors_of self.new).told }
        ensures ok { IsOk result }
    {
        self.sectors[sector as usize] = *from;
        Ok(())
    }
}
