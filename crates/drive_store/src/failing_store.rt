//! The store in memory of which one call fails.

use crate::{MemoryStore, Store, StoreFault};
use ata_taskfile::registers::SECTOR_BYTES;

/// A store in memory of which one call fails, by its number: for tests of what stands above a store.
///
/// Its calls `get` and `set` are counted from 0, and exactly the one whose number is planned fails. That call changes
/// no sector. No call takes memory.
#[derive(Drop)]
pub struct FailingStore {
    memory: MemoryStore,
    // The calls so far, and how many of them failed. Each count stays at its last value.
    calls: u64,
    faults: u64,
    // The number of the call that fails.
    failing: u32,
}

impl FailingStore {
    ghost use Rattle.std.specs.Prelude.{◌≡◌, ◌↔◌, IsErr};
    ghost use Rattle.drive_store.specs.Store.{Counted};
    ghost use Rattle.drive_store.specs.MemoryStore.{sectors_of};
    ghost use Rattle.drive_store.specs.FailingStore.{sectors_behind, faults_so_far, calls_so_far, failing_call, IsPlanned, IsCalled};

    /// A store of the sectors of `memory`, whose call number `failing` fails.
    pub fn new(memory: MemoryStore, failing: u32) -> FailingStore
        ensures sectors { sectors_behind result ≡ sectors_of memory }
        ensures calls { calls_so_far result ≡ 0 }
        ensures faults { faults_so_far result ≡ 0 }
        ensures failing { failing_call result ≡ failing }
    {
        FailingStore {
            memory,
            calls: 0,
            faults: 0,
            failing,
        }
    }

    /// How many calls failed.
    pub fn faults(&self) -> u64
        ensures { result ≡ faults_so_far self.now }
    {
        self.faults
    }

    // Counts a call, which fails where its number is planned.
    fn count_call(&mut self) -> Result<(), StoreFault>
        ensures cause { Counted self.old.faults self.new.faults result }
        ensures memory { self.new.memory ≡ self.old.memory }
        ensures fails { IsErr result ↔ IsPlanned self.old }
        ensures called { IsCalled self.old self.new }
    {
        let number = self.calls;
        self.calls = number.saturating_add(1);
        if number == u64::from(self.failing) {
            self.faults = self.faults.saturating_add(1);
            return Err(StoreFault);
        }
        Ok(())
    }
}

impl Store for FailingStore {
    ghost use Rattle.std.specs.Prelude.{◌≡◌, ◌<◌, ◌↔◌, Some, IfSome, IsErr, OnOk, OnErr, slice_get, slice_set, refl, ⊤};
    ghost use Rattle.drive_store.specs.Store.{Becomes, Counted};
    ghost use Rattle.drive_store.specs.FailingStore.{sectors_behind, faults_so_far, IsPlanned, IsCalled};

    ghost Rest = { Unit {0} };

    ghost sectors = { sectors_behind };

    ghost faults = { faults_so_far };

    ghost rest = { λ _. tt };

    ghost whole = { λ s. record { number = refl; values = s.memory.values } };

    fn sectors(&self) -> u64 {
        self.memory.sectors()
    }

    fn get(&mut self, sector: u64, into: &mut [u8; SECTOR_BYTES]) -> Result<(), StoreFault>
        requires { sector < (sectors_behind self.old).count }
        ensures cause { Counted (faults_so_far self.old) (faults_so_far self.new) result }
        ensures unmoved { sectors_behind self.new ≡ sectors_behind self.old }
        ensures read { OnOk result (IfSome (sectors_behind self.old).told
            (λ list. slice_get list sector ≡ Some into.new)) }
        ensures fails { IsErr result ↔ IsPlanned self.old }
        ensures called { IsCalled self.old self.new }
    {
        self.count_call()?;
        self.memory.get(sector, into)
    }

    fn set(&mut self, sector: u64, from: &[u8; SECTOR_BYTES]) -> Result<(), StoreFault>
        requires { sector < (sectors_behind self.old).count }
        ensures cause { Counted (faults_so_far self.old) (faults_so_far self.new) result }
        ensures count { (sectors_behind self.new).count ≡ (sectors_behind self.old).count }
        ensures written { OnOk result (Becomes (λ old new. new ≡ slice_set old sector from.now)
            (sectors_behind self.old).told (sectors_behind self.new).told) }
        ensures unknown { Becomes (λ _ _. ⊤)
            (sectors_behind self.old).told (sectors_behind self.new).told }
        ensures fails { IsErr result ↔ IsPlanned self.old }
        ensures unchanged { OnErr result (sectors_behind self.new ≡ sectors_behind self.old) }
        ensures called { IsCalled self.old self.new }
    {
        self.count_call()?;
        self.memory.set(sector, from)
    }
}
