//! The drive: what it is made of, and what can be asked of it.

ghost use Rattle.std.specs.Prelude.{◌≡◌, length};
ghost use Rattle.ata_taskfile.specs.Lawful.{IsLawfulState};
ghost use Rattle.drive_model.specs.Block.{block_of};

use crate::cached_store::{CachedStore, MOST_ENTRIES};
use ata_taskfile::registers::SECTOR_BYTES;
use ata_taskfile::{Bus, Phase, Stepped, TaskFile};
use drive_store::{Store, StoreFault};
use std::alloc::{AllocError, Global};

/// A drive over a store.
#[derive(Drop)]
pub struct Drive<S: Store> {
    pub(crate) file: TaskFile,
    pub(crate) bus: Bus,
    pub(crate) block: [u16; 256],
    // How many words of the block there are.
    pub(crate) words: u16,
    pub(crate) sectors: CachedStore<S>,
    ghost counted: { length (block_of block words) ≡ words },
    ghost lawful: { IsLawfulState file bus words (S.sectors sectors.store).count },
}

impl<S: Store + Drop> Drive<S> {
    ghost use Rattle.std.specs.Prelude.{ℕ, List, IfOk};
    ghost use Rattle.plain_drive.specs.Physical.{fresh, physical_at_power_on};
    ghost use Rattle.drive_model.specs.CachedStore.{list_told};
    ghost use Rattle.drive_model.specs.Drive.{physical_of, store_of};

    /// A drive at power-on over a store, whose sectors are all durable. It fails only for want of memory; no later
    /// call takes any.
    pub fn new(alloc: Global, store: S) -> Result<Drive<S>, AllocError>
        ensures power_on { let list = list_told (S.sectors store).told in
            IfOk result (λ d. (memory : List ℕ) → physical_of d memory
            ≡ physical_at_power_on (fresh MOST_ENTRIES list) (S.sectors store).count memory) }
        ensures store { IfOk result (λ d. store_of d ≡ store) }
    {
        Ok(Drive {
            file: TaskFile::power_on(),
            bus: Bus::power_on(),
            block: [0; 256],
            words: 0,
            sectors: CachedStore::new(alloc, store)?,
        })
    }
}

impl<S: Store> Drive<S> {
    ghost use Rattle.std.specs.Prelude.{◌<◌, ◌≤◌, ◌+◌, ◌++◌, ◌∷◌, ℕ, List, [], IfSome, IfOk, OnOk, Ok, Some, is_some, slice_get, slice_index};
    ghost use Rattle.ata_taskfile.specs.Device.{with_file, with_phase};
    ghost use Rattle.drive_store.specs.Store.{Counted};
    ghost use Rattle.plain_drive.specs.Plain.{with_registers, with_block};
    ghost use Rattle.plain_drive.specs.Change.{leaves};
    ghost use Rattle.plain_drive.specs.Physical.{physical_cut, physical_destaged};
    ghost use Rattle.plain_drive.specs.Step.{stepped_if};
    ghost use Rattle.drive_model.specs.Drive.{IfTold, count_of, device_of, faults_of, physical_of, rest_of, store_of, worked};

    /// A power cut: the durable values stay, and the drive is at power-on.
    pub fn cut(&mut self)
        ensures cut { (old new : List ℕ) →
            physical_of self.new new ≡ physical_cut new (physical_of self.old old) }
        ensures store { store_of self.new ≡ store_of self.old }
    {
        self.sectors.cache.clear();
        self.file = TaskFile::power_on();
        self.bus = Bus::power_on();
        self.words = 0;
    }

    /// How many sectors the drive has.
    pub fn sectors(&self) -> u64
        ensures { result ≡ count_of self.now }
    {
        self.sectors.store.sectors()
    }

    /// The registers.
    pub fn file(&self) -> &TaskFile
        ensures { result.now ≡ (device_of self.now).file }
    {
        &self.file
    }

    /// Copies the durable value of an existing sector. After `StoreFault` nothing is said of what was copied.
    pub fn durable(&mut self, sector: u64, into: &mut [u8; SECTOR_BYTES]) -> Result<(), StoreFault>
        requires { sector < count_of self.old }
        ensures cause { Counted (faults_of self.old) (faults_of self.new) result }
        ensures rest { rest_of self.new ≡ rest_of self.old }
        ensures value { OnOk result (IfSome (S.sectors (store_of self.old)).told
            (λ list. slice_get list sector ≡ Some into.new)) }
        ensures sectors { S.sectors (store_of self.new) ≡ S.sectors (store_of self.old) }
        ensures unmoved { (memory : List ℕ) →
            physical_of self.new memory ≡ physical_of self.old memory }
    {
        self.sectors.store.get(sector, into)
    }

    /// Makes entry `k` of the cache durable, the oldest being entry 0, and lets go the older ones of its sector. No
    /// guest sees it. `Nothing` comes exactly where there is no such entry.
    pub fn destage(&mut self, k: u32) -> Result<Stepped, StoreFault>
        ensures cause { Counted (faults_of self.old) (faults_of self.new) result }
        ensures rest { rest_of self.new ≡ rest_of self.old }
        ensures count { count_of self.new ≡ count_of self.old }
        ensures after { OnOk result (IfTold self.old self.new ((memory : List ℕ) →
            physical_of self.new memory ≡ physical_destaged k (physical_of self.old memory))) }
        ensures answer { IfOk result (λ stepped. stepped
            ≡ stepped_if (is_some (slice_get (physical_of self.old []).kept.cache.entries k))) }
        ensures unmoved { result ≡ Ok Stepped.Nothing → (memory : List ℕ) →
            physical_of self.new memory ≡ physical_of self.old memory }
        ensures store { result ≡ Ok Stepped.Nothing → store_of self.new ≡ store_of self.old }
    {
        self.sectors.destage(k)
    }

    // Takes a word into the block, behind the words that are there.
    #[tactic(auto, using(std::proofs::lemmas::List::take_more_set, crate::proofs::Blocks::length_pushed))]
    pub(crate) fn push_word(&mut self, w: u16, phase: Phase)
        requires room { self.old.words < 256 }
        requires lawful { IsLawfulState (record self.old.file { phase = phase }) self.old.bus
            (self.old.words + 1) (count_of self.old) }
        ensures after { let d = device_of self.old in
            device_of self.new ≡ with_phase phase (record d { block = d.block ++ w ∷ [] }) }
        ensures sectors { self.new.sectors ≡ self.old.sectors }
    {
        self.block[self.words as usize] = w;
        self.words += 1;
        self.file.phase = phase;
    }

    // Puts these registers in place. A rise of the line shows in the bus master.
    pub(crate) fn put_file(&mut self, file: TaskFile)
        requires { IsLawfulState file self.old.bus self.old.words (count_of self.old) }
        ensures device { device_of self.new ≡ with_file file (device_of self.old) }
        ensures after { (memory : List ℕ) → physical_of self.new memory
            ≡ worked leaves (with_registers file) (physical_of self.old memory) }
        ensures sectors { self.new.sectors ≡ self.old.sectors }
    {
        self.bus.note_line(self.file.line(), file.line());
        self.file = file;
    }

    // Puts these registers in place, and so many words in the block. A rise of the line shows in the bus master.
    #[tactic(auto, using(crate::proofs::Blocks::length_front))]
    pub(crate) fn put_block(&mut self, file: TaskFile, block: [u16; 256], words: u16)
        requires room { words ≤ 256 }
        requires lawful { IsLawfulState file self.old.bus words (count_of self.old) }
        ensures after { (memory : List ℕ) → physical_of self.new memory
            ≡ worked leaves (λ p. with_registers file (with_block (block_of block words) p))
            (physical_of self.old memory) }
        ensures sectors { self.new.sectors ≡ self.old.sectors }
    {
        self.bus.note_line(self.file.line(), file.line());
        self.file = file;
        self.block = block;
        self.words = words;
    }
}
