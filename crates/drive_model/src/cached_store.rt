//! The sectors of a drive: a store behind a write cache.

ghost use Rattle.std.specs.Prelude.{◌≡◌, ◌<◌, ◌^◌};
ghost use Rattle.drive_model.specs.Entries.{AreSectors, AreWithin};
ghost use Rattle.drive_model.specs.declared.cached_store.TheConstants.{MOST_ENTRIES};

use ata_taskfile::Stepped;
use ata_taskfile::registers::SECTOR_BYTES;
use drive_store::{Store, StoreFault};
use std::alloc::{AllocError, Global};
use write_cache::Cache;

/// How many written values may wait in the cache (own).
pub const MOST_ENTRIES: u32 = 64;

/// A store with the entries that were written and aren't durable yet, `MOST_ENTRIES` at most.
#[derive(Drop)]
pub(crate) struct CachedStore<S: Store> {
    pub(crate) cache: Cache,
    pub(crate) store: S,
    ghost room: { cache.room ≡ MOST_ENTRIES },
    ghost few: { (S.sectors store).count < 2 ^ 64 },
    ghost within: { AreWithin (S.sectors store).count cache.entries },
    ghost whole: { AreSectors cache.entries },
}

impl<S: Store + Drop> CachedStore<S> {
    ghost use Rattle.std.specs.Prelude.{IfOk};
    ghost use Rattle.plain_drive.specs.Physical.{fresh};
    ghost use Rattle.drive_model.specs.CachedStore.{kept_of, list_told};

    /// A store whose sectors are all durable. It fails only for want of memory; no later call takes any.
    pub(crate) fn new(alloc: Global, store: S) -> Result<CachedStore<S>, AllocError>
        ensures fresh { IfOk result (λ c.
            kept_of c ≡ fresh MOST_ENTRIES (list_told (S.sectors store).told)) }
        ensures store { IfOk result (λ c. c.store ≡ store) }
    {
        // A number of sectors that a call answers is below 2^64, and the struct keeps that.
        let _few = store.sectors();
        Ok(CachedStore {
            cache: Cache::new(alloc, MOST_ENTRIES)?,
            store,
        })
    }
}

impl<S: Store> CachedStore<S> {
    ghost use Rattle.std.specs.Prelude.{◌≡◌, ◌<◌, drop, Ok, IfOk, OnOk, is_some, slice_get, true};
    ghost use Rattle.ata_taskfile.specs.declared.Stepped.TheVariants.{Nothing};
    ghost use Rattle.plain_drive.specs.Step.{stepped_if};
    ghost use Rattle.plain_drive.specs.Change.{writes, flushes};
    ghost use Rattle.plain_drive.specs.Physical.{kept_after, kept_destaged};
    ghost use Rattle.drive_model.specs.CachedStore.{CallsStore, IfStoreTold, all_stored, kept_of, value_kept};

    /// Fills `into` with the current value of a sector: its newest entry, else what the store has.
    pub(crate) fn get(
        &mut self,
        sector: u64,
        into: &mut [u8; SECTOR_BYTES],
    ) -> Result<(), StoreFault>
        requires { sector < (S.sectors self.old.store).count }
        ensures called { CallsStore self.old self.new result }
        ensures cache { self.new.cache ≡ self.old.cache }
        ensures unmoved { S.sectors self.new.store ≡ S.sectors self.old.store }
        ensures value { OnOk result (is_some (S.sectors self.old.store).told ≡ true →
            into.new ≡ value_kept sector (kept_of self.old)) }
    {
        if let Some(bytes) = self.cache.newest(sector) {
            *into = *bytes;
            return Ok(());
        }
        self.store.get(sector, into)
    }

    /// Writes these bytes to a sector. Where the cache is full its oldest entry becomes durable before.
    pub(crate) fn put(&mut self, sector: u64, bytes: &[u8; SECTOR_BYTES]) -> Result<(), StoreFault>
        requires { sector < (S.sectors self.old.store).count }
        ensures called { CallsStore self.old self.new result }
        ensures after { OnOk result (IfStoreTold self.old self.new
            (kept_of self.new ≡ kept_after (writes sector bytes.now) (kept_of self.old))) }
    {
        match self.cache.put(sector, bytes) {
            Some(oldest) => self.store.set(oldest.sector, &oldest.bytes),
            None => Ok(()),
        }
    }

    /// Makes every entry durable, in order of writing.
    pub(crate) fn flush(&mut self) -> Result<(), StoreFault>
        ensures called { CallsStore self.old self.new result }
        ensures after { OnOk result (IfStoreTold self.old self.new
            (kept_of self.new ≡ kept_after flushes (kept_of self.old))) }
    {
        while self.store_oldest()? {}
        Ok(())
    }

    // Makes the oldest entry durable; false where there is none.
    fn store_oldest(&mut self) -> Result<bool, StoreFault>
        ensures called { CallsStore self.old self.new result }
        ensures after { OnOk result (IfStoreTold self.old self.new
            (all_stored (kept_of self.new) ≡ all_stored (kept_of self.old))) }
        ensures entries { OnOk result (self.new.cache.entries ≡ drop 1 self.old.cache.entries) }
        ensures answer { OnOk result (result ≡ Ok (is_some (slice_get self.old.cache.entries 0))) }
    {
        let Some(oldest) = self.cache.first() else {
            return Ok(false);
        };
        self.store.set(oldest.sector, &oldest.bytes)?;
        Ok(true)
    }

    /// Makes entry `k` durable, the oldest being entry 0, and lets go the older ones of its sector. `Nothing` comes
    /// exactly where there is no such entry.
    pub(crate) fn destage(&mut self, k: u32) -> Result<Stepped, StoreFault>
        ensures called { CallsStore self.old self.new result }
        ensures after { OnOk result (IfStoreTold self.old self.new
            (kept_of self.new ≡ kept_destaged k (kept_of self.old))) }
        ensures answer { OnOk result
            (result ≡ Ok (stepped_if (is_some (slice_get self.old.cache.entries k)))) }
        ensures cache { result ≡ Ok Nothing → self.new.cache ≡ self.old.cache }
        ensures store { result ≡ Ok Nothing → self.new.store ≡ self.old.store }
    {
        let Some(entry) = self.cache.take(k) else {
            return Ok(Stepped::Nothing);
        };
        self.store.set(entry.sector, &entry.bytes)?;
        Ok(Stepped::Changed)
    }
}
