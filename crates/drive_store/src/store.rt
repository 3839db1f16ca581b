//! The trait `Store`.

ghost use Rattle.std.specs.Prelude.{◌≡◌, ◌<◌, ℕ, Some, IfSome, OnOk, slice_get, slice_set, ⊤};
ghost use Rattle.drive_store.specs.Store.{Sectors, IsWhole, Becomes, Counted};

use crate::StoreFault;
use ata_taskfile::registers::SECTOR_BYTES;

/// The durable sectors of a drive (own).
///
/// What they hold is known where the store tells it. A call that answers `StoreFault` has raised the count of faults;
/// any other leaves it. No call changes the rest, which is whatever else a store means, nor how many sectors there are.
pub trait Store {
    /// What the store means besides its sectors and its count of faults.
    ghost Rest: { Type 0 };

    /// How many sectors there are, and their bytes where these are told.
    ghost sectors: { Self → Sectors };

    /// How often a call failed. It never falls, and stays at its last value.
    ghost faults: { Self → ℕ };

    /// What no call changes.
    ghost rest: { Self → Rest };

    /// The number of sectors.
    fn sectors(&self) -> u64
        ensures { result ≡ (sectors self.now).count };

    /// Fills `into` with the bytes of a sector. No sector changes, whatever the answer.
    fn get(&mut self, sector: u64, into: &mut [u8; SECTOR_BYTES]) -> Result<(), StoreFault>
        requires { sector < (sectors self.old).count }
        ensures cause { Counted (faults self.old) (faults self.new) result }
        ensures unmoved { sectors self.new ≡ sectors self.old }
        ensures rest { rest self.new ≡ rest self.old }
        ensures read { OnOk result (IfSome (sectors self.old).told
            (λ list. slice_get list sector ≡ Some into.new)) };

    /// Replaces the bytes of a sector. After `StoreFault` nothing is said of what the sectors hold.
    fn set(&mut self, sector: u64, from: &[u8; SECTOR_BYTES]) -> Result<(), StoreFault>
        requires { sector < (sectors self.old).count }
        ensures cause { Counted (faults self.old) (faults self.new) result }
        ensures count { (sectors self.new).count ≡ (sectors self.old).count }
        ensures rest { rest self.new ≡ rest self.old }
        ensures written { OnOk result (Becomes (λ old new. new ≡ slice_set old sector from.now)
            (sectors self.old).told (sectors self.new).told) }
        ensures unknown { Becomes (λ _ _. ⊤) (sectors self.old).told (sectors self.new).told };

    /// Told sectors are as many as the store has, each of `SECTOR_BYTES`.
    ghost whole: { (s : Self) → IsWhole (sectors s) };
}
