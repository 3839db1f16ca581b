//! What a host counts.

ghost use Rattle.std.specs.Prelude.{◌≡◌, IfOk, is_err};
ghost use Rattle.bm_host.specs.Outside.{Counted, OnlyRose, Reads, Writes, begin_side, looked_at};
ghost use Rattle.bm_host.specs.Tally.{counted, IsFresh};

use crate::by_role::ByRole;
use crate::{Failed, Role};
use std::io;

/// How often the reads and the writes of a role failed. Each count stays at its last value.
#[derive(Clone, Copy)]
pub(crate) struct Faults {
    pub(crate) reads: u64,
    pub(crate) writes: u64,
}

/// What a host counts: the faults of each role, and the bytes of Image that were asked for.
#[derive(Drop)]
pub(crate) struct Tally {
    pub(crate) faults: ByRole<Faults>,
    pub(crate) looked: u64,
}

impl Tally {
    /// No fault, and nothing was asked for.
    pub(crate) fn new() -> Tally
        ensures { IsFresh (counted result) }
    {
        let none = Faults {
            reads: 0,
            writes: 0,
        };
        let faults = ByRole {
            image: none,
            disk: none,
            schedule: none,
            report: none,
            out: none,
            console: none,
        };
        Tally { faults, looked: 0 }
    }

    /// A read of the role failed.
    pub(crate) fn read_failed(&mut self, role: Role)
        ensures rose { OnlyRose Reads role (counted self.old) (counted self.new) }
        ensures looked { self.new.looked ≡ self.old.looked }
    {
        let faults = self.faults.get_mut(role);
        faults.reads = faults.reads.saturating_add(1);
    }

    /// A write of the role failed.
    pub(crate) fn write_failed(&mut self, role: Role)
        ensures rose { OnlyRose Writes role (counted self.old) (counted self.new) }
        ensures looked { self.new.looked ≡ self.old.looked }
    {
        let faults = self.faults.get_mut(role);
        faults.writes = faults.writes.saturating_add(1);
    }

    /// A `begin` of the role failed.
    pub(crate) fn begin_failed(&mut self, role: Role)
        ensures rose { OnlyRose (begin_side role) role (counted self.old) (counted self.new) }
        ensures looked { self.new.looked ≡ self.old.looked }
    {
        match role {
            Role::Report | Role::Out => self.write_failed(role),
            Role::Image | Role::Disk | Role::Schedule | Role::Console => self.read_failed(role),
        }
    }

    /// So many bytes of the role were asked for.
    pub(crate) fn look(&mut self, role: Role, bytes: usize)
        ensures looked { self.new.looked ≡ looked_at role self.old.looked bytes }
        ensures faults { self.new.faults ≡ self.old.faults }
    {
        self.looked = looked_after(self.looked, role, bytes);
    }

    /// Counts a fault of the role where a read of it failed.
    pub(crate) fn read_ended<T>(&mut self, role: Role, answer: io::Result<T>) -> Result<T, Failed>
        ensures cause { Counted Reads role (counted self.old) (counted self.new) result }
        ensures looked { self.new.looked ≡ self.old.looked }
        ensures ok { IfOk result (λ value. answer ≡ Ok value) }
        ensures fails { is_err result ≡ is_err answer }
    {
        match answer {
            Ok(value) => Ok(value),
            Err(_) => {
                self.read_failed(role);
                Err(Failed)
            }
        }
    }

    /// Counts a fault of the role where a write of it failed.
    pub(crate) fn write_ended(&mut self, role: Role, answer: io::Result<()>) -> Result<(), Failed>
        ensures cause { Counted Writes role (counted self.old) (counted self.new) result }
        ensures looked { self.new.looked ≡ self.old.looked }
        ensures fails { is_err result ≡ is_err answer }
    {
        match answer {
            Ok(()) => Ok(()),
            Err(_) => {
                self.write_failed(role);
                Err(Failed)
            }
        }
    }
}

/// The bytes of Image that were asked for, once so many more of the role are.
pub(crate) fn looked_after(looked: u64, role: Role, bytes: usize) -> u64
    ensures { result ≡ looked_at role looked bytes }
{
    match role {
        Role::Image => looked.saturating_add(bytes as u64),
        Role::Disk | Role::Schedule | Role::Report | Role::Out | Role::Console => looked,
    }
}
