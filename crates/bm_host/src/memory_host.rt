//! The host whose files are in memory.

use crate::by_role::ByRole;
use crate::memory_file::MemoryFile;
use crate::named_files::{named_files, with_room};
use crate::plan::Plan;
use crate::tally::Tally;
use crate::{Failed, Host, NoMemory, Role};
use std::alloc::Global;

/// A host whose files are in memory, for tests and for runs that are only looked at. It tells everything.
///
/// Its calls are counted from 0. A call fails exactly where its number is among the numbers that fail, or where it is
/// a write after which the role would hold more than its limit. The limit of Report, Out and Console is the room that
/// `new` was given; that of any other role is what it held then. `begin` attaches the role's file, whatever the name.
/// After `new` no call takes memory.
#[derive(Drop)]
pub struct MemoryHost {
    files: ByRole<MemoryFile>,
    tally: Tally,
    plan: Plan,
}

impl MemoryHost {
    ghost use Rattle.std.specs.Prelude.{◌≡◌, IfOk, Some, length};
    ghost use Rattle.bm_host.specs.Tally.{IsFresh};
    ghost use Rattle.bm_host.specs.MemoryHost.{outside_of, contents_of, calls_of, failing_of, limit_of};
    ghost use Rattle.bm_host.specs.NamedFiles.{files_named, limit_at_start};
    ghost use Rattle.bm_host.specs.declared.Role.{Role};
    ghost use Rattle.bm_host.specs.ByRole.{value_of};

    /// A host of these files. Where a role is named twice the last one counts, and a role that isn't named is empty.
    /// The calls whose numbers stand in `failing` fail. Report, Out and Console have room for `room` bytes.
    pub fn new(
        alloc: Global,
        files: Vec<(Role, Vec<u8>)>,
        failing: Vec<u32>,
        room: u64,
    ) -> Result<MemoryHost, NoMemory>
        ensures contents { IfOk result (λ host. (role : Role) →
            contents_of host role ≡ value_of (files_named files.items) role) }
        ensures fresh { IfOk result (λ host. IsFresh (outside_of host)) }
        ensures calls { IfOk result (λ host. calls_of host ≡ 0) }
        ensures failing { IfOk result (λ host. failing_of host ≡ failing.items) }
        ensures limits { IfOk result (λ host. (role : Role) →
            limit_of host role ≡ limit_at_start room role (contents_of host role)) }
    {
        let named = named_files(alloc, files);
        Ok(MemoryHost {
            files: with_room(named, room as usize)?,
            tally: Tally::new(),
            plan: Plan { failing, calls: 0 },
        })
    }

    /// What the role holds.
    pub fn contents(&self, role: Role) -> &[u8]
        ensures { result.now ≡ contents_of self.now role }
    {
        &self.files.get(role).bytes
    }
}

impl Host for MemoryHost {
    ghost use Rattle.std.specs.Prelude.{◌≤◌, ◌<◌, ◌+◌, ◌↔◌, ◌⊎◌, length, max, IsErr, OnErr};
    ghost use Rattle.bm_host.specs.Outside.{SameBytes, IfTold};
    ghost use Rattle.bm_host.specs.Host.{Begins, ReadsAt, ReadsNext, TellsLength, WritesAt, WritesNext};
    ghost use Rattle.bm_host.specs.MemoryHost.{outside_of, contents_of, limit_of, IsPlanned, IsCalled};

    ghost outside = { outside_of };

    fn begin(&mut self, role: Role, _name: &str) -> Result<(), Failed>
        ensures host { Begins role (outside_of self.old) (outside_of self.new) result }
        ensures fails { IsErr result ↔ IsPlanned self.old }
        ensures unchanged { OnErr result (SameBytes (outside_of self.old) (outside_of self.new)) }
        ensures called { IsCalled self.old self.new }
    {
        if self.plan.next_fails() {
            self.tally.begin_failed(role);
            return Err(Failed);
        }
        self.files.get_mut(role).begin(role);
        Ok(())
    }

    fn length(&mut self, role: Role) -> Result<u64, Failed>
        ensures host { TellsLength role (outside_of self.old) (outside_of self.new) result }
        ensures fails { IsErr result ↔ IsPlanned self.old }
        ensures called { IsCalled self.old self.new }
    {
        if self.plan.next_fails() {
            self.tally.read_failed(role);
            return Err(Failed);
        }
        Ok(self.contents(role).len() as u64)
    }

    fn read_at(&mut self, role: Role, place: u64, into: &mut [u8]) -> Result<(), Failed>
        requires { IfTold ((outside_of self.old).told role)
            (λ bytes. place + length into.old ≤ length bytes) }
        ensures host { ReadsAt role place (length into.old)
            (outside_of self.old) (outside_of self.new) into.new result }
        ensures fails { IsErr result ↔ IsPlanned self.old }
        ensures called { IsCalled self.old self.new }
    {
        self.tally.look(role, into.len());
        if self.plan.next_fails() {
            self.tally.read_failed(role);
            return Err(Failed);
        }
        self.files.get(role).read_at(place, into);
        Ok(())
    }

    fn read_next(&mut self, role: Role, into: &mut [u8]) -> Result<usize, Failed>
        ensures host { ReadsNext role (length into.old)
            (outside_of self.old) (outside_of self.new) into.new result }
        ensures fails { IsErr result ↔ IsPlanned self.old }
        ensures called { IsCalled self.old self.new }
    {
        self.tally.look(role, into.len());
        if self.plan.next_fails() {
            self.tally.read_failed(role);
            return Err(Failed);
        }
        Ok(self.files.get_mut(role).read_next(into))
    }

    fn write_at(&mut self, role: Role, place: u64, from: &[u8]) -> Result<(), Failed>
        ensures host { WritesAt role place from.now
            (outside_of self.old) (outside_of self.new) result }
        ensures fails { IsErr result ↔ IsPlanned self.old ⊎ (limit_of self.old role
            < max (length (contents_of self.old role)) (place + length from.now)) }
        ensures unchanged { OnErr result (SameBytes (outside_of self.old) (outside_of self.new)) }
        ensures called { IsCalled self.old self.new }
    {
        if self.plan.next_fails() || self.files.get_mut(role).write_at(place, from).is_err() {
            self.tally.write_failed(role);
            return Err(Failed);
        }
        Ok(())
    }

    fn write_next(&mut self, role: Role, from: &[u8]) -> Result<(), Failed>
        ensures host { WritesNext role from.now (outside_of self.old) (outside_of self.new) result }
        ensures fails { IsErr result ↔ IsPlanned self.old ⊎ (limit_of self.old role
            < length (contents_of self.old role) + length from.now) }
        ensures unchanged { OnErr result (SameBytes (outside_of self.old) (outside_of self.new)) }
        ensures called { IsCalled self.old self.new }
    {
        if self.plan.next_fails() || self.files.get_mut(role).write_next(from).is_err() {
            self.tally.write_failed(role);
            return Err(Failed);
        }
        Ok(())
    }
}

#[cfg(test)]
mod tests;
