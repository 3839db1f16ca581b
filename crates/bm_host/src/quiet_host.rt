//! The host that never fails.

ghost use Rattle.bm_host.specs.Outside.{NoCountRose};
ghost use Rattle.bm_host.specs.QuietHost.{outside_of};

use crate::by_role::ByRole;
use crate::named_files::named_files;
use crate::quiet_file::QuietFile;
use crate::tally::looked_after;
use crate::{Failed, Host, Role};

/// A host that never fails, for runs of which only the answer is asked. No call of it takes memory.
///
/// It tells Image, Disk and Schedule, each until it is written, and gives their bytes. A role that it doesn't tell
/// keeps nothing: what is written to it is let go, its length is 0, and reads give zeros or its end. `begin` attaches
/// the role's file, whatever the name.
#[derive(Drop)]
pub struct QuietHost {
    files: ByRole<QuietFile>,

    /// The bytes of Image that were asked for.
    looked: u64,
}

impl QuietHost {
    ghost use Rattle.std.specs.Prelude.{◌≡◌};
    ghost use Rattle.bm_host.specs.Tally.{IsFresh};
    ghost use Rattle.bm_host.specs.QuietHost.{told_at_start};
    ghost use Rattle.bm_host.specs.NamedFiles.{files_named};
    ghost use Rattle.bm_host.specs.ByRole.{value_of};

    /// A host of these files. Where a role is named twice the last one counts, and a role that isn't named is empty.
    /// Files of Report, Out and Console are let go.
    pub fn new(files: Vec<(Role, Vec<u8>)>) -> QuietHost
        ensures told { (role : Role) → (outside_of result).told role
            ≡ told_at_start role (value_of (files_named files.items) role) }
        ensures fresh { IsFresh (outside_of result) }
    {
        let alloc = *files.allocator();
        let ByRole {
            image,
            disk,
            schedule,
            ..
        } = named_files(alloc, files);
        let files = ByRole {
            image: QuietFile::new(Some(image)),
            disk: QuietFile::new(Some(disk)),
            schedule: QuietFile::new(Some(schedule)),
            report: QuietFile::new(None),
            out: QuietFile::new(None),
            console: QuietFile::new(None),
        };
        QuietHost { files, looked: 0 }
    }
}

impl Host for QuietHost {
    ghost use Rattle.std.specs.Prelude.{◌≡◌, ◌≤◌, ◌+◌, length, replicate, IsOk, IfNone, None, Ok};
    ghost use Rattle.bm_host.specs.Outside.{IfTold};
    ghost use Rattle.bm_host.specs.Host.{Begins, ReadsAt, ReadsNext, TellsLength, WritesAt, WritesNext};

    ghost outside = { outside_of };

    fn begin(&mut self, role: Role, _name: &str) -> Result<(), Failed>
        ensures host { Begins role (outside_of self.old) (outside_of self.new) result }
        ensures ok { IsOk result }
    {
        self.files.get_mut(role).begin(role);
        Ok(())
    }

    fn length(&mut self, role: Role) -> Result<u64, Failed>
        ensures host { TellsLength role (outside_of self.old) (outside_of self.new) result }
        ensures ok { IsOk result }
        ensures untold { IfNone ((outside_of self.old).told role) (result ≡ Ok 0) }
    {
        Ok(self.files.get(role).length())
    }

    fn read_at(&mut self, role: Role, place: u64, into: &mut [u8]) -> Result<(), Failed>
        requires { IfTold ((outside_of self.old).told role)
            (λ bytes. place + length into.old ≤ length bytes) }
        ensures host { ReadsAt role place (length into.old)
            (outside_of self.old) (outside_of self.new) into.new result }
        ensures ok { IsOk result }
        ensures untold { IfNone ((outside_of self.old).told role)
            (into.new ≡ replicate (length into.old) 0) }
    {
        self.looked = looked_after(self.looked, role, into.len());
        self.files.get(role).read_at(place, into);
        Ok(())
    }

    fn read_next(&mut self, role: Role, into: &mut [u8]) -> Result<usize, Failed>
        ensures host { ReadsNext role (length into.old)
            (outside_of self.old) (outside_of self.new) into.new result }
        ensures ok { IsOk result }
        ensures untold { IfNone ((outside_of self.old).told role) (result ≡ Ok 0) }
    {
        self.looked = looked_after(self.looked, role, into.len());
        Ok(self.files.get_mut(role).read_next(into))
    }

    fn write_at(&mut self, role: Role, place: u64, from: &[u8]) -> Result<(), Failed>
        ensures host { WritesAt role place from.now
            (outside_of self.old) (outside_of self.new) result }
        ensures ok { IsOk result }
        ensures forgotten { (outside_of self.new).told role ≡ None }
    {
        self.files.get_mut(role).forget();
        Ok(())
    }

    fn write_next(&mut self, role: Role, from: &[u8]) -> Result<(), Failed>
        ensures host { WritesNext role from.now (outside_of self.old) (outside_of self.new) result }
        ensures ok { IsOk result }
        ensures forgotten { (outside_of self.new).told role ≡ None }
    {
        self.files.get_mut(role).forget();
        Ok(())
    }
}

/// Over a quiet host no count of faults can have risen, whatever was done between two moments.
pub fn no_count_of_a_quiet_host_rises(before: &QuietHost, after: &QuietHost)
    ensures { NoCountRose (outside_of before.now) (outside_of after.now) }
{}

#[cfg(test)]
mod tests;
