//! The host of real files.

ghost use Rattle.std.specs.Prelude.{◌≡◌, ◌≤◌, ◌+◌, length, IfOk, None};
ghost use Rattle.bm_host.specs.Tally.{counted, IsFresh};
ghost use Rattle.bm_host.specs.declared.Role.{Role};

use crate::by_role::ByRole;
use crate::role_file::{Identity, RoleFile};
use crate::tally::Tally;
use crate::{Failed, Host, Role};
use std::fs::{OpenFile, OpenOptions};
use std::io;
use std::io::{ErrorKind, Print, SeekFrom, Write};
use std::rt::Files;

const ROLES: [Role; 6] = [
    Role::Image,
    Role::Disk,
    Role::Schedule,
    Role::Report,
    Role::Out,
    Role::Console,
];

/// A host of real files and standard output. It tells nothing, and counts its faults.
///
/// Image, Disk and Schedule are opened for reading alone, Report for writing alone, and Out for both. Report and Out
/// are made where they are missing, and emptied where they are regular files. Console is standard output, whatever
/// the name. Each of these is a fault of the role: a folder; for Report and Out a file that another role has begun,
/// under whatever name; a call on a role that wasn't begun; an end of the file inside `read_at`; and a write that
/// takes nothing.
#[derive(Drop)]
pub struct FileHost<'a, R: Files + Print> {
    rt: &'a R,
    files: ByRole<Option<RoleFile<R::File>>>,
    tally: Tally,
}

impl<R: Files + Print> FileHost<'_, R> {
    /// A host with no role begun.
    pub fn new(rt: &R) -> FileHost<'_, R>
        ensures untold { (role : Role) →
            (⟦<FileHost<'static, R> as Host>⟧.outside result).told role ≡ None }
        ensures fresh { IsFresh (⟦<FileHost<'static, R> as Host>⟧.outside result) }
    {
        let files = ByRole {
            image: None,
            disk: None,
            schedule: None,
            report: None,
            out: None,
            console: None,
        };
        FileHost {
            rt,
            files,
            tally: Tally::new(),
        }
    }

    fn open(&self, role: Role, name: &str) -> io::Result<Option<RoleFile<R::File>>> {
        match role {
            Role::Image | Role::Disk | Role::Schedule => Ok(Some(self.open_to_read(name)?)),
            Role::Report | Role::Out => Ok(Some(self.open_to_write(role, name)?)),
            Role::Console => Ok(None),
        }
    }

    fn open_to_read(&self, name: &str) -> io::Result<RoleFile<R::File>> {
        let file = OpenOptions::new().read(true).open(self.rt, name)?;
        let metadata = file.metadata()?;
        if metadata.is_dir() {
            return Err(io::Error::from(ErrorKind::IsADirectory));
        }
        Ok(RoleFile::new(file, Identity::of(&metadata), SeekFrom::Start(0)))
    }

    /// The file is emptied only once it is known to be no other role's: a second name for the disk must not cost the
    /// disk.
    fn open_to_write(&self, role: Role, name: &str) -> io::Result<RoleFile<R::File>> {
        let reads = role == Role::Out;
        let file = OpenOptions::new()
            .read(reads)
            .write(true)
            .create(true)
            .open(self.rt, name)?;
        let metadata = file.metadata()?;
        let identity = Identity::of(&metadata);
        if self.is_begun_elsewhere(role, identity) {
            return Err(io::Error::from(ErrorKind::AlreadyExists));
        }
        if metadata.is_file() {
            file.set_len(0)?;
        }
        Ok(RoleFile::new(file, identity, SeekFrom::End(0)))
    }

    fn is_begun_elsewhere(&self, role: Role, identity: Identity) -> bool {
        ROLES.iter().any(|&other| {
            other != role
                && self
                    .files
                    .get(other)
                    .as_ref()
                    .is_some_and(|file| file.identity() == identity)
        })
    }
}

/// The role's file, where the role was begun.
fn begun<F>(files: &mut ByRole<Option<RoleFile<F>>>, role: Role) -> io::Result<&mut RoleFile<F>> {
    match files.get_mut(role) {
        Some(file) => Ok(file),
        None => Err(io::Error::from(ErrorKind::NotFound)),
    }
}

impl<R: Files + Print> Host for FileHost<'_, R> {
    ghost outside = { λ host. counted host.tally };

    fn begin(&mut self, role: Role, name: &str) -> Result<(), Failed> {
        match self.open(role, name) {
            Ok(file) => {
                *self.files.get_mut(role) = file;
                Ok(())
            }
            Err(_) => {
                *self.files.get_mut(role) = None;
                self.tally.begin_failed(role);
                Err(Failed)
            }
        }
    }

    fn length(&mut self, role: Role) -> Result<u64, Failed> {
        let answer = begun(&mut self.files, role).and_then(|file| file.length());
        self.tally.read_ended(role, answer)
    }

    fn read_at(&mut self, role: Role, place: u64, into: &mut [u8]) -> Result<(), Failed> {
        self.tally.look(role, into.len());
        let answer = begun(&mut self.files, role).and_then(|file| file.read_at(place, into));
        self.tally.read_ended(role, answer)
    }

    fn read_next(&mut self, role: Role, into: &mut [u8]) -> Result<usize, Failed> {
        self.tally.look(role, into.len());
        let answer = begun(&mut self.files, role).and_then(|file| file.read_next(into));
        self.tally.read_ended(role, answer)
    }

    fn write_at(&mut self, role: Role, place: u64, from: &[u8]) -> Result<(), Failed> {
        let answer = begun(&mut self.files, role).and_then(|file| file.write_at(place, from));
        self.tally.write_ended(role, answer)
    }

    fn write_next(&mut self, role: Role, from: &[u8]) -> Result<(), Failed> {
        let answer = match role {
            Role::Console => io::writer(self.rt).write_all(from),
            _ => begun(&mut self.files, role).and_then(|file| file.write_next(from)),
        };
        self.tally.write_ended(role, answer)
    }
}

#[cfg(test)]
mod tests;
