//! An open file of one role.

ghost use Rattle.std.specs.Prelude.{◌≡◌, ◌≤◌, ◌+◌, min, IfOk, OnErr, length};
ghost use Rattle.bm_host.specs.Outside.{LAST_COUNT};

use std::fs::{Metadata, OpenFile};
use std::io;
use std::io::{ErrorKind, Read, Seek, SeekFrom, Write};
use std::os::unix::fs::MetadataExt;

/// Which file it is, whatever its name: the device that it is on, and its number there.
#[derive(Clone, Copy, PartialEq, Eq)]
pub(crate) struct Identity {
    device: u64,
    inode: u64,
}

impl Identity {
    /// Which file an open file is.
    pub(crate) fn of(metadata: &Metadata) -> Identity {
        Identity {
            device: metadata.dev(),
            inode: metadata.ino(),
        }
    }
}

/// An open file, and where it stands.
#[derive(Drop)]
pub(crate) struct RoleFile<F> {
    file: F,
    identity: Identity,

    /// Where the next read or write goes, where that is known. A pipe can't be sought, so a seek that moves nothing is
    /// left out.
    stands: Option<SeekFrom>,

    /// Where `read_next` goes on.
    next: u64,
}

impl<F: Read + Write + Seek + OpenFile + Drop> RoleFile<F> {
    /// A file that was just opened, and stands where `stands` says.
    pub(crate) fn new(file: F, identity: Identity, stands: SeekFrom) -> RoleFile<F>
        ensures file { result.file ≡ file }
        ensures identity { result.identity ≡ identity }
        ensures stands { result.stands ≡ Some stands }
        ensures next { result.next ≡ 0 }
    {
        RoleFile {
            file,
            identity,
            stands: Some(stands),
            next: 0,
        }
    }

    /// Which file it is.
    pub(crate) fn identity(&self) -> Identity
        ensures { result ≡ self.now.identity }
    {
        self.identity
    }

    /// The number of the file's bytes. A pipe has none, and that is an error.
    pub(crate) fn length(&mut self) -> io::Result<u64>
        ensures next { self.new.next ≡ self.old.next }
    {
        self.stands = None;
        self.file.seek(SeekFrom::End(0))
    }

    /// Fills all of `into` from `place` on. A place or an end past the file's end is an error.
    pub(crate) fn read_at(&mut self, place: u64, into: &mut [u8]) -> io::Result<()>
        ensures next { self.new.next ≡ self.old.next }
    {
        if into.is_empty() && self.length()? < place {
            return Err(io::Error::from(ErrorKind::UnexpectedEof));
        }
        self.go_to(SeekFrom::Start(place))?;
        self.file.read_exact(into)?;
        self.stands = Some(SeekFrom::Start(after(place, into.len())));
        Ok(())
    }

    /// Reads on from where the last `read_next` stopped; 0 bytes are the file's end.
    pub(crate) fn read_next(&mut self, into: &mut [u8]) -> io::Result<usize>
        ensures room { IfOk result (λ n. n ≤ length into.old) }
        ensures goes_on { IfOk result (λ n. self.new.next ≡ min (self.old.next + n) LAST_COUNT) }
        ensures err { OnErr result (self.new.next ≡ self.old.next) }
    {
        self.go_to(SeekFrom::Start(self.next))?;
        let count = read_some(&mut self.file, into)?;
        self.next = after(self.next, count);
        self.stands = Some(SeekFrom::Start(self.next));
        Ok(count)
    }

    /// Writes all of `from` at `place`. The system fills what lies between the old end and `place` with zeros.
    pub(crate) fn write_at(&mut self, place: u64, from: &[u8]) -> io::Result<()>
        ensures next { self.new.next ≡ self.old.next }
    {
        if from.is_empty() && self.length()? < place {
            self.file.set_len(place)?;
        }
        self.go_to(SeekFrom::Start(place))?;
        self.file.write_all(from)?;
        self.stands = Some(SeekFrom::Start(after(place, from.len())));
        Ok(())
    }

    /// Writes all of `from` at the end.
    pub(crate) fn write_next(&mut self, from: &[u8]) -> io::Result<()>
        ensures next { self.new.next ≡ self.old.next }
    {
        self.go_to(SeekFrom::End(0))?;
        self.file.write_all(from)?;
        self.stands = Some(SeekFrom::End(0));
        Ok(())
    }

    /// Until what follows has ended well, it isn't known where the file stands.
    fn go_to(&mut self, place: SeekFrom) -> io::Result<()>
        ensures { self.new.next ≡ self.old.next }
    {
        if self.stands != Some(place) {
            self.file.seek(place)?;
        }
        self.stands = None;
        Ok(())
    }
}

fn after(place: u64, bytes: usize) -> u64
    ensures { result ≡ min (place + bytes) LAST_COUNT }
{
    place.saturating_add(bytes as u64)
}

/// One read, made again where a signal interrupts it.
fn read_some<F: Read>(file: &mut F, into: &mut [u8]) -> io::Result<usize>
    ensures { IfOk result (λ n. n ≤ length into.old) }
{
    for _ in 0..u64::MAX {
        match file.read(into) {
            Err(error) if error.kind() == ErrorKind::Interrupted => {}
            answer => return answer,
        }
    }
    Err(io::Error::from(ErrorKind::Interrupted))
}

#[cfg(test)]
mod tests;
