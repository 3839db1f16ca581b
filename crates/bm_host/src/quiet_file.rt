//! One role's bytes in a host that never fails.

ghost use Rattle.std.specs.Prelude.{◌≡◌, ◌+◌, ◌≤◌, IfNone, Some, None, length, option_map, replicate, vec_len};
ghost use Rattle.std.specs.Option.{ForSome};
ghost use Rattle.bm_host.specs.Outside.{Gives, IfTold, begun, bytes_at};

use crate::Role;
use crate::reading::{begin_bytes, copy_at, copy_next};

/// The bytes that one role holds, as long as they are known. A role whose bytes aren't known keeps nothing.
#[derive(Drop)]
pub(crate) struct QuietFile {
    pub(crate) bytes: Option<Vec<u8>>,

    /// The number of bytes that `read_next` has given.
    pub(crate) given: usize,

    ghost within: { ForSome bytes (λ held. given ≤ vec_len held) },
}

impl QuietFile {
    ghost use Rattle.bm_host.specs.QuietFile.{bytes_in};

    /// A file of these bytes, or one of which nothing is known.
    pub(crate) fn new(bytes: Option<Vec<u8>>) -> QuietFile
        ensures bytes { result.bytes ≡ bytes }
        ensures given { result.given ≡ 0 }
    {
        QuietFile { bytes, given: 0 }
    }

    /// Attaches the file to its role, whose next bytes are the file's first then.
    pub(crate) fn begin(&mut self, role: Role)
        ensures bytes { bytes_in self.new ≡ option_map (begun role) (bytes_in self.old) }
        ensures given { self.new.given ≡ 0 }
    {
        self.given = 0;
        if let Some(bytes) = &mut self.bytes {
            begin_bytes(role, bytes);
        }
    }

    /// The number of the file's bytes, or 0 where they aren't known.
    pub(crate) fn length(&self) -> u64
        ensures known { IfTold (bytes_in self.now) (λ bytes. result ≡ length bytes) }
        ensures unknown { IfNone (bytes_in self.now) (result ≡ 0) }
    {
        match &self.bytes {
            Some(bytes) => bytes.len() as u64,
            None => 0,
        }
    }

    /// Fills all of `into` with the bytes from `place` on, or with zeros where these aren't known.
    pub(crate) fn read_at(&self, place: u64, into: &mut [u8])
        requires { IfTold (bytes_in self.now)
            (λ bytes. place + length into.old ≤ length bytes) }
        ensures known { IfTold (bytes_in self.now)
            (λ bytes. into.new ≡ bytes_at place (length into.old) bytes) }
        ensures unknown { IfNone (bytes_in self.now)
            (into.new ≡ replicate (length into.old) 0) }
    {
        match &self.bytes {
            Some(bytes) => copy_at(bytes, place, into),
            None => into.fill(0),
        }
    }

    /// Fills the front of `into` with the next bytes, and says how many these are.
    pub(crate) fn read_next(&mut self, into: &mut [u8]) -> usize
        ensures bytes { self.new.bytes ≡ self.old.bytes }
        ensures given { self.new.given ≡ self.old.given + result }
        ensures room { result ≤ length into.old }
        ensures known { IfTold (bytes_in self.old)
            (λ bytes. Gives bytes self.old.given (length into.old) result into.new) }
        ensures unknown { IfNone (bytes_in self.old) (result ≡ 0) }
    {
        let Some(bytes) = &self.bytes else {
            return 0;
        };
        let count = copy_next(bytes, self.given, into);
        self.given += count;
        count
    }

    /// The file's bytes aren't known any more.
    pub(crate) fn forget(&mut self)
        ensures bytes { bytes_in self.new ≡ None }
        ensures given { self.new.given ≡ self.old.given }
    {
        self.bytes = None;
    }
}
