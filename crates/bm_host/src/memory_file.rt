//! One role's bytes in memory.

ghost use Rattle.std.specs.Prelude.{◌≡◌, ◌+◌, ◌-◌, ◌≤◌, ◌<◌, ◌↔◌, ◌++◌, [], length, take, drop, max, IsOk, OnOk, OnErr, IfOk, vec_len, vec_capacity};

use crate::reading::{begin_bytes, copy_at, copy_next};
use crate::{Failed, NoMemory, Role};

/// The bytes that one role holds, with the room that its writes may need.
#[derive(Drop)]
pub(crate) struct MemoryFile {
    pub(crate) bytes: Vec<u8>,

    /// The number of bytes that `read_next` has given.
    pub(crate) given: usize,

    /// The number of bytes that a write may leave.
    pub(crate) limit: usize,

    ghost within: { given ≤ vec_len bytes },
    ghost room: { limit ≤ vec_capacity bytes },
}

impl MemoryFile {
    ghost use Rattle.bm_host.specs.Outside.{Gives, begun, bytes_at, written_at};

    /// A file of these bytes. The room for `limit` bytes is taken here.
    pub(crate) fn new(bytes: Vec<u8>, limit: usize) -> Result<MemoryFile, NoMemory>
        ensures bytes { IfOk result (λ file. file.bytes.items ≡ bytes.items) }
        ensures given { IfOk result (λ file. file.given ≡ 0) }
        ensures limit { IfOk result (λ file. file.limit ≡ limit) }
    {
        let mut bytes = bytes;
        let more = limit.saturating_sub(bytes.len());
        bytes.reserve(more)?;
        Ok(MemoryFile {
            bytes,
            given: 0,
            limit,
        })
    }

    /// Attaches the file to its role, whose next bytes are the file's first then.
    pub(crate) fn begin(&mut self, role: Role)
        ensures bytes { self.new.bytes.items ≡ begun role self.old.bytes.items }
        ensures given { self.new.given ≡ 0 }
        ensures limit { self.new.limit ≡ self.old.limit }
    {
        self.given = 0;
        begin_bytes(role, &mut self.bytes);
    }

    /// Fills all of `into` with the bytes from `place` on.
    pub(crate) fn read_at(&self, place: u64, into: &mut [u8])
        requires { place + length into.old ≤ length self.now.bytes.items }
        ensures { into.new ≡ bytes_at place (length into.old) self.now.bytes.items }
    {
        copy_at(&self.bytes, place, into);
    }

    /// Fills the front of `into` with the next bytes, and says how many these are.
    pub(crate) fn read_next(&mut self, into: &mut [u8]) -> usize
        ensures bytes { self.new.bytes.items ≡ self.old.bytes.items }
        ensures given { self.new.given ≡ self.old.given + result }
        ensures limit { self.new.limit ≡ self.old.limit }
        ensures room { result ≤ length into.old }
        ensures gives { Gives self.old.bytes.items self.old.given
            (length into.old) result into.new }
    {
        let count = copy_next(&self.bytes, self.given, into);
        self.given += count;
        count
    }

    /// Replaces the bytes from `place` on, where that leaves no more than the limit.
    pub(crate) fn write_at(&mut self, place: u64, from: &[u8]) -> Result<(), Failed>
        ensures fits { IsOk result
            ↔ (max (length self.old.bytes.items) (place + length from.now) ≤ self.old.limit) }
        ensures written { OnOk result
            (self.new.bytes.items ≡ written_at place from.now self.old.bytes.items) }
        ensures err { OnErr result (self.new.bytes.items ≡ self.old.bytes.items) }
        ensures given { self.new.given ≡ self.old.given }
        ensures limit { self.new.limit ≡ self.old.limit }
    {
        let start = place as usize;
        let Some(end) = start.checked_add(from.len()) else {
            return Err(Failed);
        };
        let length = self.bytes.len().max(end);
        if length > self.limit {
            return Err(Failed);
        }
        self.bytes.resize(length, 0).map_err(|_| Failed)?;
        overwrite(&mut self.bytes, start, from);
        Ok(())
    }

    /// Appends the bytes, where that leaves no more than the limit.
    pub(crate) fn write_next(&mut self, from: &[u8]) -> Result<(), Failed>
        ensures fits { IsOk result
            ↔ (length self.old.bytes.items + length from.now ≤ self.old.limit) }
        ensures written { OnOk result (self.new.bytes.items ≡ self.old.bytes.items ++ from.now) }
        ensures err { OnErr result (self.new.bytes.items ≡ self.old.bytes.items) }
        ensures given { self.new.given ≡ self.old.given }
        ensures limit { self.new.limit ≡ self.old.limit }
    {
        match self.limit.checked_sub(self.bytes.len()) {
            Some(left) if from.len() <= left => {
                self.bytes.extend_from_slice(from).map_err(|_| Failed)
            }
            _ => Err(Failed),
        }
    }
}

fn overwrite(bytes: &mut [u8], start: usize, from: &[u8])
    requires { start + length from.now ≤ length bytes.old }
    ensures { bytes.new ≡ take start bytes.old
        ++ (from.now ++ drop (start + length from.now) bytes.old) }
{
    bytes[start..start + from.len()].copy_from_slice(from);
}
