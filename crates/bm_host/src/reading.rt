//! Reads of bytes that are in memory.

ghost use Rattle.std.specs.Prelude.{◌≡◌, ◌+◌, ◌≤◌, length, vec_capacity};
ghost use Rattle.bm_host.specs.Outside.{Gives, begun, bytes_at};

use crate::Role;

/// What a role holds once it is begun: Report and Out are empty.
pub(crate) fn begin_bytes(role: Role, bytes: &mut Vec<u8>)
    ensures bytes { bytes.new.items ≡ begun role bytes.old.items }
    ensures capacity { vec_capacity bytes.new ≡ vec_capacity bytes.old }
{
    match role {
        Role::Report | Role::Out => bytes.clear(),
        Role::Image | Role::Disk | Role::Schedule | Role::Console => {}
    }
}

/// Fills all of `into` with the bytes from `place` on.
pub(crate) fn copy_at(bytes: &[u8], place: u64, into: &mut [u8])
    requires { place + length into.old ≤ length bytes.now }
    ensures { into.new ≡ bytes_at place (length into.old) bytes.now }
{
    let start = place as usize;
    into.copy_from_slice(&bytes[start..start + into.len()]);
}

/// Fills the front of `into` with the bytes from `given` on, and says how many these are.
pub(crate) fn copy_next(bytes: &[u8], given: usize, into: &mut [u8]) -> usize
    requires { given ≤ length bytes.now }
    ensures room { result ≤ length into.old }
    ensures gives { Gives bytes.now given (length into.old) result into.new }
{
    let rest = &bytes[given..];
    let count = rest.len().min(into.len());
    into[..count].copy_from_slice(&rest[..count]);
    count
}
