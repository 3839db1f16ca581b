//! Calls of a host, each with its answer, for the tests of each host: a table of them is a run.

use crate::{Failed, Host, NoMemory, Role};
use std::alloc::Global;

/// A call through the trait, and what it is to answer.
#[derive(Clone, Copy)]
pub(crate) enum Call {
    Begin(Role, &'static str, Result<(), Failed>),
    Length(Role, Result<u64, Failed>),
    /// These bytes stand at a place before the role's end; 16 of them at most.
    ReadAt(Role, u64, &'static [u8]),
    /// Into four places with a dot in each: how many bytes come, and what the places hold then.
    ReadNext(Role, Result<usize, Failed>, &'static [u8; 4]),
    WriteAt(Role, u64, &'static [u8], Result<(), Failed>),
    WriteNext(Role, &'static [u8], Result<(), Failed>),
}

impl Call {
    /// Makes the call, and says whether it answers so.
    pub(crate) fn goes<H: Host>(&self, host: &mut H) -> bool {
        match *self {
            Call::Begin(role, name, answer) => host.begin(role, name) == answer,
            Call::Length(role, answer) => host.length(role) == answer,
            Call::ReadAt(role, place, bytes) => stand_at(host, role, place, bytes),
            Call::ReadNext(role, answer, places) => come_next(host, role, answer, places),
            Call::WriteAt(role, place, bytes, answer) => host.write_at(role, place, bytes)
                == answer,
            Call::WriteNext(role, bytes, answer) => host.write_next(role, bytes) == answer,
        }
    }
}

/// The first call that answers otherwise, by its number from 0 on.
pub(crate) fn first_wrong<H: Host>(host: &mut H, calls: &[Call]) -> Option<usize> {
    for (i, call) in calls.iter().enumerate() {
        if !call.goes(host) {
            return Some(i);
        }
    }
    None
}

/// Two files of Schedule, of which the second counts, and one of Disk and of Report each.
pub(crate) fn small_files(alloc: Global) -> Result<Vec<(Role, Vec<u8>)>, NoMemory> {
    let mut files = Vec::new(alloc);
    files.push((Role::Schedule, b"twice".to_vec(alloc)?))?;
    files.push((Role::Disk, b"0123456789".to_vec(alloc)?))?;
    files.push((Role::Report, b"old".to_vec(alloc)?))?;
    files.push((Role::Schedule, b"g a\ne\n".to_vec(alloc)?))?;
    Ok(files)
}

// A host that tells its bytes is asked for none past their end.
fn stand_at<H: Host>(host: &mut H, role: Role, place: u64, bytes: &[u8]) -> bool {
    let mut buffer = [b'.'; 16];
    let count = bytes.len().min(16);
    let into = &mut buffer[..count];
    let Ok(length) = host.length(role) else {
        return false;
    };
    match length.checked_sub(place) {
        Some(left) if count as u64 <= left => {
            host.read_at(role, place, into) == Ok(()) && *into == *bytes
        }
        _ => false,
    }
}

fn come_next<H: Host>(
    host: &mut H,
    role: Role,
    answer: Result<usize, Failed>,
    places: &[u8; 4],
) -> bool {
    let mut into = [b'.'; 4];
    host.read_next(role, &mut into) == answer && into == *places
}
