//! The files that a host in memory starts with.

ghost use Rattle.std.specs.Prelude.{◌≡◌, IfOk, length};
ghost use Rattle.bm_host.specs.ByRole.{value_of, with_value};
ghost use Rattle.bm_host.specs.NamedFiles.{files_named, limit_at_start};
ghost use Rattle.bm_host.specs.declared.Role.{Role};

use crate::by_role::ByRole;
use crate::memory_file::MemoryFile;
use crate::{NoMemory, Role};
use std::alloc::Global;

/// The bytes of the last file that names each role, or none.
pub(crate) fn named_files(alloc: Global, files: Vec<(Role, Vec<u8>)>) -> ByRole<Vec<u8>>
    ensures { (role : Role) →
        (value_of result role).items ≡ value_of (files_named files.items) role }
{
    let mut named = ByRole {
        image: Vec::new(alloc),
        disk: Vec::new(alloc),
        schedule: Vec::new(alloc),
        report: Vec::new(alloc),
        out: Vec::new(alloc),
        console: Vec::new(alloc),
    };
    for (role, bytes) in files {
        name_file(&mut named, role, bytes);
    }
    named
}

/// The role has this file in place of the one before it.
fn name_file(named: &mut ByRole<Vec<u8>>, role: Role, bytes: Vec<u8>)
    ensures { named.new ≡ with_value named.old role bytes }
{
    *named.get_mut(role) = bytes;
}

/// These files, each with the room for what a write may leave in it.
pub(crate) fn with_room(named: ByRole<Vec<u8>>, room: usize) -> Result<ByRole<MemoryFile>, NoMemory>
    ensures bytes { IfOk result (λ files. (role : Role) →
        (value_of files role).bytes.items ≡ (value_of named role).items) }
    ensures given { IfOk result (λ files. (role : Role) → (value_of files role).given ≡ 0) }
    ensures limit { IfOk result (λ files. (role : Role) →
        (value_of files role).limit ≡ limit_at_start room role (value_of named role).items) }
{
    let ByRole {
        image,
        disk,
        schedule,
        report,
        out,
        console,
    } = named;
    Ok(ByRole {
        image: whole(image)?,
        disk: whole(disk)?,
        schedule: whole(schedule)?,
        report: MemoryFile::new(report, room)?,
        out: MemoryFile::new(out, room)?,
        console: MemoryFile::new(console, room)?,
    })
}

/// A file that no write may lengthen.
fn whole(bytes: Vec<u8>) -> Result<MemoryFile, NoMemory>
    ensures bytes { IfOk result (λ file. file.bytes.items ≡ bytes.items) }
    ensures given { IfOk result (λ file. file.given ≡ 0) }
    ensures limit { IfOk result (λ file. file.limit ≡ length bytes.items) }
{
    let limit = bytes.len();
    MemoryFile::new(bytes, limit)
}
