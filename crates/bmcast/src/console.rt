//! The line on Console that tells a status.

ghost use Rattle.std.specs.Prelude.{◌≡◌, ◌≤◌, ◌+◌, ◌++◌, [], length, decimal, codes};
ghost use Rattle.bm_host.specs.declared.Role.TheVariants.{Console};
ghost use Rattle.bmcast.specs.Status.{ConsoleSays, OnlyConsole};
ghost use Rattle.bm_host.specs.Outside.{SameElsewhere};
ghost use Rattle.block_writes.specs.Kept.{KeepsLooked};
ghost use Rattle.bmcast.specs.StatusLine.{fault_name, role_name, status_line, status_text, why_name};

use crate::{Status, Why};
use arrayvec::ArrayVec;
use bm_host::{Host, Role};
use itoa::Buffer;
use schedule_text::LineFault;

/// The bytes that the line may have.
const MOST: usize = 128;

/// Writes the line that tells a status to Console; where that fails, a part of it may stand there, and nothing else
/// is done. Done has no line.
pub(crate) fn tell<H: Host>(host: &mut H, status: Status)
    ensures console { OnlyConsole (H.outside host.old) (H.outside host.new) }
    ensures told { ConsoleSays (status_line status) (H.outside host.old) (H.outside host.new) }
    ensures elsewhere { SameElsewhere Console (H.outside host.old) (H.outside host.new) }
    ensures looked { KeepsLooked (H.outside host.old) (H.outside host.new) }
{
    let mut line = ArrayVec::new();
    push_line(&mut line, status);
    let _ = host.write_next(Role::Console, line.as_slice());
}

// Appends the line that tells a status, with its line feed; Done has none.
fn push_line(line: &mut ArrayVec<u8, MOST>, status: Status)
    requires { line.old.items ≡ [] }
    ensures { line.new.items ≡ status_line status }
{
    if let Status::Done = status {
        return;
    }
    push(line, b"bmcast: ");
    push_status(line, status);
    push(line, b"\n");
}

fn push_status(line: &mut ArrayVec<u8, MOST>, status: Status)
    requires { length line.old.items ≤ 8 }
    ensures text { line.new.items ≡ line.old.items ++ status_text status }
    ensures room { length line.new.items ≤ 100 }
{
    match status {
        Status::Done => {}
        Status::Usage => push(line, b"the words are not a command line of this program"),
        Status::Unsuitable(why) => push_two(line, b"unsuitable: ", why_name(why)),
        Status::BadLine(number, fault) => push_bad_line(line, number, fault),
        Status::ReadFault(role) => push_two(line, b"cannot read ", role_name(role)),
        Status::WriteFault(role) => push_two(line, b"cannot write ", role_name(role)),
        Status::NoMemory => push(line, b"no memory"),
    }
}

fn push_bad_line(line: &mut ArrayVec<u8, MOST>, number: u32, fault: LineFault)
    requires { length line.old.items ≤ 8 }
    ensures text { line.new.items
        ≡ line.old.items ++ codes "line " ++ decimal number ++ codes ": " ++ fault_name fault }
    ensures room { length line.new.items ≤ 100 }
{
    push(line, b"line ");
    push(line, Buffer::new().format(u64::from(number)).as_bytes());
    push_two(line, b": ", fault_name(fault));
}

fn push_two(line: &mut ArrayVec<u8, MOST>, first: &[u8], second: &[u8])
    requires { length line.old.items + length first.now + length second.now ≤ MOST }
    ensures text { line.new.items ≡ line.old.items ++ first.now ++ second.now }
{
    push(line, first);
    push(line, second);
}

fn push(line: &mut ArrayVec<u8, MOST>, text: &[u8])
    requires { length line.old.items + length text.now ≤ MOST }
    ensures { line.new.items ≡ line.old.items ++ text.now }
{
    line.try_extend_from_slice(text).unwrap();
}

fn why_name(why: Why) -> &'static [u8]
    ensures name { result.now ≡ why_name why }
    ensures short { length result.now ≤ 20 }
{
    match why {
        Why::ImageLength => b"ImageLength",
        Why::DiskLength => b"DiskLength",
        Why::TooSmall => b"TooSmall",
        Why::TooLarge => b"TooLarge",
        Why::AlreadyBegun => b"AlreadyBegun",
        Why::NotBegun => b"NotBegun",
    }
}

fn fault_name(fault: LineFault) -> &'static [u8]
    ensures name { result.now ≡ fault_name fault }
    ensures short { length result.now ≤ 20 }
{
    match fault {
        LineFault::LongLine => b"LongLine",
        LineFault::Form => b"Form",
        LineFault::Number => b"Number",
        LineFault::TooMany => b"TooMany",
        LineFault::NoEnd => b"NoEnd",
        LineFault::Trailing => b"Trailing",
    }
}

fn role_name(role: Role) -> &'static [u8]
    ensures name { result.now ≡ role_name role }
    ensures short { length result.now ≤ 20 }
{
    match role {
        Role::Image => b"Image",
        Role::Disk => b"Disk",
        Role::Schedule => b"Schedule",
        Role::Report => b"Report",
        Role::Out => b"Out",
        Role::Console => b"Console",
    }
}
