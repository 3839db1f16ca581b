//! What the registers show of a command that fails, on a drive or in place of one.

ghost use Rattle.std.specs.Prelude.{◌≡◌, ◌+◌, ◌<◌, ◌≤◌, ◌^◌, true};
ghost use Rattle.ata_taskfile.specs.Order.{has_range};
ghost use Rattle.plain_drive.specs.Step.{failed_sector, failure_shown, failure_bit, last_of};

use ata_taskfile::registers::{ABRT, UNC};
use ata_taskfile::{Form, Kind, Request, TaskFile};

/// Puts the sector at which a command fails, of which `done` sectors or blocks went, into the address registers; those
/// of a command without a range stay (own).
pub fn show_failure(file: &mut TaskFile, order: Request, done: u32)
    requires within { order.first + order.count < 2 ^ 64 }
    requires position { has_range order.kind ≡ true → done ≤ order.count }
    ensures { file.new ≡ failure_shown order done file.old }
{
    if order.kind.has_range() {
        file.put_address(order.extended, failed_sector(order, done));
    }
}

// The sector at which a command fails.
fn failed_sector(order: Request, done: u32) -> u64
    requires within { order.first + order.count < 2 ^ 64 }
    requires position { done ≤ order.count }
    ensures { result ≡ failed_sector order.form order done }
{
    match order.form {
        Form::NoMove => order.first,
        Form::PioIn => order.first + done as u64,
        Form::PioOut => last_of(order.first, done),
        Form::DmaIn | Form::DmaOut if done < order.count => order.first + done as u64,
        Form::DmaIn | Form::DmaOut => last_of(order.first, order.count),
    }
}

// The last of so many sectors from the first on; the first itself where there is none.
fn last_of(first: u64, count: u32) -> u64
    requires { first + count < 2 ^ 64 }
    ensures { result ≡ last_of first count }
{
    if count == 0 {
        first
    } else {
        first + (count - 1) as u64
    }
}

/// The Error byte of a command that fails (ATA/ATAPI-6, Error register; own: which for which).
pub fn failure_bit(kind: Kind) -> u8
    ensures { result ≡ failure_bit kind }
{
    match kind {
        Kind::Read | Kind::Verify => UNC,
        Kind::Write | Kind::Flush | Kind::Identify | Kind::Features => ABRT,
    }
}
