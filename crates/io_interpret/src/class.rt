//! The class of a guest's command: what the monitor has to do before the drive may have it.

ghost use Rattle.std.specs.Prelude.{◌≡◌, ◌<◌};
ghost use Rattle.fill_bitmap.specs.Area.{IsSuitable, blocks_of};
ghost use Rattle.fill_bitmap.specs.Bitmap.{blocks_in};
ghost use Rattle.io_interpret.specs.Class.{class_of, class_of_request, is_settled, reaches_reserved};

use crate::blocks::touches_empty;
use ata_taskfile::{Kind, Refused, Request};
use fill_bitmap::{Area, Bitmap};

/// What the monitor makes of a guest's command (own).
#[derive(Clone, Copy, Debug, PartialEq, Eq)]
pub enum Class {
    /// The drive gets it as it is: a flush with nothing to settle, a verify, or a read or write that touches no empty
    /// block.
    Local,
    /// A read that touches an empty block, whose sectors the guest reads from the image.
    Redirected,
    /// A write that touches an empty block, which has to be filled first.
    FillFirst,
    /// A flush, while the filled blocks aren't the stored ones.
    Settle,
    /// A read, write or verify whose range reaches the reserved sectors.
    Reserved,
    /// It is refused, or asks for no sector and makes none durable: the drive gets it as it is.
    Other,
}

/// The class of the order of a guest's command, by the rule of docs/monitor.md: the first row that holds (own).
pub fn classify(request: &Result<Request, Refused>, area: &Area, bitmap: &Bitmap) -> Class
    requires suitable { IsSuitable area.now }
    requires blocks { blocks_in bitmap.now ≡ blocks_of area.now }
    ensures class { result ≡ class_of request.now area.now bitmap.now }
{
    match request {
        Err(_) => Class::Other,
        Ok(request) => class_of_request(request, area, bitmap),
    }
}

fn class_of_request(request: &Request, area: &Area, bitmap: &Bitmap) -> Class
    requires suitable { IsSuitable area.now }
    requires blocks { blocks_in bitmap.now ≡ blocks_of area.now }
    ensures class { result ≡ class_of_request request.now area.now bitmap.now }
{
    match request.kind {
        Kind::Identify | Kind::Features => Class::Other,
        Kind::Flush if !is_settled(bitmap) => Class::Settle,
        Kind::Flush => Class::Local,
        Kind::Read | Kind::Write | Kind::Verify if reaches_reserved(request, area) =>
            Class::Reserved,
        Kind::Verify => Class::Local,
        Kind::Read if touches_empty(request.first, request.count, area, bitmap) =>
            Class::Redirected,
        Kind::Write if touches_empty(request.first, request.count, area, bitmap) =>
            Class::FillFirst,
        Kind::Read | Kind::Write => Class::Local,
    }
}

// Whether each filled block is stored, so that a flush has nothing to settle.
fn is_settled(bitmap: &Bitmap) -> bool
    ensures settled { result ≡ is_settled bitmap.now }
{
    bitmap.filled_is_stored()
}

// Whether the range ends above the first reserved sector.
fn reaches_reserved(request: &Request, area: &Area) -> bool
    requires suitable { IsSuitable area.now }
    ensures reached { result ≡ reaches_reserved request.now area.now }
{
    // A sum that no number holds is above every sector too.
    request.first.saturating_add(u64::from(request.count)) > area.reserved()
}
