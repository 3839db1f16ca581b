//! What a request asks of the server.

ghost use Rattle.std.specs.Prelude.{◌≡◌, ◌<◌, ◌+◌, ◌^◌};
ghost use Rattle.image_server.specs.Request.{asked_in, is_heard, is_identify, is_read};

use aoe_frame::{ALL_MAJORS, ALL_MINORS, AtaPart, EXTENDED, Header, MAJOR, MINOR, REPLY, WRITE};
use ata_taskfile::registers::{IDENTIFY_DEVICE, READ_SECTORS_EXT};

/// What an ATA argument asks.
#[derive(Clone, Copy)]
pub(crate) enum Asked {
    /// One sector or two, which the server has.
    Sectors,
    /// One sector or two, which it hasn't all.
    PastTheEnd,
    /// What the server is.
    Identity,
    /// Anything else.
    Refused,
}

// Whether a request with this header is the server's to answer.
pub(crate) fn is_heard(header: &Header) -> bool
    ensures heard { result ≡ is_heard header.now }
{
    header.flags & REPLY == 0
        && (header.major == MAJOR || header.major == ALL_MAJORS)
        && (header.minor == MINOR || header.minor == ALL_MINORS)
}

pub(crate) fn asked_in(part: &AtaPart, sectors: u64) -> Asked
    requires fits { part.now.lba < 2 ^ 48 }
    ensures asked { result ≡ asked_in sectors part.now }
{
    if is_read(part) {
        if part.lba + part.count as u64 <= sectors {
            Asked::Sectors
        } else {
            Asked::PastTheEnd
        }
    } else if is_identify(part) {
        Asked::Identity
    } else {
        Asked::Refused
    }
}

fn is_read(part: &AtaPart) -> bool
    ensures read { result ≡ is_read part.now }
{
    part.command == READ_SECTORS_EXT
        && part.flags & EXTENDED != 0
        && part.flags & WRITE == 0
        && (part.count == 1 || part.count == 2)
}

fn is_identify(part: &AtaPart) -> bool
    ensures identify { result ≡ is_identify part.now }
{
    part.command == IDENTIFY_DEVICE && part.flags & EXTENDED == 0
}
