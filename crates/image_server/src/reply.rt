//! The parts of a reply that need no sector.

ghost use Rattle.std.specs.Prelude.{◌≡◌};
ghost use Rattle.image_server.specs.Reply.{accepted, answered, refusal, reply_header};

use crate::body::Body;
use aoe_frame::{
    Aoe, Argument, AtaPart, ConfigPart, FAILED, Header, MAJOR, MINOR, REPLY, SERVER, VERSION,
};
use ata_taskfile::registers::{DRDY, DSC, ERR};

/// Why a command isn't done: there is none of this byte (AoE r11, error codes).
pub(crate) const UNKNOWN_COMMAND: u8 = 1;

/// Why a command isn't done: its argument isn't served (AoE r11, error codes).
pub(crate) const BAD_ARGUMENT: u8 = 2;

/// Why a command isn't done: the request has another version (AoE r11, error codes).
pub(crate) const OTHER_VERSION: u8 = 5;

/// Status after an ATA command that was done (ATA/ATAPI-6, Status register; own: DSC is always set).
pub const GOOD_STATUS: u8 = DRDY | DSC;

/// Status after an ATA command that failed (ATA/ATAPI-6, Status register; own: DSC is always set).
pub(crate) const FAILED_STATUS: u8 = DRDY | DSC | ERR;

/// Error after an ATA command that was done (ATA/ATAPI-6, Error register).
pub(crate) const NO_ERROR: u8 = 0;

/// How many requests the server keeps at a time (own).
pub(crate) const REQUESTS_KEPT: u16 = 64;

/// The version of its firmware (own).
pub(crate) const FIRMWARE: u16 = 1;

/// The most sectors that a request is served (own).
pub const MOST_SECTORS: u8 = 2;

/// What is done with the configuration string: it is read (AoE r11, Query Config Information).
pub(crate) const READ_STRING: u8 = 0;

/// What the server says of its configuration. The string has no byte (own).
pub(crate) const CONFIGURATION: ConfigPart = ConfigPart {
    buffers: REQUESTS_KEPT,
    firmware: FIRMWARE,
    count: MOST_SECTORS,
    version: VERSION,
    code: READ_STRING,
    length: 0,
};

// A reply with an argument.
pub(crate) fn accepted(request: &Header, argument: Argument) -> Aoe
    ensures reply { result ≡ accepted request.now argument }
{
    Aoe {
        header: reply_header(request, REPLY, 0),
        argument,
    }
}

// A reply that says why there is none.
pub(crate) fn refusal(request: &Header, error: u8) -> Aoe
    ensures reply { result ≡ refusal request.now error }
{
    Aoe {
        header: reply_header(request, REPLY | FAILED, error),
        argument: Argument::Other,
    }
}

fn reply_header(request: &Header, flags: u8, error: u8) -> Header
    ensures header { result ≡ reply_header request.now flags error }
{
    Header {
        dest: request.source,
        source: SERVER,
        version: VERSION,
        flags,
        error,
        major: MAJOR,
        minor: MINOR,
        command: request.command,
        tag: request.tag,
    }
}

// The registers of the request with Error, Status and a body.
pub(crate) fn answered(part: &AtaPart, error: u8, status: u8, body: Body) -> AtaPart
    ensures part { result ≡ answered part.now error status body }
{
    AtaPart {
        flags: part.flags,
        feature: error,
        count: part.count,
        command: status,
        lba: part.lba,
        body,
    }
}
