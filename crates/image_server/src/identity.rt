//! The answer to IDENTIFY DEVICE.

ghost use Rattle.std.specs.Prelude.{◌≡◌};
ghost use Rattle.image_server.specs.Identity.{server_identity};

use crate::body::{Body, put_text};

// Words 10 to 19 (own).
const SERIAL_NUMBER: &[u8] = b"BMC00000000000000002";

// Words 23 to 26 (own).
const FIRMWARE_REVISION: &[u8] = b"1.0     ";

// Words 27 to 46 (own).
const MODEL_NUMBER: &[u8] = b"BMCAST IMAGE                            ";

/// Word 49: addresses are numbers of sectors (ATA/ATAPI-6, IDENTIFY DEVICE).
pub(crate) const CAPABILITIES: u16 = 0x0200;

/// Word 83: addresses may have 48 bits (ATA/ATAPI-6, IDENTIFY DEVICE).
pub(crate) const COMMAND_SETS: u16 = 0x4400;

/// The sector that says what the server is, the low byte of each word first (ATA/ATAPI-6, IDENTIFY DEVICE). Each word
/// that has no comment is 0.
pub(crate) fn server_identity(sectors: u64) -> Body
    ensures bytes { result ≡ server_identity sectors }
{
    let count = sectors.to_le_bytes();
    let mut body = Body::new();
    body.append(&[0; 20]);
    // Words 10 to 19.
    put_text(SERIAL_NUMBER, &mut body);
    body.append(&[0; 6]);
    // Words 23 to 26, and 27 to 46.
    put_text(FIRMWARE_REVISION, &mut body);
    put_text(MODEL_NUMBER, &mut body);
    body.append(&[0; 4]);
    // Word 49.
    body.append(&CAPABILITIES.to_le_bytes());
    body.append(&[0; 20]);
    // Words 60 and 61: the low 32 bits of the number of sectors.
    body.append(&count[..4]);
    body.append(&[0; 42]);
    // Word 83.
    body.append(&COMMAND_SETS.to_le_bytes());
    body.append(&[0; 32]);
    // Words 100 to 103: the number of sectors.
    body.append(&count);
    body.append(&[0; 304]);
    body
}
