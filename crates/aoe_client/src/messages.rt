//! The request for a tag, and the reply to it.

ghost use Rattle.std.specs.Prelude.{◌≡◌, ◌≤◌, ◌+◌, ◌*◌, ◌↔◌, ℕ, IsTrue, Some, length};
ghost use Rattle.aoe_client.specs.Messages.{Answers, IsAnswer, IsReplyPart, IsReplyHeader, first_sector, request_frame};

use crate::tags::{PART_BYTES, PART_SECTORS};
use aoe_frame::{
    ATA, Aoe, Argument, AtaPart, BODY_AT, Bytes, CLIENT, EXTENDED, FAILED, Frame, Header, MAJOR,
    MINOR, REPLY, SERVER, VERSION, parse, write,
};
use ata_taskfile::registers::READ_SECTORS_EXT;
use image_server::GOOD_STATUS;

// The request for a tag.
pub(crate) fn request(tag: u32) -> Frame
    ensures { result ≡ request_frame tag }
{
    write(&Aoe {
        header: Header {
            dest: SERVER,
            source: CLIENT,
            version: VERSION,
            flags: 0,
            error: 0,
            major: MAJOR,
            minor: MINOR,
            command: ATA,
            tag,
        },
        argument: Argument::Ata(AtaPart {
            flags: EXTENDED,
            feature: 0,
            count: PART_SECTORS,
            command: READ_SECTORS_EXT,
            lba: first_sector(tag),
            body: Bytes::new(),
        }),
    })
}

// The first of a tag's two sectors.
fn first_sector(tag: u32) -> u64
    ensures { result ≡ first_sector tag }
{
    u64::from(PART_SECTORS) * u64::from(tag)
}

// The tag that a frame answers.
pub(crate) fn answered_by(frame: &Frame) -> Option<u32>
    ensures tag { (tag : ℕ) → (result ≡ Some tag) ↔ Answers frame.now tag }
    ensures long { (tag : ℕ) → result ≡ Some tag → BODY_AT + PART_BYTES ≤ length frame.now }
{
    match parse(frame) {
        Ok(message) => tag_of(&message),
        Err(_) => None,
    }
}

fn tag_of(message: &Aoe) -> Option<u32>
    ensures { (tag : ℕ) → (result ≡ Some tag) ↔ IsAnswer message.now tag }
{
    let header = message.header;
    let Argument::Ata(part) = &message.argument else {
        return None;
    };
    if is_reply(&header) && is_read(part, header.tag) {
        Some(header.tag)
    } else {
        None
    }
}

fn is_reply(header: &Header) -> bool
    ensures { IsTrue result ↔ IsReplyHeader header.now }
{
    header.dest == CLIENT
        && header.source == SERVER
        && header.major == MAJOR
        && header.minor == MINOR
        && header.flags & REPLY != 0
        && header.flags & FAILED == 0
        && header.command == ATA
}

fn is_read(part: &AtaPart, tag: u32) -> bool
    ensures { IsTrue result ↔ IsReplyPart part.now tag }
{
    part.flags == EXTENDED
        && part.count == PART_SECTORS
        && part.command == GOOD_STATUS
        && part.lba == first_sector(tag)
        && part.body.as_slice().len() >= PART_BYTES
}
