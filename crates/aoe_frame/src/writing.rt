//! The bytes of what a frame says.

ghost use Rattle.std.specs.Prelude.{◌≡◌, ◌≤◌, ◌+◌, ◌++◌, List, ℕ, [], length};
ghost use Rattle.aoe_frame.specs.Layout.{AtaFits, ConfigFits, Fits, IsArgumentOf, IsWritable, SaysMessage, argument_written, frame_of, header_bytes, HeaderFits};

use crate::frame::{FrameBytes, MOST_BYTES};
use crate::{Aoe, Argument, AtaPart, ConfigPart, ETHER_TYPE, Frame, HEADER_BYTES, Header};
use arrayvec::ArrayVec;

/// The shortest frame that says this (AoE r11). The two reserved bytes of an ATA argument are 0 (own).
///
/// Each number has to fit its place, and the argument is the one that the command takes, or `Other`, which is no
/// bytes.
pub fn write(message: &Aoe) -> Frame
    requires fits { Fits message.now }
    requires kind { IsWritable message.now.header.command message.now.argument }
    ensures frame { result ≡ frame_of message.now }
    ensures read_back { IsArgumentOf message.now.header.command message.now.argument →
        SaysMessage result message.now }
    ensures shortest { (bytes : List ℕ) → SaysMessage bytes message.now →
        length result ≤ length bytes }
    ensures other { message.now.argument ≡ Argument.Other → length result ≡ HEADER_BYTES }
{
    write_all(message)
}

fn write_all(message: &Aoe) -> Frame
    requires fits { Fits message.now }
    requires kind { IsWritable message.now.header.command message.now.argument }
    ensures frame { result ≡ frame_of message.now }
{
    let mut bytes = ArrayVec::new();
    write_header(&message.header, &mut bytes);
    match &message.argument {
        Argument::Ata(part) => write_ata(part, &mut bytes),
        Argument::Config(part) => write_config(part, &mut bytes),
        Argument::Other => {}
    }
    Frame::of(bytes)
}

fn write_header(header: &Header, frame: &mut FrameBytes)
    requires fits { HeaderFits header.now }
    requires first { frame.old.items ≡ [] }
    ensures header { frame.new.items ≡ header_bytes header.now }
    ensures bytes { length frame.new.items ≡ HEADER_BYTES }
{
    append(&header.dest, frame);
    append(&header.source, frame);
    append(&ETHER_TYPE.to_be_bytes(), frame);
    frame.push(header.version * 16 + header.flags);
    frame.push(header.error);
    append(&header.major.to_be_bytes(), frame);
    frame.push(header.minor);
    frame.push(header.command);
    append(&header.tag.to_be_bytes(), frame);
}

fn write_ata(part: &AtaPart, frame: &mut FrameBytes)
    requires fits { AtaFits part.now }
    requires few { length frame.old.items ≡ HEADER_BYTES }
    ensures part { frame.new.items
        ≡ frame.old.items ++ argument_written (Argument.Ata part.now) }
{
    frame.push(part.flags);
    frame.push(part.feature);
    frame.push(part.count);
    frame.push(part.command);
    append(&part.lba.to_le_bytes()[..6], frame);
    append(&[0, 0], frame);
    append(part.body.as_slice(), frame);
}

fn write_config(part: &ConfigPart, frame: &mut FrameBytes)
    requires fits { ConfigFits part.now }
    requires few { length frame.old.items ≡ HEADER_BYTES }
    ensures part { frame.new.items
        ≡ frame.old.items ++ argument_written (Argument.Config part.now) }
{
    append(&part.buffers.to_be_bytes(), frame);
    append(&part.firmware.to_be_bytes(), frame);
    frame.push(part.count);
    frame.push(part.version * 16 + part.code);
    append(&part.length.to_be_bytes(), frame);
}

fn append(bytes: &[u8], frame: &mut FrameBytes)
    requires room { length frame.old.items + length bytes.now ≤ MOST_BYTES }
    ensures items { frame.new.items ≡ frame.old.items ++ bytes.now }
    ensures count { length frame.new.items ≡ length frame.old.items + length bytes.now }
{
    let _fits = frame.try_extend_from_slice(bytes);
}
