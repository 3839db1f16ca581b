//! What a frame says: a header, and an argument by its command.

use crate::Bytes;

/// The type of the frames that are of ATA over Ethernet (AoE r11, common header).
pub const ETHER_TYPE: u16 = 0x88a2;

/// The version that is spoken here (AoE r11, common header).
pub const VERSION: u8 = 1;

/// Header flags: the frame is a reply (AoE r11, common header).
pub const REPLY: u8 = 8;

/// Header flags: the command failed, and `error` says why (AoE r11, common header).
pub const FAILED: u8 = 4;

/// The command that takes an ATA argument (AoE r11, Issue ATA Command).
pub const ATA: u8 = 0;

/// The command that takes a configuration argument (AoE r11, Query Config Information).
pub const CONFIG: u8 = 1;

/// ATA flags: the ATA command is one of 48-bit addresses (AoE r11, Issue ATA Command).
pub const EXTENDED: u8 = 0x40;

/// ATA flags: the body goes to the device (AoE r11, Issue ATA Command).
pub const WRITE: u8 = 0x01;

/// The place of the type in a frame, behind the two Ethernet addresses (AoE r11, common header).
pub const TYPE_AT: usize = 12;

/// The place behind the type (AoE r11, common header).
pub const TYPE_END: usize = 14;

/// The bytes of a header, from the destination to the tag; the argument begins behind them (AoE r11, common header).
pub const HEADER_BYTES: usize = 24;

/// The bytes of an ATA argument in front of its body, the two reserved ones too (AoE r11, Issue ATA Command).
pub const ATA_BYTES: usize = 12;

/// The bytes of a configuration argument in front of its string (AoE r11, Query Config Information).
pub const CONFIG_BYTES: usize = 8;

/// The place in a frame at which the body of an ATA argument begins (AoE r11, Issue ATA Command).
pub const BODY_AT: usize = HEADER_BYTES + ATA_BYTES;

/// The most bytes that the body of an ATA argument has: two sectors of 512 bytes (own).
pub const MOST_BODY: usize = 1024;

/// The fields that every frame begins with, in wire order but for the type (AoE r11, common header).
#[derive(Clone, Copy, Debug, PartialEq, Eq)]
pub struct Header {
    /// The Ethernet address that the frame goes to.
    pub dest: [u8; 6],
    /// The Ethernet address that it comes from.
    pub source: [u8; 6],
    /// Below 16.
    pub version: u8,
    /// `REPLY` and `FAILED`; below 16.
    pub flags: u8,
    /// Why the command failed, where `FAILED` is set.
    pub error: u8,
    /// The major address of the target, its shelf.
    pub major: u16,
    /// The minor address of the target, its slot in the shelf.
    pub minor: u8,
    /// `ATA`, `CONFIG`, or another, which has no argument here.
    pub command: u8,
    /// What a reply is found again by; the sender of the request chooses it.
    pub tag: u32,
}

/// What follows the header.
#[derive(Clone, Debug, Drop, PartialEq, Eq)]
pub enum Argument {
    /// Of the command `ATA`.
    Ata(AtaPart),
    /// Of the command `CONFIG`.
    Config(ConfigPart),
    /// Of any other command: it isn't looked at.
    Other,
}

/// The registers of an ATA command, or of its answer, and the bytes that go with it (AoE r11, Issue ATA Command).
#[derive(Clone, Debug, Drop, PartialEq, Eq)]
pub struct AtaPart {
    /// `EXTENDED` and `WRITE`, and the bits 10h and 02h, which the image server doesn't look at.
    pub flags: u8,
    /// Features in a request, Error in a reply.
    pub feature: u8,
    /// Sector Count.
    pub count: u8,
    /// Command in a request, Status in a reply.
    pub command: u8,
    /// The address of the first sector, below 2^48.
    pub lba: u64,
    /// The bytes behind the two reserved ones, to the frame's end.
    pub body: Bytes<MOST_BODY>,
}

/// What a server has room for, and its configuration string, which isn't kept (AoE r11, Query Config Information).
#[derive(Clone, Copy, Debug, PartialEq, Eq)]
pub struct ConfigPart {
    /// How many requests the server keeps at a time.
    pub buffers: u16,
    /// The version of its firmware.
    pub firmware: u16,
    /// The most sectors in a request.
    pub count: u8,
    /// The version that it speaks; below 16.
    pub version: u8,
    /// What is done with the string; below 16.
    pub code: u8,
    /// How many bytes the string has, which would follow.
    pub length: u16,
}

/// What a frame says (AoE r11).
#[derive(Clone, Debug, Drop, PartialEq, Eq)]
pub struct Aoe {
    pub header: Header,
    pub argument: Argument,
}

/// Why a frame says nothing, the first that holds.
#[derive(Clone, Copy, Debug, PartialEq, Eq)]
pub enum FrameFault {
    /// It ends before its type, in its header, or in its argument.
    Short,
    /// It is of another type.
    NotAoe,
    /// It has this header, of another version than `VERSION`.
    Version(Header),
}
