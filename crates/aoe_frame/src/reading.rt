//! What a frame says, from its bytes.

ghost use Rattle.std.specs.Prelude.{◌≡◌, ◌≤◌, ◌<◌, ◌+◌, ◌↔◌, length, take, drop, MatchOption, MatchResult, Ok, Err};
ghost use Rattle.aoe_frame.specs.declared.message.Header.{Header as HeaderOf};
ghost use Rattle.aoe_frame.specs.declared.message.Aoe.{Aoe as AoeOf};
ghost use Rattle.aoe_frame.specs.Layout.{HasFrameHeader, HasArgument, ArgumentFits, AtaFits, ConfigFits, IsArgumentOf};
ghost use Rattle.aoe_frame.specs.Reading.{IsReading, IsAoe, IsMessage, IsOfOtherType, IsOfOtherVersion, IsShort, bytes_needed};

use crate::numbers::{u16_at, u32_at, u48_at};
use crate::{
    ATA, ATA_BYTES, Aoe, Argument, AtaPart, Bytes, CONFIG, CONFIG_BYTES, ConfigPart, ETHER_TYPE,
    Frame, FrameFault, HEADER_BYTES, Header, MOST_BYTES, TYPE_AT, TYPE_END, VERSION,
};

/// What a frame says (AoE r11).
///
/// The fault is the first that holds: it ends before its type, is of another type, ends in its header, has another
/// version than `VERSION`, or ends in the argument of its command. Bytes behind an argument are the body of an ATA
/// argument, and mean nothing otherwise.
pub fn parse(frame: &Frame) -> Result<Aoe, FrameFault>
    ensures reads { IsReading frame.now result }
    ensures message { (m : AoeOf) → (result ≡ Ok m) ↔ IsMessage frame.now m }
    ensures short { (result ≡ Err FrameFault.Short) ↔ IsShort frame.now }
    ensures not_aoe { (result ≡ Err FrameFault.NotAoe) ↔ IsOfOtherType frame.now }
    ensures version { (h : HeaderOf) →
        (result ≡ Err (FrameFault.Version h)) ↔ IsOfOtherVersion frame.now h }
{
    read(frame.as_slice())
}

fn read(bytes: &[u8]) -> Result<Aoe, FrameFault>
    requires few { length bytes.now ≤ MOST_BYTES }
    ensures reads { IsReading bytes.now result }
{
    let header = read_header(bytes)?;
    if header.version != VERSION {
        return Err(FrameFault::Version(header));
    }
    match read_argument(header.command, &bytes[HEADER_BYTES..]) {
        Some(argument) => Ok(Aoe { header, argument }),
        None => Err(FrameFault::Short),
    }
}

fn read_header(bytes: &[u8]) -> Result<Header, FrameFault>
    ensures header { MatchResult result (HasFrameHeader bytes.now)
        (λ fault. IsReading bytes.now (Err fault)) }
{
    if bytes.len() < TYPE_END {
        return Err(FrameFault::Short);
    }
    if u16_at(bytes, TYPE_AT) != ETHER_TYPE {
        return Err(FrameFault::NotAoe);
    }
    if bytes.len() < HEADER_BYTES {
        return Err(FrameFault::Short);
    }
    Ok(header_in(bytes))
}

fn header_in(bytes: &[u8]) -> Header
    requires long { HEADER_BYTES ≤ length bytes.now }
    requires aoe { IsAoe bytes.now }
    ensures header { HasFrameHeader bytes.now result }
{
    Header {
        dest: address_at(bytes, 0),
        source: address_at(bytes, 6),
        version: bytes[14] / 16,
        flags: bytes[14] % 16,
        error: bytes[15],
        major: u16_at(bytes, 16),
        minor: bytes[18],
        command: bytes[19],
        tag: u32_at(bytes, 20),
    }
}

fn address_at(bytes: &[u8], at: usize) -> [u8; 6]
    requires within { at + 6 ≤ length bytes.now }
    ensures address { result ≡ take 6 (drop at bytes.now) }
{
    let mut address = [0; 6];
    address.copy_from_slice(&bytes[at..at + 6]);
    address
}

fn read_argument(command: u8, bytes: &[u8]) -> Option<Argument>
    requires few { HEADER_BYTES + length bytes.now ≤ MOST_BYTES }
    ensures argument { MatchOption result (HEADER_BYTES + length bytes.now < bytes_needed command)
        (λ a. IsArgumentOf command a × HasArgument bytes.now a × ArgumentFits a) }
{
    match command {
        ATA => Some(Argument::Ata(read_ata(bytes)?)),
        CONFIG => Some(Argument::Config(read_config(bytes)?)),
        _ => Some(Argument::Other),
    }
}

fn read_ata(bytes: &[u8]) -> Option<AtaPart>
    requires few { HEADER_BYTES + length bytes.now ≤ MOST_BYTES }
    ensures part { MatchOption result (length bytes.now < ATA_BYTES)
        (λ a. HasArgument bytes.now (Argument.Ata a) × AtaFits a) }
{
    if bytes.len() < ATA_BYTES {
        return None;
    }
    Some(AtaPart {
        flags: bytes[0],
        feature: bytes[1],
        count: bytes[2],
        command: bytes[3],
        lba: u48_at(bytes, 4),
        body: Bytes::of(&bytes[ATA_BYTES..]),
    })
}

fn read_config(bytes: &[u8]) -> Option<ConfigPart>
    ensures part { MatchOption result (length bytes.now < CONFIG_BYTES)
        (λ c. HasArgument bytes.now (Argument.Config c) × ConfigFits c) }
{
    if bytes.len() < CONFIG_BYTES {
        return None;
    }
    Some(ConfigPart {
        buffers: u16_at(bytes, 0),
        firmware: u16_at(bytes, 2),
        count: bytes[4],
        version: bytes[5] / 16,
        code: bytes[5] % 16,
        length: u16_at(bytes, 6),
    })
}
