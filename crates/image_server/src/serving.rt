//! A frame served.

ghost use Rattle.std.specs.Prelude.{if◌then◌else◌, ◌==◌, ℕ, List, Ok, Err, ◌^◌, ◌≡◌, ◌≤◌, ◌<◌, ◌+◌, ◌*◌, length, option_map, IfOk, OnErr};
ghost use Rattle.bm_host.specs.Outside.{Counted, IfTold, Reads, SameBytes, bytes_at};
ghost use Rattle.aoe_frame.specs.declared.message.Header.{Header as HeaderOf};
ghost use Rattle.aoe_frame.specs.Layout.{AtaFits, Fits, HeaderFits, IsArgumentOf, IsWritable, frame_of};
ghost use Rattle.image_server.specs.Request.{asked_in};
ghost use Rattle.image_server.specs.Reply.{ata_answer, accepted, configuration, if_heard, refusal, reply, reply_to, sectors_replied, sectors_sent};
ghost use Rattle.image_server.specs.Serving.{HasImage, HasSectors, IsReply, LooksAtMost, LooksAtSent, OverImage};

use crate::body::Body;
use crate::identity::server_identity;
use crate::reply::{
    BAD_ARGUMENT, CONFIGURATION, FAILED_STATUS, GOOD_STATUS, MOST_SECTORS, NO_ERROR, OTHER_VERSION,
    READ_STRING, UNKNOWN_COMMAND, accepted, answered, refusal,
};
use crate::request::{Asked, asked_in, is_heard};
use aoe_frame::{
    Aoe, Argument, AtaPart, ConfigPart, Frame, FrameFault, Header, MOST_BODY, parse, write,
};
use ata_taskfile::registers::{ABRT, IDNF, SECTOR_BYTES};
use bm_host::{Failed, Host, Role};

/// The server's reply to a frame, over the first so many sectors of Image; None is silence (docs/network.md).
pub fn serve<H: Host>(host: &mut H, sectors: u64, frame: &Frame) -> Result<Option<Frame>, Failed>
    requires image { HasImage sectors (H.outside host.old) }
    ensures answer { IfOk result (λ answer. OverImage sectors ((H.outside host.old).told Role.Image)
        (λ image. IsReply sectors image frame.now answer)) }

    // It fails only where sectors go into the reply.
    ensures cause { Counted Reads Role.Image (H.outside host.old) (H.outside host.new) result }
    ensures needed { OnErr result (HasSectors sectors frame.now) }
    ensures bytes { SameBytes (H.outside host.old) (H.outside host.new) }
    ensures looked { LooksAtSent sectors frame.now (H.outside host.old) (H.outside host.new) }
{
    match parse(frame) {
        Ok(message) => serve_message(host, sectors, &message),
        Err(fault) => Ok(refuse(&fault)),
    }
}

fn refuse(fault: &FrameFault) -> Option<Frame>
    requires fits { (h : HeaderOf) → fault.now ≡ FrameFault.Version h → HeaderFits h }
    ensures answer { (sectors : ℕ) (image : List ℕ) →
        result ≡ option_map frame_of (reply sectors image (Err fault.now)) }
{
    match fault {
        FrameFault::Short | FrameFault::NotAoe => None,
        FrameFault::Version(header) => refuse_version(header),
    }
}

fn refuse_version(header: &Header) -> Option<Frame>
    requires fits { HeaderFits header.now }
    ensures answer { result
        ≡ option_map frame_of (if_heard header.now (refusal header.now OTHER_VERSION)) }
{
    if !is_heard(header) {
        return None;
    }
    Some(write(&refusal(header, OTHER_VERSION)))
}

#[tactic(auto, using(crate::proofs::Images::over_any, crate::proofs::Images::over_map))]
fn serve_message<H: Host>(
    host: &mut H,
    sectors: u64,
    message: &Aoe,
) -> Result<Option<Frame>, Failed>
    requires fits { Fits message.now }
    requires kind { IsArgumentOf message.now.header.command message.now.argument }
    requires image { HasImage sectors (H.outside host.old) }
    ensures answer { IfOk result (λ answer. OverImage sectors ((H.outside host.old).told Role.Image)
        (λ image. answer ≡ option_map frame_of (reply sectors image (Ok message.now)))) }
    ensures cause { Counted Reads Role.Image (H.outside host.old) (H.outside host.new) result }
    ensures needed { OnErr result (0 < sectors_sent sectors (Ok message.now)) }
    ensures bytes { SameBytes (H.outside host.old) (H.outside host.new) }
    ensures looked { LooksAtMost (sectors_sent sectors (Ok message.now))
        (H.outside host.old) (H.outside host.new) }
{
    if !is_heard(&message.header) {
        return Ok(None);
    }
    let reply = reply_to(host, sectors, message)?;
    Ok(Some(write(&reply)))
}

#[tactic(auto, using(crate::proofs::Images::over_any, crate::proofs::Images::over_map))]
fn reply_to<H: Host>(host: &mut H, sectors: u64, message: &Aoe) -> Result<Aoe, Failed>
    requires fits { Fits message.now }
    requires kind { IsArgumentOf message.now.header.command message.now.argument }
    requires image { HasImage sectors (H.outside host.old) }
    ensures reply { IfOk result (λ reply. OverImage sectors ((H.outside host.old).told Role.Image)
        (λ image. reply ≡ reply_to sectors image message.now.header message.now.argument)) }
    ensures fits { IfOk result Fits }
    ensures kind { IfOk result (λ reply. IsWritable reply.header.command reply.argument) }
    ensures cause { Counted Reads Role.Image (H.outside host.old) (H.outside host.new) result }
    ensures needed { OnErr result (0 < sectors_replied sectors message.now.argument) }
    ensures bytes { SameBytes (H.outside host.old) (H.outside host.new) }
    ensures looked { LooksAtMost (sectors_replied sectors message.now.argument)
        (H.outside host.old) (H.outside host.new) }
{
    match &message.argument {
        Argument::Ata(part) => {
            let part = ata_answer(host, sectors, part)?;
            Ok(accepted(&message.header, Argument::Ata(part)))
        }
        Argument::Config(part) => Ok(config_reply(&message.header, part)),
        Argument::Other => Ok(refusal(&message.header, UNKNOWN_COMMAND)),
    }
}

fn config_reply(header: &Header, part: &ConfigPart) -> Aoe
    ensures reply { result ≡ (if part.now.code == READ_STRING
        then accepted header.now (Argument.Config configuration)
        else refusal header.now BAD_ARGUMENT) }
{
    if part.code == READ_STRING {
        accepted(header, Argument::Config(CONFIGURATION))
    } else {
        refusal(header, BAD_ARGUMENT)
    }
}

#[tactic(auto, using(crate::proofs::Served::answer_plain, crate::proofs::Served::answer_sectors))]
fn ata_answer<H: Host>(host: &mut H, sectors: u64, part: &AtaPart) -> Result<AtaPart, Failed>
    requires fits { AtaFits part.now }
    requires image { HasImage sectors (H.outside host.old) }
    ensures answer { IfOk result (λ answer. OverImage sectors ((H.outside host.old).told Role.Image)
        (λ image. answer ≡ ata_answer (asked_in sectors part.now) sectors image part.now)) }
    ensures fits { IfOk result AtaFits }
    ensures cause { Counted Reads Role.Image (H.outside host.old) (H.outside host.new) result }
    ensures needed { OnErr result (0 < sectors_replied sectors (Argument.Ata part.now)) }
    ensures bytes { SameBytes (H.outside host.old) (H.outside host.new) }
    ensures looked { LooksAtMost (sectors_replied sectors (Argument.Ata part.now))
        (H.outside host.old) (H.outside host.new) }
{
    match asked_in(part, sectors) {
        Asked::Sectors => {
            let body = read_sectors(host, part.lba, part.count)?;
            Ok(answered(part, NO_ERROR, GOOD_STATUS, body))
        }
        Asked::PastTheEnd => Ok(answered(part, IDNF, FAILED_STATUS, Body::new())),
        Asked::Identity => Ok(answered(part, NO_ERROR, GOOD_STATUS, server_identity(sectors))),
        Asked::Refused => Ok(answered(part, ABRT, FAILED_STATUS, Body::new())),
    }
}

// Reads so many sectors of the image.
fn read_sectors<H: Host>(host: &mut H, first: u64, count: u8) -> Result<Body, Failed>
    requires some { 1 ≤ count }
    requires few { count ≤ MOST_SECTORS }
    requires address { first < 2 ^ 48 }
    requires image { HasImage (first + count) (H.outside host.old) }
    ensures body { IfOk result (λ body. IfTold ((H.outside host.old).told Role.Image)
        (λ image. body ≡ bytes_at (SECTOR_BYTES * first) (SECTOR_BYTES * count) image)) }
    ensures count { IfOk result (λ body. length body ≡ SECTOR_BYTES * count) }
    ensures cause { Counted Reads Role.Image (H.outside host.old) (H.outside host.new) result }
    ensures bytes { SameBytes (H.outside host.old) (H.outside host.new) }
    ensures looked { LooksAtMost count (H.outside host.old) (H.outside host.new) }
{
    let mut room = [0; MOST_BODY];
    let sectors = &mut room[..SECTOR_BYTES * count as usize];
    host.read_at(Role::Image, SECTOR_BYTES as u64 * first, sectors)?;
    let mut body = Body::new();
    body.append(sectors);
    Ok(body)
}
