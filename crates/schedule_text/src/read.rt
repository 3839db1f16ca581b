//! The lines of a schedule, from bytes.

ghost use Rattle.std.specs.Prelude.{◌≡◌, ◌<◌, ◌≤◌, ◌+◌, ◌++◌, ◌∷◌, ◌↔◌, ℕ, List};
ghost use Rattle.std.specs.Prelude.{length, codes, IfOk, IfErr};
ghost use Rattle.schedule_text.specs.declared.Event.{Event as EventOf};
ghost use Rattle.schedule_text.specs.Line.{way_text, stray_text, hex_long};
ghost use Rattle.schedule_text.specs.Line.{Says, ReadsInto, HasFault, IsOutOfRange, IsFormless};

use crate::parts::{
    address_and_rest, bytes, digits_and_keep, frame, long, number, place, register,
    register_and_byte,
};
use crate::{EVENT_BYTES, EVENT_WORDS, Event, LINE_BYTES, LineFault};
use aoe_net::Way;
use ata_taskfile::Step;

/// What one line of a schedule says. `line` is without its line feed.
///
/// The fault is the first that holds of `LongLine`, `Form` and `Number` (own). A remark may hold any bytes.
#[tactic(auto, using(crate::proofs::Grammar::one_answer))]
pub fn read_line(line: &[u8]) -> Result<Event, LineFault>
    ensures said { IfOk result (λ event. Says line.now event) }
    ensures only { (event : EventOf) → Says line.now event → result ≡ Ok event }

    ensures fault { IfErr result (λ fault. HasFault line.now fault) }
    ensures long { (result ≡ Err LineFault.LongLine) ↔ (LINE_BYTES < length line.now) }
    ensures form { (result ≡ Err LineFault.Form) ↔ IsFormless line.now }
    ensures number { (result ≡ Err LineFault.Number) ↔ IsOutOfRange line.now }
{
    let mut event = Event::Remark;
    read_event(line, &mut event)?;
    Ok(event)
}

/// Puts what one line of a schedule says in place of `event`: an event is large, and so is made where it is to stand.
///
/// `line` is without its line feed. After a fault nothing is said of `event`.
pub fn read_event(line: &[u8], event: &mut Event) -> Result<(), LineFault>
    ensures reads { ReadsInto line.now event.new result }
{
    if line.len() > LINE_BYTES {
        return Err(LineFault::LongLine);
    }
    read_short_line(line, event)
}

// The same of a line that isn't too long; so below, of what stands behind a line's first words.
fn read_short_line(line: &[u8], event: &mut Event) -> Result<(), LineFault>
    requires { length line.now ≤ LINE_BYTES }
    ensures reads { ReadsInto line.now event.new result }
{
    match line {
        [b'g', b' ', access @ ..] => return read_access(access, event),
        [b'd', b' ', act @ ..] => return read_act(act, event),
        [b'n', b' ', act @ ..] => return read_network(act, event),
        b"t" => *event = Event::Turn,
        b"k" => *event = Event::Tick,
        [] | [b'#', ..] => *event = Event::Remark,
        b"cut" => *event = Event::Cut,
        b"end" => *event = Event::End,
        _ => return Err(LineFault::Form),
    }
    Ok(())
}

// An access of the guest.
fn read_access(access: &[u8], event: &mut Event) -> Result<(), LineFault>
    requires { 2 + length access.now ≤ LINE_BYTES }
    ensures reads { ReadsInto (codes "g " ++ access.now) event.new result }
{
    match access {
        [b'r', b'8', b' ', name @ ..] => return read_read8(name, event),
        [b'w', b'8', b' ', rest @ ..] => return read_write8(rest, event),
        [b'r', b'd', b' ', digits @ ..] => return read_words(digits, event),
        [b'w', b'd', b' ', hex @ ..] => return read_write_words(hex, event),
        b"r32" => *event = Event::ReadPointer,
        [b'w', b'3', b'2', b' ', hex @ ..] => return read_write_pointer(hex, event),
        [b'm', b'r', b' ', rest @ ..] => return read_memory(rest, event),
        [b'm', b'w', b' ', rest @ ..] => return read_write_memory(rest, event),
        b"line" => *event = Event::Line,
        _ => return Err(LineFault::Form),
    }
    Ok(())
}

// An act of the drive.
fn read_act(act: &[u8], event: &mut Event) -> Result<(), LineFault>
    requires { 2 + length act.now ≤ LINE_BYTES }
    ensures reads { ReadsInto (codes "d " ++ act.now) event.new result }
{
    match act {
        b"ok" => *event = Event::Drive(Step::Good),
        b"bad" => *event = Event::Drive(Step::Bad),
        [b'p', b'u', b't', b' ', digits @ ..] => return read_destage(digits, event),
        _ => return Err(LineFault::Form),
    }
    Ok(())
}

// An act of the network.
fn read_network(act: &[u8], event: &mut Event) -> Result<(), LineFault>
    requires { 2 + length act.now ≤ LINE_BYTES }
    ensures reads { ReadsInto (codes "n " ++ act.now) event.new result }
{
    match act {
        [b's', b' ', rest @ ..] => read_deliver(Way::ToServer, rest, event),
        [b'c', b' ', rest @ ..] => read_deliver(Way::ToClient, rest, event),
        [b'l', b's', b' ', digits @ ..] => read_lose(Way::ToServer, digits, event),
        [b'l', b'c', b' ', digits @ ..] => read_lose(Way::ToClient, digits, event),
        [b'x', b' ', hex @ ..] => read_stray(Way::ToClient, hex, event),
        [b'y', b' ', hex @ ..] => read_stray(Way::ToServer, hex, event),
        _ => Err(LineFault::Form),
    }
}

fn read_read8(name: &[u8], event: &mut Event) -> Result<(), LineFault>
    requires { 5 + length name.now ≤ LINE_BYTES }
    ensures reads { ReadsInto (codes "g r8 " ++ name.now) event.new result }
{
    match register(name) {
        Some(register) => *event = Event::Read8(register),
        None => return Err(LineFault::Form),
    }
    Ok(())
}

fn read_write8(rest: &[u8], event: &mut Event) -> Result<(), LineFault>
    requires { 5 + length rest.now ≤ LINE_BYTES }
    ensures reads { ReadsInto (codes "g w8 " ++ rest.now) event.new result }
{
    match register_and_byte(rest) {
        Some((register, byte)) => *event = Event::Write8(register, byte),
        None => return Err(LineFault::Form),
    }
    Ok(())
}

fn read_words(digits: &[u8], event: &mut Event) -> Result<(), LineFault>
    requires { 5 + length digits.now ≤ LINE_BYTES }
    ensures reads { ReadsInto (codes "g rd " ++ digits.now) event.new result }
{
    match number(digits, 1, EVENT_WORDS) {
        Ok(count) => *event = Event::ReadWords(count),
        Err(fault) => return Err(fault),
    }
    Ok(())
}

#[tactic(auto, using(crate::proofs::Hex::lengths))]
fn read_write_words(hex: &[u8], event: &mut Event) -> Result<(), LineFault>
    requires { 5 + length hex.now ≤ LINE_BYTES }
    ensures reads { ReadsInto (codes "g wd " ++ hex.now) event.new result }
{
    if hex.len() % 4 != 0 {
        return Err(LineFault::Form);
    }
    match bytes(hex) {
        Some(bytes) => *event = Event::WriteWords(bytes),
        None => return Err(LineFault::Form),
    }
    Ok(())
}

fn read_write_pointer(hex: &[u8], event: &mut Event) -> Result<(), LineFault>
    requires { 6 + length hex.now ≤ LINE_BYTES }
    ensures reads { ReadsInto (codes "g w32 " ++ hex.now) event.new result }
{
    match long(hex) {
        Some(pointer) => *event = Event::WritePointer(pointer),
        None => return Err(LineFault::Form),
    }
    Ok(())
}

fn read_memory(rest: &[u8], event: &mut Event) -> Result<(), LineFault>
    requires { 5 + length rest.now ≤ LINE_BYTES }
    ensures reads { ReadsInto (codes "g mr " ++ rest.now) event.new result }
{
    match address_and_rest(rest) {
        Some((address, digits)) => read_count(address, digits, event),
        None => Err(LineFault::Form),
    }
}

fn read_count(address: u32, digits: &[u8], event: &mut Event) -> Result<(), LineFault>
    requires { 14 + length digits.now ≤ LINE_BYTES }
    ensures reads { ReadsInto (codes "g mr " ++ hex_long address ++ 32 ∷ digits.now)
        event.new result }
{
    match number(digits, 1, EVENT_BYTES) {
        Ok(count) => *event = Event::ReadMemory(address, count),
        Err(fault) => return Err(fault),
    }
    Ok(())
}

fn read_write_memory(rest: &[u8], event: &mut Event) -> Result<(), LineFault>
    requires { 5 + length rest.now ≤ LINE_BYTES }
    ensures reads { ReadsInto (codes "g mw " ++ rest.now) event.new result }
{
    match address_and_rest(rest) {
        Some((address, hex)) => read_bytes(address, hex, event),
        None => Err(LineFault::Form),
    }
}

fn read_bytes(address: u32, hex: &[u8], event: &mut Event) -> Result<(), LineFault>
    requires { 14 + length hex.now ≤ LINE_BYTES }
    ensures reads { ReadsInto (codes "g mw " ++ hex_long address ++ 32 ∷ hex.now)
        event.new result }
{
    match bytes(hex) {
        Some(bytes) => *event = Event::WriteMemory(address, bytes),
        None => return Err(LineFault::Form),
    }
    Ok(())
}

fn read_destage(digits: &[u8], event: &mut Event) -> Result<(), LineFault>
    requires { 6 + length digits.now ≤ LINE_BYTES }
    ensures reads { ReadsInto (codes "d put " ++ digits.now) event.new result }
{
    match place(digits) {
        Ok(place) => *event = Event::Destage(place),
        Err(fault) => return Err(fault),
    }
    Ok(())
}

fn read_deliver(way: Way, rest: &[u8], event: &mut Event) -> Result<(), LineFault>
    requires { 4 + length rest.now ≤ LINE_BYTES }
    ensures reads { ReadsInto (codes "n " ++ way_text way ++ 32 ∷ rest.now) event.new result }
{
    let (digits, keep) = digits_and_keep(rest);
    match place(digits) {
        Ok(place) => *event = Event::Deliver(way, place, keep),
        Err(fault) => return Err(fault),
    }
    Ok(())
}

fn read_lose(way: Way, digits: &[u8], event: &mut Event) -> Result<(), LineFault>
    requires { 5 + length digits.now ≤ LINE_BYTES }
    ensures reads { ReadsInto (codes "n l" ++ way_text way ++ 32 ∷ digits.now) event.new result }
{
    match place(digits) {
        Ok(place) => *event = Event::Lose(way, place),
        Err(fault) => return Err(fault),
    }
    Ok(())
}

fn read_stray(way: Way, hex: &[u8], event: &mut Event) -> Result<(), LineFault>
    requires { 4 + length hex.now ≤ LINE_BYTES }
    ensures reads { ReadsInto (codes "n " ++ stray_text way ++ 32 ∷ hex.now) event.new result }
{
    match frame(hex) {
        Some(frame) => *event = Event::Stray(way, frame),
        None => return Err(LineFault::Form),
    }
    Ok(())
}

/// A line says one event at most, so no two events have one text.
#[tactic(auto, using(crate::proofs::Grammar::says_once))]
pub fn line_says_one_event()
    ensures once { (line : List ℕ) (a b : EventOf) → Says line a → Says line b → a ≡ b }
{}
