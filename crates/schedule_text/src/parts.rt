//! The parts of a schedule's line: names of registers, hexadecimal and decimal numbers.

ghost use Rattle.std.specs.Prelude.{◌≡◌, ◌≢◌, ◌<◌, ◌≤◌, ◌*◌, ◌^◌, ◌++◌, ◌∷◌, [], ℕ, Bool, List};
ghost use Rattle.std.specs.Prelude.{length, take, IfSome, MatchOption};
ghost use Rattle.std.specs.Bool.{OnTrue, OnFalse};
ghost use Rattle.ata_taskfile.specs.declared.Reg.{Reg as RegOf};
ghost use Rattle.schedule_text.specs.Line.{register_text, hex_digit, hex_byte, hex_text, hex_long};
ghost use Rattle.schedule_text.specs.Line.{value_of, keep_text, AreBytes, AreSomeBytes, ReadsNumber};
ghost use Rattle.decimal_text.specs.Decimal.{IsDecimal};

use crate::{LAST_PLACE, LineFault};
use aoe_frame::{Bytes, Frame, MOST_BYTES};
use ata_taskfile::Reg;
use decimal_text::{is_decimal, value};

pub(crate) fn register_and_byte(text: &[u8]) -> Option<(Reg, u8)>
    ensures told { MatchOption result
        ((r : RegOf) (v : ℕ) → v < 256 → text.now ≢ register_text r ++ 32 ∷ hex_byte v)
        (λ pair. (pair.1 < 256) × (text.now ≡ register_text pair.0 ++ 32 ∷ hex_byte pair.1)) }
{
    let [name @ .., b' ', high, low] = text else {
        return None;
    };
    Some((register(name)?, byte(*high, *low)?))
}

pub(crate) fn register(name: &[u8]) -> Option<Reg>
    ensures told { MatchOption result ((r : RegOf) → name.now ≢ register_text r)
        (λ r. name.now ≡ register_text r) }
{
    match name {
        b"er" => Some(Reg::Error),
        b"sc" => Some(Reg::Count),
        b"ll" => Some(Reg::Low),
        b"lm" => Some(Reg::Mid),
        b"lh" => Some(Reg::High),
        b"dv" => Some(Reg::Device),
        b"st" => Some(Reg::Status),
        b"al" => Some(Reg::Alternate),
        b"bc" => Some(Reg::BusCommand),
        b"bs" => Some(Reg::BusStatus),
        _ => None,
    }
}

// One byte or more, of two digits each.
pub(crate) fn bytes<const N: usize>(text: &[u8]) -> Option<Bytes<N>>
    ensures told { MatchOption result
        ((all : List ℕ) → AreSomeBytes N all → text.now ≢ hex_text all)
        (λ all. AreSomeBytes N all × (text.now ≡ hex_text all)) }
{
    let mut room = [0; N];
    let count = put_some_bytes(text, &mut room)?;
    let mut bytes = Bytes::new();
    bytes.append(&room[..count]);
    Some(bytes)
}

// The same as a frame.
pub(crate) fn frame(text: &[u8]) -> Option<Frame>
    ensures told { MatchOption result
        ((all : List ℕ) → AreSomeBytes MOST_BYTES all → text.now ≢ hex_text all)
        (λ all. AreSomeBytes MOST_BYTES all × (text.now ≡ hex_text all)) }
{
    let mut room = [0; MOST_BYTES];
    let count = put_some_bytes(text, &mut room)?;
    Frame::from_slice(&room[..count])
}

// The bytes of a text of one byte or more, of two digits each, at the start of `room`; how many.
fn put_some_bytes(text: &[u8], room: &mut [u8]) -> Option<usize>
    ensures told { MatchOption result
        ((all : List ℕ) → AreSomeBytes (length room.old) all → text.now ≢ hex_text all)
        (λ count. (count ≤ length room.old) × AreSomeBytes (length room.old) (take count room.new)
        × (text.now ≡ hex_text (take count room.new))) }
    ensures len { length room.new ≡ length room.old }
{
    let count = text.len() / 2;
    if text.is_empty() || text.len() % 2 != 0 || count > room.len() {
        return None;
    }
    if !put_bytes(text, &mut room[..count]) {
        return None;
    }
    Some(count)
}

// The bytes of a text of two digits each, in place of what `bytes` holds; whether the text has such digits alone.
fn put_bytes(text: &[u8], bytes: &mut [u8]) -> bool
    requires { length text.now ≡ 2 * length bytes.old }
    ensures good { OnTrue result (AreBytes bytes.new × (text.now ≡ hex_text bytes.new)) }
    ensures bad { OnFalse result
        ((all : List ℕ) → AreBytes all → text.now ≢ hex_text all) }
    ensures len { length bytes.new ≡ length bytes.old }
{
    let mut good = true;
    for i in 0..bytes.len() {
        let high = digit_value(text[2 * i]);
        let low = digit_value(text[2 * i + 1]);
        good = good & (high < 16) & (low < 16);
        bytes[i] = high % 16 * 16 + low % 16;
    }
    good
}

// A number of eight digits.
pub(crate) fn long(text: &[u8]) -> Option<u32>
    ensures told { MatchOption result ((v : ℕ) → v < 2 ^ 32 → text.now ≢ hex_long v)
        (λ v. (v < 2 ^ 32) × (text.now ≡ hex_long v)) }
{
    match long_and_rest(text)? {
        (number, []) => Some(number),
        _ => None,
    }
}

// A number of eight digits, and what follows the space behind them.
pub(crate) fn address_and_rest(text: &[u8]) -> Option<(u32, &[u8])>
    ensures told { MatchOption result
        ((v : ℕ) (rest : List ℕ) → v < 2 ^ 32 → text.now ≢ hex_long v ++ 32 ∷ rest)
        (λ pair. (pair.0 < 2 ^ 32) × (text.now ≡ hex_long pair.0 ++ 32 ∷ pair.1.now)) }
{
    match long_and_rest(text)? {
        (address, [b' ', rest @ ..]) => Some((address, rest)),
        _ => None,
    }
}

// A number of eight digits, and what follows them.
fn long_and_rest(text: &[u8]) -> Option<(u32, &[u8])>
    ensures told { MatchOption result
        ((v : ℕ) (rest : List ℕ) → v < 2 ^ 32 → text.now ≢ hex_long v ++ rest)
        (λ pair. (pair.0 < 2 ^ 32) × (text.now ≡ hex_long pair.0 ++ pair.1.now)) }
{
    let (first, rest) = byte_and_rest(text)?;
    let (second, rest) = byte_and_rest(rest)?;
    let (third, rest) = byte_and_rest(rest)?;
    let (fourth, rest) = byte_and_rest(rest)?;
    Some((u32::from_be_bytes([first, second, third, fourth]), rest))
}

fn byte_and_rest(text: &[u8]) -> Option<(u8, &[u8])>
    ensures told { MatchOption result
        ((v : ℕ) (rest : List ℕ) → v < 256 → text.now ≢ hex_byte v ++ rest)
        (λ pair. (pair.0 < 256) × (text.now ≡ hex_byte pair.0 ++ pair.1.now)) }
{
    let [high, low, rest @ ..] = text else {
        return None;
    };
    Some((byte(*high, *low)?, rest))
}

fn byte(high: u8, low: u8) -> Option<u8>
    ensures found { IfSome result (λ v. high ∷ low ∷ [] ≡ hex_byte v) }
    ensures all { (v : ℕ) → v < 256 → high ∷ low ∷ [] ≡ hex_byte v → result ≡ Some v }
{
    Some(digit(high)? * 16 + digit(low)?)
}

fn digit(c: u8) -> Option<u8>
    ensures found { IfSome result (λ v. (v < 16) × (c ≡ hex_digit v)) }
    ensures all { (v : ℕ) → v < 16 → c ≡ hex_digit v → result ≡ Some v }
{
    let value = digit_value(c);
    if value < 16 { Some(value) } else { None }
}

// The value of a digit; 255 where it is none. A table of it would be slower where there are many.
fn digit_value(c: u8) -> u8
    ensures { result ≡ value_of c }
{
    match c {
        b'0'..=b'9' => c - b'0',
        b'a'..=b'f' => c - b'a' + 10,
        _ => 255,
    }
}

// The digits of a frame's place, and whether the frame stays in its list.
pub(crate) fn digits_and_keep(text: &[u8]) -> (&[u8], bool)
    ensures told { text.now ≡ result.0.now ++ keep_text result.1 }
    ensures only { (digits : List ℕ) (keep : Bool) → IsDecimal digits
        → text.now ≡ digits ++ keep_text keep → (result.0.now ≡ digits) × (result.1 ≡ keep) }
{
    match text.strip_suffix(b" keep") {
        Some(digits) => (digits, true),
        None => (text, false),
    }
}

// A place in the drive's cache, or in a list of frames.
pub(crate) fn place(digits: &[u8]) -> Result<u32, LineFault>
    ensures number { ReadsNumber 0 LAST_PLACE digits.now result }
{
    number(digits, 0, LAST_PLACE)
}

// A decimal number that may be from `low` to `high`.
pub(crate) fn number(digits: &[u8], low: u32, high: u32) -> Result<u32, LineFault>
    ensures number { ReadsNumber low high digits.now result }
{
    if !is_decimal(digits) {
        return Err(LineFault::Form);
    }
    match value(digits) {
        Some(number) if u64::from(low) <= number && number <= u64::from(high) => Ok(number as u32),
        _ => Err(LineFault::Number),
    }
}
