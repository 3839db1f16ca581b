//! The lines of a report, as bytes.

ghost use Rattle.std.specs.Prelude.{◌≡◌, ◌≤◌, ◌+◌, ◌*◌, ◌++◌, ◌∷◌, [], length, decimal};
ghost use Rattle.schedule_text.specs.Line.{hex_digit, hex_byte, hex_text};
ghost use Rattle.schedule_text.specs.Report.{item_text, line_text, end_text};
ghost use Rattle.schedule_text.specs.Lengths.{FRONT_BYTES, NUMBER_BYTES, TEXT_BYTES};
ghost use Rattle.schedule_text.specs.declared.TheConstants.{ANSWER_BYTES};
ghost use Rattle.schedule_text.specs.declared.write.TheConstants.{REPORT_LINE};

use crate::Item;
use arrayvec::ArrayVec;
use itoa::Buffer;

/// The bytes that a line of a report may have, its line feed included.
pub const REPORT_LINE: usize = 4096;

/// Puts one line of a report in place of what `into` holds, its line feed included. `number` is the number of the
/// event's line, and `bytes` the answer of the event, which only `Item::Answer` tells.
pub fn write_item(number: u32, item: &Item, bytes: &[u8], into: &mut ArrayVec<u8, REPORT_LINE>)
    requires { length bytes.now ≤ ANSWER_BYTES }
    ensures line { into.new.items ≡ line_text number item.now bytes.now }
{
    into.clear();
    push_decimal(number.into(), into);
    into.push(b' ');
    push_item(item, bytes, into);
    into.push(b'\n');
}

/// Puts the last line of a report in place of what `into` holds, its line feed included. `number` is the number of
/// the schedule's line `end`.
pub fn write_end(number: u32, into: &mut ArrayVec<u8, REPORT_LINE>)
    ensures line { into.new.items ≡ end_text number }
{
    into.clear();
    push_text(b"end ", into);
    push_decimal(number.into(), into);
    into.push(b'\n');
}

// What stands between a line's number and its line feed.
fn push_item(item: &Item, bytes: &[u8], into: &mut ArrayVec<u8, REPORT_LINE>)
    requires short { length bytes.now ≤ ANSWER_BYTES }
    requires room { length into.old.items ≤ FRONT_BYTES }
    ensures text { into.new.items ≡ into.old.items ++ item_text item.now bytes.now }
    ensures len { length into.new.items ≤ TEXT_BYTES }
{
    match *item {
        Item::Answer => {
            push_text(b"o ", into);
            push_hex(bytes, into);
        }
        Item::Go(count) => {
            push_text(b"p go ", into);
            push_decimal(count.into(), into);
        }
        Item::Bad => push_text(b"p bad", into),
        Item::Command(byte, first, count) => {
            push_text(b"c ", into);
            push_hex_byte(byte, into);
            into.push(b' ');
            push_decimal(first, into);
            into.push(b' ');
            push_decimal(count.into(), into);
        }
        Item::Asked(tag) => {
            push_text(b"a ", into);
            push_decimal(tag.into(), into);
        }
        Item::Ready => push_text(b"m ready", into),
        Item::Left => push_text(b"m gone", into),
        Item::Reserved => push_text(b"m reserved", into),
        Item::Forged => push_text(b"m forged", into),
    }
}

fn push_text(text: &[u8], into: &mut ArrayVec<u8, REPORT_LINE>)
    requires { length into.old.items + length text.now ≤ REPORT_LINE }
    ensures text { into.new.items ≡ into.old.items ++ text.now }
{
    into.try_extend_from_slice(text).unwrap();
}

fn push_decimal(number: u64, into: &mut ArrayVec<u8, REPORT_LINE>)
    requires { length into.old.items + NUMBER_BYTES ≤ REPORT_LINE }
    ensures text { into.new.items ≡ into.old.items ++ decimal number }
    ensures len { length into.new.items ≤ length into.old.items + NUMBER_BYTES }
{
    push_text(Buffer::new().format(number).as_bytes(), into);
}

fn push_hex(bytes: &[u8], into: &mut ArrayVec<u8, REPORT_LINE>)
    requires { length into.old.items + 2 * length bytes.now ≤ REPORT_LINE }
    ensures text { into.new.items ≡ into.old.items ++ hex_text bytes.now }
    ensures len { length into.new.items ≡ length into.old.items + 2 * length bytes.now }
{
    let start = into.len();
    // Room for two digits a byte, which are then written over what is put there.
    into.try_extend_from_slice(bytes).unwrap();
    into.try_extend_from_slice(bytes).unwrap();
    put_hex(bytes, &mut into.as_mut_slice()[start..]);
}

// Two digits for each byte, in place of what `text` holds.
fn put_hex(bytes: &[u8], text: &mut [u8])
    requires { length text.old ≡ 2 * length bytes.now }
    ensures { text.new ≡ hex_text bytes.now }
{
    for i in 0..bytes.len() {
        text[2 * i] = hex_of(bytes[i] / 16);
        text[2 * i + 1] = hex_of(bytes[i] % 16);
    }
}

fn push_hex_byte(byte: u8, into: &mut ArrayVec<u8, REPORT_LINE>)
    requires { length into.old.items + 2 ≤ REPORT_LINE }
    ensures text { into.new.items ≡ into.old.items ++ hex_byte byte }
{
    into.push(hex_of(byte / 16));
    into.push(hex_of(byte % 16));
}

fn hex_of(digit: u8) -> u8
    requires { digit ≤ 15 }
    ensures digit { result ≡ hex_digit digit }
{
    if digit < 10 {
        b'0' + digit
    } else {
        b'a' + (digit - 10)
    }
}
