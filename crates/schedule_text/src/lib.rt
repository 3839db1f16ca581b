//! The text of schedules and reports: lines to events, and what an event gave to lines.
//!
//! Start with `Event`, one line of a schedule, and `Item`, one line of a report. `specs/Line.antt` has the grammar of
//! a schedule's line, `specs/Schedule.antt` that of a whole schedule, `specs/BadLine.antt` what its first bad line is,
//! `specs/Report.antt` the text of a report's lines, and `specs/Taken.antt` where one tells that the drive took a
//! command. `docs/formats.md` has the same as tables.
//!
//! The tests are in `src/tests.rt`.

#![tactic(auto)]

mod emitted;
mod parts;
mod read;
mod schedule;
mod write;

use aoe_frame::{Bytes, Frame};
use aoe_net::Way;
use ata_taskfile::{Reg, Step};
pub use emitted::Emitted;
pub use read::{line_says_one_event, read_event, read_line};
pub use schedule::{a_schedule_has_no_bad_line, one_first_bad_line, one_schedule};
pub use write::{REPORT_LINE, write_end, write_item};

/// The bytes that a schedule's line may have, without its end.
pub const LINE_BYTES: usize = 4096;

/// The last number that a schedule's line can have. Only the line `end` may have it.
pub const LAST_LINE: u32 = u32::MAX - 1;

/// The words that one line may move through Data.
pub const EVENT_WORDS: u32 = 256;

/// The bytes of the words that one line may move through Data.
pub const WORD_BYTES: usize = 512;

/// The bytes of memory that one line may move, and so the most that an event answers.
pub const EVENT_BYTES: u32 = 2000;

/// `EVENT_BYTES` as a size.
pub const ANSWER_BYTES: usize = 2000;

/// The last place in the drive's cache, or in a list of frames, that a line can name.
pub const LAST_PLACE: u32 = 63;

/// What one line of a schedule says.
#[derive(Clone, Debug, Drop, PartialEq, Eq)]
pub enum Event {
    /// The guest reads a register.
    Read8(Reg),
    /// The guest writes a register.
    Write8(Reg, u8),
    /// The guest reads so many words from Data, one after the other: 1 to `EVENT_WORDS`.
    ReadWords(u32),
    /// The guest writes words to Data, one after the other: 1 to `EVENT_WORDS`, the low byte of each first.
    WriteWords(Bytes<WORD_BYTES>),
    /// The guest reads the pointer to the descriptor table.
    ReadPointer,
    /// The guest writes the pointer to the descriptor table.
    WritePointer(u32),
    /// The guest reads its memory: from an address on so many bytes, 1 to `EVENT_BYTES`.
    ReadMemory(u32, u32),
    /// The guest writes its memory: from an address on 1 to `EVENT_BYTES` bytes.
    WriteMemory(u32, Bytes<ANSWER_BYTES>),
    /// The guest looks at the interrupt line.
    Line,
    /// The frame at a place of one way, 0 to `LAST_PLACE`, the oldest first, is delivered; where the flag is set, it
    /// stays in its list, and else it leaves it.
    Deliver(Way, u32, bool),
    /// The frame at a place of one way is lost: 0 to `LAST_PLACE`, the oldest first.
    Lose(Way, u32),
    /// A stray frame, of 1 byte at least, is delivered at the end of one way, where no one sent it.
    Stray(Way, Frame),
    /// The drive makes a step.
    Drive(Step),
    /// The entry of the drive's cache at a place becomes durable: 0 to `LAST_PLACE`, the oldest first.
    Destage(u32),
    /// The monitor has a turn.
    Turn,
    /// The clock ticks.
    Tick,
    /// The power is cut, and comes again.
    Cut,
    /// An empty line or a note: no event.
    Remark,
    /// The schedule ends here.
    End,
}

/// Why a line isn't one of a schedule: the first of these that holds.
#[derive(Clone, Copy, Debug, PartialEq, Eq)]
pub enum LineFault {
    /// The line is longer than `LINE_BYTES`.
    LongLine,
    /// No line has this shape.
    Form,
    /// The shape is a line's, and its number is out of range.
    Number,
    /// The line is good but not `end`, and its number is `LAST_LINE`.
    TooMany,
    /// The schedule ended before the line `end`.
    NoEnd,
    /// Something follows the line `end`.
    Trailing,
}

/// One line of a report: what an event gave.
#[derive(Clone, Copy, Debug, Default, PartialEq, Eq)]
pub enum Item {
    /// The bytes that a guest's read answered.
    #[default]
    Answer,
    /// The plain drive made so many Good steps.
    Go(u32),
    /// The plain drive made a Bad step.
    Bad,
    /// The drive took a command: its byte, its first sector and its count, both 0 without a range or refused.
    Command(u8, u64, u32),
    /// The monitor sent a request: its tag.
    Asked(u32),
    /// The monitor has opened its disk, and serves the guest from now on.
    Ready,
    /// The monitor has left, and the drive is the guest's alone.
    Left,
    /// The guest's command names a sector that the monitor reserves.
    Reserved,
    /// A frame that the server didn't send was accepted as its reply.
    Forged,
}

#[cfg(test)]
mod tests;
