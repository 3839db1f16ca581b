//! What can be done to a drive in a run, and what is to come of it.

ghost use Rattle.std.specs.Prelude.{◌<◌};

use super::bench::Bench;
use super::store::FourSectors;
use ata_taskfile::registers::SECTOR_BYTES;
use ata_taskfile::{Ports, Reg, Step, Stepped};
use drive_store::StoreFault;

/// One thing that is done to a drive, with what it is to give.
#[derive(Clone, Copy)]
pub(crate) enum Act {
    Read(Reg, u8),
    Write(Reg, u8),
    Line(bool),
    Walks(bool),

    /// A command of 28 bits with its first sector and its count, over previous bytes of 77h.
    Narrow(u8, u8, u8),
    /// A command of 48 bits with its first sector and its count, over previous bytes of 0 and 5 in Device's low bits.
    Wide(u8, u8, u8),
    /// Device and the previous bytes are as that command was given.
    AsGiven,
    /// Count and Low.
    Kept(u8, u8),
    /// The line is low, and Alternate Status shows this.
    Quiet(u8),

    Step(Step, Result<Stepped, StoreFault>),
    /// A good step, which interrupts; Status shows 58h.
    Offers,
    /// A good step, which doesn't interrupt; Status shows 58h.
    Wants,
    /// A good step, which interrupts; Status shows 50h, and another step has no effect.
    Ends,
    /// A step, which interrupts; Status shows 51h. Error and Low show these.
    Fails(Step, u8, u8),
    /// SRST at 1 lets no step have an effect; with SRST at 0 a good one ends the reset, without an interrupt.
    Resets,

    /// All 256 words of a block are written, each this byte twice.
    Give(u8),
    /// All 256 words of a block are read, each this byte twice.
    Take(u8),
    Word(u16),
    /// So many words are read.
    Skip(u16),

    /// READ SECTOR(S) of one sector, which is this byte throughout.
    Reads(u8, u8),
    /// WRITE SECTOR(S) of one sector, which becomes this byte throughout.
    Writes(u8, u8),
    /// FLUSH CACHE.
    Flushes,
    /// The first and the last byte of a sector's durable value.
    Durable(u64, u8),
    Destage(u32, Result<Stepped, StoreFault>),
    Cut,

    /// A descriptor at a place: base, count, and whether it is the last.
    Describes(u32, u32, u16, bool),
    /// Start is written as 0, the pointer, and start as 1.
    Begins(u32),
    /// So many bytes of memory from an address on become this byte.
    Spreads(u32, u32, u8),
    /// So many bytes of memory from an address on are this byte.
    Spread(u32, u32, u8),
}

impl Act {
    /// Does it, and says whether it gave what it is to give.
    pub(crate) fn goes(&self, bench: &mut Bench<FourSectors>) -> bool {
        match *self {
            Act::Read(reg, value) => bench.drive.read8(reg) == value,
            Act::Line(high) => bench.drive.line() == high,
            Act::Walks(walks) => bench.drive.walking() == walks,
            Act::AsGiven => bench.is_as_given(),
            Act::Kept(count, low) => bench.shows(&[(Reg::Count, count), (Reg::Low, low)]),
            Act::Quiet(status) => !bench.drive.line() && bench.shows(&[(Reg::Alternate, status)]),
            Act::Step(step, answer) => bench.step(step) == answer,
            Act::Offers => bench.steps_to(Step::Good, true, 0x58),
            Act::Wants => bench.steps_to(Step::Good, false, 0x58),
            Act::Ends => bench.ends(),
            Act::Fails(step, error, low) => bench.fails(step, error, low),
            Act::Resets => bench.resets(),
            Act::Take(byte) => bench.reads_block(byte),
            Act::Reads(sector, byte) => bench.reads(sector, byte),
            Act::Writes(sector, byte) => bench.writes(sector, byte),
            Act::Flushes => bench.flushes(),
            Act::Durable(sector, byte) => is_durable(bench, sector, byte),
            Act::Destage(k, answer) => bench.drive.destage(k) == answer,
            Act::Spread(from, bytes, byte) => bench.is_spread(from, bytes, byte),
            Act::Write(..)
            | Act::Narrow(..)
            | Act::Wide(..)
            | Act::Give(_)
            | Act::Word(_)
            | Act::Skip(_)
            | Act::Cut
            | Act::Describes(..)
            | Act::Begins(_)
            | Act::Spreads(..) => self.is_done(bench),
        }
    }

    // Does what gives nothing.
    fn is_done(&self, bench: &mut Bench<FourSectors>) -> bool {
        match *self {
            Act::Write(reg, value) => bench.drive.write8(reg, value),
            Act::Narrow(command, first, count) => bench.give_narrow(command, first, count),
            Act::Wide(command, first, count) => bench.give_wide(command, first, count),
            Act::Give(byte) => bench.write_block(byte),
            Act::Word(word) => bench.drive.write_word(word),
            Act::Skip(words) => bench.skip_words(words),
            Act::Cut => bench.drive.cut(),
            Act::Describes(place, base, count, last) => bench.describe(place, base, count, last),
            Act::Begins(pointer) => bench.begin_walk(pointer),
            Act::Spreads(from, bytes, byte) => bench.spread(from, bytes, byte),
            _ => return false,
        }
        true
    }
}

// Whether the first and the last byte of a sector's durable value are this.
fn is_durable(bench: &mut Bench<FourSectors>, sector: u64, byte: u8) -> bool {
    let mut value = [0; SECTOR_BYTES];
    sector < 4
        && bench.drive.durable(sector, &mut value) == Ok(())
        && [value[0], value[511]] == [byte, byte]
}
