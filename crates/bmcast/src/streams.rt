//! The schedule as it is read in blocks, and the report as it is written in blocks.

ghost use Rattle.std.specs.Prelude.{◌≡◌, ◌≤◌, ◌<◌, ◌+◌, [], length, take, IfErr, IfOk, OnOk};
ghost use Rattle.schedule_text.specs.Schedule.{IsOneLine};
ghost use Rattle.schedule_text.specs.declared.TheConstants.{ANSWER_BYTES};
ghost use Rattle.bmcast.specs.declared.streams.TheConstants.{BLOCK};

use crate::stop::Stop;
use arrayvec::ArrayVec;
use block_writes::{make_room, write_waiting};
use bm_host::{Host, Role};
use memchr::memchr;
use schedule_text::{Emitted, Item, LINE_BYTES, REPORT_LINE, write_end, write_item};
use std::cmp::min;

/// The bytes of the schedule that are read in one call.
pub(crate) const BLOCK: usize = 4096;

/// The report's lines that are gathered before they are written.
pub(crate) const PENDING: usize = 16384;

/// A block of the schedule with what is taken of it, and the report's lines that aren't written yet.
///
/// Lines wait until the next call to the host that isn't a write to Report, be it the next block of the schedule or a
/// look at the image, so a fault of another role finds the report exact (own).
#[derive(Drop)]
pub(crate) struct Streams {
    pub(crate) block: [u8; BLOCK],
    /// The bytes of the block that are taken.
    pub(crate) at: usize,
    /// The bytes of the block that the host gave.
    pub(crate) end: usize,
    pub(crate) pending: ArrayVec<u8, PENDING>,
    /// The report's line in hand.
    pub(crate) line: ArrayVec<u8, REPORT_LINE>,
    ghost taken: { at ≤ end },
    ghost given: { end ≤ BLOCK },
}

impl Streams {
    ghost use Rattle.bm_host.specs.Outside.{IfTold};
    ghost use Rattle.bm_host.specs.declared.Role.TheVariants.{Report, Schedule};
    ghost use Rattle.schedule_text.specs.Report.{end_text, line_text};
    ghost use Rattle.plain_run.specs.Entry.{items_text};
    ghost use Rattle.bmcast.specs.Stop.{IsCounted};
    ghost use Rattle.bmcast.specs.Stages.{StopsAt, moving_lines};
    ghost use Rattle.block_writes.specs.Kept.{KeepsLooked};
    ghost use Rattle.bmcast.specs.Kept.{KeepsFiles};
    ghost use Rattle.bmcast.specs.Streams.{unread, Takes, TakesBytes, Fetches, KeepsSaid, Reports};

    /// Nothing read and nothing to write.
    pub(crate) fn new() -> Streams
        ensures pending { result.pending.items ≡ [] }
        ensures block { result.at ≡ result.end }
    {
        Streams {
            block: [0; BLOCK],
            at: 0,
            end: 0,
            pending: ArrayVec::new(),
            line: ArrayVec::new(),
        }
    }

    /// Writes the lines that wait.
    pub(crate) fn flush<H: Host>(&mut self, host: &mut H) -> Result<(), Stop>
        ensures counts { IsCounted result (H.outside host.old) (H.outside host.new) }
        ensures stops { IfErr result (StopsAt moving_lines) }
        ensures looked { KeepsLooked (H.outside host.old) (H.outside host.new) }
        ensures files { KeepsFiles (H.outside host.old) (H.outside host.new) }
        ensures block { self.new ≡ record self.old { pending = self.new.pending } }
        ensures said { OnOk result
            (KeepsSaid self.old self.new (H.outside host.old) (H.outside host.new)) }
        ensures empty { OnOk result (self.new.pending.items ≡ []) }
        ensures schedule { (H.outside host.new).given Schedule
            ≡ (H.outside host.old).given Schedule }
    {
        let Ok(()) = write_waiting(host, Role::Report, &mut self.pending) else {
            return Err(Stop::WriteFault(Role::Report));
        };
        Ok(())
    }

    /// Appends the report's lines for an event whose line has this number.
    pub(crate) fn report<H: Host>(
        &mut self,
        host: &mut H,
        number: u32,
        out: &Emitted,
    ) -> Result<(), Stop>
        ensures counts { IsCounted result (H.outside host.old) (H.outside host.new) }
        ensures stops { IfErr result (StopsAt moving_lines) }
        ensures looked { KeepsLooked (H.outside host.old) (H.outside host.new) }
        ensures files { KeepsFiles (H.outside host.old) (H.outside host.new) }
        ensures reported { OnOk result
            (Reports self.old self.new (H.outside host.old) (H.outside host.new)
            (items_text number out.now.items.items out.now.bytes.items)) }
    {
        for item in out.items.as_slice() {
            self.report_item(host, number, item, out.bytes.as_slice())?;
        }
        Ok(())
    }

    fn report_item<H: Host>(
        &mut self,
        host: &mut H,
        number: u32,
        item: &Item,
        bytes: &[u8],
    ) -> Result<(), Stop>
        requires { length bytes.now ≤ ANSWER_BYTES }
        ensures counts { IsCounted result (H.outside host.old) (H.outside host.new) }
        ensures stops { IfErr result (StopsAt moving_lines) }
        ensures looked { KeepsLooked (H.outside host.old) (H.outside host.new) }
        ensures files { KeepsFiles (H.outside host.old) (H.outside host.new) }
        ensures reported { OnOk result
            (Reports self.old self.new (H.outside host.old) (H.outside host.new)
            (line_text number item.now bytes.now)) }
    {
        write_item(number, item, bytes, &mut self.line);
        self.push_line(host)
    }

    /// Appends the report's last line; the schedule's line `end` has this number.
    pub(crate) fn report_end<H: Host>(&mut self, host: &mut H, number: u32) -> Result<(), Stop>
        ensures counts { IsCounted result (H.outside host.old) (H.outside host.new) }
        ensures stops { IfErr result (StopsAt moving_lines) }
        ensures looked { KeepsLooked (H.outside host.old) (H.outside host.new) }
        ensures files { KeepsFiles (H.outside host.old) (H.outside host.new) }
        ensures reported { OnOk result
            (Reports self.old self.new (H.outside host.old) (H.outside host.new)
            (end_text number)) }
    {
        write_end(number, &mut self.line);
        self.push_line(host)
    }

    // Appends the line that was written.
    fn push_line<H: Host>(&mut self, host: &mut H) -> Result<(), Stop>
        ensures counts { IsCounted result (H.outside host.old) (H.outside host.new) }
        ensures stops { IfErr result (StopsAt moving_lines) }
        ensures looked { KeepsLooked (H.outside host.old) (H.outside host.new) }
        ensures files { KeepsFiles (H.outside host.old) (H.outside host.new) }
        ensures reported { OnOk result
            (Reports self.old self.new (H.outside host.old) (H.outside host.new)
            (self.old.line.items)) }
    {
        let Ok(()) = make_room(host, Role::Report, &mut self.pending, REPORT_LINE) else {
            return Err(Stop::WriteFault(Role::Report));
        };
        self.pending
            .try_extend_from_slice(self.line.as_slice())
            .unwrap();
        Ok(())
    }

    // Reads the next block of the schedule, where the last one is taken.
    fn refill<H: Host>(&mut self, host: &mut H) -> Result<(), Stop>
        ensures counts { IsCounted result (H.outside host.old) (H.outside host.new) }
        ensures stops { IfErr result (StopsAt moving_lines) }
        ensures looked { KeepsLooked (H.outside host.old) (H.outside host.new) }
        ensures files { KeepsFiles (H.outside host.old) (H.outside host.new) }
        ensures said { OnOk result
            (KeepsSaid self.old self.new (H.outside host.old) (H.outside host.new)) }
        ensures unread { OnOk result (IfTold ((H.outside host.old).told Schedule)
            (λ text. unread self.new (H.outside host.new) text
            ≡ unread self.old (H.outside host.old) text)) }
        ensures end { OnOk result (IfTold ((H.outside host.old).told Schedule)
            (λ text. self.new.at ≡ self.new.end → unread self.old (H.outside host.old) text ≡ [])) }
    {
        if self.at < self.end {
            return Ok(());
        }
        self.flush(host)?;
        let Ok(end) = host.read_next(Role::Schedule, &mut self.block) else {
            return Err(Stop::ReadFault(Role::Schedule));
        };
        self.at = 0;
        self.end = end;
        Ok(())
    }

    /// Takes the next byte of the schedule; there is none at its end.
    #[tactic(auto, using(crate::proofs::Blocks::next_of_block))]
    pub(crate) fn next_byte<H: Host>(&mut self, host: &mut H) -> Result<Option<u8>, Stop>
        ensures counts { IsCounted result (H.outside host.old) (H.outside host.new) }
        ensures stops { IfErr result (StopsAt moving_lines) }
        ensures looked { KeepsLooked (H.outside host.old) (H.outside host.new) }
        ensures files { KeepsFiles (H.outside host.old) (H.outside host.new) }
        ensures said { OnOk result
            (KeepsSaid self.old self.new (H.outside host.old) (H.outside host.new)) }
        ensures byte { IfOk result (λ byte. IfTold ((H.outside host.old).told Schedule)
            (λ text. Takes byte (unread self.old (H.outside host.old) text)
            (unread self.new (H.outside host.new) text))) }
    {
        self.refill(host)?;
        if self.at == self.end {
            return Ok(None);
        }
        let byte = self.block[self.at];
        self.at += 1;
        Ok(Some(byte))
    }

    // Takes the bytes of the block before its first line feed, as many as the line has room for.
    fn take_front(&mut self, line: &mut Line)
        ensures { TakesBytes self.old self.new line.old.items line.new.items }
    {
        let left = &self.block[self.at..self.end];
        let count = before_line_feed(left, line.remaining_capacity());
        line.try_extend_from_slice(&left[..count]).unwrap();
        self.at += count;
    }

    /// Takes the next line of the schedule into `line`, without its line feed.
    pub(crate) fn next_line<H: Host>(
        &mut self,
        host: &mut H,
        line: &mut Line,
    ) -> Result<Fetched, Stop>
        ensures counts { IsCounted result (H.outside host.old) (H.outside host.new) }
        ensures stops { IfErr result (StopsAt moving_lines) }
        ensures looked { KeepsLooked (H.outside host.old) (H.outside host.new) }
        ensures files { KeepsFiles (H.outside host.old) (H.outside host.new) }
        ensures said { OnOk result
            (KeepsSaid self.old self.new (H.outside host.old) (H.outside host.new)) }
        ensures line { IfOk result (λ fetched. IfTold ((H.outside host.old).told Schedule)
            (λ text. Fetches fetched line.new.items (unread self.old (H.outside host.old) text)
            (unread self.new (H.outside host.new) text))) }
    {
        line.clear();
        loop {
            self.take_front(line);
            let Some(byte) = self.next_byte(host)? else {
                return Ok(Fetched::at_end(line));
            };
            if byte == b'\n' {
                return Ok(Fetched::Line);
            }
            if line.is_full() {
                return Ok(Fetched::TooLong);
            }
            line.push(byte);
        }
    }
}

// How many bytes stand before the first line feed, or all of them where there is none; so many at most.
fn before_line_feed(bytes: &[u8], most: usize) -> usize
    ensures within { result ≤ length bytes.now }
    ensures most { result ≤ most }
    ensures one { IsOneLine (take result bytes.now) }
{
    let front = &bytes[..min(bytes.len(), most)];
    match memchr(b'\n', front) {
        Some(place) => place,
        None => front.len(),
    }
}

/// A line of the schedule.
pub(crate) type Line = ArrayVec<u8, LINE_BYTES>;

/// What stands next in the schedule.
#[derive(Clone, Copy, Debug, PartialEq, Eq)]
pub(crate) enum Fetched {
    /// A line, with its line feed.
    Line,
    /// A line that the end of the schedule cuts off before its line feed.
    LastLine,
    /// Nothing: the schedule has ended.
    Nothing,
    /// More bytes than a line may have.
    TooLong,
}

impl Fetched {
    ghost use Rattle.bmcast.specs.Streams.{fetched_at_end};

    // The schedule has ended behind these bytes.
    fn at_end(line: &Line) -> Fetched
        ensures { result ≡ fetched_at_end line.now.items }
    {
        if line.is_empty() {
            Fetched::Nothing
        } else {
            Fetched::LastLine
        }
    }
}
