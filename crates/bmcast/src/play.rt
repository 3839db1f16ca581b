//! The events of the schedule, read, done and reported one line at a time.

ghost use Rattle.std.specs.Prelude.{◌≡◌, ◌≢◌, ◌≤◌, ◌+◌, ℕ, List, [], true, IfErr, IfOk, OnOk};
ghost use Rattle.bm_host.specs.Outside.{Outside, IfTold};
ghost use Rattle.bm_host.specs.declared.Role.TheVariants.{Image, Schedule};
ghost use Rattle.schedule_text.specs.Line.{Says, IsInRange};
ghost use Rattle.schedule_text.specs.BadLine.{LineFails};
ghost use Rattle.plain_run.specs.Entry.{entry_of, items_text};
ghost use Rattle.streaming.specs.World.{WorldEvent};
ghost use Rattle.world.specs.Coupled.{KeepsPlain};
ghost use Rattle.world.specs.WorldState.{WorldState};
ghost use Rattle.block_writes.specs.Kept.{KeepsLooked};
ghost use Rattle.bmcast.specs.Stop.{IsCounted, OnBadLine, UnlessFault};
ghost use Rattle.bmcast.specs.Stages.{StopsAt, doing_event, moving_lines, playing};
ghost use Rattle.bmcast.specs.Kept.{KeepsFiles};
ghost use Rattle.bmcast.specs.Streams.{unread, KeepsSaid, KeepsUnread, Reports};
ghost use Rattle.bmcast.specs.Known.{knows, reaches_server};
ghost use Rattle.bmcast.specs.Played.{Begun, HasPlayed, HasTaken, HasDone, HasEnded, IsOver, Leads, Progresses, HasFailed};

use crate::known::{knows, reaches_server};
use crate::stop::Stop;
use crate::streams::{Fetched, Line, Streams};
use arrayvec::ArrayVec;
use bm_host::Host;
use schedule_text::{Emitted, Event, LAST_LINE, LineFault, read_event};
use world::World;

/// Whether a schedule goes on.
#[derive(Clone, Copy, Debug, PartialEq, Eq)]
pub(crate) enum Progress {
    More,
    Ended,
}

/// Reads, does and reports the events of the schedule to its end, over an image of so many sectors, and answers the
/// number of its line `end`.
pub(crate) fn play<H: Host>(
    host: &mut H,
    streams: &mut Streams,
    world: &mut World,
    image: u64,
) -> Result<u32, Stop>
    requires over { IsOver image (H.outside host.old) world.old.scene }
    ensures stops { IfErr result (StopsAt playing) }
    ensures looked { image ≡ 0 → KeepsLooked (H.outside host.old) (H.outside host.new) }
    ensures counts { IsCounted result (H.outside host.old) (H.outside host.new) }
    ensures files { KeepsFiles (H.outside host.old) (H.outside host.new) }
    ensures over { OnOk result (IsOver image (H.outside host.new) world.new.scene) }
    ensures ended { IfOk result (λ number. (start : Begun)
        → HasPlayed start streams.old (H.outside host.old) world.old 1
        → HasEnded start streams.new (H.outside host.new) world.new number) }
    ensures bad { OnBadLine result (λ bad kind. (start : Begun)
        → HasPlayed start streams.old (H.outside host.old) world.old 1
        → HasFailed start streams.new (H.outside host.new) world.new bad kind) }
{
    let mut line = ArrayVec::new();
    let mut event = Event::Remark;
    let mut out = Emitted::new();
    for number in 1..=LAST_LINE {
        match play_line(
            host, streams, world, image, &mut line, &mut event, &mut out, number,
        ) {
            Ok(Progress::More) => {}
            Ok(Progress::Ended) => return Ok(number),
            Err(stop) => return Err(stop),
        }
    }
    // The last line that has a number was the end, or was refused.
    unreachable!()
}

// One line of the schedule, whose number this is.
fn play_line<H: Host>(
    host: &mut H,
    streams: &mut Streams,
    world: &mut World,
    image: u64,
    line: &mut Line,
    event: &mut Event,
    out: &mut Emitted,
    number: u32,
) -> Result<Progress, Stop>
    requires over { IsOver image (H.outside host.old) world.old.scene }
    requires number { number ≤ LAST_LINE }
    ensures stops { IfErr result (StopsAt playing) }
    ensures looked { image ≡ 0 → KeepsLooked (H.outside host.old) (H.outside host.new) }
    ensures counts { IsCounted result (H.outside host.old) (H.outside host.new) }
    ensures files { KeepsFiles (H.outside host.old) (H.outside host.new) }
    ensures over { OnOk result (IsOver image (H.outside host.new) world.new.scene) }
    ensures progress { IfOk result (λ progress. (start : Begun)
        → HasPlayed start streams.old (H.outside host.old) world.old number
        → Progresses progress start streams.new (H.outside host.new) world.new
        number) }
    ensures more { IfOk result (λ progress. progress ≡ Progress.More → number ≢ LAST_LINE) }
    ensures bad { OnBadLine result (λ bad kind. (start : Begun)
        → HasPlayed start streams.old (H.outside host.old) world.old number
        → HasFailed start streams.new (H.outside host.new) world.new bad kind) }
{
    match take_line(host, streams, line, number) {
        Ok(()) => {}
        Err(stop) => return Err(stop),
    }
    match do_line(host, streams, world, image, line, event, out, number) {
        Ok(Progress::More) => Ok(Progress::More),
        Ok(Progress::Ended) => match expect_end(host, streams, number) {
            Ok(()) => Ok(Progress::Ended),
            Err(stop) => Err(stop),
        },
        Err(stop) => Err(stop),
    }
}

// Takes the next line, whose number this is, into `line`.
fn take_line<H: Host>(
    host: &mut H,
    streams: &mut Streams,
    line: &mut Line,
    number: u32,
) -> Result<(), Stop>
    requires number { number ≤ LAST_LINE }
    ensures stops { IfErr result (StopsAt playing) }
    ensures looked { KeepsLooked (H.outside host.old) (H.outside host.new) }
    ensures counts { IsCounted result (H.outside host.old) (H.outside host.new) }
    ensures files { KeepsFiles (H.outside host.old) (H.outside host.new) }
    ensures taken { OnOk result ((start : Begun) (now : WorldState)
        → HasPlayed start streams.old (H.outside host.old) now number
        → HasTaken start streams.new (H.outside host.new) now line.new.items number) }
    ensures bad { OnBadLine result (λ bad kind. (start : Begun) (now : WorldState)
        → HasPlayed start streams.old (H.outside host.old) now number
        → HasFailed start streams.new (H.outside host.new) now bad kind) }
{
    match streams.next_line(host, line)? {
        Fetched::Line => Ok(()),
        Fetched::LastLine => Ok(()),
        Fetched::Nothing => Err(Stop::BadLine(number, LineFault::NoEnd)),
        Fetched::TooLong => Err(Stop::BadLine(number, LineFault::LongLine)),
    }
}

// Does what a line says, whose number this is, and reports it.
//
// An event has 2 KiB, so each is read into the place of the one before.
fn do_line<H: Host>(
    host: &mut H,
    streams: &mut Streams,
    world: &mut World,
    image: u64,
    line: &Line,
    event: &mut Event,
    out: &mut Emitted,
    number: u32,
) -> Result<Progress, Stop>
    requires over { IsOver image (H.outside host.old) world.old.scene }
    requires number { number ≤ LAST_LINE }
    ensures stops { IfErr result (StopsAt playing) }
    ensures looked { image ≡ 0 → KeepsLooked (H.outside host.old) (H.outside host.new) }
    ensures counts { IsCounted result (H.outside host.old) (H.outside host.new) }
    ensures files { KeepsFiles (H.outside host.old) (H.outside host.new) }
    ensures over { OnOk result (IsOver image (H.outside host.new) world.new.scene) }
    ensures done { IfOk result (λ progress. (start : Begun)
        → HasTaken start streams.old (H.outside host.old) world.old
        line.now.items number
        → HasDone progress start streams.new (H.outside host.new) world.new number) }
    ensures more { IfOk result (λ progress. progress ≡ Progress.More → number ≢ LAST_LINE) }
    ensures bad { OnBadLine result (λ bad kind. (start : Begun)
        → HasTaken start streams.old (H.outside host.old) world.old
        line.now.items number
        → HasFailed start streams.new (H.outside host.new) world.new bad kind) }
{
    match read_event(line.as_slice(), event) {
        Ok(()) => {}
        Err(fault) => return Err(Stop::BadLine(number, fault)),
    }
    let progress = match progress_after(event, number) {
        Ok(progress) => progress,
        Err(stop) => return Err(stop),
    };
    if !knows(image, event) {
        return Err(Stop::BadLine(number, LineFault::Form));
    }
    do_event(host, streams, world, image, event, number, out)?;
    Ok(progress)
}

// Whether a schedule goes on behind this event. The last line that can have a number must be the schedule's end.
fn progress_after(event: &Event, number: u32) -> Result<Progress, Stop>
    ensures stops { IfErr result (StopsAt playing) }
    ensures counts { (o : Outside) → IsCounted result o o }
    ensures leads { IfOk result (λ progress. Leads progress event.now number) }
    ensures bad { (line : List ℕ) → Says line event.now
        → OnBadLine result (λ bad kind. (bad ≡ number) × LineFails kind number line) }
{
    match event {
        Event::End => Ok(Progress::Ended),
        _ if number == LAST_LINE => Err(Stop::BadLine(number, LineFault::TooMany)),
        _ => Ok(Progress::More),
    }
}

// Does an event, whose line has this number, and reports it. Where the image can't be read for it no line waits.
fn do_event<H: Host>(
    host: &mut H,
    streams: &mut Streams,
    world: &mut World,
    image: u64,
    event: &Event,
    number: u32,
    out: &mut Emitted,
) -> Result<(), Stop>
    requires over { IsOver image (H.outside host.old) world.old.scene }
    requires in_range { IsInRange event.now }
    requires known { knows image event.now ≡ true }
    ensures counts { IsCounted result (H.outside host.old) (H.outside host.new) }
    ensures stops { IfErr result (StopsAt doing_event) }
    ensures written { IfErr result (λ stop. stop ≡ Stop.ReadFault Image
        → streams.new.pending.items ≡ []) }
    ensures looked { image ≡ 0 → KeepsLooked (H.outside host.old) (H.outside host.new) }
    ensures files { KeepsFiles (H.outside host.old) (H.outside host.new) }
    ensures over { OnOk result (IsOver image (H.outside host.new) world.new.scene) }
    ensures event { OnOk result (WorldEvent (H.outside host.old) (H.outside host.new)
        world.old.scene (entry_of event.now out.new.items.items out.new.bytes.items)
        world.new.scene) }
    ensures kept { OnOk result (IfTold ((H.outside host.old).told Image) (λ bytes.
        KeepsPlain bytes world.old
        (entry_of event.now out.new.items.items out.new.bytes.items) world.new)) }
    ensures reported { OnOk result
        (Reports streams.old streams.new (H.outside host.old) (H.outside host.new)
        (items_text number out.new.items.items out.new.bytes.items)) }
{
    flush_before(host, streams, image, event)?;
    out.clear();
    match world.apply(host, event, out) {
        Ok(()) => streams.report(host, number, out),
        Err(fault) => Err(Stop::of(fault)),
    }
}

// Writes the lines that wait, where an event may have the image looked at.
fn flush_before<H: Host>(
    host: &mut H,
    streams: &mut Streams,
    image: u64,
    event: &Event,
) -> Result<(), Stop>
    ensures counts { IsCounted result (H.outside host.old) (H.outside host.new) }
    ensures stops { IfErr result (StopsAt moving_lines) }
    ensures written { OnOk result (image ≢ 0 → reaches_server event.now ≡ true
        → streams.new.pending.items ≡ []) }
    ensures looked { KeepsLooked (H.outside host.old) (H.outside host.new) }
    ensures files { KeepsFiles (H.outside host.old) (H.outside host.new) }
    ensures said { OnOk result
        (KeepsSaid streams.old streams.new (H.outside host.old) (H.outside host.new)) }
    ensures unread { OnOk result
        (KeepsUnread streams.old streams.new (H.outside host.old) (H.outside host.new)) }
{
    if image > 0 && reaches_server(event) {
        streams.flush(host)
    } else {
        Ok(())
    }
}

// Nothing follows the line `end`, which has this number.
fn expect_end<H: Host>(host: &mut H, streams: &mut Streams, number: u32) -> Result<(), Stop>
    requires { number ≤ LAST_LINE }
    ensures stops { IfErr result (StopsAt playing) }
    ensures looked { KeepsLooked (H.outside host.old) (H.outside host.new) }
    ensures counts { IsCounted result (H.outside host.old) (H.outside host.new) }
    ensures files { KeepsFiles (H.outside host.old) (H.outside host.new) }
    ensures said { UnlessFault result
        (KeepsSaid streams.old streams.new (H.outside host.old) (H.outside host.new)) }
    ensures end { OnOk result (IfTold ((H.outside host.old).told Schedule)
        (λ text. unread streams.old (H.outside host.old) text ≡ [])) }
    ensures bad { OnBadLine result (λ bad kind. (bad ≡ number + 1) × (kind ≡ LineFault.Trailing)
        × IfTold ((H.outside host.old).told Schedule)
        (λ text. unread streams.old (H.outside host.old) text ≢ [])) }
{
    match streams.next_byte(host) {
        Ok(None) => Ok(()),
        Ok(Some(_)) => Err(Stop::BadLine(number + 1, LineFault::Trailing)),
        Err(stop) => Err(stop),
    }
}
