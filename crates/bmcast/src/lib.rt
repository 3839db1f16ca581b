//! The program `bmcast`: a run over an image, a disk and a schedule of events, by its words.
//!
//! Start with `bmcast`, the call that the program makes, and `run`, its steps in order; what an event does is the crate
//! `world`'s. `specs/Run.antt` says what is promised of a run that is done or ends at a bad line, and
//! `specs/Status.antt` what each status owes; `specs/Lib.antt` names these and the others that the clauses of `bmcast`
//! cite, and then the inner ones. Of those `specs/Stages.antt` has the stages of a run with the stops of each, and
//! `specs/Streams.antt` and `specs/Played.antt` what the reading of a schedule and the writing of a report keep.
//! `docs/proofs.md` says the same in words.
//!
//! The tests are those of the crate `worked_runs`.

#![tactic(auto)]

mod console;
mod known;
mod lengths;
mod play;
mod run;
mod stop;
mod streams;
mod survey;

ghost use Rattle.bmcast.specs.Run.{RunIsBad, RunIsDone};
ghost use Rattle.block_writes.specs.Kept.{KeepsLooked};
ghost use Rattle.bmcast.specs.Files.{LeavesFiles};
ghost use Rattle.bmcast.specs.Owed.{AnswersWhatIsOwed};
ghost use Rattle.std.specs.Prelude.{◌≡◌, Some, []};
ghost use Rattle.run_words.specs.Pairs.{texts};
ghost use Rattle.bmcast.specs.Status.{BeforeEvents, HasCome, HasItsReason, OnBadLineStatus, UnlessDone};
ghost use Rattle.bmcast.specs.Status.{HasItsCause, OnDone, OnlyConsole, ConsoleSays, exit_code};
ghost use Rattle.bmcast.specs.Stop.{status_of};
ghost use Rattle.bm_host.specs.declared.Role.TheVariants.{Console, Image};
ghost use Rattle.bmcast.specs.StatusLine.{status_line};
ghost use Rattle.bm_host.specs.Outside.{SameElsewhere};

use crate::console::tell;
use crate::run::run;
use crate::stop::Stop;
use bm_host::{Host, Role};
use schedule_text::LineFault;
use std::alloc::Global;

/// How a run ended.
#[derive(Clone, Copy, Debug, PartialEq, Eq)]
pub enum Status {
    /// The schedule was read to its end.
    Done,
    /// The words are not a command line of this program.
    Usage,
    /// Image and disk don't fit each other or the options.
    Unsuitable(Why),
    /// A line of the schedule, by its number, isn't one.
    BadLine(u32, LineFault),
    /// A file could not be read.
    ReadFault(Role),
    /// A file could not be written.
    WriteFault(Role),
    /// There was not enough memory to begin.
    NoMemory,
}

impl Status {
    /// The number that a program ends with.
    pub fn exit_code(self) -> u8
        ensures { result ≡ exit_code self }
    {
        match self {
            Status::Done => 0,
            Status::Usage => 1,
            Status::Unsuitable(_) => 2,
            Status::BadLine(..) => 3,
            Status::ReadFault(_) => 4,
            Status::WriteFault(_) => 5,
            Status::NoMemory => 6,
        }
    }
}

/// Does what the words after the program's name say, over the files of `host`. Where the status isn't Done, one
/// line on Console says it.
///
/// At Done the schedule was read to its end, and the report is an honest trace of a drive that began with the disk, of
/// its monitor and of the network. The guest's answers in it are those of a plain drive that began with the image, up
/// to a command that the monitor refuses or a forged reply that it takes, or without an image with the disk; out holds
/// what a power cut would leave.
/// The first refusal is the answer: the words (Usage), the files (ReadFault), their lengths and the header on the disk
/// (Unsuitable), the schedule's first line that isn't taken (BadLine). A fault comes only where that role's count of
/// faults rose.
pub fn bmcast<H: Host>(alloc: Global, words: &[String], host: &mut H) -> Status
    ensures done { OnDone result
        (RunIsDone (texts words.now) (H.outside host.old) (H.outside host.new)) }
    ensures bad_line { OnBadLineStatus result
        (RunIsBad (texts words.now) (H.outside host.old) (H.outside host.new)) }

    // Of words, image and disk each status has its reason, and no other status has it.
    ensures reason { HasItsReason result (texts words.now) (H.outside host.old) }

    // Where image, disk and schedule are told and no count rose, the answer is the one that they owe.
    ensures owed { AnswersWhatIsOwed result (texts words.now)
        (H.outside host.old) (H.outside host.new) }

    // Report and Out are opened only behind words and files that are good. Where the disk can't be read or memory is
    // wanting nothing was read of Schedule in turn since it was opened, and both are empty.
    ensures came { HasCome result (texts words.now) (H.outside host.old) (H.outside host.new) }
    ensures files { LeavesFiles result (H.outside host.old) (H.outside host.new) }

    // Nothing of Image is looked at before the first event, and of an empty one nothing at all; at Done and at a bad
    // line no more than goes into replies, as `done` and `bad_line` say.
    ensures looked { BeforeEvents result (KeepsLooked (H.outside host.old) (H.outside host.new)) }
    ensures empty { (H.outside host.old).told Image ≡ Some []
        → KeepsLooked (H.outside host.old) (H.outside host.new) }

    ensures told { UnlessDone result
        (ConsoleSays (status_line result) (H.outside host.old) (H.outside host.new)) }
    ensures cause { HasItsCause result (H.outside host.old) (H.outside host.new) }
{
    match run(alloc, words, host) {
        Ok(()) => Status::Done,
        Err(stop) => report_stop(host, stop),
    }
}

// Tells why the run stopped; whether that can be told changes nothing.
fn report_stop<H: Host>(host: &mut H, stop: Stop) -> Status
    ensures status { result ≡ status_of stop }
    ensures counts { OnlyConsole (H.outside host.old) (H.outside host.new) }
    ensures told { ConsoleSays (status_line result) (H.outside host.old) (H.outside host.new) }
    ensures elsewhere { SameElsewhere Console (H.outside host.old) (H.outside host.new) }
    ensures looked { KeepsLooked (H.outside host.old) (H.outside host.new) }
{
    let status = stop.status();
    tell(host, status);
    status
}

/// Why image and disk are unsuitable, the first that holds.
#[derive(Clone, Copy, Debug, PartialEq, Eq)]
pub enum Why {
    /// The image isn't a whole number of blocks.
    ImageLength,
    /// The disk isn't a whole number of sectors.
    DiskLength,
    /// The disk has no room for the image and the monitor's own sectors, or no sector at all.
    TooSmall,
    /// The disk has more than 262,144 sectors.
    TooLarge,
    /// The disk already has this run's header.
    AlreadyBegun,
    /// The disk doesn't have this run's header.
    NotBegun,
}
