//! Own commands of the monitor's on the drive, poll by poll, with steps of the drive and destages between the polls.

ghost use Rattle.std.specs.Prelude.{◌≡◌, ◌*◌, false, true, length, IfOk};
ghost use Rattle.port_lease.specs.Free.{is_free};
ghost use Rattle.own_pio.specs.Job.{IsFit, count_of};
ghost use Rattle.own_pio.specs.Own.{job_of, done_of, polls_left};
ghost use Rattle.own_pio.specs.Running.{IsRunning, IsRunning-prop};
ghost use Rattle.drive_model.specs.Drive.{device_of};

use crate::machine::{Machine, two_sectors};
use Before::{Both, Destages, Nothing, Steps};
use ata_taskfile::Step;
use ata_taskfile::Step::{Bad, Good};
use own_pio::Poll::{Done, Failed, Moved, Waiting};
use own_pio::{Own, OwnJob, Poll};
use port_lease::{MonitorSide, power_on};
use std::alloc::{AllocError, Global};
use std::test::Fail;

// What happens before a poll: a step of the drive, its oldest entry is made durable, or the one and then the other. So
// a destage may also find a block in Data, or wanted there.
#[derive(Clone, Copy, Debug)]
enum Before {
    Nothing,
    Steps(Step),
    Destages,
    Both(Step),
}

// What happens before each poll, and what the poll answers.
type Turns = &'static [(Before, Poll)];

// A command on the drive, until it has ended.
struct Run {
    side: MonitorSide,
    machine: Machine,
    own: Own,
    bytes: Vec<u8>,
    // The polls that are left, by the answers.
    left: u32,
    ended: bool,
    ghost whole: { length bytes.items ≡ 512 * count_of (job_of own) },
    ghost counted: { left ≡ polls_left own },
    ghost runs: { ended ≡ false → IsRunning (job_of own) (done_of own)
        (device_of machine.drive) } by { Prim.hlevel IsRunning-prop },
}

// Between two polls.
fn prepare(machine: &mut Machine, own: &Own, before: Before)
    requires { IsRunning (job_of own.now) (done_of own.now) (device_of machine.old.drive) }
    ensures { IsRunning (job_of own.now) (done_of own.now) (device_of machine.new.drive) }
{
    match before {
        Before::Nothing => {}
        Before::Steps(way) => step(machine, own, way),
        Before::Destages => destage(machine, own),
        Before::Both(way) => {
            step(machine, own, way);
            destage(machine, own);
        }
    }
}

fn step(machine: &mut Machine, own: &Own, step: Step)
    requires { IsRunning (job_of own.now) (done_of own.now) (device_of machine.old.drive) }
    ensures { IsRunning (job_of own.now) (done_of own.now) (device_of machine.new.drive) }
{
    machine.step(step);
}

fn destage(machine: &mut Machine, own: &Own)
    requires { IsRunning (job_of own.now) (done_of own.now) (device_of machine.old.drive) }
    ensures { IsRunning (job_of own.now) (done_of own.now) (device_of machine.new.drive) }
{
    machine.destage();
}

fn begin(machine: Machine, job: OwnJob, bytes: Vec<u8>) -> Run
    requires free { is_free (device_of machine.drive).file ≡ true }
    requires fit { IsFit job }
    requires whole { length bytes.items ≡ 512 * count_of job }
{
    let mut machine = machine;
    let mut side = power_on();
    let own = Own::begin(&mut side, &mut machine.drive, job);
    let left = match job {
        OwnJob::Read(_, count) => count,
        OwnJob::Write(_, count) => count + 1,
        OwnJob::Flush => 1,
    };
    Run {
        side,
        machine,
        own,
        bytes,
        left,
        ended: false,
    }
}

impl Run {
    // What a poll after this answers; None once the command has ended.
    fn turn(&mut self, before: Before) -> Option<Poll> {
        if self.ended || self.left == 0 {
            return None;
        }
        prepare(&mut self.machine, &self.own, before);
        let poll = self.own.poll(
            &mut self.side,
            &mut self.machine.drive,
            self.bytes.as_mut_slice(),
        );
        self.left = match poll {
            Poll::Waiting => self.left,
            Poll::Moved => self.left - 1,
            Poll::Done | Poll::Failed => 0,
        };
        self.ended = self.left == 0;
        Some(poll)
    }

    // The place of the first turn whose poll answers otherwise.
    fn first_wrong(&mut self, turns: &[(Before, Poll)]) -> Option<usize> {
        for (place, (before, wanted)) in turns.iter().enumerate() {
            if self.turn(*before) != Some(*wanted) {
                return Some(place);
            }
        }
        None
    }

    // The machine, and the bytes of the job, once the command has ended.
    fn end(self) -> (Machine, Vec<u8>) {
        let Run {
            side,
            machine,
            own: _,
            bytes,
            left: _,
            ended: _,
        } = self;
        side.end();
        (machine, bytes)
    }
}

// A job from its begin to its end: whether each poll answered as its turn says, the machine, and the bytes of the job.
fn carried_out(
    machine: Machine,
    job: OwnJob,
    bytes: Vec<u8>,
    turns: &[(Before, Poll)],
) -> (bool, Machine, Vec<u8>)
    requires fit { IsFit job }
    requires whole { length bytes.items ≡ 512 * count_of job }
{
    if !machine.is_free() {
        return (false, machine, bytes);
    }
    let mut run = begin(machine, job, bytes);
    let wrong = run.first_wrong(turns);
    let went = wrong.is_none() && run.left == 0;
    let (machine, bytes) = run.end();
    (went, machine, bytes)
}

/// A machine whose sectors 1 and 2 the monitor has written, with one word each in all places. Neither is durable yet.
pub(crate) fn written(alloc: Global, words: [u16; 2]) -> Result<Machine, AllocError> {
    let bytes = two_sectors(alloc, words)?;
    let (_, machine, _) = carried_out(Machine::new(alloc)?, OwnJob::Write(1, 2), bytes, &WRITE);
    Ok(machine)
}

// A write of two sectors that goes well.
const WRITE: [(Before, Poll); 3] = [
    (Steps(Good), Moved),
    (Steps(Good), Moved),
    (Steps(Good), Done),
];

// The turns of a read of sectors 1 and 2, in which A1B1h and A2B2h were written over 1234h and ABCDh, and aren't
// durable yet; the words that were read, where a sector that wasn't leaves 0; and the durable words after it. A
// failure comes before the first block, or behind it. Each destage makes the older one durable, and the read sees
// nothing of it.
const READS: [(Turns, [u16; 2], [u16; 2]); 7] = [
    (
        &[
            (Nothing, Waiting),
            (Steps(Good), Moved),
            (Nothing, Waiting),
            (Steps(Good), Done),
        ],
        [0xa1b1, 0xa2b2],
        [0x1234, 0xabcd],
    ),
    (
        &[
            (Destages, Waiting),
            (Steps(Good), Moved),
            (Steps(Good), Done),
        ],
        [0xa1b1, 0xa2b2],
        [0xa1b1, 0xabcd],
    ),
    (
        &[(Both(Good), Moved), (Steps(Good), Done)],
        [0xa1b1, 0xa2b2],
        [0xa1b1, 0xabcd],
    ),
    (
        &[(Both(Good), Moved), (Both(Good), Done)],
        [0xa1b1, 0xa2b2],
        [0xa1b1, 0xa2b2],
    ),
    (
        &[
            (Destages, Waiting),
            (Both(Good), Moved),
            (Destages, Waiting),
            (Both(Good), Done),
        ],
        [0xa1b1, 0xa2b2],
        [0xa1b1, 0xa2b2],
    ),
    (
        &[(Nothing, Waiting), (Steps(Bad), Failed)],
        [0, 0],
        [0x1234, 0xabcd],
    ),
    (
        &[(Both(Good), Moved), (Both(Bad), Failed)],
        [0xa1b1, 0],
        [0xa1b1, 0xa2b2],
    ),
];

#[test]
fn a_read_of_two_sectors(rt: HostRuntime) -> Result<(), Fail> {
    for (turns, words, stored) in READS {
        let wanted = two_sectors(rt.alloc(), words)?;
        let bytes = two_sectors(rt.alloc(), [0, 0])?;
        let machine = written(rt.alloc(), [0xa1b1, 0xa2b2])?;
        let (went, mut machine, bytes) = carried_out(machine, OwnJob::Read(1, 2), bytes, turns);
        let durable = [machine.durable(1), machine.durable(2)];
        assert_eq!(rt; (went, durable), (true, stored), "{turns:?}");
        assert_eq!(rt; bytes.as_slice(), wanted.as_slice(), "{turns:?}");
    }
    Ok(())
}

// The turns of a write of A1B1h in each word of sector 1, and of A2B2h in each of sector 2, and the words that a read
// of both gives after it. The sectors had 1234h and ABCDh. A write that fails after k blocks went has its first k - 1
// sectors new, and the others old.
const WRITES: [(Turns, [u16; 2]); 8] = [
    (
        &[
            (Nothing, Waiting),
            (Steps(Good), Moved),
            (Nothing, Waiting),
            (Steps(Good), Moved),
            (Nothing, Waiting),
            (Steps(Good), Done),
        ],
        [0xa1b1, 0xa2b2],
    ),
    (
        &[
            (Steps(Good), Moved),
            (Steps(Good), Moved),
            (Destages, Waiting),
            (Steps(Good), Done),
        ],
        [0xa1b1, 0xa2b2],
    ),
    (
        &[(Both(Good), Moved), (Both(Good), Moved), (Both(Good), Done)],
        [0xa1b1, 0xa2b2],
    ),
    (
        &[(Nothing, Waiting), (Steps(Bad), Failed)],
        [0x1234, 0xabcd],
    ),
    (
        &[(Destages, Waiting), (Steps(Bad), Failed)],
        [0x1234, 0xabcd],
    ),
    (
        &[(Steps(Good), Moved), (Steps(Bad), Failed)],
        [0x1234, 0xabcd],
    ),
    (
        &[
            (Both(Good), Moved),
            (Both(Good), Moved),
            (Both(Bad), Failed),
        ],
        [0xa1b1, 0xabcd],
    ),
    (
        &[
            (Steps(Good), Moved),
            (Steps(Good), Moved),
            (Steps(Bad), Failed),
        ],
        [0xa1b1, 0xabcd],
    ),
];

#[test]
fn a_write_of_two_sectors(rt: HostRuntime) -> Result<(), Fail> {
    for (turns, words) in WRITES {
        let bytes = two_sectors(rt.alloc(), [0xa1b1, 0xa2b2])?;
        let machine = Machine::new(rt.alloc())?;
        let (went, machine, _) = carried_out(machine, OwnJob::Write(1, 2), bytes, turns);
        assert!(rt; went, "{turns:?}");
        let wanted = two_sectors(rt.alloc(), words)?;
        let bytes = two_sectors(rt.alloc(), [0, 0])?;
        let read = &[(Steps(Good), Moved), (Steps(Good), Done)];
        let (went, _, bytes) = carried_out(machine, OwnJob::Read(1, 2), bytes, read);
        assert!(rt; went, "{turns:?}");
        assert_eq!(rt; bytes.as_slice(), wanted.as_slice(), "{turns:?}");
    }
    Ok(())
}

// The turns of a write as above, and of a flush after it, and the durable words of the two sectors after each. A write
// makes nothing durable, nor does a flush that fails; a destage does so with the oldest written value, which here is
// sector 1's.
const FLUSHES: [(Turns, [u16; 2], Turns, [u16; 2]); 9] = [
    (
        &WRITE,
        [0x1234, 0xabcd],
        &[(Nothing, Waiting), (Nothing, Waiting), (Steps(Good), Done)],
        [0xa1b1, 0xa2b2],
    ),
    (
        &[
            (Steps(Good), Moved),
            (Steps(Good), Moved),
            (Destages, Waiting),
            (Steps(Good), Done),
        ],
        [0xa1b1, 0xabcd],
        &[(Steps(Good), Done)],
        [0xa1b1, 0xa2b2],
    ),
    (
        &[(Destages, Waiting), (Steps(Bad), Failed)],
        [0x1234, 0xabcd],
        &[(Steps(Good), Done)],
        [0x1234, 0xabcd],
    ),
    (
        &[
            (Steps(Good), Moved),
            (Steps(Good), Moved),
            (Steps(Bad), Failed),
        ],
        [0x1234, 0xabcd],
        &[(Steps(Good), Done)],
        [0xa1b1, 0xabcd],
    ),
    (
        &WRITE,
        [0x1234, 0xabcd],
        &[(Nothing, Waiting), (Steps(Bad), Failed)],
        [0x1234, 0xabcd],
    ),
    (
        &WRITE,
        [0x1234, 0xabcd],
        &[(Steps(Bad), Failed)],
        [0x1234, 0xabcd],
    ),
    (
        &WRITE,
        [0x1234, 0xabcd],
        &[(Destages, Waiting), (Steps(Bad), Failed)],
        [0xa1b1, 0xabcd],
    ),
    (
        &[
            (Both(Good), Moved),
            (Both(Good), Moved),
            (Steps(Good), Done),
        ],
        [0xa1b1, 0xabcd],
        &[(Both(Bad), Failed)],
        [0xa1b1, 0xa2b2],
    ),
    (
        &[(Both(Good), Moved), (Both(Good), Moved), (Both(Good), Done)],
        [0xa1b1, 0xa2b2],
        &[(Both(Good), Done)],
        [0xa1b1, 0xa2b2],
    ),
];

#[test]
fn a_flush_after_a_write(rt: HostRuntime) -> Result<(), Fail> {
    for (write, stored, flush, flushed) in FLUSHES {
        let bytes = two_sectors(rt.alloc(), [0xa1b1, 0xa2b2])?;
        let machine = Machine::new(rt.alloc())?;
        let (went, mut machine, _) = carried_out(machine, OwnJob::Write(1, 2), bytes, write);
        let durable = [machine.durable(1), machine.durable(2)];
        assert_eq!(rt; (went, durable), (true, stored), "{write:?} {flush:?}");
        let none = Vec::new(rt.alloc());
        let (went, mut machine, _) = carried_out(machine, OwnJob::Flush, none, flush);
        let durable = [machine.durable(1), machine.durable(2)];
        assert_eq!(rt; (went, durable), (true, flushed), "{write:?} {flush:?}");
    }
    Ok(())
}
