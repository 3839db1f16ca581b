//! Dummy reads on the drive: each value by hand from the rules.

ghost use Rattle.std.specs.Prelude.{◌≡◌, ◌<◌, ◌^◌, false, true};
ghost use Rattle.port_lease.specs.Free.{is_free};
ghost use Rattle.port_lease.specs.Sides.{has_own};
ghost use Rattle.dummy_read.specs.Dummy.{sector_of, is_cancelled};
ghost use Rattle.dummy_read.specs.Flight.{IsInFlight, IsInFlight-prop};
ghost use Rattle.drive_model.specs.Drive.{device_of};

use crate::machine::{Machine, two_sectors};
use crate::own_commands::written;
use Act::{Cancels, Destages, Fails, Pends, Polls, Shows, Steps};
use ata_taskfile::Step::{Bad, Good};
use ata_taskfile::{Ports, Reg, Step};
use dummy_read::Dummy;
use port_lease::{MonitorSide, power_on};
use std::test::Fail;

// One thing that happens to a dummy read, with what it gives.
#[derive(Clone, Copy, Debug, PartialEq, Eq)]
enum Act {
    Steps(Step),
    /// The oldest entry of the cache is made durable.
    Destages,
    Cancels,
    Polls(bool),
    /// Device Control as it is, Alternate Status, and the line.
    Shows(u8, u8, bool),
    /// Error.
    Fails(u8),
    /// Whether an interrupt pends.
    Pends(bool),
    /// The drive isn't free for one.
    Busy,
}

// A dummy read on the drive, until it has ended.
struct Flight {
    side: MonitorSide,
    machine: Machine,
    dummy: Dummy,
    ended: bool,
    ghost flies: { ended ≡ false → IsInFlight (sector_of dummy) (is_cancelled dummy)
        (device_of machine.drive) } by { Prim.hlevel IsInFlight-prop },
}

// The monitor's side, with the guest's Device Control in the view.
fn side_with(control: u8) -> MonitorSide
    ensures { has_own result ≡ false }
{
    let mut side = power_on();
    side.view_mut().file.control = control;
    side
}

fn raise(machine: Machine, control: u8, sector: u64) -> Flight
    requires free { is_free (device_of machine.drive).file ≡ true }
    requires below { sector < 2 ^ 28 }
{
    let mut machine = machine;
    let mut side = side_with(control);
    let dummy = Dummy::raise(&mut side, &mut machine.drive, sector);
    Flight {
        side,
        machine,
        dummy,
        ended: false,
    }
}

impl Flight {
    // The first of some acts that gives something else, with what it gives.
    fn first_wrong(&mut self, acts: &[Act]) -> Option<(Act, Act)> {
        for act in acts {
            let given = self.act(*act);
            if given != *act {
                return Some((*act, given));
            }
        }
        None
    }

    fn act(&mut self, act: Act) -> Act {
        match act {
            Act::Steps(step) => self.step(step),
            Act::Destages => self.destage(),
            Act::Cancels => self.cancel(),
            Act::Polls(_) => return Act::Polls(self.poll()),
            Act::Shows(..) => return self.shown(),
            Act::Fails(_) => return self.failed(),
            Act::Pends(_) => return Act::Pends(self.machine.drive.pending()),
            Act::Busy => {}
        }
        act
    }

    fn step(&mut self, step: Step) {
        self.machine.step(step);
    }

    fn destage(&mut self) {
        self.machine.destage();
    }

    fn cancel(&mut self) {
        if !self.ended {
            self.dummy.cancel(&mut self.side, &mut self.machine.drive);
        }
    }

    // What the poll answers; false once the read has ended.
    fn poll(&mut self) -> bool {
        if self.ended {
            return false;
        }
        let answer = self.dummy.poll(&mut self.side, &mut self.machine.drive);
        self.ended = answer;
        answer
    }

    fn shown(&mut self) -> Act {
        let status = self.machine.drive.read8(Reg::Alternate);
        let control = self.machine.drive.file().control;
        Act::Shows(control, status, self.machine.drive.line())
    }

    fn failed(&mut self) -> Act {
        Act::Fails(self.machine.drive.read8(Reg::Error))
    }

    fn end(self) -> Machine {
        let Flight {
            side,
            machine,
            dummy: _,
            ended: _,
        } = self;
        side.end();
        machine
    }
}

// A dummy read on a free machine: the first of some acts that gives something else, with what it gives, and the
// machine.
fn flown(machine: Machine, control: u8, sector: u64, acts: &[Act]) -> (Option<(Act, Act)>, Machine)
    requires { sector < 2 ^ 28 }
{
    if !machine.is_free() {
        return (Some((Act::Busy, Act::Busy)), machine);
    }
    let mut flight = raise(machine, control, sector);
    let wrong = flight.first_wrong(acts);
    (wrong, flight.end())
}

// The guest's Device Control, the sector, and what happens. The drive has 512 sectors, and so refuses sector 512 by
// IDNF, in steps of both kinds; a read that fails is told by UNC. HOB of the guest's doesn't reach the drive.
const FLIGHTS: [(u8, u64, &[Act]); 6] = [
    (
        0x00,
        511,
        &[
            Shows(0x00, 0x80, false),
            Polls(false),
            Steps(Good),
            Shows(0x00, 0x58, true),
            Polls(true),
            Shows(0x00, 0x50, true),
            Pends(true),
        ],
    ),
    (
        0x02,
        511,
        &[
            Shows(0x02, 0x80, false),
            Polls(false),
            Steps(Good),
            Shows(0x02, 0x58, false),
            Polls(true),
            Shows(0x02, 0x50, false),
            Pends(true),
        ],
    ),
    (
        0x80,
        511,
        &[
            Shows(0x00, 0x80, false),
            Polls(false),
            Steps(Bad),
            Shows(0x00, 0x51, true),
            Polls(true),
            Shows(0x00, 0x51, true),
            Fails(0x40),
            Pends(true),
        ],
    ),
    (
        0x00,
        512,
        &[
            Shows(0x00, 0x80, false),
            Polls(false),
            Steps(Good),
            Shows(0x00, 0x51, true),
            Polls(true),
            Shows(0x00, 0x51, true),
            Fails(0x10),
            Pends(true),
        ],
    ),
    (
        0x00,
        511,
        &[
            Shows(0x00, 0x80, false),
            Polls(false),
            Cancels,
            Steps(Good),
            Shows(0x02, 0x58, false),
            Polls(true),
            Shows(0x02, 0x50, false),
            Pends(false),
        ],
    ),
    (
        0x00,
        511,
        &[
            Shows(0x00, 0x80, false),
            Polls(false),
            Cancels,
            Steps(Bad),
            Shows(0x02, 0x51, false),
            Polls(true),
            Shows(0x02, 0x51, false),
            Fails(0x40),
            Pends(false),
        ],
    ),
];

#[test]
fn the_line_of_a_dummy_read(rt: HostRuntime) -> Result<(), Fail> {
    for (control, sector, acts) in FLIGHTS {
        let machine = Machine::new(rt.alloc())?;
        let (wrong, _) = flown(machine, control, sector, acts);
        assert_eq!(rt; wrong, None, "{control} {sector} {acts:?}");
    }
    Ok(())
}

// The same where the drive has two written sectors to make durable, 1 and 2. Once an interrupt pends no step has an
// effect, and a destage has none that is seen.
const BESIDE_DESTAGES: [(u64, &[Act]); 4] = [
    (
        511,
        &[
            Polls(false),
            Destages,
            Polls(false),
            Steps(Good),
            Destages,
            Steps(Good),
            Steps(Bad),
            Shows(0x00, 0x58, true),
            Polls(true),
            Shows(0x00, 0x50, true),
            Pends(true),
        ],
    ),
    (
        512,
        &[
            Destages,
            Polls(false),
            Steps(Good),
            Destages,
            Steps(Good),
            Shows(0x00, 0x51, true),
            Polls(true),
            Fails(0x10),
            Pends(true),
        ],
    ),
    (
        512,
        &[
            Destages,
            Destages,
            Steps(Bad),
            Steps(Good),
            Shows(0x00, 0x51, true),
            Polls(true),
            Fails(0x10),
            Pends(true),
        ],
    ),
    (
        512,
        &[
            Destages,
            Cancels,
            Polls(false),
            Destages,
            Steps(Bad),
            Shows(0x02, 0x51, false),
            Polls(true),
            Fails(0x10),
            Pends(false),
        ],
    ),
];

#[test]
fn a_dummy_read_beside_destages(rt: HostRuntime) -> Result<(), Fail> {
    for (sector, acts) in BESIDE_DESTAGES {
        let machine = written(rt.alloc(), [0xa1b1, 0xa2b2])?;
        let (wrong, mut machine) = flown(machine, 0x00, sector, acts);
        assert_eq!(rt; wrong, None, "{sector} {acts:?}");
        let durable = [machine.durable(1), machine.durable(2)];
        assert_eq!(rt; durable, [0xa1b1, 0xa2b2], "{sector} {acts:?}");
    }
    Ok(())
}
