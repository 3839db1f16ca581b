//! A guest's accesses while the monitor has the drive: each value by hand from the rules of registers and view.

ghost use Rattle.std.specs.Prelude.{◌≡◌, ℕ, false, true};
ghost use Rattle.port_lease.specs.Sides.{view_held, has_own};
ghost use Rattle.dummy_read.specs.Dummy.{sector_of, is_cancelled};
ghost use Rattle.dummy_read.specs.Flight.{IsInFlight, IsInFlight-prop};
ghost use Rattle.drive_model.specs.Drive.{device_of};
ghost use Rattle.guest_view.specs.Seen.{IsInStep};
ghost use Rattle.guest_view.specs.View.{is_reset};
ghost use Rattle.guest_view.specs.Fits.{FitsView};
ghost use Rattle.port_lease.specs.Free.{is_free};

use crate::machine::Machine;
use Act::{
    Drive, EndsReset, Fails, Finishes, Line, MarksError, Offers, OwnReads, Pointer, Reads, Refuses,
    Steps, Words, Writes,
};
use ata_taskfile::Step::{Bad, Good};
use ata_taskfile::registers::{SRST, has_bit};
use ata_taskfile::{Access, Answer, Phase, Ports, Refused, Reg, Step, Taken};
use dummy_read::Dummy;
use guest_view::{end_reset, fail, finish, offer, refuse};
use own_pio::{Own, OwnJob};
use port_lease::{MonitorSide, power_on};
use std::alloc::{AllocError, Global};
use std::test::Fail;

// One thing that happens, with what it gives.
#[derive(Clone, Copy, Debug, PartialEq, Eq)]
enum Act {
    /// The guest reads a register.
    Reads(Reg, u8),
    /// The guest writes one.
    Writes(Reg, u8),
    /// The guest reads so many words, the last of which is this one.
    Words(u16, u16),
    /// The guest writes the pointer, and reads it.
    Pointer(u32, u32),
    /// The guest looks at the line.
    Line(bool),
    /// Of the drive itself: Device Control, Alternate Status, the status of the bus master, and whether an interrupt
    /// pends.
    Drive(u8, u8, u8, bool),
    /// A step of the drive's.
    Steps(Step),
    /// The monitor begins an own read of sector 1.
    OwnReads,
    EndsReset,
    /// A block of the order in hand.
    Offers,
    Finishes,
    Fails,
    Refuses(Refused),
    /// The view's error bit is set, as a take leaves it.
    MarksError,
    /// It can't be done here, or answers nothing.
    Misplaced,
}

// The word that the monitor holds for the guest.
const HELD: u16 = 0x5aa5;

// The monitor has the drive, and no dummy read is in flight.
struct Viewed {
    side: MonitorSide,
    machine: Machine,
    ghost fits: { FitsView (view_held side) 512 },
}

// The monitor has the drive, and a dummy read is in flight.
struct Raised {
    side: MonitorSide,
    machine: Machine,
    dummy: Dummy,
    ghost fits: { FitsView (view_held side) 512 },
    ghost calm: { (view_held side).file.pending ≡ false },
    ghost uncancelled: { is_cancelled dummy ≡ false },
    ghost flies: { IsInFlight (sector_of dummy) false
        (device_of machine.drive) } by { Prim.hlevel IsInFlight-prop },
}

// Whether line and interrupts of view and drive are in step.
fn is_in_step(side: &MonitorSide, machine: &Machine, waits: bool) -> bool
    ensures { result ≡ true
        → IsInStep waits (view_held side.now) (device_of machine.now.drive) }
{
    let file = side.view().file;
    let drive = *machine.drive.file();
    let same = drive.pending == file.pending;
    drive.line() == file.line() && (same || !(file.pending || waits))
}

fn begins_reset(access: &Access) -> bool
    ensures { result ≡ false → is_reset access.now ≡ false }
{
    match *access {
        Access::Write8(Reg::Alternate, v) => has_bit(SRST, v),
        _ => false,
    }
}

// What an access answers; None where it isn't one for here.
fn asked(
    side: &mut MonitorSide,
    machine: &mut Machine,
    waits: bool,
    access: &Access,
) -> Option<Answer>
    requires fits { FitsView (view_held side.old) 512 }
    ensures fits { FitsView (view_held side.new) 512 }
    ensures calm { (view_held side.old).file.pending ≡ false
        → (view_held side.new).file.pending ≡ false }
    ensures flies { (sector : ℕ) → waits ≡ true → (view_held side.old).file.pending ≡ false
        → IsInFlight sector false (device_of machine.old.drive)
        → IsInFlight sector false (device_of machine.new.drive) }
{
    if begins_reset(access) || !is_in_step(side, machine, waits) {
        return None;
    }
    Some(guest_view::access(side, &mut machine.drive, waits, HELD, 512, access))
}

fn drive_shown(machine: &mut Machine) -> Act
    ensures { device_of machine.new.drive ≡ device_of machine.old.drive }
{
    let file = *machine.drive.file();
    let status = machine.drive.read8(Reg::Alternate);
    let bus = machine.drive.read8(Reg::BusStatus);
    Act::Drive(file.control, status, bus, file.pending)
}

impl Viewed {
    // The monitor has the machine from power-on, whose drive has ended its reset.
    fn new(alloc: Global) -> Result<Viewed, AllocError> {
        let machine = Machine::new(alloc)?;
        Ok(Viewed {
            side: power_on(),
            machine,
        })
    }

    // The first of some acts that gives something else, with what it gives.
    fn first_wrong(&mut self, acts: &[Act]) -> Option<(Act, Act)> {
        for act in acts {
            let given = self.act(*act);
            if given != *act {
                return Some((*act, given));
            }
        }
        None
    }

    fn act(&mut self, act: Act) -> Act {
        match act {
            Act::Steps(step) => self.machine.step(step),
            Act::MarksError => self.mark_error(),
            Act::OwnReads => return self.own_read(),
            Act::EndsReset | Act::Offers | Act::Finishes | Act::Fails | Act::Refuses(_) => {
                return self.step_view(act);
            }
            _ => return guests_act(&mut self.side, &mut self.machine, false, act),
        }
        act
    }

    fn own_read(&mut self) -> Act {
        if !self.machine.is_free() || self.side.own_stands() {
            return Act::Misplaced;
        }
        let job = OwnJob::Read(1, 1);
        let _own = Own::begin(&mut self.side, &mut self.machine.drive, job);
        Act::OwnReads
    }

    fn mark_error(&mut self) {
        let mut view = *self.side.view();
        view.bus.error = true;
        *self.side.view_mut() = view;
    }

    // A step of the view's own, where it is one of its command.
    fn step_view(&mut self, act: Act) -> Act {
        let file = self.side.view().file;
        match (act, file.phase) {
            (Act::EndsReset, Phase::Reset) if !file.holds_reset() => end_reset(&mut self.side),
            (Act::Refuses(reason), Phase::Busy(_, 0)) => refuse(&mut self.side, reason),
            (Act::Finishes, Phase::Busy(..)) => finish(&mut self.side),
            (Act::Offers, Phase::Busy(Taken::Good(order), done))
                if order.form.gives_words() && done < order.count => offer(
                &mut self.side,
                order,
                done,
            ),
            (Act::Fails, Phase::Busy(Taken::Good(order), done))
                if order.first <= 512 && done <= order.count => fail(&mut self.side, order, done),
            _ => return Act::Misplaced,
        }
        act
    }

    // READ DMA of sector 1 by a table outside of the guest's memory of 2000h bytes, which sets the drive's error bit.
    // The command fails and is acknowledged.
    fn fail_transfer(&mut self) {
        let machine = &mut self.machine;
        machine.drive.write_pointer(0x3000);
        machine.write(Reg::BusCommand, 0x01);
        machine.write(Reg::Count, 0x01);
        machine.write(Reg::Low, 0x01);
        machine.write(Reg::Device, 0xe0);
        machine.write(Reg::Status, 0xc8);
        machine.step(Good);
        machine.step(Bad);
        machine.drive.read8(Reg::Status);
    }

    fn end(self) {
        let Viewed { side, machine: _ } = self;
        side.end();
    }
}

// What the guest does, or what the drive itself shows.
fn guests_act(side: &mut MonitorSide, machine: &mut Machine, waits: bool, act: Act) -> Act
    requires fits { FitsView (view_held side.old) 512 }
    ensures fits { FitsView (view_held side.new) 512 }
    ensures calm { (view_held side.old).file.pending ≡ false
        → (view_held side.new).file.pending ≡ false }
    ensures flies { (sector : ℕ) → waits ≡ true → (view_held side.old).file.pending ≡ false
        → IsInFlight sector false (device_of machine.old.drive)
        → IsInFlight sector false (device_of machine.new.drive) }
{
    match act {
        Act::Reads(reg, _) => read_given(reg, asked(side, machine, waits, &Access::Read8(reg))),
        Act::Writes(reg, v) => match asked(side, machine, waits, &Access::Write8(reg, v)) {
            Some(Answer::Nothing) => act,
            _ => Act::Misplaced,
        },
        Act::Line(_) => match asked(side, machine, waits, &Access::Line) {
            Some(Answer::Byte(high)) => Act::Line(high == 1),
            _ => Act::Misplaced,
        },
        Act::Drive(..) => drive_shown(machine),
        Act::Words(count, _) => words_read(side, machine, waits, count),
        Act::Pointer(v, _) => pointer_given(side, machine, waits, v),
        _ => Act::Misplaced,
    }
}

fn read_given(reg: Reg, answer: Option<Answer>) -> Act {
    match answer {
        Some(Answer::Byte(byte)) => Act::Reads(reg, byte),
        _ => Act::Misplaced,
    }
}

fn pointer_given(side: &mut MonitorSide, machine: &mut Machine, waits: bool, v: u32) -> Act
    requires fits { FitsView (view_held side.old) 512 }
    ensures fits { FitsView (view_held side.new) 512 }
    ensures calm { (view_held side.old).file.pending ≡ false
        → (view_held side.new).file.pending ≡ false }
    ensures flies { (sector : ℕ) → waits ≡ true → (view_held side.old).file.pending ≡ false
        → IsInFlight sector false (device_of machine.old.drive)
        → IsInFlight sector false (device_of machine.new.drive) }
{
    let _written = asked(side, machine, waits, &Access::WritePointer(v));
    match asked(side, machine, waits, &Access::ReadPointer) {
        Some(Answer::Long(pointer)) => Act::Pointer(v, pointer),
        _ => Act::Misplaced,
    }
}

fn words_read(side: &mut MonitorSide, machine: &mut Machine, waits: bool, count: u16) -> Act
    requires fits { FitsView (view_held side.old) 512 }
    ensures fits { FitsView (view_held side.new) 512 }
    ensures calm { (view_held side.old).file.pending ≡ false
        → (view_held side.new).file.pending ≡ false }
    ensures flies { (sector : ℕ) → waits ≡ true → (view_held side.old).file.pending ≡ false
        → IsInFlight sector false (device_of machine.old.drive)
        → IsInFlight sector false (device_of machine.new.drive) }
{
    let mut last = 0;
    for _ in 0..count {
        match asked(side, machine, waits, &Access::ReadWord) {
            Some(Answer::Word(word)) => last = word,
            _ => return Act::Misplaced,
        }
    }
    Act::Words(count, last)
}

impl Raised {
    fn first_wrong(&mut self, acts: &[Act]) -> Option<(Act, Act)> {
        for act in acts {
            let given = self.act(*act);
            if given != *act {
                return Some((*act, given));
            }
        }
        None
    }

    fn act(&mut self, act: Act) -> Act {
        guests_act(&mut self.side, &mut self.machine, true, act)
    }

    // The drive's step, which ends the dummy read, and its poll in the same event.
    fn stepped(self, step: Step) -> Viewed {
        let Raised {
            side,
            machine,
            dummy,
        } = self;
        let mut machine = machine;
        let mut side = side;
        let mut dummy = dummy;
        machine.step(step);
        let _ended = dummy.poll(&mut side, &mut machine.drive);
        Viewed { side, machine }
    }
}

// A dummy read of the last sector, where one may be raised; else the side comes back.
fn raise(viewed: Viewed) -> Result<Raised, Viewed> {
    if !viewed.machine.is_free() || viewed.side.own_stands() || viewed.side.view().file.pending {
        return Err(viewed);
    }
    let Viewed { side, machine } = viewed;
    let mut machine = machine;
    let mut side = side;
    let dummy = Dummy::raise(&mut side, &mut machine.drive, 511);
    Ok(Raised {
        side,
        machine,
        dummy,
    })
}

// The first act that gives something else, of a run without a dummy read.
fn wrong_alone(alloc: Global, acts: &[Act]) -> Result<Option<(Act, Act)>, AllocError> {
    let mut viewed = Viewed::new(alloc)?;
    let wrong = viewed.first_wrong(acts);
    viewed.end();
    Ok(wrong)
}

// What happens before a dummy read, while it is in flight, how the drive steps then, and what happens behind its end.
type Flight = (&'static [Act], &'static [Act], Step, &'static [Act]);

// The first act of a run with a dummy read that gives something else.
fn wrong_beside(alloc: Global, flight: Flight) -> Result<Option<(Act, Act)>, AllocError> {
    let (before, meanwhile, step, behind) = flight;
    let mut viewed = Viewed::new(alloc)?;
    let wrong = viewed.first_wrong(before);
    let mut raised = match raise(viewed) {
        Ok(raised) => raised,
        Err(viewed) => {
            viewed.end();
            return Ok(Some((Act::Misplaced, Act::Misplaced)));
        }
    };
    let wrong = wrong.or(raised.first_wrong(meanwhile));
    let mut viewed = raised.stepped(step);
    let wrong = wrong.or(viewed.first_wrong(behind));
    viewed.end();
    Ok(wrong)
}

// At power-on the view is in reset, which shows BSY and takes nothing but Device Control and the bus master. None of it
// reaches the drive, which has ended its own reset. A pointer's two low bits are 0, and it stays while start is 1.
const IN_RESET: [Act; 18] = [
    Reads(Reg::Status, 0x80),
    Reads(Reg::Error, 0x00),
    Writes(Reg::Count, 0x05),
    Reads(Reg::Count, 0x00),
    Writes(Reg::Status, 0x20),
    Reads(Reg::Alternate, 0x80),
    Words(1, 0xffff),
    Writes(Reg::Alternate, 0x02),
    Writes(Reg::BusCommand, 0x01),
    Reads(Reg::BusCommand, 0x01),
    Reads(Reg::BusStatus, 0x01),
    Pointer(0x1003, 0x0000),
    Writes(Reg::BusCommand, 0x08),
    Reads(Reg::BusCommand, 0x08),
    Reads(Reg::BusStatus, 0x00),
    Pointer(0x1003, 0x1000),
    Line(false),
    Drive(0x00, 0x50, 0x00, false),
];

// The end of a reset leaves Count 01h, Low 01h and Error 01h. HOB shows the previous byte, and a write to the command
// block clears it; one of Command that DEV lets be ignored doesn't. FLUSH CACHE shows BSY, and then no write counts.
const IN_IDLE: [Act; 27] = [
    EndsReset,
    Reads(Reg::Status, 0x50),
    Reads(Reg::Error, 0x01),
    Reads(Reg::Count, 0x01),
    Reads(Reg::Low, 0x01),
    Reads(Reg::Mid, 0x00),
    Writes(Reg::Count, 0x21),
    Writes(Reg::Count, 0x22),
    Reads(Reg::Count, 0x22),
    Writes(Reg::Alternate, 0x80),
    Reads(Reg::Count, 0x21),
    Writes(Reg::Device, 0x10),
    Reads(Reg::Status, 0x00),
    Writes(Reg::Alternate, 0x80),
    Writes(Reg::Status, 0xe7),
    Reads(Reg::Count, 0x21),
    Writes(Reg::Device, 0xe0),
    Reads(Reg::Count, 0x22),
    Reads(Reg::Status, 0x50),
    Writes(Reg::Status, 0xe7),
    Reads(Reg::Alternate, 0x80),
    Reads(Reg::Error, 0x00),
    Writes(Reg::Count, 0x09),
    Reads(Reg::Count, 0x22),
    Writes(Reg::Status, 0x20),
    Line(false),
    Drive(0x00, 0x50, 0x00, false),
];

// The drive reads sector 1 for the monitor, with nIEN at 1: its interrupt is the monitor's to acknowledge, and its
// block the monitor's to take, whatever the guest asks and writes.
const BESIDE_OWN: [Act; 18] = [
    EndsReset,
    OwnReads,
    Drive(0x02, 0x80, 0x00, false),
    Reads(Reg::Status, 0x50),
    Steps(Good),
    Drive(0x02, 0x58, 0x00, true),
    Reads(Reg::Status, 0x50),
    Reads(Reg::Error, 0x01),
    Reads(Reg::Count, 0x01),
    Writes(Reg::Alternate, 0x00),
    Line(false),
    Words(1, 0xffff),
    Writes(Reg::Count, 0x07),
    Reads(Reg::Count, 0x07),
    Writes(Reg::Status, 0xe7),
    Reads(Reg::Alternate, 0x80),
    Line(false),
    Drive(0x02, 0x58, 0x00, true),
];

#[test]
fn accesses_in_each_phase(rt: HostRuntime) -> Result<(), Fail> {
    for acts in [&IN_RESET as &[Act], &IN_IDLE, &BESIDE_OWN] {
        assert_eq!(rt; wrong_alone(rt.alloc(), acts)?, None, "{acts:?}");
    }
    Ok(())
}

// READ SECTOR(S) of sectors 1 and 2.
const READ: [Act; 6] = [
    EndsReset,
    Writes(Reg::Count, 0x02),
    Writes(Reg::Low, 0x01),
    Writes(Reg::Device, 0xe0),
    Writes(Reg::Status, 0x20),
    Reads(Reg::Status, 0x80),
];

// FLUSH CACHE.
const FLUSH: [Act; 3] = [
    EndsReset,
    Writes(Reg::Status, 0xe7),
    Reads(Reg::Status, 0x80),
];

// A block is offered with the drive's interrupt, which Status acknowledges in both; nIEN goes to the drive before that,
// and not behind it. After 256 words the drive is at work on the next sector. The bus master's interrupt bit is the
// drive's, and a write of 1 clears it there. A dummy read that fails interrupts as well. A command that is taken
// acknowledges, one that is ignored doesn't. A read of sector 1 that fails shows UNC (40h) and the sector; a refused
// one shows IDNF (10h).
const FLIGHTS: [Flight; 6] = [
    (
        &READ,
        &[
            Drive(0x00, 0x80, 0x00, false),
            Line(false),
            Writes(Reg::Alternate, 0x02),
            Drive(0x02, 0x80, 0x00, false),
            Writes(Reg::Alternate, 0x80),
            Drive(0x00, 0x80, 0x00, false),
            Reads(Reg::Status, 0x80),
        ],
        Good,
        &[
            Drive(0x00, 0x50, 0x04, true),
            Offers,
            Reads(Reg::Alternate, 0x58),
            Line(true),
            Reads(Reg::BusStatus, 0x04),
            Writes(Reg::Alternate, 0x02),
            Line(false),
            Drive(0x02, 0x50, 0x04, true),
            Writes(Reg::Alternate, 0x00),
            Line(true),
            Writes(Reg::Status, 0xe7),
            Reads(Reg::Alternate, 0x58),
            Line(true),
            Reads(Reg::Status, 0x58),
            Line(false),
            Writes(Reg::Alternate, 0x02),
            Drive(0x00, 0x50, 0x04, false),
            Writes(Reg::BusStatus, 0x04),
            Reads(Reg::BusStatus, 0x00),
            Drive(0x00, 0x50, 0x00, false),
            Words(255, HELD),
            Reads(Reg::Status, 0x58),
            Words(1, HELD),
            Reads(Reg::Status, 0x80),
            Words(1, 0xffff),
        ],
    ),
    (
        &READ,
        &[],
        Bad,
        &[
            Drive(0x00, 0x51, 0x04, true),
            Offers,
            Line(true),
            Reads(Reg::Error, 0x00),
            Reads(Reg::Status, 0x58),
            Line(false),
            Drive(0x00, 0x51, 0x04, false),
        ],
    ),
    (
        &READ,
        &[Writes(Reg::Alternate, 0x02)],
        Good,
        &[
            Drive(0x02, 0x50, 0x00, true),
            Offers,
            Line(false),
            Reads(Reg::BusStatus, 0x00),
            Writes(Reg::Alternate, 0x00),
            Line(true),
            Reads(Reg::BusStatus, 0x04),
            Reads(Reg::Status, 0x58),
            Line(false),
        ],
    ),
    (
        &FLUSH,
        &[],
        Good,
        &[
            Finishes,
            Line(true),
            Reads(Reg::Alternate, 0x50),
            Writes(Reg::Status, 0xe7),
            Line(false),
            Reads(Reg::Status, 0x80),
            Drive(0x00, 0x50, 0x04, false),
        ],
    ),
    (
        &READ,
        &[],
        Good,
        &[
            Fails,
            Line(true),
            Reads(Reg::Alternate, 0x51),
            Reads(Reg::Error, 0x40),
            Reads(Reg::Low, 0x01),
            Reads(Reg::Status, 0x51),
            Line(false),
        ],
    ),
    (
        &READ,
        &[],
        Good,
        &[
            Refuses(Refused::NotFound),
            Reads(Reg::Alternate, 0x51),
            Reads(Reg::Error, 0x10),
            Reads(Reg::Count, 0x02),
            Reads(Reg::Status, 0x51),
            Line(false),
            Drive(0x00, 0x50, 0x04, false),
        ],
    ),
];

#[test]
fn accesses_beside_a_dummy_read(rt: HostRuntime) -> Result<(), Fail> {
    for flight in FLIGHTS {
        assert_eq!(rt; wrong_beside(rt.alloc(), flight)?, None, "{flight:?}");
    }
    Ok(())
}

// The error bit (02h) is the drive's or the view's, and a write of 1 clears it in both; the interrupt bit (04h) is the
// drive's. A transfer that failed leaves both in the drive.
const BEHIND_AN_ERROR: [Act; 10] = [
    Drive(0x00, 0x51, 0x06, false),
    Reads(Reg::BusStatus, 0x06),
    MarksError,
    Reads(Reg::BusStatus, 0x06),
    Writes(Reg::BusStatus, 0x02),
    Reads(Reg::BusStatus, 0x04),
    Drive(0x00, 0x51, 0x04, false),
    Writes(Reg::BusStatus, 0x04),
    Reads(Reg::BusStatus, 0x00),
    Drive(0x00, 0x51, 0x00, false),
];

const IN_THE_VIEW: [Act; 6] = [
    MarksError,
    Reads(Reg::BusStatus, 0x02),
    Writes(Reg::BusStatus, 0x04),
    Reads(Reg::BusStatus, 0x02),
    Writes(Reg::BusStatus, 0x02),
    Reads(Reg::BusStatus, 0x00),
];

#[test]
fn the_error_bit_is_of_both(rt: HostRuntime) -> Result<(), Fail> {
    let mut viewed = Viewed::new(rt.alloc())?;
    viewed.fail_transfer();
    let wrong = viewed.first_wrong(&BEHIND_AN_ERROR);
    viewed.end();
    assert_eq!(rt; wrong, None);
    assert_eq!(rt; wrong_alone(rt.alloc(), &IN_THE_VIEW)?, None);
    Ok(())
}
