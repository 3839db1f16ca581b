//! Sequences of reads and writes through each phase, by hand from the rules of docs/drive.md.

use crate::Reg::{Alternate, BusCommand, BusStatus, Count, Device, Error, High, Low, Mid, Status};
use crate::Wrote::{Command, Ignored, ResetBegun, Stored};
use crate::{Bus, Form, Kind, Phase, Refused, Reg, Request, Taken, TaskFile, Wrote};

// One access to the registers, with what it gives.
#[derive(Clone, Copy, Debug, PartialEq, Eq)]
enum Act {
    Read(Reg, u8),
    Write(Reg, u8, Wrote),
    Line(bool),
}

// The same access with what it gives on these registers.
fn given(file: &mut TaskFile, act: Act) -> Act {
    match act {
        Act::Read(reg, _) if !reg.is_of_bus() => Act::Read(reg, file.read(reg)),
        Act::Write(reg, v, _) if !reg.is_of_bus() => Act::Write(reg, v, file.write(reg, v)),
        Act::Line(_) => Act::Line(file.line()),
        other => other,
    }
}

// The first of these accesses that gives something else: its place, and what it gives.
fn first_other(file: &mut TaskFile, sequence: &[Act]) -> Option<(usize, Act)> {
    for (i, act) in sequence.iter().enumerate() {
        let given = given(file, *act);
        if given != *act {
            return Some((i, given));
        }
    }
    None
}

const READ: Taken = Taken::Good(Request {
    kind: Kind::Read,
    form: Form::PioIn,
    extended: false,
    first: 0,
    count: 1,
});

const WRITE_DMA: Taken = Taken::Good(Request {
    kind: Kind::Write,
    form: Form::DmaOut,
    extended: true,
    first: 0,
    count: 4,
});

// After a reset, with 7 and then 8 in Count, and an interrupt that pends.
fn in_phase(phase: Phase) -> TaskFile {
    let mut file = TaskFile::power_on();
    file.end_reset();
    file.write(Count, 7);
    file.write(Count, 8);
    file.pending = true;
    file.phase = phase;
    file
}

// What a reset leaves, and the interrupt that a read of Status ends, and of Alternate Status doesn't.
#[test]
fn registers_in_idle(rt: HostRuntime) {
    let sequence = [
        Act::Read(Alternate, 0x50),
        Act::Line(true),
        Act::Write(Alternate, 0x02, Stored),
        Act::Line(false),
        Act::Write(Alternate, 0x00, Stored),
        Act::Line(true),
        Act::Read(Status, 0x50),
        Act::Line(false),
        Act::Read(Error, 0x01),
        Act::Read(Count, 8),
        Act::Read(Low, 0x01),
        Act::Read(Mid, 0x00),
        Act::Read(High, 0x00),
        Act::Read(Device, 0x00),
    ];
    let mut file = in_phase(Phase::Idle);
    assert_eq!(rt; first_other(&mut file, &sequence), None);
}

// The previous byte is shown with HOB, which a write to the command block clears.
#[test]
fn previous_bytes(rt: HostRuntime) {
    let sequence = [
        Act::Read(Count, 8),
        Act::Write(Alternate, 0x80, Stored),
        Act::Read(Count, 7),
        Act::Write(Low, 3, Stored),
        Act::Read(Count, 8),
        Act::Read(Low, 3),
        Act::Write(Alternate, 0x80, Stored),
        Act::Read(Low, 1),
        Act::Write(Error, 2, Stored),
        Act::Read(Low, 3),
    ];
    let mut file = in_phase(Phase::Idle);
    assert_eq!(rt; first_other(&mut file, &sequence), None);
}

// All bits of Device are kept. With DEV both bytes of Status are 00h, no command is taken, and HOB stays.
#[test]
fn the_device_that_is_not_there(rt: HostRuntime) {
    let sequence = [
        Act::Write(Device, 0xff, Stored),
        Act::Read(Status, 0x00),
        Act::Read(Alternate, 0x00),
        Act::Read(Device, 0xff),
        Act::Write(Alternate, 0x80, Stored),
        Act::Write(Status, 0x20, Ignored),
        Act::Read(Count, 7),
        Act::Write(Device, 0xef, Stored),
        Act::Read(Count, 8),
    ];
    let mut file = in_phase(Phase::Idle);
    assert_eq!(rt; first_other(&mut file, &sequence), None);
}

// Features can't be read. A command clears Error, the interrupt and HOB, and keeps Features, Count and address.
#[test]
fn a_command_that_is_taken(rt: HostRuntime) {
    let sequence = [
        Act::Write(Error, 2, Stored),
        Act::Read(Error, 0x01),
        Act::Write(Alternate, 0x80, Stored),
        Act::Write(Status, 0x20, Command(0x20)),
        Act::Line(false),
        Act::Read(Error, 0x00),
        Act::Read(Count, 8),
        Act::Read(Low, 1),
    ];
    let mut file = in_phase(Phase::Idle);
    assert_eq!(rt; first_other(&mut file, &sequence), None);
    assert_eq!(rt; [file.features, file.command], [0x02, 0x20]);
}

// A reset drops all but three bits of Device Control; HOB is one of the three.
#[test]
fn a_reset_in_idle(rt: HostRuntime) {
    let sequence = [
        Act::Write(Alternate, 0xff, ResetBegun),
        Act::Read(Status, 0x80),
        Act::Read(Count, 7),
        Act::Write(Alternate, 0x04, Stored),
        Act::Read(Count, 8),
    ];
    let mut file = in_phase(Phase::Idle);
    assert_eq!(rt; first_other(&mut file, &sequence), None);
    assert_eq!(rt; file.control, 0x04);
}

#[test]
fn registers_after_a_failure(rt: HostRuntime) {
    let sequence = [
        Act::Read(Alternate, 0x51),
        Act::Line(true),
        Act::Write(Device, 0x10, Stored),
        Act::Read(Status, 0x00),
        Act::Line(false),
        Act::Write(Device, 0x00, Stored),
        Act::Read(Status, 0x51),
        Act::Read(Error, 0x40),
        Act::Write(Status, 0xe7, Command(0xe7)),
        Act::Read(Error, 0x00),
        Act::Read(Status, 0x50),
    ];
    let mut file = in_phase(Phase::Busy(READ, 0));
    file.end_failed(0x40);
    assert_eq!(rt; first_other(&mut file, &sequence), None);
}

// In Busy and in Reset no register but Device Control is written, and HOB stays.
#[test]
fn registers_while_at_work(rt: HostRuntime) {
    let sequence = [
        Act::Read(Alternate, 0x80),
        Act::Line(true),
        Act::Write(Alternate, 0x80, Stored),
        Act::Write(Error, 9, Ignored),
        Act::Write(Count, 9, Ignored),
        Act::Write(Low, 9, Ignored),
        Act::Write(Mid, 9, Ignored),
        Act::Write(High, 9, Ignored),
        Act::Write(Device, 0x1f, Ignored),
        Act::Write(Status, 0x20, Ignored),
        Act::Read(Count, 7),
        Act::Read(Low, 0),
        Act::Read(Device, 0),
        Act::Write(Alternate, 0x02, Stored),
        Act::Line(false),
        Act::Read(Count, 8),
        Act::Read(Low, 1),
    ];
    for phase in [Phase::Busy(READ, 0), Phase::Reset] {
        let mut file = in_phase(phase);
        assert_eq!(rt; first_other(&mut file, &sequence), None, "{phase:?}");
        assert_eq!(rt; [file.features, file.command], [0, 0], "{phase:?}");
    }
}

// SRST as 1 begins a reset in Busy, which ends the interrupt; in Reset it does nothing more. SRST as 0 ends neither.
#[test]
fn resets_while_at_work(rt: HostRuntime) {
    // The phase, what the write of SRST did, and the line after it.
    let cases = [
        (Phase::Busy(READ, 0), ResetBegun, false),
        (Phase::Reset, Stored, true),
    ];
    for (phase, reset, line) in cases {
        let sequence = [
            Act::Write(Alternate, 0x04, reset),
            Act::Line(line),
            Act::Read(Status, 0x80),
            Act::Line(false),
            Act::Write(Alternate, 0x00, Stored),
            Act::Read(Status, 0x80),
            Act::Write(Count, 9, Ignored),
        ];
        let mut file = in_phase(phase);
        assert_eq!(rt; first_other(&mut file, &sequence), None, "{phase:?}");
    }
}

#[test]
fn registers_while_data_waits(rt: HostRuntime) {
    let sequence = [
        Act::Read(Alternate, 0x58),
        Act::Line(true),
        Act::Read(Status, 0x58),
        Act::Line(false),
        Act::Write(Alternate, 0x80, Stored),
        Act::Write(Status, 0x20, Ignored),
        Act::Read(Count, 7),
        Act::Write(Count, 9, Stored),
        Act::Read(Count, 9),
        Act::Write(Device, 0x10, Stored),
        Act::Read(Alternate, 0x00),
        Act::Write(Error, 3, Stored),
        Act::Write(Device, 0x40, Stored),
        Act::Read(Status, 0x58),
        Act::Write(Alternate, 0x06, ResetBegun),
        Act::Read(Status, 0x80),
        Act::Write(Count, 1, Ignored),
    ];
    let mut file = in_phase(Phase::Ready(READ, 0, 256));
    assert_eq!(rt; first_other(&mut file, &sequence), None);
}

#[test]
fn bus_registers(rt: HostRuntime) {
    // A register with what is written; then the command byte, the status byte and the walk's sectors.
    let cases = [
        (BusCommand, 0xf8, 0x08, 0x06, None),
        (BusCommand, 0x09, 0x09, 0x07, Some(0)),
        (BusStatus, 0xf9, 0x09, 0x07, Some(0)),
        (BusStatus, 0x02, 0x09, 0x05, Some(0)),
        (BusCommand, 0x01, 0x01, 0x05, Some(0)),
        (BusStatus, 0x04, 0x01, 0x01, Some(0)),
        (BusCommand, 0x08, 0x08, 0x00, None),
        (BusStatus, 0x01, 0x08, 0x00, None),
    ];
    let mut bus = Bus::power_on();
    bus.error = true;
    bus.note_line(false, true);
    for (reg, v, command, status, walk) in cases {
        bus.write(reg, v);
        assert_eq!(rt; bus.read(BusCommand), command, "{reg:?} {v:x}");
        assert_eq!(rt; bus.read(BusStatus), status, "{reg:?} {v:x}");
        assert_eq!(rt; bus.walk, walk, "{reg:?} {v:x}");
    }
}

// While start is 1 the pointer stays, and start written as 1 begins no other walk.
#[test]
fn a_walk_goes_on(rt: HostRuntime) {
    let mut bus = Bus::power_on();
    bus.write_pointer(0x0001_2347);
    assert_eq!(rt; bus.pointer, 0x0001_2344);
    bus.write(BusCommand, 0x01);
    bus.walk = Some(3);
    bus.write_pointer(0x0009_0000);
    assert_eq!(rt; bus.pointer, 0x0001_2344);
    bus.write(BusCommand, 0x09);
    assert_eq!(rt; bus.walk, Some(3));
    bus.write(BusCommand, 0x00);
    bus.write_pointer(0xffff_ffff);
    assert_eq!(rt; bus.pointer, 0xffff_fffc);
}

// A reset ends the walk of a command whose sectors the bus master moves, and leaves active.
#[test]
fn resets_and_walks(rt: HostRuntime) {
    // The phase in which the reset begins, and the walk after it.
    let cases = [
        (Phase::Idle, Some(3)),
        (Phase::Busy(READ, 0), Some(3)),
        (Phase::Busy(Taken::Bad(Refused::Abort), 0), Some(3)),
        (Phase::Busy(WRITE_DMA, 3), None),
    ];
    for (phase, walk) in cases {
        let mut bus = Bus::power_on();
        bus.write(BusCommand, 0x01);
        bus.walk = Some(3);
        bus.reset_in(phase);
        assert_eq!(rt; bus.walk, walk, "{phase:?}");
        assert_eq!(rt; bus.read(BusStatus), 0x01, "{phase:?}");
    }
}
