//! Leaving, by hand from the table of docs/monitor.md.

use crate::Exit::{CleanUp, Leave, Stay};
use crate::{Exit, leaving};
use ata_taskfile::registers::{DEV, HOB, NIEN};
use ata_taskfile::{Bus, Phase, Refused, Taken, TaskFile};
use port_lease::View;
use std::test::Fail;

const REFUSED: Taken = Taken::Bad(Refused::Abort);

// Registers at rest, each byte 00h.
fn at_rest() -> TaskFile {
    TaskFile {
        phase: Phase::Idle,
        ..TaskFile::power_on()
    }
}

// The view of these registers, whose bus master is as at power-on.
fn with_file(file: TaskFile) -> View {
    View {
        file,
        bus: Bus::power_on(),
    }
}

// The exit from a view over a drive at Status 50h and Error 00h, with every block stored and no own command.
fn exit_from(view: &View) -> Exit {
    leaving(view, false, 0x50, 0x00, true)
}

#[test]
fn views_by_their_registers(rt: HostRuntime) -> Result<(), Fail> {
    // Device, Device Control and Error; whether the last command failed, and whether an interrupt pends; the exit.
    let cases = [
        (0x00, 0, 0x00, false, false, Leave),
        (0xe0, 0, 0x00, false, false, Leave),
        (0x00, NIEN, 0x00, false, false, Leave),
        (0x00, HOB, 0x00, false, false, Leave),
        // DEV: Status reads 00h.
        (DEV, 0, 0x00, false, false, Stay),
        // As after a reset.
        (0x00, 0, 0x01, false, false, Stay),
        (0x00, 0, 0x04, false, false, Stay),
        (0x00, 0, 0x00, true, false, Stay),
        (0x00, 0, 0x04, true, false, Stay),
        (0x00, 0, 0x00, false, true, Stay),
        (0x00, NIEN, 0x00, false, true, Stay),
    ];
    for (device, control, error, failed, pending, exit) in cases {
        let view = with_file(TaskFile {
            device,
            control,
            error,
            failed,
            pending,
            ..at_rest()
        });
        assert_eq!(rt; exit_from(&view), exit, "{view:?}");
    }
    Ok(())
}

#[test]
fn views_by_their_phase(rt: HostRuntime) -> Result<(), Fail> {
    let cases = [
        (Phase::Idle, Leave),
        (Phase::Reset, Stay),
        (Phase::Busy(REFUSED, 0), Stay),
        (Phase::Ready(REFUSED, 0, 1), Stay),
    ];
    for (phase, exit) in cases {
        let view = with_file(TaskFile { phase, ..at_rest() });
        assert_eq!(rt; exit_from(&view), exit, "{phase:?}");
    }
    Ok(())
}

#[test]
fn views_by_their_bus_master(rt: HostRuntime) -> Result<(), Fail> {
    // Start, active, direction, error bit, interrupt bit, pointer; the exit.
    let cases = [
        (false, false, false, false, false, 0, Leave),
        (false, false, true, false, false, 0, Leave),
        (false, false, false, false, true, 0, Leave),
        (false, false, false, false, false, 0x1000, Leave),
        (true, true, false, false, false, 0x1000, Stay),
        // A walk that ended at its table's end.
        (true, false, false, false, false, 0x1000, Stay),
        (false, false, false, true, false, 0, Stay),
    ];
    for (start, active, inward, error, interrupt, pointer, exit) in cases {
        let bus = Bus {
            start,
            active,
            inward,
            error,
            interrupt,
            pointer,
            walk: None,
        };
        let view = View {
            file: at_rest(),
            bus,
        };
        assert_eq!(rt; exit_from(&view), exit, "{bus:?}");
    }
    Ok(())
}

#[test]
fn drives_that_may_be_left(rt: HostRuntime) -> Result<(), Fail> {
    // Status and Error of the drive; the exit from a clean view with every block stored.
    let cases = [
        (0x50, 0x00, Leave),
        (0x50, 0x01, CleanUp),
        (0x50, 0x04, CleanUp),
        (0x51, 0x00, CleanUp),
        (0x51, 0x04, CleanUp),
        (0x51, 0x40, CleanUp),
        (0x58, 0x00, CleanUp),
        (0x80, 0x00, CleanUp),
        (0x80, 0x01, CleanUp),
        (0x00, 0x00, CleanUp),
    ];
    let clean = with_file(at_rest());
    let pending = with_file(TaskFile {
        pending: true,
        ..at_rest()
    });
    for (status, error, exit) in cases {
        let found = [
            leaving(&clean, false, status, error, true),
            leaving(&pending, false, status, error, true),
        ];
        assert_eq!(rt; found, [exit, Stay], "{status:02x} {error:02x}");
    }
    Ok(())
}

#[test]
fn own_commands_and_unstored_blocks(rt: HostRuntime) -> Result<(), Fail> {
    // Whether an own command stands, and whether every block is stored; the exits from a clean view over a drive at
    // Status 50h and Error 00h, and over one whose last command failed.
    let cases = [
        (false, true, [Leave, CleanUp]),
        (false, false, [Stay, Stay]),
        (true, true, [Stay, Stay]),
        (true, false, [Stay, Stay]),
    ];
    let clean = with_file(at_rest());
    for (own, stored, exits) in cases {
        let found = [
            leaving(&clean, own, 0x50, 0x00, stored),
            leaving(&clean, own, 0x51, 0x40, stored),
        ];
        assert_eq!(rt; found, exits, "{own} {stored}");
    }
    Ok(())
}
