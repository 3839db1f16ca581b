//! Handing the drive over: each value by hand from the rules of the registers.

ghost use Rattle.std.specs.Prelude.{◌≡◌, true, is_some, bit_and};
ghost use Rattle.port_lease.specs.View.{IsKept, IsLawfulView, uses_bus};
ghost use Rattle.port_lease.specs.Handover.{IsOrdered};
ghost use Rattle.port_lease.specs.Sides.{view_kept};
ghost use Rattle.drive_model.specs.Drive.{device_of};

use crate::machine::Machine;
use Act::{Reads, Steps, Writes};
use ata_taskfile::Step::Good;
use ata_taskfile::registers::HOB;
use ata_taskfile::{
    Access, Answer, Bus, Form, Kind, Phase, Ports, Reg, Request, Step, Taken, TaskFile,
};
use port_lease::{Busy, GuestSide, Unclean, View, give, power_on, remove, take};
use std::alloc::{AllocError, Global};
use std::test::Fail;

// What happens on the guest's side. A read's answer is let go.
#[derive(Clone, Copy, Debug)]
enum Act {
    Writes(Reg, u8),
    Reads(Reg),
    Steps(Step),
}

// The guest has the drive.
struct Guest {
    side: GuestSide,
    machine: Machine,
    ghost kept: { IsKept (view_kept side) (device_of machine.drive).file },
}

// FLUSH CACHE over registers of zeros.
const FLUSH: View = View {
    file: TaskFile {
        count: [0, 0],
        low: [0, 0],
        mid: [0, 0],
        high: [0, 0],
        features: 0,
        device: 0,
        control: 0,
        error: 0,
        command: 0xe7,
        failed: false,
        pending: false,
        phase: Phase::Busy(
            Taken::Good(Request {
                kind: Kind::Flush,
                form: Form::NoMove,
                extended: false,
                first: 0,
                count: 0,
            }),
            0,
        ),
    },
    bus: AT_REST,
};

// A bus master as at power-on.
const AT_REST: Bus = Bus {
    start: false,
    inward: false,
    active: false,
    error: false,
    interrupt: false,
    pointer: 0,
    walk: None,
};

// After a reset that the guest wrote over the first command it was given, and these acts.
fn guest_after(alloc: Global, acts: &[Act]) -> Result<Option<Guest>, AllocError> {
    let Some(mut guest) = given(Machine::new(alloc)?, FLUSH, 0xe7) else {
        return Ok(None);
    };
    guest.act(Writes(Reg::Alternate, 0x04));
    guest.act(Writes(Reg::Alternate, 0x00));
    guest.act(Steps(Good));
    for act in acts {
        guest.act(*act);
    }
    Ok(Some(guest))
}

// The monitor has the machine from power-on, and gives it with a view and its command, where it is free.
fn given(machine: Machine, view: View, command: u8) -> Option<Guest>
    requires lawful { IsLawfulView view }
    requires ordered { IsOrdered view command 512 }
    requires walking { uses_bus view ≡ true → is_some view.bus.walk ≡ true }
{
    if !machine.is_free() {
        return None;
    }
    let mut machine = machine;
    let mut side = power_on();
    *side.view_mut() = view;
    let side = give(side, &mut machine.drive, command);
    Some(Guest { side, machine })
}

impl Guest {
    fn act(&mut self, act: Act) {
        match act {
            Act::Writes(Reg::Status, command) => self.command(command),
            Act::Writes(reg, v) => self.write(reg, v),
            Act::Reads(reg) => {
                let _answer = self.read(reg);
            }
            Act::Steps(step) => self.step(step),
        }
    }

    // A command reaches the drive past the side, which takes none. It makes HOB 0 there, so HOB has to be 0 before.
    fn command(&mut self, command: u8) {
        let control = self.side.view().file.control;
        if control & !HOB == control {
            self.write_command(command);
        }
    }

    fn write_command(&mut self, command: u8)
        requires { let control = (view_kept self.old.side).file.control in
            bit_and control 127 ≡ control }
    {
        self.machine.write(Reg::Status, command);
    }

    // A write of no command.
    fn write(&mut self, reg: Reg, v: u8) {
        if let Reg::Status = reg {
            return;
        }
        self.side
            .access(&mut self.machine.drive, &Access::Write8(reg, v));
    }

    fn read(&mut self, reg: Reg) -> Answer {
        self.side
            .access(&mut self.machine.drive, &Access::Read8(reg))
    }

    fn step(&mut self, step: Step) {
        self.machine.step(step);
    }

    // The registers of the view where the take goes well; the monitor then lets the drive go.
    fn taken(self) -> (Option<TaskFile>, Machine) {
        let Guest { side, machine } = self;
        let mut machine = machine;
        match take(side, &mut machine.drive) {
            Ok(side) => {
                let file = side.view().file;
                side.end();
                (Some(file), machine)
            }
            Err((side, Busy)) => {
                side.end();
                (None, machine)
            }
        }
    }

    fn view(&self) -> (TaskFile, Bus) {
        let view = self.side.view();
        (view.file, view.bus)
    }

    fn end(self) -> Machine {
        let Guest { side, machine } = self;
        side.end();
        machine
    }
}

// The registers of the bus master: command, status, pointer, and whether it walks.
fn bus_of(machine: &mut Machine) -> (u8, u8, u32, bool)
    ensures { (device_of machine.new.drive).file ≡ (device_of machine.old.drive).file }
{
    let command = machine.drive.read8(Reg::BusCommand);
    let status = machine.drive.read8(Reg::BusStatus);
    (
        command,
        status,
        machine.drive.read_pointer(),
        machine.drive.walking(),
    )
}

// Acts after a reset, whether the take is Busy, and what Alternate Status and Device then show. A READ SECTOR(S) that
// was taken shows BSY, and so does a reset. A command that ended interrupts, also where nIEN masks the line, until
// Status is read. The line is low throughout.
const TAKES: [(&[Act], bool, u8, u8); 7] = [
    (&[Writes(Reg::Device, 0x00)], false, 0x50, 0x00),
    (&[Writes(Reg::Device, 0xef)], false, 0x50, 0xef),
    (&[Writes(Reg::Device, 0x10)], true, 0x00, 0x10),
    (
        &[Writes(Reg::Device, 0xe0), Writes(Reg::Status, 0x20)],
        true,
        0x80,
        0xe0,
    ),
    (
        &[Writes(Reg::Device, 0xe0), Writes(Reg::Alternate, 0x04)],
        true,
        0x80,
        0xe0,
    ),
    (
        &[
            Writes(Reg::Alternate, 0x02),
            Writes(Reg::Status, 0xe7),
            Steps(Good),
        ],
        true,
        0x50,
        0x00,
    ),
    (
        &[
            Writes(Reg::Alternate, 0x02),
            Writes(Reg::Status, 0xe7),
            Steps(Good),
            Reads(Reg::Status),
        ],
        false,
        0x50,
        0x00,
    ),
];

// Whether a take after a reset and these acts is Busy, and then Alternate Status, Device and the line; None where the
// drive isn't free after power-on.
fn take_after(alloc: Global, acts: &[Act]) -> Result<Option<(bool, u8, u8, bool)>, AllocError> {
    let Some(guest) = guest_after(alloc, acts)? else {
        return Ok(None);
    };
    let (file, mut machine) = guest.taken();
    let drive = &mut machine.drive;
    let (status, device) = (drive.read8(Reg::Alternate), drive.read8(Reg::Device));
    Ok(Some((file.is_none(), status, device, drive.line())))
}

#[test]
fn take_is_busy_with_bsy_or_dev_or_an_interrupt(rt: HostRuntime) -> Result<(), Fail> {
    for (acts, busy, status, shown) in TAKES {
        let wanted = Some((busy, status, shown, false));
        assert_eq!(rt; take_after(rt.alloc(), acts)?, wanted, "{acts:?}");
    }
    Ok(())
}

// Both bytes of each register, and the bytes that can't be read.
const BOTH_BYTES: [Act; 11] = [
    Writes(Reg::Error, 0x55),
    Writes(Reg::Count, 0x21),
    Writes(Reg::Count, 0x22),
    Writes(Reg::Low, 0x31),
    Writes(Reg::Low, 0x32),
    Writes(Reg::Mid, 0x41),
    Writes(Reg::Mid, 0x42),
    Writes(Reg::High, 0x51),
    Writes(Reg::High, 0x52),
    Writes(Reg::Device, 0xe3),
    Writes(Reg::Alternate, 0x82),
];

// The current byte stands first. A reset left Error 01h, and the last write HOB and nIEN; the command is the flush that
// was given.
const TAKEN: TaskFile = TaskFile {
    count: [0x22, 0x21],
    low: [0x32, 0x31],
    mid: [0x42, 0x41],
    high: [0x52, 0x51],
    features: 0x55,
    device: 0xe3,
    control: 0x82,
    error: 0x01,
    command: 0xe7,
    failed: false,
    pending: false,
    phase: Phase::Idle,
};

// The registers of the view after a take over both bytes of each register, and then Count, Low, Mid and High of the
// drive.
fn taken_whole(alloc: Global) -> Result<Option<(Option<TaskFile>, [u8; 4])>, AllocError> {
    let Some(guest) = guest_after(alloc, &BOTH_BYTES)? else {
        return Ok(None);
    };
    let (file, mut machine) = guest.taken();
    let drive = &mut machine.drive;
    let shown = [
        drive.read8(Reg::Count),
        drive.read8(Reg::Low),
        drive.read8(Reg::Mid),
        drive.read8(Reg::High),
    ];
    Ok(Some((file, shown)))
}

#[test]
fn take_puts_what_the_guest_reads_into_the_view(rt: HostRuntime) -> Result<(), Fail> {
    // The drive shows the previous bytes still.
    let wanted = Some((Some(TAKEN), [0x21, 0x31, 0x41, 0x51]));
    assert_eq!(rt; taken_whole(rt.alloc())?, wanted);
    Ok(())
}

// Sector 120h and one more.
const SECTORS: Request = Request {
    kind: Kind::Read,
    form: Form::PioIn,
    extended: true,
    first: 0x120,
    count: 2,
};

// READ SECTOR(S) EXT of them, with HOB and nIEN at 1.
const READ: View = View {
    file: TaskFile {
        count: [2, 0],
        low: [0x20, 0],
        mid: [0x01, 0],
        high: [0, 0],
        features: 0x55,
        device: 0xe0,
        control: 0x82,
        error: 0,
        command: 0x24,
        failed: false,
        pending: false,
        phase: Phase::Busy(Taken::Good(SECTORS), 0),
    },
    bus: Bus {
        start: false,
        inward: true,
        active: false,
        error: false,
        interrupt: false,
        pointer: 0x1000,
        walk: None,
    },
};

// A machine after a reset, and writes of the monitor's.
fn machine_with(alloc: Global, writes: &[(Reg, u8)]) -> Result<Machine, AllocError> {
    let mut machine = Machine::new(alloc)?;
    for (reg, v) in writes {
        machine.write(*reg, *v);
    }
    Ok(machine)
}

#[test]
fn give_puts_the_view_and_the_command_into_the_drive(rt: HostRuntime) -> Result<(), Fail> {
    let machine = machine_with(
        rt.alloc(),
        &[
            (Reg::Device, 0x0f),
            (Reg::Count, 0x99),
            (Reg::Alternate, 0x02),
        ],
    )?;
    if let Some(guest) = given(machine, READ, 0x24) {
        let (_, bus) = guest.view();
        let mut machine = guest.end();
        assert_eq!(rt; *machine.drive.file(), READ.file);
        // The bus master is the view's, and the drive's is as it was.
        assert_eq!(rt;
            (bus, bus_of(&mut machine)),
            (READ.bus, (0x00, 0x00, 0, false))
        );
    } else {
        assert!(rt; false, "the drive is free");
    }
    Ok(())
}

// READ DMA EXT of the same sectors, with a walk that stands at the table's top.
fn walk() -> View
    ensures lawful { IsLawfulView result }
    ensures ordered { IsOrdered result 37 512 }
    ensures walking { is_some result.bus.walk ≡ true }
{
    let order = Request {
        form: Form::DmaIn,
        ..SECTORS
    };
    let file = TaskFile {
        phase: Phase::Busy(Taken::Good(order), 0),
        ..READ.file
    };
    let bus = Bus {
        start: true,
        active: true,
        error: true,
        walk: Some(0),
        ..READ.bus
    };
    View { file, bus }
}

// One descriptor at 1000h: two sectors go to 1800h, where each byte of memory is FFh.
fn describe(machine: &mut Machine) {
    let bytes = [0x00, 0x18, 0x00, 0x00, 0x00, 0x04, 0x00, 0x80];
    for (place, byte) in bytes.iter().enumerate() {
        machine.memory.set(0x1000 + place as u32, *byte);
    }
    for place in 0x1800..0x1c00u32 {
        machine.memory.set(place, 0xff);
    }
}

#[test]
fn a_walk_goes_with_its_command(rt: HostRuntime) -> Result<(), Fail> {
    let mut machine = machine_with(rt.alloc(), &[(Reg::BusCommand, 0x01)])?;
    machine.drive.write_pointer(0x2000);
    describe(&mut machine);
    if let Some(mut guest) = given(machine, walk(), 0x25) {
        // The view's error bit isn't the drive's, but the guest sees it, and clears it in both.
        assert_eq!(rt; bus_of(&mut guest.machine), (0x09, 0x01, 0x1000, true));
        assert_eq!(rt; guest.read(Reg::BusStatus), Answer::Byte(0x03));
        guest.act(Writes(Reg::BusStatus, 0x02));
        assert_eq!(rt; guest.read(Reg::BusStatus), Answer::Byte(0x01));
        // The walk began at the table's top: the first sector of zeros went there, and the second didn't yet.
        guest.act(Steps(Good));
        let machine = guest.end();
        let moved = [0x1800, 0x19ff, 0x1a00].map(|place| machine.memory.get(place));
        assert_eq!(rt; moved, [0x00, 0x00, 0xff]);
    } else {
        assert!(rt; false, "the drive is free");
    }
    Ok(())
}

// A view at rest and well but for its Error, with both bytes of each register, HOB and nIEN.
fn at_rest(error: u8) -> View
    ensures { IsLawfulView result }
{
    let file = TaskFile {
        error,
        phase: Phase::Idle,
        ..READ.file
    };
    View { file, ..READ }
}

// What a guest reads of Device once the monitor is gone, where it goes from a view with this Error.
fn removed(error: u8, machine: &mut Machine) -> Option<Answer> {
    let mut side = power_on();
    *side.view_mut() = at_rest(error);
    match remove(side, &mut machine.drive) {
        Ok(gone) => {
            let mut gone = gone;
            let answer = gone.access(&mut machine.drive, &Access::Read8(Reg::Device));
            gone.end();
            Some(answer)
        }
        Err((side, Unclean)) => {
            side.end();
            None
        }
    }
}

#[test]
fn remove_is_unclean_with_error_01h(rt: HostRuntime) -> Result<(), Fail> {
    // After a reset the drive's Error is 01h, and after a flush 00h.
    let writes = [(Reg::Count, 0x77), (Reg::Alternate, 0x02)];
    let mut machine = machine_with(rt.alloc(), &writes)?;
    assert_eq!(rt; removed(0x00, &mut machine), None);
    machine.write(Reg::Status, 0xe7);
    machine.step(Good);
    assert_eq!(rt; removed(0x01, &mut machine), None);
    let kept = (machine.drive.read8(Reg::Count), machine.drive.pending());
    assert_eq!(rt; kept, (0x77, true));
    // The view's registers go to the drive, and what pends there is the monitor's own.
    assert_eq!(rt; removed(0x00, &mut machine), Some(Answer::Byte(0xe0)));
    assert_eq!(rt;
        *machine.drive.file(),
        TaskFile {
            command: 0xe7,
            ..at_rest(0x00).file
        }
    );
    assert_eq!(rt; bus_of(&mut machine), (0x08, 0x00, 0x1000, false));
    Ok(())
}

// Acts on the guest's side, the last of which is a write, and what of Features and Device Control is kept then.
const KEEPS: [(&[Act], u8, u8); 7] = [
    // In Idle all is taken, and makes HOB 0.
    (
        &[Writes(Reg::Alternate, 0x82), Writes(Reg::Error, 0x03)],
        0x03,
        0x02,
    ),
    (
        &[Writes(Reg::Alternate, 0x82), Writes(Reg::Low, 0x03)],
        0x00,
        0x02,
    ),
    // So with DEV at 1, where Status shows nothing.
    (
        &[
            Writes(Reg::Device, 0x10),
            Writes(Reg::Alternate, 0x80),
            Writes(Reg::Error, 0x03),
        ],
        0x03,
        0x00,
    ),
    // At work the drive ignores it, and HOB stays.
    (
        &[
            Writes(Reg::Error, 0x02),
            Writes(Reg::Status, 0x20),
            Writes(Reg::Alternate, 0x82),
            Writes(Reg::Error, 0x03),
        ],
        0x02,
        0x82,
    ),
    (
        &[
            Writes(Reg::Error, 0x02),
            Writes(Reg::Status, 0x20),
            Writes(Reg::Alternate, 0x82),
            Writes(Reg::Low, 0x03),
        ],
        0x02,
        0x82,
    ),
    // Device Control is always taken, and a reset leaves Features 00h.
    (
        &[
            Writes(Reg::Error, 0x02),
            Writes(Reg::Status, 0x20),
            Writes(Reg::Alternate, 0xff),
        ],
        0x00,
        0x86,
    ),
    (
        &[Writes(Reg::Error, 0x02), Writes(Reg::Alternate, 0xfb)],
        0x02,
        0x82,
    ),
];

// Features and Device Control of the view after a reset and these acts; None where the drive isn't free after power-on.
fn kept_after(alloc: Global, acts: &[Act]) -> Result<Option<(u8, u8)>, AllocError> {
    let Some(guest) = guest_after(alloc, acts)? else {
        return Ok(None);
    };
    let (file, _) = guest.view();
    let _machine = guest.end();
    Ok(Some((file.features, file.control)))
}

#[test]
fn what_cannot_be_read_is_kept(rt: HostRuntime) -> Result<(), Fail> {
    for (acts, features, control) in KEEPS {
        let wanted = Some((features, control));
        assert_eq!(rt; kept_after(rt.alloc(), acts)?, wanted, "{acts:?}");
    }
    Ok(())
}
