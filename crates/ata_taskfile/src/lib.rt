//! One ATA device as its host sees it: the register file, the phase of the command in hand, and the trait
//! `Ports`, by which every other crate reaches a device.
//!
//! Start with the enums below, then `registers` for the bits and the command bytes, `task_file` and `bus_master` for
//! the calls, `order` and `transfer` for what a command asks for and how its data moves, and `ports` for the trait.
//! `specs/TaskFile.antt`, `Bus.antt` and `Data.antt` say what each call does to the registers and the phase,
//! `specs/Device.antt` and `Access.antt` what an access does to the whole device, `specs/Order.antt` which order a
//! command byte gives, and `specs/Lawful.antt` what every device keeps.
//! `docs/drive.md` has the same rules as tables.
//!
//! The tests are in `src/tests.rt`.

#![tactic(auto)]

mod bus_master;
mod laws;
mod order;
mod ports;
pub mod registers;
mod task_file;
#[cfg(test)]
mod tests;
mod transfer;

pub use bus_master::Bus;
pub use laws::{
    a_rise_sets_the_interrupt_bit, accesses_keep_lawful, accesses_move_no_sector,
    ignored_writes_do_nothing, orders_fit_the_drive, power_on_is_lawful,
};
pub use ports::{Ports, perform};
pub use task_file::TaskFile;

/// A register of the device, by the name under which it is read (ATA/ATAPI-6, I/O registers).
#[derive(Clone, Copy, Debug, PartialEq, Eq)]
pub enum Reg {
    /// Error when read, Features when written.
    Error,
    /// Sector Count.
    Count,
    /// LBA Low.
    Low,
    /// LBA Mid.
    Mid,
    /// LBA High.
    High,
    Device,
    /// Status when read, Command when written.
    Status,
    /// Alternate Status when read, Device Control when written.
    Alternate,
    /// Bus master command (Bus Master IDE 1.0, command register).
    BusCommand,
    /// Bus master status (Bus Master IDE 1.0, status register).
    BusStatus,
}

/// What a command does (ATA/ATAPI-6, command descriptions; own: which kinds there are).
#[derive(Clone, Copy, Debug, PartialEq, Eq)]
pub enum Kind {
    Read,
    Write,
    Verify,
    Flush,
    Identify,
    Features,
}

/// How a command's data moves (ATA/ATAPI-6, PIO data-in, PIO data-out and DMA).
#[derive(Clone, Copy, Debug, PartialEq, Eq)]
pub enum Form {
    NoMove,
    PioIn,
    PioOut,
    DmaIn,
    DmaOut,
}

/// Why a command is refused (ATA/ATAPI-6, Error register).
#[derive(Clone, Copy, Debug, PartialEq, Eq)]
pub enum Refused {
    /// The device doesn't have the command, or not with these registers.
    Abort,
    /// The sectors aren't all on the device.
    NotFound,
}

/// What a command asks for, read from its byte and the registers (ATA/ATAPI-6, inputs of a command).
#[derive(Clone, Copy, Debug, PartialEq, Eq)]
pub struct Request {
    pub kind: Kind,
    pub form: Form,
    /// The command has the wide registers: 48 bits of address, 16 bits of count.
    pub extended: bool,
    /// The first sector; 0 for a command without a range.
    pub first: u64,
    /// How many sectors; 1 for IDENTIFY DEVICE, and 0 for other commands without a range.
    pub count: u32,
}

/// The order of a command that the device took: what it is to do, or why it refuses (own).
#[derive(Clone, Copy, Debug, PartialEq, Eq)]
pub enum Taken {
    Good(Request),
    Bad(Refused),
}

/// Where the command in hand stands (own). The numbers are the sectors done so far, and in `Ready` the words of the
/// block that are left.
#[derive(Clone, Copy, Debug, PartialEq, Eq)]
pub enum Phase {
    /// Power-on, or SRST was written. A Good step ends it once SRST is 0.
    Reset,
    Idle,
    /// The device is at work, and shows BSY.
    Busy(Taken, u32),
    /// The guest is at work: a block waits in Data, or is wanted there, and DRQ shows it.
    Ready(Taken, u32, u16),
}

/// What a write to a register of the task file did (own).
#[derive(Clone, Copy, Debug, PartialEq, Eq)]
pub enum Wrote {
    Stored,
    /// The write had no effect.
    Ignored,
    /// A command was taken. All of it is done but the phase.
    Command(u8),
    /// SRST was written as 1 outside phase Reset.
    ResetBegun,
}

/// One access of a guest to the device (ATA/ATAPI-6, I/O registers; Bus Master IDE 1.0, registers). The numbers are
/// what is written.
#[derive(Clone, Copy, Debug, PartialEq, Eq)]
pub enum Access {
    Read8(Reg),
    Write8(Reg, u8),
    ReadWord,
    WriteWord(u16),
    ReadPointer,
    WritePointer(u32),
    Line,
}

/// What an access answers: `Nothing` to a write, a `Byte` of a register or 1 or 0 of the line, a `Word` of Data, or the
/// `Long` pointer (own).
#[derive(Clone, Copy, Debug, PartialEq, Eq)]
pub enum Answer {
    Nothing,
    Byte(u8),
    Word(u16),
    Long(u32),
}

/// A step of the drive (own): one that goes well, or one at which the work in hand fails.
#[derive(Clone, Copy, Debug, PartialEq, Eq)]
pub enum Step {
    Good,
    Bad,
}

/// What a step did (own).
#[derive(Clone, Copy, Debug, PartialEq, Eq)]
pub enum Stepped {
    /// The step had no effect.
    Nothing,
    Changed,
}
