//! The bus master of the primary channel: its registers, its table pointer, and where a walk begins and ends.
//! `specs/Bus.antt` says what each call means.

ghost use Rattle.std.specs.Prelude.{◌≡◌, true};
ghost use Rattle.ata_taskfile.specs.TaskFile.{is_of_bus};
ghost use Rattle.ata_taskfile.specs.Bus.{idle_bus, bit_shown, command_shown, status_shown, bus_value, started, command_written, status_written, bus_written, pointer_written, walk_ended, raised};
ghost use Rattle.ata_taskfile.specs.Device.{bus_in_reset};

use crate::registers::{ACTIVE, BUS_ERROR, INTERRUPT, INWARD, START, has_bit};
use crate::{Phase, Reg, Taken};

/// The bus master of the primary channel (Bus Master IDE 1.0, registers).
#[derive(Clone, Copy, Debug, PartialEq, Eq)]
pub struct Bus {
    pub start: bool,
    /// The direction bit, which is kept and not looked at (own).
    pub inward: bool,
    pub active: bool,
    pub error: bool,
    pub interrupt: bool,
    /// The byte place of the descriptor table.
    pub pointer: u32,
    /// The running walk with the sectors that it moved.
    pub walk: Option<u32>,
}

impl Bus {
    /// The bus master at power-on: all 0 (own).
    pub fn power_on() -> Bus
        ensures { result ≡ idle_bus }
    {
        Bus {
            start: false,
            inward: false,
            active: false,
            error: false,
            interrupt: false,
            pointer: 0,
            walk: None,
        }
    }

    /// Reads a register of the bus master, which changes nothing. Bits without a meaning are 0 (own).
    pub fn read(&self, reg: Reg) -> u8
        requires { is_of_bus reg ≡ true }
        ensures { result ≡ bus_value reg self.now }
    {
        match reg {
            Reg::BusCommand => self.command(),
            Reg::BusStatus => self.status(),
            _ => 0,
        }
    }

    fn command(&self) -> u8
        ensures { result ≡ command_shown self.now }
    {
        bit_shown(self.start, START) | bit_shown(self.inward, INWARD)
    }

    fn status(&self) -> u8
        ensures { result ≡ status_shown self.now }
    {
        bit_shown(self.active, ACTIVE)
            | bit_shown(self.error, BUS_ERROR)
            | bit_shown(self.interrupt, INTERRUPT)
    }

    /// Writes a register of the bus master. Start written as 1 after 0 begins a walk at the table's top, and written
    /// as 0 stops it (Bus Master IDE 1.0, command register); a 1 clears error or interrupt (status register).
    pub fn write(&mut self, reg: Reg, v: u8)
        requires { is_of_bus reg ≡ true }
        ensures { self.new ≡ bus_written reg v self.old }
    {
        match reg {
            Reg::BusCommand => self.write_command(v),
            Reg::BusStatus => self.write_status(v),
            _ => {}
        }
    }

    fn write_command(&mut self, v: u8)
        ensures { self.new ≡ command_written v self.old }
    {
        self.inward = has_bit(INWARD, v);
        self.write_start(has_bit(START, v));
    }

    // Start written as 1 while it is 1 leaves a walk where it stands.
    fn write_start(&mut self, start: bool)
        ensures { self.new ≡ started start self.old.start self.old }
    {
        if !start {
            self.start = false;
            self.active = false;
            self.walk = None;
        } else if !self.start {
            self.start = true;
            self.active = true;
            self.walk = Some(0);
        }
    }

    fn write_status(&mut self, v: u8)
        ensures { self.new ≡ status_written v self.old }
    {
        self.error = self.error && !has_bit(BUS_ERROR, v);
        self.interrupt = self.interrupt && !has_bit(INTERRUPT, v);
    }

    /// Writes the table pointer, whose two low bits are 0 (Bus Master IDE 1.0, descriptor table pointer register).
    /// While start is 1 it stays (own).
    pub fn write_pointer(&mut self, v: u32)
        ensures { self.new ≡ pointer_written v self.old }
    {
        if self.start {
            return;
        }
        self.pointer = v - v % 4;
    }

    /// Ends the walk with its command, where one is running; active stays (own).
    pub fn end_walk(&mut self)
        ensures { self.new ≡ walk_ended self.old }
    {
        self.walk = None;
    }

    /// Ends what a reset in this phase ends: the walk of a command whose sectors the bus master moves (own).
    pub fn reset_in(&mut self, phase: Phase)
        ensures { self.new ≡ bus_in_reset phase self.old }
    {
        if phase.is_moving() {
            self.end_walk();
        }
    }

    /// Takes note of the line, which was and is so: each rise sets the interrupt bit (Bus Master IDE 1.0, status
    /// register).
    pub fn note_line(&mut self, was: bool, is: bool)
        ensures { self.new ≡ raised was is self.old }
    {
        if is && !was {
            self.interrupt = true;
        }
    }
}

fn bit_shown(on: bool, bit: u8) -> u8
    ensures { result ≡ bit_shown on bit }
{
    if on { bit } else { 0 }
}
