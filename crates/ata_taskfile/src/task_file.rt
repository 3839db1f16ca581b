//! The task file: a device's registers with the phase of its command. `specs/TaskFile.antt` says what each call means.

ghost use Rattle.std.specs.Prelude.{◌≡◌, false};
ghost use Rattle.ata_taskfile.specs.TaskFile.{line, value, after_read, after_write, wrote, power_on, is_of_bus, reset_ended, refused, interrupted_in, ended_failed, addressed, shows_previous, holds_reset, masks_line, selects_absent, status, shown, is_at_work, is_ignored, stored_as, controlled, in_reset, control_wrote, takes_no_command};

use crate::registers::{
    ABRT, ADDRESS_BITS, CONTROL_BITS, DEV, HOB, IDNF, NIEN, SRST, STATUS_BLOCK, STATUS_BUSY,
    STATUS_FAILED, STATUS_IDLE, has_bit,
};
use crate::{Phase, Refused, Reg, Wrote};

/// The registers of a device, the marks that no register shows, and the phase of the command in hand.
///
/// A two-byte register has its current byte first, then the previous one (ATA/ATAPI-6, 48-bit Address feature set).
#[derive(Clone, Copy, Debug, PartialEq, Eq)]
pub struct TaskFile {
    pub count: [u8; 2],
    pub low: [u8; 2],
    pub mid: [u8; 2],
    pub high: [u8; 2],
    pub features: u8,
    pub device: u8,
    /// The bits HOB, SRST and nIEN as they were last written.
    pub control: u8,
    pub error: u8,
    /// The byte of the last taken command. No register shows it, and no rule looks at it.
    pub command: u8,
    /// The last command failed.
    pub failed: bool,
    /// An interrupt pends.
    pub pending: bool,
    pub phase: Phase,
}

impl TaskFile {
    /// The registers at power-on: in reset, and every byte 00h (own).
    pub fn power_on() -> TaskFile
        ensures { result ≡ power_on }
    {
        TaskFile {
            count: [0, 0],
            low: [0, 0],
            mid: [0, 0],
            high: [0, 0],
            features: 0,
            device: 0,
            control: 0,
            error: 0,
            command: 0,
            failed: false,
            pending: false,
            phase: Phase::Reset,
        }
    }

    /// The interrupt line (ATA/ATAPI-6, INTRQ).
    pub fn line(&self) -> bool
        ensures { result ≡ line self.now }
    {
        self.pending && !self.masks_line()
    }

    /// Reads a register of the task file. A read of Status ends a pending interrupt (ATA/ATAPI-6, Status register).
    pub fn read(&mut self, reg: Reg) -> u8
        requires { is_of_bus reg ≡ false }
        ensures value { result ≡ value reg self.old }
        ensures after { self.new ≡ after_read reg self.old }
    {
        let value = self.value(reg);
        if let Reg::Status = reg {
            self.pending = false;
        }
        value
    }

    fn value(&self, reg: Reg) -> u8
        ensures { result ≡ value reg self.now }
    {
        match reg {
            Reg::Error => self.error,
            Reg::Count => self.shown(self.count),
            Reg::Low => self.shown(self.low),
            Reg::Mid => self.shown(self.mid),
            Reg::High => self.shown(self.high),
            Reg::Device => self.device,
            Reg::Status | Reg::Alternate => self.status(),
            Reg::BusCommand | Reg::BusStatus => 0,
        }
    }

    fn shown(&self, bytes: [u8; 2]) -> u8
        ensures { result ≡ shown self.now bytes }
    {
        if self.shows_previous() {
            bytes[1]
        } else {
            bytes[0]
        }
    }

    fn status(&self) -> u8
        ensures { result ≡ status self.now }
    {
        if self.selects_absent() {
            return 0;
        }
        match self.phase {
            Phase::Reset | Phase::Busy(..) => STATUS_BUSY,
            Phase::Ready(..) => STATUS_BLOCK,
            Phase::Idle if self.failed => STATUS_FAILED,
            Phase::Idle => STATUS_IDLE,
        }
    }

    /// Writes a register of the task file. A command that is taken is kept in `command`; its phase is the caller's
    /// to set, who knows the order that the byte gives.
    pub fn write(&mut self, reg: Reg, v: u8) -> Wrote
        requires { is_of_bus reg ≡ false }
        ensures wrote { result ≡ wrote reg v self.old }
        ensures after { self.new ≡ after_write reg v self.old }
    {
        if self.ignores(reg) {
            return Wrote::Ignored;
        }
        self.control &= !HOB;
        match reg {
            Reg::Error => self.features = v,
            Reg::Count => self.count = [v, self.count[0]],
            Reg::Low => self.low = [v, self.low[0]],
            Reg::Mid => self.mid = [v, self.mid[0]],
            Reg::High => self.high = [v, self.high[0]],
            Reg::Device => self.device = v,
            Reg::Status => return self.take_command(v),
            Reg::Alternate => return self.write_control(v),
            Reg::BusCommand | Reg::BusStatus => {}
        }
        Wrote::Stored
    }

    fn take_command(&mut self, byte: u8) -> Wrote
        ensures wrote { result ≡ Wrote.Command byte }
        ensures after { self.new
            ≡ record self.old { command = byte; error = 0; failed = false; pending = false } }
    {
        self.command = byte;
        self.error = 0;
        self.failed = false;
        self.pending = false;
        Wrote::Command(byte)
    }

    fn write_control(&mut self, v: u8) -> Wrote
        ensures wrote { result ≡ stored_as Reg.Alternate v self.old }
        ensures after { self.new ≡ controlled v self.old }
    {
        self.control = v & CONTROL_BITS;
        if has_bit(SRST, v) {
            self.begin_reset()
        } else {
            Wrote::Stored
        }
    }

    // SRST was written as 1; within a reset that changes nothing more.
    fn begin_reset(&mut self) -> Wrote
        ensures wrote { result ≡ control_wrote self.old.phase }
        ensures after { self.new ≡ in_reset self.old.phase self.old }
    {
        if let Phase::Reset = self.phase {
            return Wrote::Stored;
        }
        self.phase = Phase::Reset;
        self.pending = false;
        Wrote::ResetBegun
    }

    /// SRST is 1: a reset goes on until it is written as 0 (ATA/ATAPI-6, Device Control register).
    pub fn holds_reset(&self) -> bool
        ensures { result ≡ holds_reset self.now }
    {
        has_bit(SRST, self.control)
    }

    /// Ends a reset: the registers show that the device is there and well (own: these values).
    pub fn end_reset(&mut self)
        ensures { self.new ≡ reset_ended self.old }
    {
        self.count = [1, 0];
        self.low = [1, 0];
        self.mid = [0, 0];
        self.high = [0, 0];
        self.device = 0;
        self.features = 0;
        self.error = 1;
        self.failed = false;
        self.phase = Phase::Idle;
    }

    /// Ends a command as failed, with this Error byte, and interrupts.
    pub fn end_failed(&mut self, error: u8)
        ensures { self.new ≡ ended_failed error self.old }
    {
        self.error = error;
        self.failed = true;
        self.pending = true;
        self.phase = Phase::Idle;
    }

    /// Ends a command that is refused; the address registers stay (own).
    pub fn refuse(&mut self, reason: Refused)
        ensures { self.new ≡ refused reason self.old }
    {
        match reason {
            Refused::Abort => self.end_failed(ABRT),
            Refused::NotFound => self.end_failed(IDNF),
        }
    }

    /// Comes into this phase and interrupts: `Ready`, where a block waits in Data or is wanted there, or `Idle`, where
    /// the command has ended well (ATA/ATAPI-6, INTRQ).
    pub fn interrupt_in(&mut self, phase: Phase)
        ensures { self.new ≡ interrupted_in phase self.old }
    {
        self.phase = phase;
        self.pending = true;
    }

    /// Puts a sector's number into the address registers: of 28 bits into the current bytes and Device's low four
    /// bits, of 48 bits, where `extended`, into both bytes of the three registers (own: after which failure).
    pub fn put_address(&mut self, extended: bool, sector: u64)
        ensures { self.new ≡ addressed extended sector self.old }
    {
        let [b0, b1, b2, b3, b4, b5, ..] = sector.to_le_bytes();
        if extended {
            self.low = [b0, b3];
            self.mid = [b1, b4];
            self.high = [b2, b5];
        } else {
            self.low = [b0, self.low[1]];
            self.mid = [b1, self.mid[1]];
            self.high = [b2, self.high[1]];
            self.device = (self.device & !ADDRESS_BITS) | (b3 & ADDRESS_BITS);
        }
    }

    fn ignores(&self, reg: Reg) -> bool
        ensures { result ≡ is_ignored reg self.now }
    {
        match reg {
            Reg::Alternate => false,
            Reg::Status => self.takes_no_command() || self.selects_absent(),
            Reg::BusCommand | Reg::BusStatus => true,
            _ => self.is_at_work(),
        }
    }

    fn is_at_work(&self) -> bool
        ensures { result ≡ is_at_work self.now.phase }
    {
        match self.phase {
            Phase::Reset | Phase::Busy(..) => true,
            Phase::Idle | Phase::Ready(..) => false,
        }
    }

    fn takes_no_command(&self) -> bool
        ensures { result ≡ takes_no_command self.now.phase }
    {
        match self.phase {
            Phase::Idle => false,
            Phase::Reset | Phase::Busy(..) | Phase::Ready(..) => true,
        }
    }

    fn shows_previous(&self) -> bool
        ensures { result ≡ shows_previous self.now }
    {
        has_bit(HOB, self.control)
    }

    fn masks_line(&self) -> bool
        ensures { result ≡ masks_line self.now }
    {
        has_bit(NIEN, self.control)
    }

    fn selects_absent(&self) -> bool
        ensures { result ≡ selects_absent self.now }
    {
        has_bit(DEV, self.device)
    }
}
