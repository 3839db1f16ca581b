//! The trait by which a device is reached. `specs/Device.antt` says what each of its calls means.

ghost use Rattle.std.specs.Prelude.{◌≡◌};
ghost use Rattle.ata_taskfile.specs.Device.{Device, byte_read, after_read8, after_write8, word_read, after_read_word, after_write_word, pointer_read, after_write_pointer, line_read, is_pending, is_walking};
ghost use Rattle.ata_taskfile.specs.Access.{answer_to, accessed};
ghost use Rattle.ata_taskfile.specs.Accesses.{Reaches};
ghost use Rattle.ata_taskfile.specs.Lawful.{IsLawful};
ghost use Rattle.ata_taskfile.specs.Sectors.{HoldsSectors};

use crate::{Access, Answer, Reg};

/// The guest's side of a device: each call is one access (ATA/ATAPI-6, I/O registers; Bus Master IDE 1.0, registers).
///
/// A call does to the device what its definition says, and to the rest, which is whatever else an implementation
/// means, nothing. A caller may rely on what every device keeps (`IsLawful`).
pub trait Ports {
    /// What the implementation means besides a device.
    ghost Rest: { Type 0 };

    /// The registers, the bus master, the block in transfer and the sectors.
    ghost device: { Self → Device };

    /// What no access changes.
    ghost rest: { Self → Rest };

    /// Reads a register.
    fn read8(&mut self, reg: Reg) -> u8
        ensures answer { result ≡ byte_read reg (device self.old) }
        ensures after { device self.new ≡ after_read8 reg (device self.old) }
        ensures rest { rest self.new ≡ rest self.old }
        ensures reached { (origin : Device) → Reaches origin (device self.old)
            → Reaches origin (device self.new) };

    /// Writes a register.
    fn write8(&mut self, reg: Reg, v: u8)
        ensures after { device self.new ≡ after_write8 reg v (device self.old) }
        ensures rest { rest self.new ≡ rest self.old }
        ensures reached { (origin : Device) → Reaches origin (device self.old)
            → Reaches origin (device self.new) };

    /// Reads the next word of the block that waits in Data, the sector's even byte low; FFFFh outside a transfer (own).
    fn read_word(&mut self) -> u16
        ensures answer { result ≡ word_read (device self.old) }
        ensures after { device self.new ≡ after_read_word (device self.old) }
        ensures rest { rest self.new ≡ rest self.old }
        ensures reached { (origin : Device) → Reaches origin (device self.old)
            → Reaches origin (device self.new) };

    /// Writes the next word of the block that is wanted in Data; outside a transfer it is ignored (own).
    fn write_word(&mut self, w: u16)
        ensures after { device self.new ≡ after_write_word w (device self.old) }
        ensures rest { rest self.new ≡ rest self.old }
        ensures reached { (origin : Device) → Reaches origin (device self.old)
            → Reaches origin (device self.new) };

    /// Reads the pointer to the descriptor table.
    fn read_pointer(&self) -> u32
        ensures { result ≡ pointer_read (device self.now) };

    /// Writes the pointer to the descriptor table; while start is 1 it stays (own).
    fn write_pointer(&mut self, v: u32)
        ensures after { device self.new ≡ after_write_pointer v (device self.old) }
        ensures rest { rest self.new ≡ rest self.old }
        ensures reached { (origin : Device) → Reaches origin (device self.old)
            → Reaches origin (device self.new) };

    /// Looks at the interrupt line.
    fn line(&self) -> bool
        ensures { result ≡ line_read (device self.now) };

    /// Whether an interrupt pends, also where nIEN masks it. A real channel doesn't show it (own).
    fn pending(&self) -> bool
        ensures { result ≡ is_pending (device self.now) };

    /// Whether a walk is running. A real channel doesn't show it (own).
    fn walking(&self) -> bool
        ensures { result ≡ is_walking (device self.now) };

    /// Every device is lawful.
    ghost lawful: { (p : Self) → IsLawful (device p) };

    /// Each value that a sector has is 512 bytes.
    ghost whole: { (p : Self) → HoldsSectors (device p) };
}

/// Makes one access, and gives its answer: `Nothing` to a write, and 1 or 0 to a look at the line.
pub fn perform<P: Ports>(ports: &mut P, access: &Access) -> Answer
    ensures answer { result ≡ answer_to access.now (P.device ports.old) }
    ensures after { P.device ports.new ≡ accessed access.now (P.device ports.old) }
    ensures rest { P.rest ports.new ≡ P.rest ports.old }
    ensures reached { (origin : Device) → Reaches origin (P.device ports.old)
        → Reaches origin (P.device ports.new) }
{
    match *access {
        Access::Read8(reg) => Answer::Byte(ports.read8(reg)),
        Access::Write8(reg, v) => {
            ports.write8(reg, v);
            Answer::Nothing
        }
        Access::ReadWord => Answer::Word(ports.read_word()),
        Access::WriteWord(w) => {
            ports.write_word(w);
            Answer::Nothing
        }
        Access::ReadPointer => Answer::Long(ports.read_pointer()),
        Access::WritePointer(v) => {
            ports.write_pointer(v);
            Answer::Nothing
        }
        Access::Line => Answer::Byte(u8::from(ports.line())),
    }
}
