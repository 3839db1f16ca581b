//! The drive and the guest's memory, as a run without a monitor has them.

ghost use Rattle.std.specs.Prelude.{◌≤◌, ◌/◌, ◌%◌, length};
ghost use Rattle.ata_taskfile.specs.Device.{after_read8, after_write8, after_write_pointer, byte_read};
ghost use Rattle.ata_taskfile.specs.Lawful.{IsLawful};
ghost use Rattle.plain_drive.specs.Plain.{words_of};
ghost use Rattle.plain_drive.specs.Physical.{physical_step, seen};
ghost use Rattle.plain_drive.specs.Step.{acts, stepped_if};
ghost use Rattle.plain_drive.specs.Words.{words_read, after_words, after_written, bytes_of};

use ata_taskfile::{Ports, Reg, Step, Stepped};
use bm_dma::GuestMemory;
use drive_model::Drive;
use drive_store::MemoryStore;

/// A drive whose sectors are in memory, and the guest's memory, which its bus master reaches.
///
/// A contract sees the two as one physical drive (`physical` of `specs/Machine.antt`).
#[derive(Drop)]
pub(crate) struct Machine {
    pub(crate) drive: Drive<MemoryStore>,
    pub(crate) memory: GuestMemory,
    ghost few: { length memory ≤ 16777216 },
}

impl Machine {
    ghost use Rattle.std.specs.Prelude.{◌≡◌, slice_set};
    ghost use Rattle.bm_dma.specs.Memory.{byte_at};
    ghost use Rattle.world.specs.Machine.{device, physical, with_device, with_memory};

    /// The guest reads a register.
    #[tactic(auto, using(crate::proofs::Machines::reached))]
    pub(crate) fn read8(&mut self, reg: Reg) -> u8
        ensures answer { result ≡ byte_read reg (device self.old) }
        ensures after { physical self.new
            ≡ with_device (after_read8 reg (device self.old)) (physical self.old) }
    {
        self.drive.read8(reg)
    }

    /// The guest writes a register.
    #[tactic(auto, using(crate::proofs::Machines::reached))]
    pub(crate) fn write8(&mut self, reg: Reg, v: u8)
        ensures after { physical self.new
            ≡ with_device (after_write8 reg v (device self.old)) (physical self.old) }
    {
        self.drive.write8(reg, v);
    }

    /// The guest reads words from Data, one for each two bytes of `into`, the low byte of each first.
    #[tactic(auto, using(crate::proofs::Machines::reached))]
    pub fn read_words(&mut self, into: &mut [u8])
        requires even { length into.old % 2 ≡ 0 }
        ensures bytes { into.new
            ≡ bytes_of (words_read (length into.old / 2) (device self.old)) }
        ensures after { physical self.new
            ≡ with_device (after_words (length into.old / 2) (device self.old))
            (physical self.old) }
    {
        self.drive.read_words(into);
    }

    /// The guest writes words to Data, one for each two bytes, the low byte of each first.
    #[tactic(auto, using(crate::proofs::Machines::reached))]
    pub fn write_words(&mut self, bytes: &[u8])
        ensures after { physical self.new
            ≡ with_device (after_written (words_of bytes.now) (device self.old))
            (physical self.old) }
    {
        self.drive.write_words(bytes);
    }

    /// The guest writes the pointer to the descriptor table.
    #[tactic(auto, using(crate::proofs::Machines::reached))]
    pub(crate) fn write_pointer(&mut self, v: u32)
        ensures after { physical self.new
            ≡ with_device (after_write_pointer v (device self.old)) (physical self.old) }
    {
        self.drive.write_pointer(v);
    }

    /// The drive makes a step, and says whether it had an effect.
    pub(crate) fn step(&mut self, step: Step) -> Stepped
        ensures lawful { IsLawful (device self.old) }
        ensures answer { result ≡ stepped_if (acts step (seen (physical self.old))) }
        ensures after { physical self.new ≡ physical_step step (physical self.old) }
    {
        // A store in memory has no fault.
        self.drive.step(step, &mut self.memory).unwrap()
    }

    /// The byte of the guest's memory at a place; FFh outside of it (own).
    #[tactic(auto, using(crate::proofs::Machines::outside))]
    pub(crate) fn byte(&self, place: u64) -> u8
        ensures { result ≡ byte_at self.now.memory place }
    {
        match u32::try_from(place) {
            Ok(address) => self.memory.get(address),
            Err(_) => 0xff,
        }
    }

    /// Sets the byte of the guest's memory at a place; outside of it nothing happens (own).
    #[tactic(auto, using(crate::proofs::Machines::outside_set))]
    pub(crate) fn set_byte(&mut self, place: u64, v: u8)
        ensures after { physical self.new
            ≡ with_memory (slice_set self.old.memory place v) (physical self.old) }
        ensures memory { self.new.memory ≡ slice_set self.old.memory place v }
    {
        if let Ok(address) = u32::try_from(place) {
            self.memory.set(address, v);
        }
    }
}
