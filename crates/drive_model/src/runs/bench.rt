//! A drive with its guest's memory, and what is often done to it.

use crate::Drive;
use ata_taskfile::{Ports, Reg, Step, Stepped};
use bm_dma::GuestMemory;
use drive_store::{Store, StoreFault};
use std::alloc::{AllocError, Global};

#[derive(Drop)]
pub(crate) struct Bench<S: Store> {
    pub(crate) drive: Drive<S>,
    pub(crate) memory: GuestMemory,
    // Device, and the previous byte of each two-byte register, as the last command was given.
    given: [u8; 2],
}

impl<S: Store + Drop> Bench<S> {
    // A drive at power-on makes its first step, beside 32 KiB of memory.
    pub(crate) fn new(alloc: Global, drive: Drive<S>) -> Result<Bench<S>, AllocError> {
        let mut bench = Bench {
            drive,
            memory: GuestMemory::new(alloc, 0x8000)?,
            given: [0; 2],
        };
        let _reset = bench.step(Step::Good);
        Ok(bench)
    }
}

impl<S: Store> Bench<S> {
    pub(crate) fn step(&mut self, step: Step) -> Result<Stepped, StoreFault> {
        self.drive.step(step, &mut self.memory)
    }

    // Whether each register shows this.
    pub(crate) fn shows(&mut self, registers: &[(Reg, u8)]) -> bool {
        let mut same = true;
        for &(reg, value) in registers {
            same &= self.drive.read8(reg) == value;
        }
        same
    }

    // Whether the step changes something, and then the line is so and Status shows this, which ends the interrupt.
    pub(crate) fn steps_to(&mut self, step: Step, interrupts: bool, status: u8) -> bool {
        let changed = self.step(step) == Ok(Stepped::Changed);
        let line = self.drive.line();
        let shown = self.drive.read8(Reg::Status);
        changed && line == interrupts && shown == status && !self.drive.line()
    }

    // Whether a good step interrupts and leaves nothing to do.
    pub(crate) fn ends(&mut self) -> bool {
        let ended = self.steps_to(Step::Good, true, 0x50);
        let over = self.step(Step::Good) == Ok(Stepped::Nothing);
        ended && over && !self.drive.line()
    }

    // Whether a step interrupts, and Error and Low show these.
    pub(crate) fn fails(&mut self, step: Step, error: u8, low: u8) -> bool {
        self.steps_to(step, true, 0x51) && self.shows(&[(Reg::Error, error), (Reg::Low, low)])
    }

    // Gives a command of 28 bits, over previous bytes of 77h.
    pub(crate) fn give_narrow(&mut self, command: u8, first: u8, count: u8) {
        self.given = [0x40, 0x77];
        self.give(command, first, count);
    }

    // Gives a command of 48 bits, over previous bytes of 0 and 5 in Device's low bits.
    pub(crate) fn give_wide(&mut self, command: u8, first: u8, count: u8) {
        self.given = [0x45, 0x00];
        self.give(command, first, count);
    }

    // Writes the registers of a command, each previous byte first.
    fn give(&mut self, command: u8, first: u8, count: u8) {
        let [device, previous] = self.given;
        for (reg, byte) in [
            (Reg::Count, count),
            (Reg::Low, first),
            (Reg::Mid, 0),
            (Reg::High, 0),
        ] {
            self.drive.write8(reg, previous);
            self.drive.write8(reg, byte);
        }
        self.drive.write8(Reg::Device, device);
        self.drive.write8(Reg::Status, command);
    }

    // Whether Device and the previous bytes of Low, Mid and High are as the command was given, and Mid and High 0.
    pub(crate) fn is_as_given(&mut self) -> bool {
        let [device, previous] = self.given;
        let now = self.shows(&[(Reg::Device, device), (Reg::Mid, 0), (Reg::High, 0)]);
        self.drive.write8(Reg::Alternate, 0x80);
        let before = self.shows(&[
            (Reg::Low, previous),
            (Reg::Mid, previous),
            (Reg::High, previous),
        ]);
        self.drive.write8(Reg::Alternate, 0x00);
        now && before
    }

    // Whether SRST at 1 lets no step have an effect, and with SRST at 0 a good one ends the reset, without an
    // interrupt.
    pub(crate) fn resets(&mut self) -> bool {
        let held = [self.step(Step::Good), self.step(Step::Bad)];
        self.drive.write8(Reg::Alternate, 0);
        let busy = self.drive.read8(Reg::Status);
        let steps = [
            self.step(Step::Bad),
            self.step(Step::Good),
            self.step(Step::Good),
        ];
        let registers = [
            (Reg::Status, 0x50),
            (Reg::Error, 1),
            (Reg::Count, 1),
            (Reg::Low, 1),
            (Reg::Device, 0),
        ];
        let (nothing, changed) = (Ok(Stepped::Nothing), Ok(Stepped::Changed));
        let ended = held == [nothing, nothing] && steps == [nothing, changed, nothing];
        ended && busy == 0x80 && !self.drive.pending() && self.shows(&registers)
    }

    // Writes 256 words, each this byte twice.
    pub(crate) fn write_block(&mut self, byte: u8) {
        for _ in 0..256usize {
            self.drive.write_word(u16::from_le_bytes([byte, byte]));
        }
    }

    // Whether each of 256 words is this byte twice.
    pub(crate) fn reads_block(&mut self, byte: u8) -> bool {
        let mut same = true;
        for _ in 0..256usize {
            same &= self.drive.read_word() == u16::from_le_bytes([byte, byte]);
        }
        same
    }

    pub(crate) fn skip_words(&mut self, words: u16) {
        for _ in 0..words {
            self.drive.read_word();
        }
    }

    // Whether READ SECTOR(S) finds a sector of this byte throughout.
    pub(crate) fn reads(&mut self, sector: u8, byte: u8) -> bool {
        self.give_narrow(0x20, sector, 1);
        self.step(Step::Good) == Ok(Stepped::Changed) && self.reads_block(byte)
    }

    // Whether WRITE SECTOR(S) goes well, by which a sector becomes this byte throughout.
    pub(crate) fn writes(&mut self, sector: u8, byte: u8) -> bool {
        self.give_narrow(0x30, sector, 1);
        let wanted = self.step(Step::Good);
        self.write_block(byte);
        wanted == Ok(Stepped::Changed) && self.step(Step::Good) == Ok(Stepped::Changed)
    }

    // Whether FLUSH CACHE goes well.
    pub(crate) fn flushes(&mut self) -> bool {
        self.give_narrow(0xe7, 0, 0);
        self.step(Step::Good) == Ok(Stepped::Changed) && self.drive.read8(Reg::Status) == 0x50
    }

    // Has the bus master walk the table at this address: start is written as 0, the pointer, and start as 1.
    pub(crate) fn begin_walk(&mut self, pointer: u32) {
        self.drive.write8(Reg::BusCommand, 0x00);
        self.drive.write_pointer(pointer);
        self.drive.write8(Reg::BusCommand, 0x01);
    }

    // Writes the bytes of a descriptor: base, count, and a word whose highest bit marks the last.
    pub(crate) fn describe(&mut self, place: u32, base: u32, count: u16, last: bool) {
        let [b0, b1, b2, b3] = base.to_le_bytes();
        let [c0, c1] = count.to_le_bytes();
        let mark = if last { 0x80 } else { 0x00 };
        for (i, byte) in [b0, b1, b2, b3, c0, c1, 0x00, mark].iter().enumerate() {
            self.memory.set(place.saturating_add(i as u32), *byte);
        }
    }

    // So many bytes of memory from an address on become this byte.
    pub(crate) fn spread(&mut self, from: u32, bytes: u32, byte: u8) {
        for i in 0..bytes {
            self.memory.set(from.saturating_add(i), byte);
        }
    }

    // Whether so many bytes of memory from an address on are this byte.
    pub(crate) fn is_spread(&self, from: u32, bytes: u32, byte: u8) -> bool {
        let mut same = true;
        for i in 0..bytes {
            same &= self.memory.get(from.saturating_add(i)) == byte;
        }
        same
    }
}
