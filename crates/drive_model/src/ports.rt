//! The guest's accesses to a drive.

ghost use Rattle.std.specs.Prelude.{◌≡◌, ◌-◌, false, true, slice_index};
ghost use Rattle.std.proofs.Common.{subst, sym, ℕ};
ghost use Rattle.ata_taskfile.specs.TaskFile.{is_of_bus};
ghost use Rattle.ata_taskfile.specs.Data.{gives_words, word_given};
ghost use Rattle.ata_taskfile.specs.Device.{after_write8, with_phase};
ghost use Rattle.ata_taskfile.specs.Lawful.{IsLawfulState};
ghost use Rattle.drive_model.specs.Drive.{Behind, behind, count_of, device_of};
ghost use Rattle.drive_model.specs.Whole.{cells_hold};

use crate::Drive;
use ata_command::read_request;
use ata_taskfile::registers::BLOCK_WORDS;
use ata_taskfile::{Phase, Ports, Reg, Request, Taken, Wrote};
use drive_store::Store;

impl<S: Store> Ports for Drive<S> {
    ghost Rest = { Behind S };

    ghost device = { device_of };

    ghost rest = { behind };

    fn read8(&mut self, reg: Reg) -> u8 {
        if reg.is_of_bus() {
            return self.bus.read(reg);
        }
        let mut file = self.file;
        let value = file.read(reg);
        self.put_file(file);
        value
    }

    fn write8(&mut self, reg: Reg, v: u8) {
        if reg.is_of_bus() {
            self.bus.write(reg, v);
        } else {
            self.write_file(reg, v);
        }
    }

    fn read_word(&mut self) -> u16 {
        match self.file.phase {
            Phase::Ready(Taken::Good(order), done, left) if order.form.gives_words() =>
                self.give_word(order, done, left),
            _ => 0xffff,
        }
    }

    #[tactic(auto, using(ata_taskfile::proofs::Ends::room_for_word, ata_taskfile::proofs::Ends::word_taken_lawful))]
    fn write_word(&mut self, w: u16) {
        match self.file.phase {
            Phase::Ready(Taken::Good(order), done, left) if order.form.takes_words() =>
                self.push_word(w, order.word_taken(done, left)),
            _ => {}
        }
    }

    fn read_pointer(&self) -> u32 {
        self.bus.pointer
    }

    fn write_pointer(&mut self, v: u32) {
        self.bus.write_pointer(v);
    }

    fn line(&self) -> bool {
        self.file.line()
    }

    fn pending(&self) -> bool {
        self.file.pending
    }

    fn walking(&self) -> bool {
        self.bus.walk.is_some()
    }

    ghost lawful = { λ d. let P : ℕ → Type 0 = λ n. IsLawfulState d.file d.bus n (count_of d) in
        subst P (sym d.counted) d.lawful };

    ghost whole = { λ d. cells_hold d.sectors.cache.entries _ _ d.sectors.whole
        (S.whole d.sectors.store) };
}

impl<S: Store> Drive<S> {
    // Gives the next word of the block that waits in Data.
    #[tactic(auto, using(ata_taskfile::proofs::Ends::given_block_whole, ata_taskfile::proofs::Ends::word_given_lawful))]
    fn give_word(&mut self, order: Request, done: u32, left: u16) -> u16
        requires phase { self.old.file.phase ≡ Phase.Ready (Taken.Good order) done left }
        requires gives { gives_words order.form ≡ true }
        ensures answer { result ≡ slice_index (device_of self.old).block (256 - left) }
        ensures after { device_of self.new
            ≡ with_phase (word_given order done left) (device_of self.old) }
        ensures sectors { self.new.sectors ≡ self.old.sectors }
    {
        let word = self.block[(BLOCK_WORDS - left) as usize];
        self.file.phase = order.word_given(done, left);
        word
    }

    // Writes a register of the task file.
    fn write_file(&mut self, reg: Reg, v: u8)
        requires { is_of_bus reg ≡ false }
        ensures after { device_of self.new ≡ after_write8 reg v (device_of self.old) }
        ensures sectors { self.new.sectors ≡ self.old.sectors }
    {
        let phase = self.file.phase;
        let mut file = self.file;
        match file.write(reg, v) {
            Wrote::Ignored => {}
            Wrote::Stored => self.put_file(file),
            Wrote::Command(byte) => {
                let order = read_request(&file, byte, self.sectors.store.sectors());
                file.phase = Phase::Busy(Taken::of(order), 0);
                self.put_file(file);
            }
            Wrote::ResetBegun => {
                self.bus.reset_in(phase);
                self.put_file(file);
            }
        }
    }
}
