//! Many words of Data at once: what one access after the other would do, with the phase written once.

ghost use Rattle.std.specs.Prelude.{◌≡◌, ◌<◌, ◌≤◌, ◌-◌, ◌*◌, ◌/◌, ◌%◌, length, take, true};
ghost use Rattle.ata_taskfile.specs.Data.{gives_words, takes_words};
ghost use Rattle.plain_drive.specs.Plain.{words_of};
ghost use Rattle.plain_drive.specs.Words.{words_read, after_words, after_written, bytes_of};
ghost use Rattle.drive_model.specs.Data.{words_given, words_taken};
ghost use Rattle.drive_model.specs.Drive.{behind, device_of};

use crate::Drive;
use crate::words::{get_words, put_words};
use ata_taskfile::registers::BLOCK_WORDS;
use ata_taskfile::{Phase, Request, Taken};
use drive_store::Store;
use std::cmp::min;

impl<S: Store> Drive<S> {
    /// Reads words from Data, one for each two bytes of `into`, the low byte of each first (ATA/ATAPI-6, PIO data-in).
    ///
    /// Outside a transfer, and behind the last word of a block, each answers FFFFh (own).
    pub fn read_words(&mut self, into: &mut [u8])
        requires even { length into.old % 2 ≡ 0 }
        ensures bytes { into.new
            ≡ bytes_of (words_read (length into.old / 2) (device_of self.old)) }
        ensures after { device_of self.new
            ≡ after_words (length into.old / 2) (device_of self.old) }
        ensures rest { behind self.new ≡ behind self.old }
    {
        into.fill(0xff);
        match self.file.phase {
            Phase::Ready(Taken::Good(order), done, left) if order.form.gives_words() => {
                let count = min(into.len() / 2, left.into());
                self.give_words(order, done, left, &mut into[..2 * count]);
            }
            _ => {}
        }
    }

    // Reads words that are left of a block, `left` of them at most.
    fn give_words(&mut self, order: Request, done: u32, left: u16, into: &mut [u8])
        requires phase { self.old.file.phase ≡ Phase.Ready (Taken.Good order) done left }
        requires gives { gives_words order.form ≡ true }
        requires even { length into.old % 2 ≡ 0 }
        requires few { length into.old / 2 ≤ left }
        ensures bytes { into.new
            ≡ bytes_of (words_read (length into.old / 2) (device_of self.old)) }
        ensures after { device_of self.new
            ≡ after_words (length into.old / 2) (device_of self.old) }
        ensures rest { behind self.new ≡ behind self.old }
    {
        let count = into.len() / 2;
        let first = usize::from(BLOCK_WORDS - left);
        put_words(&self.block[first..first + count], into);
        self.file.phase = phase_given(order, done, left, count as u16);
    }

    /// Writes words to Data, one for each two bytes, the low byte of each first (ATA/ATAPI-6, PIO data-out).
    ///
    /// Outside a transfer, and behind the last word of a block, they are ignored (own).
    pub fn write_words(&mut self, bytes: &[u8])
        ensures after { device_of self.new
            ≡ after_written (words_of bytes.now) (device_of self.old) }
        ensures rest { behind self.new ≡ behind self.old }
    {
        match self.file.phase {
            Phase::Ready(Taken::Good(order), done, left) if order.form.takes_words() => {
                let count = min(bytes.len() / 2, left.into());
                self.take_words(order, done, left, &bytes[..2 * count]);
            }
            _ => {}
        }
    }

    // Writes words that are wanted of a block, `left` of them at most.
    fn take_words(&mut self, order: Request, done: u32, left: u16, bytes: &[u8])
        requires phase { self.old.file.phase ≡ Phase.Ready (Taken.Good order) done left }
        requires takes { takes_words order.form ≡ true }
        requires even { length bytes.now % 2 ≡ 0 }
        requires few { length bytes.now / 2 ≤ left }
        ensures after { device_of self.new
            ≡ after_written (words_of bytes.now) (device_of self.old) }
        ensures rest { behind self.new ≡ behind self.old }
    {
        let count = bytes.len() / 2;
        let first = usize::from(self.words);
        get_words(bytes, &mut self.block[first..first + count]);
        self.words += count as u16;
        self.file.phase = phase_taken(order, done, left, count as u16);
    }
}

// The phase after so many words were read of a block of which `left` were left.
fn phase_given(order: Request, done: u32, left: u16, count: u16) -> Phase
    requires { done < order.count }
    ensures { result ≡ words_given order done left count }
{
    if count < left {
        Phase::Ready(Taken::Good(order), done, left - count)
    } else {
        order.word_given(done, 1)
    }
}

// The phase after so many words were written of a block of which `left` were wanted.
fn phase_taken(order: Request, done: u32, left: u16, count: u16) -> Phase
    requires { done < order.count }
    ensures { result ≡ words_taken order done left count }
{
    if count < left {
        Phase::Ready(Taken::Good(order), done, left - count)
    } else {
        order.word_taken(done, 1)
    }
}
