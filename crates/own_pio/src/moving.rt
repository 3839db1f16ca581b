//! A block that goes through Data.

ghost use Rattle.std.specs.Prelude.{◌≡◌, ◌+◌, ◌≤◌, length};
ghost use Rattle.ata_taskfile.specs.Device.{Device, with_phase};
ghost use Rattle.ata_taskfile.specs.Accesses.{Reaches};
ghost use Rattle.plain_drive.specs.Words.{bytes_of};
ghost use Rattle.own_pio.specs.Moving.{IsGivenWhole, IsWantedWhole, phase_left, phase_wanted, put_over, words_at};

use ata_taskfile::Ports;
use ata_taskfile::registers::{BLOCK_WORDS, SECTOR_BYTES};

// The words of a block, to count by.
const WORDS: usize = BLOCK_WORDS as usize;

// Takes the block that waits in Data, the low byte of each word first, into the bytes from `start` on.
pub(crate) fn take_block<P: Ports>(ports: &mut P, bytes: &mut [u8], start: usize)
    requires given { IsGivenWhole (P.device ports.old) }
    requires room { start + SECTOR_BYTES ≤ length bytes.old }
    ensures bytes { bytes.new ≡ put_over start (bytes_of (P.device ports.old).block) bytes.old }
    ensures after { let d = P.device ports.old in
        P.device ports.new ≡ with_phase (phase_left d.file.phase 0) d }
    ensures rest { P.rest ports.new ≡ P.rest ports.old }
    ensures reached { (origin : Device) → Reaches origin (P.device ports.old)
        → Reaches origin (P.device ports.new) }
{
    for i in 0..WORDS {
        let [low, high] = ports.read_word().to_le_bytes();
        bytes[start + 2 * i] = low;
        bytes[start + 2 * i + 1] = high;
    }
}

// Writes the block that is wanted in Data, of the bytes from `start` on, the low byte of each word first.
pub(crate) fn put_block<P: Ports>(ports: &mut P, bytes: &[u8], start: usize)
    requires wanted { IsWantedWhole (P.device ports.old) }
    requires room { start + SECTOR_BYTES ≤ length bytes.now }
    ensures after { let d = P.device ports.old in P.device ports.new
        ≡ with_phase (phase_wanted d.file.phase 0)
        (record d { block = words_at BLOCK_WORDS start bytes.now }) }
    ensures rest { P.rest ports.new ≡ P.rest ports.old }
    ensures reached { (origin : Device) → Reaches origin (P.device ports.old)
        → Reaches origin (P.device ports.new) }
{
    for i in 0..WORDS {
        ports.write_word(u16::from_le_bytes([bytes[start + 2 * i], bytes[start + 2 * i + 1]]));
    }
}
