//! The bytes and the words of a sector of a piece.

ghost use Rattle.std.specs.Prelude.{◌≡◌, ◌+◌, ◌-◌, ◌*◌, ◌<◌, ◌≤◌, length, slice_index};
ghost use Rattle.ata_taskfile.specs.declared.registers.TheConstants.{SECTOR_BYTES, BLOCK_WORDS};
ghost use Rattle.plain_drive.specs.Plain.{words_of};
ghost use Rattle.redirect.specs.Piece.{piece_bytes};

use ata_taskfile::registers::{BLOCK_WORDS, SECTOR_BYTES};

/// The bytes of a sector, among those of the sectors from `base` on.
pub fn piece_bytes(bytes: &[u8], base: u64, sector: u64) -> &[u8]
    requires from { base ≤ sector }
    requires inside { SECTOR_BYTES * (sector - base) + SECTOR_BYTES ≤ length bytes.now }
    ensures bytes { result.now ≡ piece_bytes bytes.now base sector }
    ensures size { length result.now ≡ SECTOR_BYTES }
{
    let start = SECTOR_BYTES * (sector - base) as usize;
    &bytes[start..start + SECTOR_BYTES]
}

/// The word that a read of Data gives where a sector is offered and `left` of its words are left, the first of 256
/// where all are: its even byte is the low one (ATA/ATAPI-6, Data register).
pub fn word_in_piece(bytes: &[u8], base: u64, sector: u64, left: u16) -> u16
    requires from { base ≤ sector }
    requires inside { SECTOR_BYTES * (sector - base) + SECTOR_BYTES ≤ length bytes.now }
    requires some { 0 < left }
    requires most { left ≤ BLOCK_WORDS }
    ensures word { result
        ≡ slice_index (words_of (piece_bytes bytes.now base sector)) (BLOCK_WORDS - left) }
{
    let sector = piece_bytes(bytes, base, sector);
    let place = 2 * usize::from(BLOCK_WORDS - left);
    u16::from_le_bytes([sector[place], sector[place + 1]])
}
