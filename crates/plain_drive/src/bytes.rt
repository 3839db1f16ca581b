//! Laws of the values of sectors, as bytes and as words.

ghost use Rattle.std.specs.Prelude.{◌≡◌, ◌<◌, ◌+◌, ◌*◌, ℕ, List, [], Contains, length, take, drop, slice_index, slice_index_or};
ghost use Rattle.ata_taskfile.specs.declared.registers.TheConstants.{SECTOR_BYTES};
ghost use Rattle.ata_taskfile.specs.Device.{Cell, Device};
ghost use Rattle.ata_taskfile.specs.Sectors.{AreBytes, HoldsSector, HoldsSectors, IsSector};
ghost use Rattle.plain_drive.specs.Plain.{sector_value, sectors_in, values, words_of};
ghost use Rattle.plain_drive.specs.Words.{AreWords, bytes_of};

/// Where the cells of a device hold values of sectors, each value of each cell is one, and so is the current value of
/// each sector.
pub fn sectors_are_held_whole()
    ensures values { (cell : Cell) (value : List ℕ) → HoldsSector cell
        → Contains (values cell) value → IsSector value }
    ensures current { (s : ℕ) (d : Device) → HoldsSectors d → s < length d.cells
        → IsSector (sector_value s d) }
{}

/// A sector's value in words, and these in bytes, is the value; a block in bytes, and these in words, is the block, and
/// a whole one is a sector's value. A word is two bytes, the even one low.
pub fn words_and_bytes_undo_each_other()
    ensures bytes_back { (value : List ℕ) → IsSector value → bytes_of (words_of value) ≡ value }
    ensures words_back { (words : List ℕ) → words_of (bytes_of words) ≡ words }
    ensures sector { (words : List ℕ) → AreWords words → length words ≡ 256
        → IsSector (bytes_of words) }
    ensures words { (value : List ℕ) → AreBytes value → AreWords (words_of value) }
    ensures word { (i : ℕ) (bytes : List ℕ) → 2 * i + 1 < length bytes
        → slice_index (words_of bytes) i
        ≡ slice_index bytes (2 * i) + 256 * slice_index bytes (2 * i + 1) }
{}

/// A sector among those of a list of bytes is the bytes at its place.
pub fn a_sector_is_its_bytes()
    ensures { (n s : ℕ) (bytes : List ℕ) → s < n → slice_index_or (sectors_in n bytes) s []
        ≡ take SECTOR_BYTES (drop (SECTOR_BYTES * s) bytes) }
{}
