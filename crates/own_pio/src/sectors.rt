//! Laws: what an own command makes of each sector.

ghost use Rattle.std.specs.Prelude.{◌≡◌, ◌<◌, ◌≤◌, ◌+◌, ◌*◌, ℕ, List, length, take, drop};
ghost use Rattle.ata_taskfile.specs.declared.registers.TheConstants.{SECTOR_BYTES};
ghost use Rattle.ata_taskfile.specs.Device.{Cell};
ghost use Rattle.ata_taskfile.specs.Sectors.{IsSector};
ghost use Rattle.plain_drive.specs.Cells.{cell_at, value_at};
ghost use Rattle.own_pio.specs.Kept.{read_over, written_over};

/// After a read each of its sectors stands at its place in the bytes.
pub fn a_read_gives_each_sector()
    ensures { (first count i : ℕ) (cells : List Cell) (start : List ℕ) → i < count
        → length start ≡ SECTOR_BYTES * count → IsSector (value_at (first + i) cells)
        → take SECTOR_BYTES (drop (SECTOR_BYTES * i) (read_over first count cells start))
        ≡ value_at (first + i) cells }
{}

/// After a write the newest value of each of its sectors is its part of the bytes, and the sectors before and behind
/// keep all of theirs.
pub fn a_write_reaches_each_sector()
    ensures written { (first count i : ℕ) (bytes : List ℕ) (cells : List Cell) → i < count
        → first + i < length cells → IsSector (take SECTOR_BYTES (drop (SECTOR_BYTES * i) bytes))
        → value_at (first + i) (written_over first count bytes cells)
        ≡ take SECTOR_BYTES (drop (SECTOR_BYTES * i) bytes) }
    ensures before { (first count s : ℕ) (bytes : List ℕ) (cells : List Cell) → s < first
        → cell_at s (written_over first count bytes cells) ≡ cell_at s cells }
    ensures behind { (first count s : ℕ) (bytes : List ℕ) (cells : List Cell) →
        first + count ≤ s
        → cell_at s (written_over first count bytes cells) ≡ cell_at s cells }
{}
