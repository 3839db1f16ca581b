//! Laws: what an own command of one sector made of the store once it is done, as `Opening` and `Settle` are told it.

ghost use Rattle.std.specs.Prelude.{◌≡◌, ℕ, List, length, take};
ghost use Rattle.ata_taskfile.specs.Device.{Cell, Device};
ghost use Rattle.ata_taskfile.specs.Sectors.{IsSector};
ghost use Rattle.fill_bitmap.specs.declared.lengths.TheConstants.{SECTOR_BYTES};
ghost use Rattle.plain_drive.specs.Cells.{value_at};
ghost use Rattle.own_pio.specs.declared.job.OwnJob.TheVariants.{Read, Write, Flush};
ghost use Rattle.own_pio.specs.Kept.{IsJobDone, cells_done};
ghost use Rattle.fill_store.specs.Cells.{IsSectorDone};

/// A read of one sector gave its newest value in the first bytes and left the store; a write of one appended the first
/// bytes to it; a flush made all durable.
pub fn a_job_of_one_sector_is_done()
    ensures read { (s : ℕ) (bytes start : List ℕ) (origin : List Cell) (d : Device) →
        length start ≡ SECTOR_BYTES → IsSector (value_at s origin)
        → IsJobDone (Read s 1) bytes start origin d
        → IsSectorDone (Read s 1) (take SECTOR_BYTES bytes) origin
        (cells_done (Read s 1) bytes origin) }
    ensures write { (s : ℕ) (bytes : List ℕ) (origin : List Cell) →
        IsSector (take SECTOR_BYTES bytes)
        → IsSectorDone (Write s 1) (take SECTOR_BYTES bytes) origin
        (cells_done (Write s 1) bytes origin) }
    ensures flush { (bytes written : List ℕ) (origin : List Cell) →
        IsSectorDone Flush written origin (cells_done Flush bytes origin) }
{}
