//! Laws of how more blocks become durable and stored.

ghost use Rattle.std.specs.Prelude.{◌≡◌, ℕ, Bool, true, List};
ghost use Rattle.ata_taskfile.specs.Device.{Cell};
ghost use Rattle.plain_drive.specs.Plain.{all_flushed};
ghost use Rattle.fill_bitmap.specs.declared.area.Area.{Area};
ghost use Rattle.fill_bitmap.specs.BlockSet.{IsWithin};
ghost use Rattle.fill_bitmap.specs.Disk.{is_empty_at};
ghost use Rattle.overlay.specs.Overlay.{HasValues, Survives};

/// A sector in an empty block is in one of a smaller set too.
pub fn an_empty_sector_is_empty_in_a_smaller_set()
    ensures { (area : Area) (inner outer : List Bool) (s : ℕ) → IsWithin inner outer →
        is_empty_at area outer s ≡ true → is_empty_at area inner s ≡ true }
{}

/// Behind a settling's first flush, which is of the drive alone, the data of the frozen blocks is durable: the guest
/// may find the drive's values in each of them.
pub fn a_first_flush_makes_frozen_blocks_durable()
    ensures { (area : Area) (stored durable frozen filled : List Bool) (image : List (List ℕ))
        (cells plain : List Cell) → HasValues area filled image cells plain →
        Survives area stored durable image cells plain → IsWithin frozen filled →
        Survives area stored frozen image (all_flushed cells) plain }
{}

/// Behind a settling's last flush the frozen blocks are stored: the guest finds the image in none of them.
pub fn a_last_flush_stores_the_frozen_blocks()
    ensures { (area : Area) (stored durable frozen : List Bool) (image : List (List ℕ))
        (cells plain : List Cell) → Survives area stored durable image cells plain →
        IsWithin stored frozen → Survives area frozen durable image cells plain }
{}
