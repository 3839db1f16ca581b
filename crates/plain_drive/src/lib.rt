//! The book of the drive: what a plain drive means.
//!
//! A plain drive is a device with the guest's memory, and knows no cache, bitmap, frame or lease. Start with
//! `specs/Plain.antt` for its state and `specs/Cells.antt` for the values of its sectors, then `specs/Step.antt` for
//! what a good and a bad step do, `specs/Change.antt` for what they do to the sectors, and `specs/Cut.antt` for what a
//! power cut may leave. Each access is a definition of `ata_taskfile`; `specs/Words.antt` has many words through Data,
//! and `specs/Identify.antt` those of IDENTIFY DEVICE. `specs/Physical.antt` has a drive that keeps its sectors behind
//! a write cache; its whole runs are those of `plain_run`. `specs/Seen.antt` has the steps, destages and power cuts of
//! such a drive as they are seen without its cache, and the laws in `caching` show that a physical drive makes exactly
//! these. `specs/Alike.antt` says when a guest can't tell two drives apart, and the laws in `alike` show that no access
//! and no step tells. `failing` has the registers of a command that fails, which more than a drive shows. The functions
//! below are laws that show what the other definitions mean, in that order; `docs/drive.md` has the same as tables.
//!
//! It has no tests of its own: those of `drive_model` try its rules over a drive.

#![tactic(auto)]

mod alike;
mod bytes;
mod caching;
mod failing;

ghost use Rattle.std.specs.Prelude.{◌≡◌, ◌≢◌, ◌↔◌, ◌<◌, ℕ, List, [], map, replicate, length, slice_index_or, false};
ghost use Rattle.ata_taskfile.specs.declared.Access.{Access};
ghost use Rattle.ata_taskfile.specs.declared.Access.TheVariants.{ReadWord, WriteWord};
ghost use Rattle.ata_taskfile.specs.declared.Answer.TheVariants.{Word};
ghost use Rattle.ata_taskfile.specs.declared.Step.{Step as StepOf};
ghost use Rattle.ata_taskfile.specs.Access.{accessed};
ghost use Rattle.ata_taskfile.specs.Accesses.{all_accessed, all_answered};
ghost use Rattle.ata_taskfile.specs.Device.{Cell, Device};
ghost use Rattle.ata_taskfile.specs.Lawful.{IsLawful};
ghost use Rattle.plain_drive.specs.Plain.{Plain, stored, settled, current, appended, all_flushed};
ghost use Rattle.plain_drive.specs.Cut.{IsOutcome, drive_at_power_on};
ghost use Rattle.plain_drive.specs.Laws.{IsLoaded, IsAwaited, IsWritten, HasWholeSectors};
ghost use Rattle.plain_drive.specs.Words.{words_read, after_words, after_written};
ghost use Rattle.plain_drive.specs.Identify.{identity};
ghost use Rattle.plain_drive.specs.Step.{step_made, bad_step, acts};
ghost use Rattle.plain_drive.specs.Physical.{Physical, StandsFor, fresh, physical_at_power_on, physical_accessed, physical_step, physical_destaged, physical_cut};

pub use alike::{
    accesses_keep_drives_alike, alike_drives_answer_alike, likeness_is_mutual,
    nothing_looks_at_the_last_command, steps_keep_drives_alike,
};
pub use bytes::{a_sector_is_its_bytes, sectors_are_held_whole, words_and_bytes_undo_each_other};
pub use caching::{a_physical_drive_is_seen, ends_forget_older_values, ends_of_cells_are_kept};
pub use failing::{failure_bit, show_failure};

/// A value that is written is the current one of its sector, and the other sectors keep all of theirs.
pub fn a_written_value_is_current()
    ensures read { (s : ℕ) (value : List ℕ) (cells : List Cell) → s < length cells
        → current (slice_index_or (appended s value cells) s (settled [])) ≡ value }
    ensures others { (s other : ℕ) (value : List ℕ) (cells : List Cell) → other ≢ s
        → slice_index_or (appended s value cells) other (settled [])
        ≡ slice_index_or cells other (settled []) }
{}

/// The 256 words read from a loaded block are the block, in order.
pub fn a_loaded_block_is_read()
    ensures { (d : Device) → IsLoaded d → words_read 256 d ≡ d.block }
{}

/// The 256 words written to an empty block are the block, in order, and then the drive is at work on it.
pub fn a_written_block_is_taken()
    ensures { (d : Device) (words : List ℕ) → (wanted : IsAwaited d) → length words ≡ 256
        → IsWritten (after_written words d) words wanted.order wanted.done }
{}

/// Many words through Data are as many accesses, one after the other.
pub fn words_are_accesses()
    ensures answered { (n : ℕ) (d : Device) → all_answered (replicate n ReadWord) d
        ≡ map (λ w. Word w) (words_read n d) }
    ensures read { (n : ℕ) (d : Device) → all_accessed (replicate n ReadWord) d
        ≡ after_words n d }
    ensures written { (words : List ℕ) (d : Device) →
        all_accessed (map (λ w. WriteWord w) words) d ≡ after_written words d }
{}

/// IDENTIFY DEVICE gives a whole block.
pub fn identify_gives_a_block()
    ensures { (sectors : ℕ) → length (identity sectors) ≡ 256 }
{}

/// A step without an effect leaves the drive as it is.
pub fn a_step_without_effect_changes_nothing()
    ensures { (step : StepOf) (p : Plain) → acts step p ≡ false → step_made step p ≡ p }
{}

/// A failing step moves no sector.
pub fn a_bad_step_moves_no_sector()
    ensures { (p : Plain) → (bad_step p).device.cells ≡ p.device.cells }
{}

/// No step changes how many sectors there are.
#[tactic(auto, using(crate::proofs::Dressed::step_sectors))]
pub fn steps_keep_sectors()
    ensures { (step : StepOf) (p : Plain) →
        (step_made step p).device.sectors ≡ p.device.sectors }
{}

/// Every step, good or failing, leaves a lawful device lawful, where its sectors are whole.
pub fn steps_keep_lawful()
    ensures { (step : StepOf) (p : Plain) → HasWholeSectors p.device → IsLawful p.device
        → IsLawful (step_made step p).device }
{}

/// A store without writes has one cut outcome, itself.
pub fn one_outcome_without_writes()
    ensures { (values outcome : List (List ℕ)) →
        IsOutcome (stored values) outcome ↔ (outcome ≡ values) }
{}

/// A flush leaves one cut outcome, the current values.
pub fn one_outcome_after_a_flush()
    ensures { (cells : List Cell) (outcome : List (List ℕ)) →
        IsOutcome (all_flushed cells) outcome ↔ (outcome ≡ map current cells) }
{}

/// A cut may always leave the current values.
pub fn current_values_are_an_outcome()
    ensures { (cells : List Cell) → IsOutcome cells (map current cells) }
{}

/// A physical drive at power-on over these sectors stands for a plain one over them.
pub fn a_fresh_drive_stands_for_a_plain_one()
    ensures { (durable : List (List ℕ)) (room sectors : ℕ) (memory : List ℕ) →
        StandsFor (physical_at_power_on (fresh room durable) sectors memory)
        (drive_at_power_on durable sectors memory) }
{}

/// After an access a physical drive stands for the plain one after the same access.
pub fn an_access_keeps_standing()
    ensures { (access : Access) (physical : Physical) (p : Plain) → StandsFor physical p
        → StandsFor (physical_accessed access physical)
        (record p { device = accessed access p.device }) }
{}

/// After a step, good or failing, a physical drive stands for the plain one after the same step.
pub fn a_step_keeps_standing()
    ensures { (step : StepOf) (physical : Physical) (p : Plain) → StandsFor physical p
        → StandsFor (physical_step step physical) (step_made step p) }
{}

/// After a destage a physical drive stands for the same plain one.
pub fn a_destage_keeps_standing()
    ensures { (n : ℕ) (physical : Physical) (p : Plain) → StandsFor physical p
        → StandsFor (physical_destaged n physical) p }
{}

/// After a power cut a physical drive stands for a plain one over its durable sectors.
pub fn a_cut_keeps_standing()
    ensures { (memory : List ℕ) (physical : Physical) (p : Plain) → StandsFor physical p
        → StandsFor (physical_cut memory physical)
        (drive_at_power_on physical.kept.durable p.device.sectors memory) }
{}

/// The durable sectors of a physical drive are a cut outcome of the plain one for which it stands.
pub fn durable_sectors_are_an_outcome()
    ensures { (physical : Physical) (p : Plain) → StandsFor physical p
        → IsOutcome p.device.cells physical.kept.durable }
{}
