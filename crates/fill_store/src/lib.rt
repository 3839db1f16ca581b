//! What the monitor keeps on the disk of its own: the header, and how the bitmap is read, made anew and written.
//!
//! Start with `Opening`, which reads the bitmap at power-on or makes an empty one, then `Settle`, which writes the
//! blocks that were filled meanwhile. Each says what the monitor's next own command is, and is told how that ended; no
//! call here reaches a device. `specs/Opening.antt` and `specs/Settle.antt` say both as tables, and
//! `specs/OpeningCells.antt` and `specs/SettleCells.antt` what then stands on the drive and what a power cut may leave
//! of it. `docs/monitor.md` has the same in words.
//!
//! The tests are in `src/tests.rt`.

#![tactic(auto)]

mod header_bytes;
mod laws;
mod opening;
mod own_jobs;
mod sectors;
mod settle;
#[cfg(test)]
mod tests;

pub use header_bytes::header;
pub use laws::{
    a_cut_in_a_settling_stores_durable_blocks, a_cut_in_an_opening_leaves_old_or_new,
    a_cut_in_an_opening_stores_what_was_stored, a_cut_stores_between_the_sets,
    a_fill_keeps_a_settling, a_flush_leaves_the_newest_values,
    a_settling_begins_with_the_filled_blocks, a_settling_may_be_dropped,
    a_settling_stands_between_its_jobs, an_ended_opening_has_the_stored_blocks,
    an_opening_begins_at_power_on, an_opening_stands_between_its_jobs,
    bits_are_written_behind_durable_data, kept_bits_stand,
    the_header_is_written_behind_durable_zeros,
};
pub use opening::Opening;
pub use own_jobs::a_job_of_one_sector_is_done;
pub use settle::Settle;
