//! The client: it asks the image server for blocks, and takes the replies into buffers of the monitor's pool.
//!
//! Start with `Client`. `specs/Asking.antt` says what each call does, `specs/Fetching.antt` what one slot holds,
//! `specs/Messages.antt` which frame is a request and which a reply, and `specs/Buffers.antt` what the buffers hold.
//! `docs/network.md` has the same as tables.
//!
//! The tests are in `src/tests.rt`.

#![tactic(auto)]

mod client;
mod fetch;
mod laws;
mod messages;
mod slot;
mod tags;
#[cfg(test)]
mod tests;

pub use client::{Client, Full, Heard, Slot};
pub use laws::{
    a_fetched_block_is_the_images, a_slot_has_a_blocks_tags, buffers_outlast,
    only_a_frame_answers_a_tag, tags_are_due_until_they_are_sent,
    the_servers_sectors_are_the_images,
};
pub use tags::{PART_BYTES, PART_SECTORS, RESEND_AGE, TagState};
