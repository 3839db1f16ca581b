//! The network between the monitor and the image server: the frames that are under way, in two lists.
//!
//! Start with `Net`. `specs/Wire.antt` says what each call does to the lists.
//!
//! The tests are in `src/tests.rt`.

#![tactic(auto)]

mod net;
mod ring;
#[cfg(test)]
mod tests;
mod way;

pub use net::{Net, no_more_frames_than_room};
pub use ring::MOST_FRAMES;
pub use std::alloc::AllocError as NoMemory;
pub use way::Way;
