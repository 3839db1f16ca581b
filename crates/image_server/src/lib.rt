//! The image server: what it replies to a frame, over the bytes of an image.
//!
//! Start with `serve`. `request` says what a request asks, `reply` makes the parts of the answer, and `identity` what
//! the server says of itself.
//!
//! `specs/Request.antt` and `specs/Reply.antt` have the reply as a function of what a frame was read as and of the
//! image, a line for each row of the table in `docs/network.md`; `specs/Serving.antt` says what serving it over a
//! host answers and changes.
//!
//! The tests are in `src/tests.rt`.

#![tactic(auto)]

mod body;
mod identity;
mod reply;
mod request;
mod serving;
#[cfg(test)]
mod tests;

pub use reply::{GOOD_STATUS, MOST_SECTORS};
pub use serving::serve;
