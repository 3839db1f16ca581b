//! Frames of ATA over Ethernet (AoE r11): their bytes, and the messages that the bytes say.
//!
//! Start with `message` for what a frame says, then `parse` and `write`, which go from its bytes to that and back.
//! `addresses` names who talks. `Bytes`, a list of bytes with a bound, stands by itself: schedules use it too.
//! `specs/Layout.antt` has the one layout of the bytes that both calls are about, in wire order, and
//! `specs/Reading.antt` what `parse` answers, fault by fault. `docs/network.md` has the same as tables.
//!
//! The tests are in `src/tests.rt`, and those of `Bytes` in `src/bytes.rt`.

#![tactic(auto)]

mod addresses;
mod bytes;
mod frame;
mod laws;
mod message;
mod numbers;
mod reading;
#[cfg(test)]
mod tests;
mod writing;

pub use addresses::{ALL_MAJORS, ALL_MINORS, CLIENT, MAJOR, MINOR, SERVER};
pub use bytes::Bytes;
pub use frame::{Frame, MOST_BYTES};
pub use laws::{
    a_frame_has_a_reading, a_frame_has_one_reading, a_written_message_is_read,
    bytes_say_one_message,
};
pub use message::{
    ATA, ATA_BYTES, Aoe, Argument, AtaPart, BODY_AT, CONFIG, CONFIG_BYTES, ConfigPart, ETHER_TYPE,
    EXTENDED, FAILED, FrameFault, HEADER_BYTES, Header, MOST_BODY, REPLY, TYPE_AT, TYPE_END,
    VERSION, WRITE,
};
pub use reading::parse;
pub use writing::write;
