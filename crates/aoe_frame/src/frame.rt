//! A frame: the bytes that go over the network.

ghost use Rattle.std.specs.Prelude.{◌≡◌, ◌≤◌, length};
ghost use Rattle.std.specs.Option.{SomeIff};

use crate::{BODY_AT, MOST_BODY};
use arrayvec::ArrayVec;
use std::marker::Model;

/// The most bytes that a frame has: those in front of a body, and a body of two sectors (own).
pub const MOST_BYTES: usize = BODY_AT + MOST_BODY;

/// A frame of at most `MOST_BYTES` bytes, from its destination on, without what the wire adds. A contract sees the
/// list of its bytes.
#[derive(Clone, Debug, Drop, PartialEq, Eq)]
pub struct Frame {
    bytes: FrameBytes,
}

pub(crate) type FrameBytes = ArrayVec<u8, MOST_BYTES>;

impl Model for Frame {
    ghost use Rattle.std.specs.Prelude.{ℕ, List, ◌≤◌, length};
    ghost use Rattle.aoe_frame.specs.declared.frame.TheConstants.{MOST_BYTES};

    ghost Value = { List ℕ };

    ghost view = { λ frame. frame.bytes.items };

    ghost invariant = { λ frame. length frame.bytes.items ≤ MOST_BYTES };

    ghost inverse = { λ bytes. record { bytes = record { items = bytes } } };
}

impl Frame {
    /// The frame of these bytes; None exactly where they are more than `MOST_BYTES`.
    pub fn from_slice(bytes: &[u8]) -> Option<Frame>
        ensures frame { SomeIff result (length bytes.now ≤ MOST_BYTES) bytes.now }
    {
        let bytes = ArrayVec::try_from(bytes).ok()?;
        Some(Frame { bytes })
    }

    pub(crate) fn of(bytes: FrameBytes) -> Frame
        ensures frame { result ≡ bytes.items }
    {
        // A frame has at most `MOST_BYTES` bytes. A clause of `len` says so of any array of this type; its answer isn't
        // looked at.
        let _length = bytes.len();
        Frame { bytes }
    }

    /// The bytes, in order.
    pub fn as_slice(&self) -> &[u8]
        ensures bytes { result.now ≡ self.now }
        ensures few { length result.now ≤ MOST_BYTES }
    {
        self.bytes.as_slice()
    }
}
