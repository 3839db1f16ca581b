//! The frames of one way, in a ring.

ghost use Rattle.std.specs.Prelude.{◌≡◌, ◌∷◌, ◌<◌, ◌≤◌, [], length, take, get_or, remove, slice_get, IfOk};
ghost use Rattle.circular_buffer.specs.Buffer.{buffer};
ghost use Rattle.aoe_net.specs.Wire.{queued, displaced};

use aoe_frame::Frame;
use circular_buffer::HeapCircularBuffer;
use std::alloc::{AllocError, Global};
use std::marker::Model;

/// How many frames may be under way in one direction (own).
pub const MOST_FRAMES: usize = 64;

// At most `MOST_FRAMES` frames, the oldest first.
#[derive(Drop)]
pub(crate) struct Ring {
    frames: HeapCircularBuffer<Frame>,
}

impl Model for Ring {
    ghost use Rattle.std.specs.Prelude.{ℕ, ◌≡◌, ◌≤◌, List, length};
    ghost use Rattle.aoe_net.specs.declared.ring.TheConstants.{MOST_FRAMES};

    ghost Value = { List (List ℕ) };

    ghost view = { λ r. r.frames.items };

    ghost invariant = { λ r. (r.frames.capacity ≡ MOST_FRAMES)
        × (length r.frames.items ≤ MOST_FRAMES) };
}

impl Ring {
    pub(crate) fn new(alloc: Global) -> Result<Ring, AllocError>
        ensures { IfOk result (λ ring. ring ≡ []) }
    {
        Ok(Ring {
            frames: HeapCircularBuffer::with_capacity(alloc, MOST_FRAMES)?,
        })
    }

    // Appends a frame. Where the ring is full, the oldest is handed back.
    pub(crate) fn send(&mut self, frame: Frame) -> Option<Frame>
        ensures after { self.new ≡ queued frame self.old }
        ensures oldest { result ≡ displaced self.old }
    {
        self.frames.push_back(frame)
    }

    // A copy of frame `k`, which stays.
    pub(crate) fn copy(&self, k: u32) -> Option<Frame>
        ensures { result ≡ slice_get self.now k }
    {
        Frame::from_slice(self.frames.get(k as usize)?.as_slice())
    }

    // Takes frame `k` out; the others stay in their order.
    pub(crate) fn take(&mut self, k: u32) -> Option<Frame>
        ensures after { self.new ≡ remove self.old k }
        ensures frame { result ≡ slice_get self.old k }
    {
        let k = k as usize;
        if k >= self.frames.len() {
            return None;
        }
        if k > 0 {
            bring_to_front(&mut self.frames, k);
        }
        self.frames.pop_front()
    }

    // How many frames are there.
    pub(crate) fn len(&self) -> usize
        ensures length { result ≡ length self.now }
        ensures within { result ≤ MOST_FRAMES }
    {
        self.frames.len()
    }
}

// Brings frame `k` before the older ones.
fn bring_to_front(frames: &mut HeapCircularBuffer<Frame>, k: usize)
    requires { k < length frames.old.items }
    ensures { frames.new
        ≡ buffer (get_or frames.old.items k [] ∷ remove frames.old.items k) frames.old.capacity }
{
    turn(frames.make_contiguous(), k);
}

// Brings frame `k` of a slice before the older ones.
fn turn(frames: &mut [Frame], k: usize)
    requires { k < length frames.old }
    ensures { frames.new ≡ get_or frames.old k [] ∷ remove frames.old k }
{
    frames[..=k].rotate_right(1);
}
