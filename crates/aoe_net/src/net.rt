//! The network and its calls.

ghost use Rattle.std.specs.Prelude.{◌≡◌, ◌<◌, ◌↔◌, length, slice_get, IfOk, IsTrue, if◌then◌else◌};
ghost use Rattle.aoe_net.specs.Wire.{FitsRings, going, nothing_sent, displaced, sent, without};

use crate::Way;
use crate::ring::Ring;
use aoe_frame::Frame;
use std::alloc::{AllocError, Global};
use std::marker::Model;

/// The frames that are under way: two lists of at most `MOST_FRAMES`, the oldest first.
///
/// A contract sees the two lists (`Wire` of `specs/Wire.antt`).
#[derive(Drop)]
pub struct Net {
    to_server: Ring,
    to_client: Ring,
}

impl Model for Net {
    ghost use Rattle.aoe_net.specs.Wire.{Wire};

    ghost Value = { Wire };

    ghost view = { λ n. record { to_server = n.to_server; to_client = n.to_client } };
}

impl Net {
    /// A network with nothing under way. It fails only for want of memory; no later call takes any.
    pub fn new(alloc: Global) -> Result<Net, AllocError>
        ensures { IfOk result (λ net. net ≡ nothing_sent) }
    {
        Ok(Net {
            to_server: Ring::new(alloc)?,
            to_client: Ring::new(alloc)?,
        })
    }

    /// Appends a frame to a list. The oldest is handed back, and is lost, exactly where the list was full.
    pub fn send(&mut self, way: Way, frame: Frame) -> Option<Frame>
        ensures after { self.new ≡ sent way frame self.old }
        ensures oldest { result ≡ displaced (going way self.old) }
    {
        match way {
            Way::ToServer => self.to_server.send(frame),
            Way::ToClient => self.to_client.send(frame),
        }
    }

    /// Frame `k` of a list, the oldest being frame 0; None exactly where there is none. It leaves the list unless
    /// it is to be kept.
    pub fn pick(&mut self, way: Way, k: u32, keep: bool) -> Option<Frame>
        ensures after { self.new ≡ (if keep then self.old else without way k self.old) }
        ensures frame { result ≡ slice_get (going way self.old) k }
    {
        if keep {
            return self.copy(way, k);
        }
        self.take(way, k)
    }

    /// Removes frame `k` of a list; false exactly where there is none.
    pub fn lose(&mut self, way: Way, k: u32) -> bool
        ensures after { self.new ≡ without way k self.old }
        ensures there { IsTrue result ↔ (k < length (going way self.old)) }
    {
        self.take(way, k).is_some()
    }

    // A copy of frame `k` of a list.
    fn copy(&self, way: Way, k: u32) -> Option<Frame>
        ensures { result ≡ slice_get (going way self.now) k }
    {
        match way {
            Way::ToServer => self.to_server.copy(k),
            Way::ToClient => self.to_client.copy(k),
        }
    }

    // Takes frame `k` out of a list.
    fn take(&mut self, way: Way, k: u32) -> Option<Frame>
        ensures after { self.new ≡ without way k self.old }
        ensures frame { result ≡ slice_get (going way self.old) k }
    {
        match way {
            Way::ToServer => self.to_server.take(k),
            Way::ToClient => self.to_client.take(k),
        }
    }
}

/// No list has more frames than it has room for.
pub fn no_more_frames_than_room(net: &Net)
    ensures { FitsRings net.now }
{
    // The clauses of these calls say it.
    let _within = (net.to_server.len(), net.to_client.len());
}
