//! What the monitor has in hand of a guest's command.

ghost use Rattle.std.specs.Prelude.{◌≡◌, ◌<◌, ◌^◌};
ghost use Rattle.monitor_state.specs.State.{end_of_piece};
ghost use Rattle.monitor_state.specs.Pieces.{no_hand};

use mon_pool::Lease;
use redirect::Redirect;

/// A piece of a redirected read whose bytes are in a buffer (own).
pub struct HeldPiece {
    /// The first sector of the piece.
    pub first: u64,
    /// How many sectors it has.
    pub count: u32,
    /// The sector whose bytes stand first in the buffer.
    pub base: u64,
    /// The buffer.
    pub lease: Lease,
    /// The block that the buffer has whole, where it came over the network.
    pub block: Option<u32>,
}

impl HeldPiece {
    /// The sector behind the piece.
    pub fn end(&self) -> u64
        requires { end_of_piece self.now < 2 ^ 64 }
        ensures end { result ≡ end_of_piece self.now }
    {
        self.first + u64::from(self.count)
    }
}

/// What is remembered of the guest's command in hand; nothing where there is none (own).
#[derive(Clone, Copy, Debug)]
pub struct Hand {
    /// The redirect of a read, from its first work on.
    pub redirect: Option<Redirect>,
    /// The monitor's own work for it failed.
    pub failed: bool,
}

impl Hand {
    /// Nothing is in hand.
    pub fn empty() -> Hand
        ensures empty { result ≡ no_hand }
    {
        Hand {
            redirect: None,
            failed: false,
        }
    }
}
