//! What one event gave.

ghost use Rattle.std.specs.Prelude.{◌≡◌, []};

use crate::{ANSWER_BYTES, Item};
use arrayvec::ArrayVec;

/// The report's lines that one event may give (own).
const MOST_ITEMS: usize = 80;

/// What one event gave: its items in order of happening, and the bytes of its answer.
#[derive(Drop)]
pub struct Emitted {
    pub items: ArrayVec<Item, MOST_ITEMS>,
    pub bytes: ArrayVec<u8, ANSWER_BYTES>,
}

impl Emitted {
    /// Nothing yet.
    pub fn new() -> Self
        ensures items { result.items.items ≡ [] }
        ensures bytes { result.bytes.items ≡ [] }
    {
        Emitted {
            items: ArrayVec::new(),
            bytes: ArrayVec::new(),
        }
    }

    /// Nothing again: for the next event.
    pub fn clear(&mut self)
        ensures items { self.new.items.items ≡ [] }
        ensures bytes { self.new.bytes.items ≡ [] }
    {
        self.items.clear();
        self.bytes.clear();
    }
}
