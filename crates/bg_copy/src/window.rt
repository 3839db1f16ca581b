//! The guest's commands of the last ticks.

ghost use Rattle.std.specs.Prelude.{◌≡◌, ◌<◌, ◌≤◌, ◌↔◌, ◌∷◌, [], List, IfOk, IsTrue};
ghost use Rattle.bg_copy.specs.declared.moderation.TheConstants.{MOST_WINDOW, MOST_LIMIT};
ghost use Rattle.bg_copy.specs.Moderation.{Moderation};
ghost use Rattle.bg_copy.specs.Happened.{Happened, commands_in};
ghost use Rattle.bg_copy.specs.Happened.Happened.{Ticked, Commanded};
ghost use Rattle.bg_copy.specs.Copier.{Counts};

use circular_buffer::HeapCircularBuffer;
use std::alloc::{AllocError, Global};
use std::marker::Model;

// How many commands were taken in each of the last ticks. A tick is counted up to one more than the limit: more of them
// couldn't change an answer.
#[derive(Drop)]
pub(crate) struct Window {
    limit: u32,
    current: u32,
    // The ticks before the current one, the newest first.
    earlier: HeapCircularBuffer<u32>,
    total: u32,
}

impl Model for Window {
    ghost use Rattle.std.specs.Prelude.{◌+◌, ◌∷◌};
    ghost use Rattle.bg_copy.specs.Copier.{Counted};
    ghost use Rattle.bg_copy.specs.Window.{AreAdded};

    ghost Value = { Counted };

    ghost view = { λ w. record {
      window = w.earlier.capacity + 1;
      limit = w.limit;
      counts = w.current ∷ w.earlier.items;
    } };

    ghost invariant = { λ w. AreAdded w.limit w.current w.earlier w.total };
}

impl Window {
    // No commands in a window of so many ticks.
    pub(crate) fn new(alloc: Global, window: u32, limit: u32) -> Result<Window, AllocError>
        requires window { 0 < window }
        requires within { window ≤ MOST_WINDOW }
        requires limit { limit ≤ MOST_LIMIT }
        ensures { (m : Moderation) → m.window ≡ window → m.limit ≡ limit →
            IfOk result (λ counted. Counts m counted []) }
    {
        Ok(Window {
            limit,
            current: 0,
            earlier: HeapCircularBuffer::with_capacity(alloc, (window - 1) as usize)?,
            total: 0,
        })
    }

    // Forgets all commands.
    pub(crate) fn clear(&mut self)
        ensures { (m : Moderation) (happened : List Happened) →
            Counts m self.old happened → Counts m self.new [] }
    {
        self.earlier.clear();
        self.current = 0;
        self.total = 0;
    }

    // A tick passed: the window's oldest tick leaves it.
    pub(crate) fn tick(&mut self)
        ensures { (m : Moderation) (happened : List Happened) →
            Counts m self.old happened → Counts m self.new (Ticked ∷ happened) }
    {
        let oldest = self.earlier.push_front(self.current).unwrap_or(0);
        self.total -= oldest;
        self.current = 0;
    }

    // A command was taken.
    pub(crate) fn command(&mut self)
        ensures { (m : Moderation) (happened : List Happened) →
            Counts m self.old happened → Counts m self.new (Commanded ∷ happened) }
    {
        if self.current <= self.limit {
            self.current += 1;
            self.total += 1;
        }
    }

    // Whether the window has no more commands than the limit.
    pub(crate) fn is_quiet(&self) -> bool
        ensures { (m : Moderation) (happened : List Happened) →
            Counts m self.now happened → IsTrue result ↔ (commands_in m.window happened ≤ m.limit) }
    {
        self.total <= self.limit
    }
}
