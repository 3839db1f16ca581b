//! The copier and its calls.

ghost use Rattle.std.specs.Prelude.{◌≡◌, ◌-◌, ◌<◌, ◌^◌, ◌↔◌, ◌∷◌, [], List, option_map, IfOk, IsTrue};
ghost use Rattle.bg_copy.specs.Moderation.{Moderation, IsInRange, moderation};
ghost use Rattle.bg_copy.specs.Happened.{Happened, IsAllowed, cursor_of};
ghost use Rattle.bg_copy.specs.Happened.Happened.{Ticked, Commanded, Wrote, Ready};
ghost use Rattle.bg_copy.specs.Copier.{StandsFor};

use crate::window::Window;
use std::alloc::{AllocError, Global};
use std::marker::Model;

/// When the next block may be copied, and from which block on it is looked for (own).
///
/// Each call but `allowed` and `cursor` tells it what happened. It keeps no list of that: a contract says for every
/// list that the copier stands for what list it stands for afterwards.
#[derive(Drop)]
pub struct Copier {
    gap: u32,
    // The ticks of the gap that have still to pass; None before the ready.
    wait: Option<u32>,
    commands: Window,
    cursor: u32,
}

impl Model for Copier {
    ghost use Rattle.bg_copy.specs.Copier.{Held};

    ghost Value = { Held };

    ghost view = { λ c. record {
      gap = c.gap;
      wait = c.wait;
      counted = c.commands;
      cursor = c.cursor;
    } };
}

impl Copier {
    /// A copier at power-on, which waits `gap` ticks and wants at most `limit` commands in `window` ticks.
    ///
    /// It fails only for want of memory; no later call takes any.
    pub fn new(alloc: Global, gap: u32, window: u32, limit: u32) -> Result<Copier, AllocError>
        requires range { IsInRange (moderation gap window limit) }
        ensures { IfOk result (λ copier. StandsFor (moderation gap window limit) copier []) }
    {
        Ok(Copier {
            gap,
            wait: None,
            commands: Window::new(alloc, window, limit)?,
            cursor: 0,
        })
    }

    /// Whether a copy write may begin: at least `gap` ticks passed since the ready or, if later, since the last one
    /// began, and at most `limit` commands were taken in the current tick and the `window - 1` ticks before it.
    pub fn allowed(&self) -> bool
        ensures answer { (m : Moderation) (happened : List Happened) →
            StandsFor m self.now happened → IsTrue result ↔ IsAllowed m happened }
    {
        self.wait == Some(0) && self.commands.is_quiet()
    }

    /// A copy write of block `b` began.
    pub fn wrote(&mut self, b: u32)
        requires { b < 2 ^ 32 - 1 }
        ensures happened { (m : Moderation) (happened : List Happened) →
            StandsFor m self.old happened → StandsFor m self.new (Wrote b ∷ happened) }
    {
        if self.wait.is_some() {
            self.wait = Some(self.gap);
        }
        self.cursor = b + 1;
    }

    /// The block from which on the next one is looked for: 0 at power-on, then the one after the last that was written.
    pub fn cursor(&self) -> u32
        ensures answer { (m : Moderation) (happened : List Happened) →
            StandsFor m self.now happened → result ≡ cursor_of happened }
    {
        self.cursor
    }

    /// A tick passed.
    pub fn tick(&mut self)
        ensures happened { (m : Moderation) (happened : List Happened) →
            StandsFor m self.old happened → StandsFor m self.new (Ticked ∷ happened) }
    {
        self.wait = one_tick_on(self.wait);
        self.commands.tick();
    }

    /// A command of the guest's was taken.
    pub fn command(&mut self)
        ensures happened { (m : Moderation) (happened : List Happened) →
            StandsFor m self.old happened → StandsFor m self.new (Commanded ∷ happened) }
    {
        self.commands.command();
    }

    /// The power came on: all that happened before is forgotten.
    pub fn power_on(&mut self)
        ensures forgotten { (m : Moderation) (happened : List Happened) →
            StandsFor m self.old happened → StandsFor m self.new [] }
    {
        self.wait = None;
        self.commands.clear();
        self.cursor = 0;
    }

    /// The monitor is ready, and the count of ticks begins.
    pub fn ready(&mut self)
        ensures happened { (m : Moderation) (happened : List Happened) →
            StandsFor m self.old happened → StandsFor m self.new (Ready ∷ happened) }
    {
        self.wait = Some(self.gap);
    }
}

// The ticks that have still to pass after one more.
fn one_tick_on(wait: Option<u32>) -> Option<u32>
    ensures { result ≡ option_map (λ ticks. ticks - 1) wait }
{
    Some(wait?.saturating_sub(1))
}
