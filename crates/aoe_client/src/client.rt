//! The client and its calls.

ghost use Rattle.std.specs.Prelude.{◌≡◌, ◌∷◌, ◌+◌, ◌*◌, ◌<◌, ◌≤◌, ◌^◌, ◌↔◌, ℕ, List, IfErr, IfSome, IsErr, IsSome, OnErr, OnOk, None, Some, is_some, length, true, option_map, slice_get, if◌then◌else◌};
ghost use Rattle.mon_pool.specs.Region.{AreOf, Held, Region, all_given, leased_bytes};
ghost use Rattle.fill_bitmap.specs.Area.{IsBlock};
ghost use Rattle.aoe_client.specs.Asking.{Asking, HasTags, both_ticked, buffers_heard, done_in, due_tags, heard, in_slot, is_awaited, leases_of, next_sent, nothing_asked, tags_in, with_slot};
ghost use Rattle.aoe_client.specs.Buffers.{BothHold, SourceGives, Holds, IsFetched};
ghost use Rattle.aoe_client.specs.Fetching.{asked_for};
ghost use Rattle.aoe_client.specs.Messages.{Answers, request_frame, sectors_carried};

use crate::fetch::Fetch;
use crate::messages::{answered_by, request};
use crate::slot::{due_in, end_slot, hear_in, send_in, tick_slot};
use crate::tags::{PART_BYTES, PART_SECTORS};
use aoe_frame::{BODY_AT, Frame};
use ata_taskfile::registers::SECTOR_BYTES;
use mon_pool::{Lease, Pool, a_pool_is_whole};
use std::marker::Model;
use std::mem;

/// The two things that a block is asked for.
#[derive(Clone, Copy, Debug, PartialEq, Eq)]
pub enum Slot {
    /// A command of the guest waits for the block.
    Demand,
    /// The block is copied to the disk.
    Background,
}

/// The slot is in use.
#[derive(Clone, Copy, Debug, PartialEq, Eq)]
pub struct Full;

/// What became of a frame.
#[derive(Clone, Copy, Debug, PartialEq, Eq)]
pub enum Heard {
    /// It was taken as the reply for this tag.
    Took(u32),
    /// It changed nothing.
    Ignored,
}

/// What asks the image server for blocks, one in each slot, and takes the replies into the slots' buffers.
///
/// A contract sees what each slot asks for (`Asking` of `specs/Asking.antt`). A client holds leases, and so it is ended
/// by `end`, and neither copied nor let go.
pub struct Client {
    block: u32,
    demand: Option<Fetch>,
    background: Option<Fetch>,
}

impl Model for Client {
    ghost use Rattle.fill_bitmap.specs.Area.{IsBlock};
    ghost use Rattle.aoe_client.specs.Asking.{Asking, HasTags};

    ghost Value = { Asking };

    ghost view = { λ c. record { block = c.block; demand = c.demand; background = c.background } };

    ghost invariant = { λ c.
        IsBlock c.block × HasTags c.block c.demand × HasTags c.block c.background };
}

impl Client {
    /// A client for blocks of so many sectors, which asks for nothing.
    pub fn new(block: u32) -> Client
        requires { IsBlock block }
        ensures { result ≡ nothing_asked block }
    {
        Client {
            block,
            demand: None,
            background: None,
        }
    }

    /// Asks for a block in a slot, into the buffer of this lease: all its tags are due. The lease is handed back
    /// exactly where the slot is in use.
    pub fn ask(&mut self, slot: Slot, block: u32, lease: Lease) -> Result<(), (Lease, Full)>
        requires { block * self.old.block + self.old.block ≤ 2 ^ 32 }
        ensures full { IsErr result ↔ IsSome (in_slot slot self.old) }
        ensures asked { OnOk result (self.new
            ≡ with_slot slot (Some (asked_for (tags_in self.old.block) block lease)) self.old) }
        ensures back { IfErr result (λ refused. refused.0 ≡ lease) }
        ensures unchanged { OnErr result (self.new ≡ self.old) }
    {
        if self.in_slot(slot).is_some() {
            return Err((lease, Full));
        }
        let fetch = Fetch::new(block, self.block as usize / PART_SECTORS as usize, lease);
        match self.replace(slot, Some(fetch)) {
            None => Ok(()),
            Some(_other) => unreachable!(),
        }
    }

    /// The number of the slot's block; None exactly where the slot is free.
    pub fn asked(&self, slot: Slot) -> Option<u32>
        ensures { result ≡ option_map (λ fetch. fetch.block) (in_slot slot self.now) }
    {
        Some(self.in_slot(slot).as_ref()?.block())
    }

    /// The k-th due tag, from 0, in the order in which they are sent; None exactly where at most `k` are due.
    pub fn due(&self, k: u32) -> Option<u32>
        ensures { result ≡ slice_get (due_tags self.now) k }
    {
        due_in(&self.demand, &self.background, k as usize)
    }

    /// The request of the first due tag, which is unanswered then; None exactly where no tag is due.
    pub fn next_send(&mut self) -> Option<Frame>
        ensures request { result ≡ option_map request_frame (slice_get (due_tags self.old) 0) }
        ensures after { self.new ≡ next_sent self.old }
        ensures leases { leases_of self.new ≡ leases_of self.old }
    {
        let tag = match send_in(&mut self.demand) {
            Some(tag) => tag,
            None => send_in(&mut self.background)?,
        };
        Some(request(tag))
    }

    /// A tick: each slot is older by one, and at the fourth its unanswered tags are due again.
    pub fn tick(&mut self)
        ensures after { self.new ≡ both_ticked self.old }
        ensures leases { leases_of self.new ≡ leases_of self.old }
    {
        tick_slot(&mut self.demand);
        tick_slot(&mut self.background);
    }

    /// Hears a frame. It is taken for a tag exactly where it answers the tag, and the tag is unanswered or due: its two
    /// sectors are then in the buffer of each slot in which it was so.
    pub fn frame_in(&mut self, pool: &mut Pool, frame: &Frame) -> Heard
        requires of_pool { AreOf (leases_of self.old) pool.old }
        requires room { SECTOR_BYTES * self.old.block ≤ pool.old.room }
        ensures took { (tag : ℕ) → (result ≡ Heard.Took tag)
            ↔ (Answers frame.now tag × (is_awaited tag self.old ≡ true)) }
        ensures after { self.new ≡ heard result self.old }
        ensures buffers { pool.new
            ≡ buffers_heard result (sectors_carried frame.now) self.old pool.old }
        ensures kept { (source : ℕ → List ℕ) →
            SourceGives source (sectors_carried frame.now) result →
            BothHold source self.old pool.old → BothHold source self.new pool.new }
        ensures others { (lease : Held) → AreOf (lease ∷ leases_of self.old) pool.old →
            leased_bytes lease pool.new ≡ leased_bytes lease pool.old }
        ensures held { AreOf (leases_of self.new) pool.new }
        ensures rest { pool.new ≡ record pool.old { block = pool.new.block } }
    {
        let Some(tag) = answered_by(frame) else {
            return Heard::Ignored;
        };
        let sectors = &frame.as_slice()[BODY_AT..BODY_AT + PART_BYTES];
        if self.hear(pool, tag, sectors) {
            Heard::Took(tag)
        } else {
            Heard::Ignored
        }
    }

    /// Hands over a block that was asked for, by its number and the lease of its buffer, and frees the slot; None
    /// exactly where the slot is free or a tag of it isn't answered.
    pub fn done(&mut self, slot: Slot) -> Option<(u32, Lease)>
        ensures fetched { result ≡ done_in (in_slot slot self.old) }
        ensures after { self.new
            ≡ (if is_some result then with_slot slot None self.old else self.old) }
        ensures finished { (source : ℕ → List ℕ) (pool : Region) →
            Holds source (in_slot slot self.old) pool →
            IfSome result (IsFetched source (tags_in self.old.block) pool) }
    {
        if !self.in_slot(slot).as_ref()?.is_answered() {
            return None;
        }
        let fetch = self.replace(slot, None)?;
        Some((fetch.block(), fetch.end()))
    }

    /// Gives up what the slot asks for, and hands its lease back; None exactly where the slot is free.
    pub fn cancel(&mut self, slot: Slot) -> Option<Lease>
        ensures lease { result ≡ option_map (λ fetch. fetch.lease) (in_slot slot self.old) }
        ensures after { self.new ≡ with_slot slot None self.old }
    {
        Some(self.replace(slot, None)?.end())
    }

    /// Gives every lease that the client holds back to its pool.
    pub fn end(self, pool: &mut Pool)
        requires { AreOf (leases_of self) pool.old }
        ensures { pool.new ≡ all_given (leases_of self) pool.old }
    {
        let Client {
            block: _,
            demand,
            background,
        } = self;
        end_slot(demand, pool);
        end_slot(background, pool);
    }

    // What the slot asks for.
    pub(crate) fn in_slot(&self, slot: Slot) -> &Option<Fetch>
        ensures asks { result.now ≡ in_slot slot self.now }
        ensures tags { HasTags self.now.block result.now }
    {
        match slot {
            Slot::Demand => &self.demand,
            Slot::Background => &self.background,
        }
    }

    // Has the slot ask for this, and hands over what it asked for.
    fn replace(&mut self, slot: Slot, fetch: Option<Fetch>) -> Option<Fetch>
        requires tags { HasTags self.old.block fetch }
        ensures before { result ≡ in_slot slot self.old }
        ensures after { self.new ≡ with_slot slot fetch self.old }
    {
        match slot {
            Slot::Demand => mem::replace(&mut self.demand, fetch),
            Slot::Background => mem::replace(&mut self.background, fetch),
        }
    }

    // The two sectors of a tag go into the buffer of each slot in which it is unanswered or due; false where it is so
    // in neither.
    fn hear(&mut self, pool: &mut Pool, tag: u32, sectors: &[u8]) -> bool
        requires of_pool { AreOf (leases_of self.old) pool.old }
        requires room { SECTOR_BYTES * self.old.block ≤ pool.old.room }
        requires sectors { length sectors.now ≡ PART_BYTES }
        ensures awaited { result ≡ is_awaited tag self.old }
        ensures after { self.new ≡ heard (Heard.Took tag) self.old }
        ensures buffers { pool.new ≡ buffers_heard (Heard.Took tag) sectors.now self.old pool.old }
        ensures kept { (source : ℕ → List ℕ) → source tag ≡ sectors.now →
            BothHold source self.old pool.old → BothHold source self.new pool.new }
        ensures others { (lease : Held) → AreOf (lease ∷ leases_of self.old) pool.old →
            leased_bytes lease pool.new ≡ leased_bytes lease pool.old }
        ensures held { AreOf (leases_of self.new) pool.new }
        ensures rest { pool.new ≡ record pool.old { block = pool.new.block } }
    {
        a_pool_is_whole(pool);
        let demand = hear_in(&mut self.demand, pool, tag, sectors);
        let background = hear_in(&mut self.background, pool, tag, sectors);
        demand || background
    }
}
