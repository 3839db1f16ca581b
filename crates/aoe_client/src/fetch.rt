//! One block that is asked for.

ghost use Rattle.std.specs.Prelude.{◌≡◌, ◌+◌, ◌*◌, ◌<◌, ◌≤◌, ◌^◌, ◌-◌, IfSome, is_some, length, slice_get};
ghost use Rattle.std.specs.List.{list_all};
ghost use Rattle.mon_pool.specs.Region.{IsOf};
ghost use Rattle.aoe_client.specs.Fetching.{Fetching, asked_for, due_from, first_tag, is_answered, is_open, state_of, tag_answered, tag_filled, tag_sent, ticked, with_part};

use crate::tags::{PART_BYTES, RESEND_AGE, TagState, all_answered, count_due, make_due, nth_due};
use arrayvec::ArrayVec;
use mon_pool::{Lease, Pool};
use std::marker::Model;

// The most tags that a block has: those of 64 sectors (own).
const MOST_TAGS: usize = 32;

// A contract sees the lease, the block's number, the age, and where each tag stands (`Fetching`).
pub(crate) struct Fetch {
    lease: Lease,
    block: u32,
    age: u8,
    tags: ArrayVec<TagState, MOST_TAGS>,
}

impl Model for Fetch {
    ghost use Rattle.std.specs.Prelude.{◌<◌, ◌≤◌, ◌+◌, ◌*◌, ◌^◌, length};
    ghost use Rattle.aoe_client.specs.Fetching.{Fetching};
    ghost use Rattle.aoe_client.specs.declared.tags.TheConstants.{RESEND_AGE};
    ghost use Rattle.aoe_client.specs.declared.fetch.TheConstants.{MOST_TAGS};

    ghost Value = { Fetching };

    ghost view = { λ f. record {
      lease = f.lease;
      block = f.block;
      age = f.age;
      tags = f.tags.items;
    } };

    ghost invariant = { λ f. (f.age < RESEND_AGE) × (length f.tags.items ≤ MOST_TAGS)
        × (f.block * length f.tags.items + length f.tags.items ≤ 2 ^ 31) };
}

impl Fetch {
    // Asks for a block of `count` tags.
    pub(crate) fn new(block: u32, count: usize, lease: Lease) -> Fetch
        requires count { count ≤ MOST_TAGS }
        requires below { block * count + count ≤ 2 ^ 31 }
        ensures { result ≡ asked_for count block lease }
    {
        let mut tags = ArrayVec::from([TagState::Due; MOST_TAGS]);
        tags.truncate(count);
        Fetch {
            lease,
            block,
            age: 0,
            tags,
        }
    }

    pub(crate) fn block(&self) -> u32
        ensures { result ≡ self.now.block }
    {
        self.block
    }

    // The lease, once nothing more is asked for.
    pub(crate) fn end(self) -> Lease
        ensures { result ≡ self.lease }
    {
        let Fetch {
            lease,
            block: _,
            age: _,
            tags: _,
        } = self;
        lease
    }

    fn first(&self) -> u32
        ensures first { result ≡ first_tag self.now }
        ensures below { result + length self.now.tags ≤ 2 ^ 31 }
    {
        self.block * self.tags.len() as u32
    }

    // The k-th due tag, from 0.
    pub(crate) fn due(&self, k: usize) -> Option<u32>
        ensures { result ≡ slice_get (due_from (first_tag self.now) self.now.tags) k }
    {
        nth_due(self.first(), self.tags.as_slice(), k)
    }

    #[tactic(auto, using(crate::proofs::DueTags::length_due))]
    pub(crate) fn count_due(&self) -> usize
        ensures { result ≡ length (due_from (first_tag self.now) self.now.tags) }
    {
        count_due(self.tags.as_slice())
    }

    // The first due tag, which is sent thereby.
    pub(crate) fn send(&mut self) -> Option<u32>
        ensures tag { result ≡ slice_get (due_from (first_tag self.old) self.old.tags) 0 }
        ensures after { self.new ≡ tag_sent result self.old }
    {
        let first = self.first();
        let tag = nth_due(first, self.tags.as_slice(), 0)?;
        self.tags[(tag - first) as usize] = TagState::Unanswered;
        Some(tag)
    }

    pub(crate) fn tick(&mut self)
        ensures { self.new ≡ ticked self.old }
    {
        self.age += 1;
        if self.age == RESEND_AGE {
            self.age = 0;
            make_due(self.tags.as_mut_slice());
        }
    }

    pub(crate) fn is_answered(&self) -> bool
        ensures { result ≡ list_all is_answered self.now.tags }
    {
        all_answered(self.tags.as_slice())
    }

    // Takes the two sectors of a tag that is unanswered or due; false exactly where the tag is neither.
    pub(crate) fn hear(&mut self, pool: &mut Pool, tag: u32, sectors: &[u8]) -> bool
        requires of_pool { IsOf self.old.lease pool.old }
        requires room { length self.old.tags * PART_BYTES ≤ pool.old.room }
        requires sectors { length sectors.now ≡ PART_BYTES }
        ensures open { result ≡ is_open (state_of tag self.old) }
        ensures after { self.new ≡ tag_answered tag self.old }
        ensures pool { pool.new ≡ tag_filled tag sectors.now self.old pool.old }
    {
        let Some(place) = self.open_place(tag) else {
            return false;
        };
        write_part(pool.bytes_mut(&mut self.lease), place, sectors);
        self.tags[place] = TagState::Answered;
        true
    }

    // The place of a tag that is unanswered or due.
    fn open_place(&self, tag: u32) -> Option<usize>
        ensures open { is_some result ≡ is_open (state_of tag self.now) }
        ensures place { IfSome result (λ place. place ≡ tag - first_tag self.now) }
        ensures within { IfSome result (λ place. place < length self.now.tags) }
    {
        let place = tag.checked_sub(self.first())? as usize;
        match self.tags.get(place)? {
            TagState::Due | TagState::Unanswered => Some(place),
            TagState::Answered => None,
        }
    }
}

// Writes the two sectors of a block's `place`-th tag.
fn write_part(block: &mut [u8], place: usize, sectors: &[u8])
    requires sectors { length sectors.now ≡ PART_BYTES }
    requires within { place * PART_BYTES + PART_BYTES ≤ length block.old }
    ensures { block.new ≡ with_part place sectors.now block.old }
{
    let at = place * PART_BYTES;
    block[at..at + PART_BYTES].copy_from_slice(sectors);
}
