//! Laws of the client: what the buffers hold outlasts every call that hears no frame, and what they hold of the
//! server's replies is the image's.

ghost use Rattle.std.specs.Prelude.{◌≡◌, ◌*◌, ◌+◌, ◌≤◌, ℕ, List, None, Some, drop, take};
ghost use Rattle.std.specs.List.{range_with_len};
ghost use Rattle.bm_host.specs.Outside.{bytes_at};
ghost use Rattle.image_server.specs.Serving.{IsReply};
ghost use Rattle.mon_pool.specs.Region.{Held, Region, leased_bytes};
ghost use Rattle.aoe_client.specs.declared.client.Slot.{Slot as SlotOf};
ghost use Rattle.aoe_client.specs.Asking.{Asking, HasTags, both_ticked, due_tags, next_sent, with_slot};
ghost use Rattle.aoe_client.specs.Buffers.{BothAskOn, BothHold, IsFetched};
ghost use Rattle.aoe_client.specs.Fetching.{asked_for, due_of};
ghost use Rattle.aoe_client.specs.Messages.{Answers, sectors_carried};

use crate::{Client, PART_BYTES, PART_SECTORS, Slot};

/// What a source gives, the buffers hold while tags are sent and ticks go by, and while a slot is asked in or freed: a
/// block that is asked for has no answered tag yet.
pub fn buffers_outlast()
    ensures sending { (source : ℕ → List ℕ) (pool : Region) (c : Asking) → BothHold source c pool →
        BothHold source (next_sent c) pool }
    ensures ticks { (source : ℕ → List ℕ) (pool : Region) (c : Asking) → BothHold source c pool →
        BothHold source (both_ticked c) pool }
    ensures asking { (source : ℕ → List ℕ) (pool : Region) (slot : SlotOf) (count block : ℕ)
        (lease : Held) (c : Asking) → BothHold source c pool →
        BothHold source (with_slot slot (Some (asked_for count block lease)) c) pool }
    ensures freeing { (source : ℕ → List ℕ) (pool : Region) (slot : SlotOf) (c : Asking) →
        BothHold source c pool → BothHold source (with_slot slot None c) pool }
{}

/// Sending and ticks answer no tag: each slot goes on to ask for what it asked for.
pub fn only_a_frame_answers_a_tag()
    ensures sending { (c : Asking) → BothAskOn c (next_sent c) }
    ensures ticks { (c : Asking) → BothAskOn c (both_ticked c) }
{}

/// A frame that the server sent over an image, in reply to whatever frame, has the two sectors of the image for the tag
/// that it answers: the image has these.
pub fn the_servers_sectors_are_the_images()
    ensures sectors { (sectors : ℕ) (image asked bytes : List ℕ) (tag : ℕ) →
        IsReply sectors image asked (Some bytes) → Answers bytes tag →
        sectors_carried bytes ≡ bytes_at (PART_BYTES * tag) PART_BYTES image }
    ensures within { (sectors : ℕ) (image asked bytes : List ℕ) (tag : ℕ) →
        IsReply sectors image asked (Some bytes) → Answers bytes tag →
        PART_SECTORS * tag + PART_SECTORS ≤ sectors }
{}

/// What a slot asks for has as many tags as a block has.
pub fn a_slot_has_a_blocks_tags(client: &Client)
    ensures demand { HasTags client.now.block client.now.demand }
    ensures background { HasTags client.now.block client.now.background }
{
    // The clause of this call says it, of each slot.
    let _demand = client.in_slot(Slot::Demand);
    let _background = client.in_slot(Slot::Background);
}

/// What is due: of a block that was just asked for all its tags, in rising order; and once the first due tag is sent,
/// all the others.
pub fn tags_are_due_until_they_are_sent()
    ensures asked { (count block : ℕ) (lease : Held) →
        due_of (Some (asked_for count block lease)) ≡ range_with_len (block * count) count }
    ensures left { (c : Asking) → due_tags (next_sent c) ≡ drop 1 (due_tags c) }
{}

/// A block that was fetched from the server of an image is the image's block: where the buffer holds of each tag the
/// image's two sectors, its bytes are the image's from the block's first sector on.
pub fn a_fetched_block_is_the_images()
    ensures block { (image : List ℕ) (count : ℕ) (pool : Region) (fetched : ℕ × Held) →
        IsFetched (λ tag. bytes_at (PART_BYTES * tag) PART_BYTES image) count pool fetched →
        take (count * PART_BYTES) (leased_bytes fetched.1 pool)
        ≡ bytes_at (PART_BYTES * (fetched.0 * count)) (PART_BYTES * count) image }
{}
