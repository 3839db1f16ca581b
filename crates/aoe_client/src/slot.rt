//! What a slot asks for, where it asks for a block.

ghost use Rattle.std.specs.Prelude.{◌≡◌, ◌++◌, length, option_map, slice_get};
ghost use Rattle.mon_pool.specs.Region.{AreOf, all_given};
ghost use Rattle.aoe_client.specs.Asking.{HasRoom, first_due, is_open_in, lease_in, slot_filled, slot_sent};
ghost use Rattle.aoe_client.specs.Fetching.{due_of, tag_answered, ticked};

use crate::fetch::Fetch;
use crate::tags::PART_BYTES;
use mon_pool::Pool;

// The k-th due tag of two slots, the first slot's before the second's.
pub(crate) fn due_in(first: &Option<Fetch>, second: &Option<Fetch>, k: usize) -> Option<u32>
    ensures { result ≡ slice_get (due_of first.now ++ due_of second.now) k }
{
    let before = count_due(first);
    if k < before {
        nth_due(first, k)
    } else {
        nth_due(second, k - before)
    }
}

fn nth_due(slot: &Option<Fetch>, k: usize) -> Option<u32>
    ensures { result ≡ slice_get (due_of slot.now) k }
{
    match slot {
        Some(fetch) => fetch.due(k),
        None => None,
    }
}

fn count_due(slot: &Option<Fetch>) -> usize
    ensures { result ≡ length (due_of slot.now) }
{
    match slot {
        Some(fetch) => fetch.count_due(),
        None => 0,
    }
}

// Takes the two sectors of a tag that is unanswered or due in the slot; false exactly where it is neither.
pub(crate) fn hear_in(slot: &mut Option<Fetch>, pool: &mut Pool, tag: u32, sectors: &[u8]) -> bool
    requires of_pool { AreOf (lease_in slot.old) pool.old }
    requires room { HasRoom pool.old.room slot.old }
    requires sectors { length sectors.now ≡ PART_BYTES }
    ensures open { result ≡ is_open_in tag slot.old }
    ensures after { slot.new ≡ option_map (tag_answered tag) slot.old }
    ensures buffer { pool.new ≡ slot_filled tag sectors.now slot.old pool.old }
{
    match slot {
        Some(fetch) => fetch.hear(pool, tag, sectors),
        None => false,
    }
}

// The first due tag, which is sent thereby.
pub(crate) fn send_in(slot: &mut Option<Fetch>) -> Option<u32>
    ensures tag { result ≡ first_due slot.old }
    ensures after { slot.new ≡ slot_sent slot.old }
{
    match slot {
        Some(fetch) => fetch.send(),
        None => None,
    }
}

pub(crate) fn tick_slot(slot: &mut Option<Fetch>)
    ensures { slot.new ≡ option_map ticked slot.old }
{
    if let Some(fetch) = slot {
        fetch.tick();
    }
}

// Gives the lease back, where there is one.
pub(crate) fn end_slot(slot: Option<Fetch>, pool: &mut Pool)
    requires { AreOf (lease_in slot) pool.old }
    ensures { pool.new ≡ all_given (lease_in slot) pool.old }
{
    if let Some(fetch) = slot {
        pool.give(fetch.end());
    }
}
