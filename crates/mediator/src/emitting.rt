//! How the items of a call come into what its event gives.

ghost use Rattle.std.specs.Prelude.{◌≡◌, ◌≤◌, ◌<◌, ◌++◌, length};
ghost use Rattle.fill_bitmap.specs.Area.{IsBlock};
ghost use Rattle.aoe_client.specs.Asking.{due_tags};
ghost use Rattle.mediator.specs.declared.emitting.TheConstants.{MOST_DUE};
ghost use Rattle.streaming.specs.Monitor.{asked_items, item_of};

use aoe_client::{Client, a_slot_has_a_blocks_tags};
use schedule_text::{Emitted, Item};

/// The most tags that are due at once (own).
pub const MOST_DUE: u32 = 64;

// An item, where there is one.
pub(crate) fn push(item: Option<Item>, out: &mut Emitted)
    requires { length out.old.items.items < 80 }
    ensures items { out.new.items.items ≡ out.old.items.items ++ item_of item }
    ensures bytes { out.new.bytes ≡ out.old.bytes }
{
    if let Some(item) = item {
        out.items.push(item);
    }
}

// An item for each due tag.
#[tactic(auto, using(crate::proofs::DueItems::most_due))]
pub(crate) fn push_asked(client: &Client, out: &mut Emitted)
    requires block { IsBlock client.now.block }
    requires room { length out.old.items.items ≤ 16 }
    ensures items { out.new.items.items
        ≡ out.old.items.items ++ asked_items (due_tags client.now) }
    ensures few { length (due_tags client.now) ≤ MOST_DUE }
    ensures bytes { out.new.bytes ≡ out.old.bytes }
{
    // At most so many are due.
    a_slot_has_a_blocks_tags(client);
    for k in 0..MOST_DUE {
        match client.due(k) {
            Some(tag) => out.items.push(Item::Asked(tag)),
            None => return,
        }
    }
}
