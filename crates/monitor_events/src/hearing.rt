//! A frame that comes to the client.

ghost use Rattle.std.specs.Prelude.{◌≡◌, ◌*◌, ◌≤◌, ◌≢◌, ◌↔◌, ℕ, List, Some, None, true};
ghost use Rattle.ata_taskfile.specs.declared.registers.TheConstants.{SECTOR_BYTES};
ghost use Rattle.ata_taskfile.specs.Device.{Device};
ghost use Rattle.mon_pool.specs.Region.{AreOf};
ghost use Rattle.plain_drive.specs.Plain.{Plain};
ghost use Rattle.aoe_client.specs.Asking.{leases_of};
ghost use Rattle.aoe_client.specs.Messages.{sectors_carried};
ghost use Rattle.monitor_state.specs.declared.state.State.{State as StateOf};
ghost use Rattle.monitor_state.specs.Buffered.{HasBuffers, image_part};
ghost use Rattle.monitor_state.specs.Fits.{Fits, FitsParts};
ghost use Rattle.monitor_state.specs.SameAsks.{HaveSameAsks};
ghost use Rattle.monitor_state.specs.Seen.{Shows};
ghost use Rattle.monitor_state.specs.Sourced.{HasSources};
ghost use Rattle.streaming.specs.Client.{TakesFor, TakesFrame};
ghost use Rattle.streaming.specs.Lines.{Line};
ghost use Rattle.streaming.specs.Sources.{HasCome};
ghost use Rattle.monitor_events.specs.Hearing.{IsHeard, mark_of};

use aoe_client::Heard;
use aoe_frame::Frame;
use monitor_state::{Parts, asks_stay, same_asks_keep_the_fit};
use schedule_text::Item;

/// A frame comes to the client, which takes it where it answers a tag that is asked for and not answered yet: the mark
/// of one that the server didn't send, exactly where the client took such a one.
pub fn heard(parts: &mut Parts, frame: &Frame, injected: bool) -> Option<Item>
    requires of_pool { AreOf (leases_of parts.old.client) parts.old.pool }
    requires room { SECTOR_BYTES * parts.old.client.block ≤ parts.old.pool.room }

    ensures mark { (result ≡ Some Item.Forged)
        ↔ ((injected ≡ true) × TakesFrame frame.now parts.old.client) }
    ensures unmarked { result ≢ Some Item.Forged → result ≡ None }
    ensures heard { IsHeard frame.now parts.old parts.new }

    // The client asks for what it asked for, and so what fits goes on to fit.
    ensures asks { HaveSameAsks parts.old parts.new }
    ensures parts { (s : StateOf) → FitsParts s parts.old → FitsParts s parts.new }
    ensures fits { (s : StateOf) (d : Device) → Fits s parts.old d → Fits s parts.new d }

    // What the guest sees stays: the buffer of the held piece is none that is asked for.
    ensures shown { (s : StateOf) (d : Device) (memory : List ℕ) (q : Plain) →
        FitsParts s parts.old → Shows s parts.old d memory q → Shows s parts.new d memory q }

    // Where the frame has the image's sectors for the tag that it is taken for, the buffers go on to hold what they
    // should.
    ensures buffers { (image : List (List ℕ)) (s : StateOf) (d g : Device) →
        FitsParts s parts.old
        → ((tag : ℕ) → TakesFor tag frame.now parts.old.client
        → image_part image tag ≡ sectors_carried frame.now)
        → HasBuffers image s parts.old d g → HasBuffers image s parts.new d g }

    // Where the tag that the frame is taken for has come, what is there for the guest goes on to have its source.
    ensures sources { (s : StateOf) (d : Device) (lines : List Line) →
        ((tag : ℕ) → TakesFor tag frame.now parts.old.client → HasCome tag lines)
        → HasSources s parts.old d lines → HasSources s parts.new d lines }
{
    asks_stay();
    same_asks_keep_the_fit();
    let what = parts.client.frame_in(&mut parts.pool, frame);
    mark(what, injected)
}

// The mark of a frame that was taken and that the server didn't send.
fn mark(what: Heard, injected: bool) -> Option<Item>
    ensures { result ≡ mark_of what injected }
{
    match what {
        Heard::Took(_) if injected => Some(Item::Forged),
        Heard::Took(_) | Heard::Ignored => None,
    }
}
