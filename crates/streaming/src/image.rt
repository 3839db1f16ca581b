//! Laws of what the server looks at.

ghost use Rattle.std.specs.Prelude.{◌≡◌, ◌<◌, ◌≤◌, ◌*◌, ℕ, List, length, Option, Some, Result};
ghost use Rattle.bm_host.specs.Outside.{Outside};
ghost use Rattle.aoe_frame.specs.declared.message.Aoe.{Aoe};
ghost use Rattle.aoe_frame.specs.declared.message.FrameFault.{FrameFault};
ghost use Rattle.aoe_frame.specs.Reading.{IsReading};
ghost use Rattle.aoe_net.specs.Wire.{Wire};
ghost use Rattle.image_server.specs.declared.reply.TheConstants.{MOST_SECTORS};
ghost use Rattle.image_server.specs.Reply.{sectors_sent};
ghost use Rattle.image_server.specs.Serving.{LooksAtMost};
ghost use Rattle.schedule_text.specs.declared.Event.{Event};
ghost use Rattle.plain_run.specs.Entry.{Entry};
ghost use Rattle.streaming.specs.Network.{IsCourse, handed_to_server};
ghost use Rattle.streaming.specs.World.{HandsSectors, Scene, WorldEvent};

/// Of an empty image no sector goes into a reply: to no frame, over no course, and by no event.
pub fn an_empty_image_is_never_looked_at()
    ensures sent { (reading : Result Aoe FrameFault) → sectors_sent 0 reading ≡ 0 }
    ensures course { (told : Option (List ℕ)) (entries : List Entry) (wire : Wire) (count : ℕ)
        → IsCourse 0 told entries wire count → count ≡ 0 }
    ensures hands { (one : Event) (scene : Scene) → scene.image ≡ 0 → ¬ HandsSectors one scene }
{}

/// The image is looked at under an event alone that hands the server a frame, into whose reply sectors go, and there
/// no more than these.
pub fn only_a_served_frame_has_the_image_looked_at()
    ensures only { (outside after : Outside) (old new : Scene) (entry : Entry)
        → WorldEvent outside after old entry new
        → outside.looked < after.looked → HandsSectors entry.event old }
    ensures most { (outside after : Outside) (old new : Scene) (entry : Entry)
        → WorldEvent outside after old entry new
        → (frame : List ℕ) (reading : Result Aoe FrameFault)
        → handed_to_server entry.event old.wire ≡ Some frame → IsReading frame reading
        → LooksAtMost (sectors_sent old.image reading) outside after }
{}

/// No reply has more sectors than the server says that it sends, and so no run has more than that for each event.
pub fn a_reply_has_two_sectors_at_most()
    ensures sent { (sectors : ℕ) (reading : Result Aoe FrameFault)
        → sectors_sent sectors reading ≤ MOST_SECTORS }
    ensures course { (sectors : ℕ) (told : Option (List ℕ)) (entries : List Entry) (wire : Wire)
        (count : ℕ) → IsCourse sectors told entries wire count
        → count ≤ MOST_SECTORS * length entries }
{}
