//! One event of the schedule, on the network.

ghost use Rattle.std.specs.Prelude.{◌≡◌, Some, IfOk, OnErr, OnOk, slice_get, if◌then◌else◌};
ghost use Rattle.bm_host.specs.declared.Role.TheVariants.{Image};
ghost use Rattle.bm_host.specs.Outside.{Counted, Reads, SameBytes};
ghost use Rattle.image_server.specs.Serving.{HasImage, LooksAtSent};
ghost use Rattle.aoe_net.specs.Wire.{without};
ghost use Rattle.aoe_net.specs.declared.way.Way.TheVariants.{ToServer};
ghost use Rattle.streaming.specs.Network.{handed_to_server, taken_out};
ghost use Rattle.world.specs.Conveying.{Conveys, NeedsSectors};
ghost use Rattle.world.specs.Acting.{delivered};
ghost use Rattle.world.specs.Looked.{LooksAtHanded};

use aoe_frame::{Frame, a_frame_has_a_reading};
use aoe_net::{Net, Way};
use bm_host::{Failed, Host};
use image_server::serve;
use schedule_text::Event;

/// Lets the network, and the server at its end, act as one event says, and answers the reply that it hands to the
/// client, where there is one.
pub(crate) fn convey<H: Host>(
    host: &mut H,
    net: &mut Net,
    sectors: u64,
    event: &Event,
) -> Result<Option<Frame>, Failed>
    requires image { HasImage sectors (H.outside host.old) }
    ensures frame { IfOk result (λ frame. frame ≡ delivered event.now net.old) }
    ensures network { OnOk result (Conveys sectors (H.outside host.old) (H.outside host.new)
        (handed_to_server event.now net.old) (taken_out event.now net.old) net.new) }
    ensures needed { OnErr result (NeedsSectors sectors (handed_to_server event.now net.old)) }
    ensures looked { LooksAtHanded sectors (handed_to_server event.now net.old)
        (H.outside host.old) (H.outside host.new) }
    ensures cause { Counted Reads Image (H.outside host.old) (H.outside host.new) result }
    ensures bytes { SameBytes (H.outside host.old) (H.outside host.new) }
{
    match event {
        Event::Deliver(Way::ToServer, k, keep) => deliver(host, net, sectors, *k, *keep)?,
        Event::Deliver(Way::ToClient, k, keep) => {
            return Ok(net.pick(Way::ToClient, *k, *keep));
        }
        Event::Lose(way, k) => {
            net.lose(*way, *k);
        }
        Event::Stray(Way::ToServer, frame) => answer(host, net, sectors, frame)?,
        _ => {}
    }
    Ok(None)
}

// Request `k` is handed to the server.
fn deliver<H: Host>(
    host: &mut H,
    net: &mut Net,
    sectors: u64,
    k: u32,
    keep: bool,
) -> Result<(), Failed>
    requires image { HasImage sectors (H.outside host.old) }
    ensures network { OnOk result (Conveys sectors (H.outside host.old) (H.outside host.new)
        (slice_get net.old.to_server k) (if keep then net.old else without ToServer k net.old)
        net.new) }
    ensures needed { OnErr result (NeedsSectors sectors (slice_get net.old.to_server k)) }
    ensures looked { LooksAtHanded sectors (slice_get net.old.to_server k)
        (H.outside host.old) (H.outside host.new) }
    ensures cause { Counted Reads Image (H.outside host.old) (H.outside host.new) result }
    ensures bytes { SameBytes (H.outside host.old) (H.outside host.new) }
{
    match net.pick(Way::ToServer, k, keep) {
        Some(frame) => answer(host, net, sectors, &frame),
        None => Ok(()),
    }
}

// The server's reply to a frame joins the replies.
fn answer<H: Host>(host: &mut H, net: &mut Net, sectors: u64, frame: &Frame) -> Result<(), Failed>
    requires image { HasImage sectors (H.outside host.old) }
    ensures network { OnOk result (Conveys sectors (H.outside host.old) (H.outside host.new)
        (Some frame.now) net.old net.new) }
    ensures needed { OnErr result (NeedsSectors sectors (Some frame.now)) }
    ensures looked { LooksAtSent sectors frame.now (H.outside host.old) (H.outside host.new) }
    ensures cause { Counted Reads Image (H.outside host.old) (H.outside host.new) result }
    ensures bytes { SameBytes (H.outside host.old) (H.outside host.new) }
{
    a_frame_has_a_reading(frame);
    if let Some(reply) = serve(host, sectors, frame)? {
        net.send(Way::ToClient, reply);
    }
    Ok(())
}
