//! The events that a run knows, and those that may have the image looked at.

ghost use Rattle.std.specs.Prelude.{◌≡◌};
ghost use Rattle.bmcast.specs.Known.{knows, reaches_server};
ghost use Rattle.streaming.specs.Built.{is_built};

use aoe_net::Way;
use ata_taskfile::Reg;
use ata_taskfile::registers::SRST;
use schedule_text::Event;

/// Whether a run with an image of so many sectors knows an event: one without an image knows each.
pub(crate) fn knows(image: u64, event: &Event) -> bool
    ensures { result ≡ knows image event.now }
{
    image == 0 || is_built(event)
}

// Whether a run with an image knows it: for now no power cut, and no write that sets SRST.
fn is_built(event: &Event) -> bool
    ensures { result ≡ is_built event.now }
{
    match event {
        Event::Cut => false,
        Event::Write8(Reg::Alternate, v) => *v & SRST == 0,
        _ => true,
    }
}

/// Whether an event hands the server a frame.
pub(crate) fn reaches_server(event: &Event) -> bool
    ensures { result ≡ reaches_server event.now }
{
    match event {
        Event::Deliver(Way::ToServer, ..) | Event::Stray(Way::ToServer, _) => true,
        _ => false,
    }
}
