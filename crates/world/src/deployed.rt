//! One event of the schedule, on a drive with a monitor.

ghost use Rattle.std.specs.Prelude.{◌≡◌, [], Bool, List, true, map, IfErr, OnErr, OnOk, ℕ};
ghost use Rattle.bm_host.specs.Outside.{IfTold, SameBytes};
ghost use Rattle.bm_host.specs.declared.Role.TheVariants.{Image};
ghost use Rattle.ata_taskfile.specs.Device.{Device};
ghost use Rattle.image_server.specs.Serving.{HasImage};
ghost use Rattle.ata_taskfile.specs.declared.Access.{Access as AccessOf};
ghost use Rattle.ata_taskfile.specs.declared.Reg.{Reg as RegOf};
ghost use Rattle.aoe_net.specs.declared.way.Way.{Way as WayOf};
ghost use Rattle.aoe_net.specs.Wire.{Wire};
ghost use Rattle.aoe_client.specs.Asking.{due_tags};
ghost use Rattle.aoe_client.specs.Messages.{request_frame};
ghost use Rattle.plain_drive.specs.Physical.{Physical};
ghost use Rattle.plain_drive.specs.Plain.{Plain};
ghost use Rattle.schedule_text.specs.Line.{IsInRange};
ghost use Rattle.plain_run.specs.Entry.{entry_of};
ghost use Rattle.streaming.specs.Built.{is_built};
ghost use Rattle.streaming.specs.Client.{HearsIfAny, all_sent};
ghost use Rattle.streaming.specs.Lines.{Line};
ghost use Rattle.streaming.specs.Monitor.{MayAnswer, item_of};
ghost use Rattle.streaming.specs.Network.{handed_to_server, requests_sent};
ghost use Rattle.monitor_access.specs.Marks.{mark_due};
ghost use Rattle.monitor_state.specs.Overlaid.{Known};
ghost use Rattle.mediator.specs.Couples.{Couples};
ghost use Rattle.mediator.specs.Mediator.{FitsDrive, IsFit, IsStill, client_of, is_opened_in, parts_of, state_of, with_client};
ghost use Rattle.world.specs.Conveying.{NeedsSectors};
ghost use Rattle.world.specs.Acting.{HasActed, IsDeployed, delivered};
ghost use Rattle.world.specs.Coupled.{KeepsPlain};
ghost use Rattle.world.specs.Deployed.{IsReady, watched_of};
ghost use Rattle.world.specs.Faults.{FailsByHost};
ghost use Rattle.world.specs.Keeping.{KeepsEvent, world_of};
ghost use Rattle.world.specs.Looked.{LooksAtHanded};
ghost use Rattle.world.specs.Machine.{device, physical};
ghost use Rattle.world.specs.Reserved.{IsMarkedRight};
ghost use Rattle.world.specs.declared.fault.HostFault.TheVariants.{Read};

use crate::accesses::{read, read_words, write, write_words};
use crate::events::{answer_memory, destage, write_memory};
use crate::fault::HostFault;
use crate::machine::Machine;
use crate::network::convey;
use aoe_frame::Frame;
use aoe_net::{Net, Way};
use ata_taskfile::{Access, Step};
use bm_host::{Host, Role};
use mediator::{Mediator, a_destage_keeps_the_plain_drive, the_guests_memory_is_the_plain_drives};
use monitor_state::steps_keep_the_fit;
use plain_drive::a_physical_drive_is_seen;
use schedule_text::{Emitted, Event};

/// Lets the monitor, the drive and the network act as one event says, and tells what the report says of it.
pub(crate) fn apply<H: Host>(
    host: &mut H,
    mediator: &mut Mediator,
    machine: &mut Machine,
    net: &mut Net,
    sectors: u64,
    event: &Event,
    out: &mut Emitted,
) -> Result<(), HostFault>
    requires in_range { IsInRange event.now }
    requires built { is_built event.now ≡ true }
    requires items { out.old.items.items ≡ [] }
    requires bytes { out.old.bytes.items ≡ [] }
    requires image { HasImage sectors (H.outside host.old) }
    requires ready { IsReady mediator.old (device machine.old) }
    ensures event { OnOk result (IsDeployed sectors (H.outside host.old) (H.outside host.new)
        net.old net.new (physical machine.old) (physical machine.new) (watched_of mediator.old)
        (entry_of event.now out.new.items.items out.new.bytes.items) (watched_of mediator.new)) }
    ensures reserved { OnOk result (IsMarkedRight event.now mediator.old (physical machine.old)
        out.new.items.items) }
    ensures kept { OnOk result (IfTold ((H.outside host.old).told Image) (λ image.
        KeepsPlain image
        (world_of sectors mediator.old (physical machine.old) net.old)
        (entry_of event.now out.new.items.items out.new.bytes.items)
        (world_of sectors mediator.new (physical machine.new) net.new))) }
    ensures needed { OnErr result (NeedsSectors sectors (handed_to_server event.now net.old)) }
    ensures looked { LooksAtHanded sectors (handed_to_server event.now net.old)
        (H.outside host.old) (H.outside host.new) }
    ensures role { IfErr result (λ fault. fault ≡ Read Image) }
    ensures fault { FailsByHost result (H.outside host.old) (H.outside host.new) }
    ensures files { SameBytes (H.outside host.old) (H.outside host.new) }
    ensures ready { IsReady mediator.new (device machine.new) }
{
    let Ok(frame) = convey(host, net, sectors, event) else {
        return Err(HostFault::Read(Role::Image));
    };
    act(mediator, machine, event, &frame, out);
    send_all(mediator, net);
    Ok(())
}

// What the event does to the monitor and its drive; the requests that are due are sent afterwards.
fn act(
    mediator: &mut Mediator,
    machine: &mut Machine,
    event: &Event,
    frame: &Option<Frame>,
    out: &mut Emitted,
)
    requires in_range { IsInRange event.now }
    requires built { is_built event.now ≡ true }
    requires items { out.old.items.items ≡ [] }
    requires bytes { out.old.bytes.items ≡ [] }
    requires ready { IsReady mediator.old (device machine.old) }
    ensures acted { (wire : Wire) → frame.now ≡ delivered event.now wire
        → HasActed event.now wire (physical machine.old) (physical machine.new)
        (watched_of mediator.old) (watched_of mediator.new) out.new.items.items }
    ensures written { (r : RegOf) (v : ℕ) → event.now ≡ Event.Write8 r v → out.new.items.items
        ≡ item_of (mark_due (state_of mediator.old) (parts_of mediator.old)
        (device machine.old) (AccessOf.Write8 r v)) }
    ensures bytes { MayAnswer event.now machine.old.memory out.new.bytes.items }
    ensures kept { (wire : Wire) → frame.now ≡ delivered event.now wire
        → KeepsEvent event.now wire mediator.old (physical machine.old) out.new.items.items
        out.new.bytes.items mediator.new (physical machine.new) }
    ensures area { (parts_of mediator.new).area ≡ (parts_of mediator.old).area }
    ensures id { (parts_of mediator.new).id ≡ (parts_of mediator.old).id }
    ensures fits { FitsDrive mediator.new (device machine.new) }
    ensures still { IsStill mediator.new (device machine.new) }
{
    match event {
        Event::Read8(reg) => read(mediator, machine, &Access::Read8(*reg), out),
        Event::Write8(reg, v) => write(mediator, machine, &Access::Write8(*reg, *v), out),
        Event::ReadWords(n) => read_words(mediator, machine, *n, out),
        Event::WriteWords(bytes) => write_words(mediator, machine, bytes.as_slice(), out),
        Event::ReadPointer => read(mediator, machine, &Access::ReadPointer, out),
        Event::WritePointer(v) => write(mediator, machine, &Access::WritePointer(*v), out),
        Event::ReadMemory(address, n) => answer_memory(machine, *address, *n, out),
        Event::WriteMemory(address, bytes) => {
            the_guests_memory_is_the_plain_drives();
            write_memory(machine, *address, bytes.as_slice());
        }
        Event::Line => read(mediator, machine, &Access::Line, out),
        Event::Deliver(Way::ToClient, ..) => deliver(mediator, frame, out),
        Event::Stray(way, frame) => stray(mediator, *way, frame, out),
        Event::Deliver(..) | Event::Lose(..) | Event::Remark | Event::End => {}
        Event::Drive(step) => make_step(mediator, machine, *step, out),
        Event::Destage(k) => {
            a_physical_drive_is_seen();
            steps_keep_the_fit();
            a_destage_keeps_the_plain_drive();
            destage(machine, *k);
        }
        Event::Turn => mediator.turn(&mut machine.drive, &mut machine.memory, out),
        Event::Tick => mediator.tick(out),
        // A power cut isn't built yet.
        Event::Cut => unreachable!(),
    }
}

// A reply that was picked comes to the client.
fn deliver(mediator: &mut Mediator, frame: &Option<Frame>, out: &mut Emitted)
    requires fit { IsFit mediator.old }
    requires sent { due_tags (client_of mediator.old) ≡ [] }
    requires items { out.old.items.items ≡ [] }
    ensures items { out.new.items.items ≡ [] }
    ensures bytes { out.new.bytes ≡ out.old.bytes }
    ensures heard { HearsIfAny frame.now (client_of mediator.old) (client_of mediator.new) }
    ensures kept { (way : WayOf) (place : ℕ) (keep : Bool) (wire : Wire) (p : Physical)
        → frame.now ≡ delivered (Event.Deliver way place keep) wire
        → KeepsEvent (Event.Deliver way place keep) wire mediator.old p [] [] mediator.new p }
    ensures area { (parts_of mediator.new).area ≡ (parts_of mediator.old).area }
    ensures id { (parts_of mediator.new).id ≡ (parts_of mediator.old).id }
    ensures sent { due_tags (client_of mediator.new) ≡ [] }
    ensures opened { is_opened_in mediator.new ≡ is_opened_in mediator.old }
    ensures fits { (d : Device) → FitsDrive mediator.old d → FitsDrive mediator.new d }
    ensures state { state_of mediator.new ≡ state_of mediator.old }
{
    if let Some(frame) = frame {
        mediator.frame_in(frame, false, out);
    }
}

// A stray frame comes to the client; one to the server is the network's.
fn stray(mediator: &mut Mediator, way: Way, frame: &Frame, out: &mut Emitted)
    requires fit { IsFit mediator.old }
    requires sent { due_tags (client_of mediator.old) ≡ [] }
    requires items { out.old.items.items ≡ [] }
    ensures acted { (wire : Wire) (p : Physical) → HasActed (Event.Stray way frame.now) wire p p
        (watched_of mediator.old) (watched_of mediator.new) out.new.items.items }
    ensures bytes { out.new.bytes ≡ out.old.bytes }
    ensures kept { (wire : Wire) (p : Physical) → KeepsEvent (Event.Stray way frame.now) wire
        mediator.old p out.new.items.items [] mediator.new p }
    ensures area { (parts_of mediator.new).area ≡ (parts_of mediator.old).area }
    ensures id { (parts_of mediator.new).id ≡ (parts_of mediator.old).id }
    ensures fits { (d : Device) → FitsDrive mediator.old d → FitsDrive mediator.new d }
    ensures state { state_of mediator.new ≡ state_of mediator.old }
{
    match way {
        Way::ToClient => mediator.frame_in(frame, true, out),
        Way::ToServer => {}
    }
}

// The drive makes a step, of which the monitor hears.
fn make_step(mediator: &mut Mediator, machine: &mut Machine, step: Step, out: &mut Emitted)
    requires items { out.old.items.items ≡ [] }
    requires ready { IsReady mediator.old (device machine.old) }
    ensures acted { (wire : Wire) → HasActed (Event.Drive step) wire
        (physical machine.old) (physical machine.new)
        (watched_of mediator.old) (watched_of mediator.new) out.new.items.items }
    ensures bytes { out.new.bytes ≡ out.old.bytes }
    ensures kept { (wire : Wire) → KeepsEvent (Event.Drive step) wire mediator.old
        (physical machine.old) out.new.items.items [] mediator.new (physical machine.new) }
    ensures area { (parts_of mediator.new).area ≡ (parts_of mediator.old).area }
    ensures id { (parts_of mediator.new).id ≡ (parts_of mediator.old).id }
    ensures fits { FitsDrive mediator.new (device machine.new) }
    ensures still { IsStill mediator.new (device machine.new) }
{
    a_physical_drive_is_seen();
    steps_keep_the_fit();
    let changed = machine.step(step);
    mediator.stepped(&mut machine.drive, step, changed, out);
}

// The requests that are due are sent.
#[tactic(auto, using(crate::proofs::Sending::sendings))]
fn send_all(mediator: &mut Mediator, net: &mut Net)
    ensures after { mediator.new ≡ with_client (all_sent (client_of mediator.old)) mediator.old }
    ensures fits { (d : Device) → FitsDrive mediator.old d → FitsDrive mediator.new d }
    ensures kept { (k : Known) (d : Device) (memory : List ℕ) (q : Plain) (lines : List Line) →
        Couples k mediator.old d memory q lines → Couples k mediator.new d memory q lines }
    ensures wire { net.new
        ≡ requests_sent (map request_frame (due_tags (client_of mediator.old))) net.old }
{
    while let Some(frame) = mediator.next_send() {
        net.send(Way::ToServer, frame);
    }
}
