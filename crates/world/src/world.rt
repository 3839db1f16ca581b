//! The world of a run: its calls.

ghost use Rattle.std.specs.Prelude.{◌≡◌, ◌≤◌, ◌*◌, ◌++◌, List, ℕ, [], All, length, is_some, true, Some, IfErr, IfOk, IfSome, OnErr, OnOk};
ghost use Rattle.std.specs.List.{concat};
ghost use Rattle.bm_host.specs.declared.Role.TheVariants.{Disk, Image, Out};
ghost use Rattle.bm_host.specs.Outside.{Becomes, IfTold, SameBytes};
ghost use Rattle.ata_taskfile.specs.Device.{Cell, powered_on};
ghost use Rattle.block_writes.specs.Kept.{KeepsFilesBut, KeepsLooked};
ghost use Rattle.image_server.specs.Serving.{HasImage};
ghost use Rattle.plain_drive.specs.Plain.{sectors_in};
ghost use Rattle.schedule_text.specs.Line.{IsInRange};
ghost use Rattle.plain_run.specs.Entry.{entry_of};
ghost use Rattle.streaming.specs.Network.{handed_to_server};
ghost use Rattle.streaming.specs.Built.{is_built};
ghost use Rattle.streaming.specs.World.{HandsSectors, WorldEvent, started, watched_over};
ghost use Rattle.mediator.specs.declared.mediator.Mediator.{Mediator as MediatorOf};
ghost use Rattle.mediator.specs.Couples.{StandsAtPowerOn};
ghost use Rattle.mediator.specs.Mediator.{IsFit, parts_of};
ghost use Rattle.world.specs.Acting.{IsAlone};
ghost use Rattle.world.specs.Conveying.{NeedsSectors};
ghost use Rattle.world.specs.Coupled.{BeginsOver, KeepsPlain};
ghost use Rattle.monitor_state.specs.Setup.{IsSetup};
ghost use Rattle.world.specs.Faults.{FailsAtStart, FailsByHost};
ghost use Rattle.world.specs.Deployed.{IsSound, IsSound-prop, watched_in};
ghost use Rattle.world.specs.Looked.{LooksAtHanded};
ghost use Rattle.world.specs.Machine.{device, physical};
ghost use Rattle.world.specs.Reserved.{IsMarkedRight};
ghost use Rattle.world.specs.declared.fault.HostFault.TheVariants.{Read, Write};

use crate::deployed::apply as deployed;
use crate::disk::{load, write_out};
use crate::events::apply;
use crate::fault::{HostFault, StartFault};
use crate::machine::Machine;
use crate::network::convey;
use aoe_net::Net;
use ata_taskfile::registers::SECTOR_BYTES;
use bm_dma::MOST_BYTES;
use bm_host::{Host, Role};
use mediator::Mediator;
use monitor_state::{NoMemory, Setup};
use schedule_text::{Emitted, Event};
use std::alloc::Global;
use std::marker::Model;

/// The drive, the guest's memory, the network and the image server of one run.
///
/// A contract sees the physical drive, the frames that are under way, and how many sectors the image has (`Scene` of
/// the crate `streaming`). A world can be neither copied nor let go: `close` or `discard` ends it.
pub struct World {
    machine: Machine,
    net: Net,
    image: u64,
    mediator: Option<Mediator>,
    ghost sound: { IsSound mediator (device machine) } by { Prim.hlevel IsSound-prop },
}

impl Model for World {
    ghost use Rattle.streaming.specs.World.{Scene};
    ghost use Rattle.world.specs.Deployed.{watched_in};
    ghost use Rattle.world.specs.Machine.{physical};
    ghost use Rattle.world.specs.WorldState.{WorldState};

    ghost Value = { WorldState };

    ghost view = { λ w. record {
      scene = record {
        drive = physical w.machine;
        wire = w.net;
        image = w.image;
        watched = watched_in w.mediator;
      };
      mediator = w.mediator;
    } };
}

impl World {
    /// Begins a run over the disk's sectors, with a guest's memory of so many zeros and nothing under way.
    ///
    /// It takes all the memory that the run needs, and looks at no byte of Image. It fails where memory is wanting, or
    /// where Disk can't be read.
    pub fn start<H: Host>(
        alloc: Global,
        host: &mut H,
        setup: &Setup,
        memory: u32,
    ) -> Result<World, StartFault>
        requires setup { IsSetup setup.now }
        requires memory { memory ≤ MOST_BYTES }
        requires disk { IfTold ((H.outside host.old).told Disk)
            (λ bytes. SECTOR_BYTES * setup.now.area.sectors ≤ length bytes) }
        requires image { HasImage setup.now.area.image (H.outside host.old) }
        ensures began { IfOk result (λ world.
            world.scene ≡ started setup.now.area.block memory setup.now.area.image
            world.scene.drive.kept.durable) }
        ensures count { IfOk result (λ world.
            length world.scene.drive.kept.durable ≡ setup.now.area.sectors) }
        ensures sectors { IfOk result (λ world.
            All (λ sector. length sector ≡ SECTOR_BYTES) world.scene.drive.kept.durable) }
        ensures disk { IfOk result (λ world. IfTold ((H.outside host.old).told Disk)
            (λ bytes. world.scene.drive.kept.durable ≡ sectors_in setup.now.area.sectors bytes)) }

        // A world with an image that is told stands for the plain drive that begins with what a guest finds on the
        // disk.
        ensures stands { IfOk result (BeginsOver ((H.outside host.old).told Image)
            setup.now.area setup.now.id) }
        ensures fault { FailsAtStart result (H.outside host.old) (H.outside host.new) }
        ensures bytes { SameBytes (H.outside host.old) (H.outside host.new) }
        ensures looked { KeepsLooked (H.outside host.old) (H.outside host.new) }
    {
        let machine = load(alloc, host, setup.area.sectors, memory)?;
        let Ok(net) = Net::new(alloc) else {
            return Err(StartFault::NoMemory);
        };
        let Ok(mediator) = monitor_over(alloc, setup) else {
            return Err(StartFault::NoMemory);
        };
        Ok(World {
            machine,
            net,
            image: setup.area.image,
            mediator,
        })
    }

    /// Lets the world act as one event says, and tells in `out` what the report says of it.
    ///
    /// It fails only where Image can't be read for a reply; the world is then to be discarded.
    pub fn apply<H: Host>(
        &mut self,
        host: &mut H,
        event: &Event,
        out: &mut Emitted,
    ) -> Result<(), HostFault>
        requires in_range { IsInRange event.now }
        requires items { out.old.items.items ≡ [] }
        requires bytes { out.old.bytes.items ≡ [] }
        requires image { HasImage self.old.scene.image (H.outside host.old) }
        // In a run with an image no power cut and no reset by the guest is built yet.
        requires built { is_some self.old.scene.watched ≡ true → is_built event.now ≡ true }
        ensures event { OnOk result (WorldEvent (H.outside host.old) (H.outside host.new)
            self.old.scene (entry_of event.now out.new.items.items out.new.bytes.items)
            self.new.scene) }

        // A command of the guest's is marked exactly where the plain drive that it sees takes it and the monitor
        // refuses it.
        ensures reserved { OnOk result ((m : MediatorOf) → self.old.mediator ≡ Some m
            → IsMarkedRight event.now m self.old.scene.drive out.new.items.items) }

        // Each plain drive for which the world stands it goes on to stand for, up to a closing mark: what is told is
        // that drive's, and what it reads for the guest came from the drive or from the image's server.
        ensures kept { OnOk result (IfTold ((H.outside host.old).told Image) (λ image.
            KeepsPlain image self.old
            (entry_of event.now out.new.items.items out.new.bytes.items) self.new)) }

        // It fails only where sectors of the image go into the reply to a frame that the server is handed.
        ensures needed { OnErr result (HandsSectors event.now self.old.scene) }
        ensures role { IfErr result (λ fault. fault ≡ Read Image) }
        ensures fault { FailsByHost result (H.outside host.old) (H.outside host.new) }
        ensures looked { LooksAtHanded self.old.scene.image
            (handed_to_server event.now self.old.scene.wire)
            (H.outside host.old) (H.outside host.new) }
        ensures files { SameBytes (H.outside host.old) (H.outside host.new) }
    {
        match &mut self.mediator {
            None => alone(
                host,
                &mut self.machine,
                &mut self.net,
                self.image,
                event,
                out,
            ),
            Some(mediator) => deployed(
                host,
                mediator,
                &mut self.machine,
                &mut self.net,
                self.image,
                event,
                out,
            ),
        }
    }

    /// Ends the world, and appends to Out what a power cut at this moment leaves of the drive: the durable value of
    /// each sector, in order. It fails only where Out can't be written.
    pub fn close<H: Host>(self, host: &mut H) -> Result<(), HostFault>
        ensures out { OnOk result (Becomes (λ before after.
            after ≡ before ++ concat self.scene.drive.kept.durable)
            ((H.outside host.old).told Out) ((H.outside host.new).told Out)) }
        ensures role { IfErr result (λ fault. fault ≡ Write Out) }
        ensures fault { FailsByHost result (H.outside host.old) (H.outside host.new) }
        ensures files { KeepsFilesBut Out (H.outside host.old) (H.outside host.new) }
        ensures looked { KeepsLooked (H.outside host.old) (H.outside host.new) }
    {
        let World {
            mut machine,
            net: _,
            image: _,
            mediator,
        } = self;
        end(mediator);
        let Ok(()) = write_out(host, &mut machine) else {
            return Err(HostFault::Write(Role::Out));
        };
        Ok(())
    }

    /// Ends the world, and tells nothing of it.
    pub fn discard(self) {
        let World {
            machine: _,
            net: _,
            image: _,
            mediator,
        } = self;
        end(mediator);
    }
}

// The monitor of a run, which has one where its image isn't empty.
fn monitor_over(alloc: Global, setup: &Setup) -> Result<Option<Mediator>, NoMemory>
    requires setup { IsSetup setup.now }
    ensures sound { IfOk result (λ m. (cells : List Cell)
        → IsSound m (powered_on cells setup.now.area.sectors)) }
    ensures watched { IfOk result (λ m. watched_in m
        ≡ watched_over setup.now.area.block setup.now.area.image) }
    ensures stands { IfOk result (λ m. IfSome m (λ n. ((parts_of n).area ≡ setup.now.area)
        × ((parts_of n).id ≡ setup.now.id) × StandsAtPowerOn n)) }
{
    if setup.area.image == 0 {
        return Ok(None);
    }
    match Mediator::new(alloc, setup) {
        Ok(mediator) => Ok(Some(mediator)),
        Err(error) => Err(error),
    }
}

// Lets the drive and the network act as one event says, where there is no monitor: no one hears a reply.
fn alone<H: Host>(
    host: &mut H,
    machine: &mut Machine,
    net: &mut Net,
    sectors: u64,
    event: &Event,
    out: &mut Emitted,
) -> Result<(), HostFault>
    requires in_range { IsInRange event.now }
    requires items { out.old.items.items ≡ [] }
    requires bytes { out.old.bytes.items ≡ [] }
    requires image { HasImage sectors (H.outside host.old) }
    ensures event { OnOk result (IsAlone sectors (H.outside host.old) (H.outside host.new)
        net.old net.new (physical machine.old) (physical machine.new)
        (entry_of event.now out.new.items.items out.new.bytes.items)) }
    ensures needed { OnErr result (NeedsSectors sectors (handed_to_server event.now net.old)) }
    ensures looked { LooksAtHanded sectors (handed_to_server event.now net.old)
        (H.outside host.old) (H.outside host.new) }
    ensures role { IfErr result (λ fault. fault ≡ Read Image) }
    ensures fault { FailsByHost result (H.outside host.old) (H.outside host.new) }
    ensures files { SameBytes (H.outside host.old) (H.outside host.new) }
{
    let Ok(_unheard) = convey(host, net, sectors, event) else {
        return Err(HostFault::Read(Role::Image));
    };
    apply(machine, event, out);
    Ok(())
}

// Spends a monitor, where there is one.
fn end(mediator: Option<Mediator>)
    requires fit { IfSome mediator IsFit }
{
    match mediator {
        Some(mediator) => mediator.end(),
        None => {}
    }
}
