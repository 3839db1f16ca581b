//! The guest's command in hand.

ghost use Rattle.std.specs.Prelude.{◌≡◌, ℕ, length, true, false, is_some, List, Some, None};
ghost use Rattle.ata_taskfile.specs.Device.{Device, is_moving};
ghost use Rattle.ata_taskfile.specs.Accesses.{Reaches};
ghost use Rattle.ata_taskfile.specs.declared.Phase.TheVariants.{Busy};
ghost use Rattle.ata_taskfile.specs.declared.Taken.TheVariants.{Good};
ghost use Rattle.io_interpret.specs.Class.{class_of_request};
ghost use Rattle.port_lease.specs.Free.{is_free};
ghost use Rattle.port_lease.specs.Handover.{IsOrdered};
ghost use Rattle.port_lease.specs.Sides.{has_own, view_held};
ghost use Rattle.port_lease.specs.View.{IsLawfulView};
ghost use Rattle.overlay.specs.Steps.{leaves_sectors};
ghost use Rattle.monitor_state.specs.Buffered.{KeepsBuffers};
ghost use Rattle.monitor_state.specs.Requests.{KeepsRequests};
ghost use Rattle.monitor_state.specs.Sourced.{KeepsSources};
ghost use Rattle.monitor_state.specs.State.{is_opened};
ghost use Rattle.monitor_state.specs.Classes.{class_of_order, is_drives_class};
ghost use Rattle.monitor_state.specs.Fits.{Fits, FitsPlan};
ghost use Rattle.monitor_state.specs.GoesOn.{GoesOn};
ghost use Rattle.monitor_state.specs.declared.parts.Parts.{Parts as PartsOf};
ghost use Rattle.schedule_text.specs.Taken.{command_item};
ghost use Rattle.streaming.specs.Client.{ClientTurned};
ghost use Rattle.streaming.specs.Monitor.{item_of};
ghost use Rattle.monitor_turn.specs.Told.{tells_steps};
ghost use Rattle.monitor_turn.specs.Turned.{HasTurned};

use crate::redirected::redirected;
use ata_taskfile::registers::READ_SECTORS;
use ata_taskfile::{Form, Phase, Ports, Request, Taken};
use bm_dma::GuestMemory;
use dummy_read::Dummy;
use io_interpret::Class;
use monitor_state::{Parts, Plan, State};
use port_lease::{MonitorSide, give};
use redirect::Redirect;
use schedule_text::Item;

/// One piece of work for the guest's command in hand.
pub(crate) fn command<P: Ports>(
    side: MonitorSide,
    parts: &mut Parts,
    ports: &mut P,
    memory: &mut GuestMemory,
) -> (State, Option<Item>)
    requires fits { Fits (State.Monitor side) parts.old (P.device ports.old) }
    requires opened { is_opened parts.old ≡ true }
    ensures turned { HasTurned parts.old (P.device ports.old)
        result.0 result.1 parts.new (P.device ports.new) }
    ensures shown { GoesOn (State.Monitor side) parts.old (P.device ports.old) memory.old
        (item_of result.1) result.0 parts.new (P.device ports.new) memory.new }
    ensures steps { tells_steps result.1 ≡ true
        → leaves_sectors (view_held side).file.phase ≡ true }
    ensures client { ClientTurned parts.old.client parts.new.client }
    ensures memory { length memory.new ≡ length memory.old }
    ensures buffers { KeepsBuffers (State.Monitor side) parts.old (P.device ports.old)
        result.0 parts.new (P.device ports.new) }
    ensures sources { KeepsSources (State.Monitor side) parts.old (P.device ports.old)
        result.1 result.0 parts.new (P.device ports.new) }
    ensures requests { KeepsRequests (State.Monitor side) parts.old result.0 parts.new }
    ensures rest { P.rest ports.new ≡ P.rest ports.old }
    ensures reached { (origin : Device) → Reaches origin (P.device ports.old)
        → Reaches origin (P.device ports.new) }
{
    let Phase::Busy(order, _) = side.view().file.phase else {
        return (State::Monitor(side), None);
    };
    if parts.hand.failed {
        return raise(side, parts, ports, Plan::Fail);
    }
    if parts.hand.redirect.is_some() {
        return redirected(side, parts, ports, memory);
    }
    by_class(side, order, parts, ports, memory)
}

// The first work for a command, by its class.
fn by_class<P: Ports>(
    side: MonitorSide,
    order: Taken,
    parts: &mut Parts,
    ports: &mut P,
    memory: &mut GuestMemory,
) -> (State, Option<Item>)
    requires fits { Fits (State.Monitor side) parts.old (P.device ports.old) }
    requires opened { is_opened parts.old ≡ true }
    requires phase { (view_held side).file.phase ≡ Busy order 0 }
    requires fresh { parts.old.hand.redirect ≡ None }
    ensures turned { HasTurned parts.old (P.device ports.old)
        result.0 result.1 parts.new (P.device ports.new) }
    ensures shown { GoesOn (State.Monitor side) parts.old (P.device ports.old) memory.old
        (item_of result.1) result.0 parts.new (P.device ports.new) memory.new }
    ensures steps { tells_steps result.1 ≡ true
        → leaves_sectors (view_held side).file.phase ≡ true }
    ensures client { ClientTurned parts.old.client parts.new.client }
    ensures memory { length memory.new ≡ length memory.old }
    ensures buffers { KeepsBuffers (State.Monitor side) parts.old (P.device ports.old)
        result.0 parts.new (P.device ports.new) }
    ensures sources { KeepsSources (State.Monitor side) parts.old (P.device ports.old)
        result.1 result.0 parts.new (P.device ports.new) }
    ensures requests { KeepsRequests (State.Monitor side) parts.old result.0 parts.new }
    ensures rest { P.rest ports.new ≡ P.rest ports.old }
    ensures reached { (origin : Device) → Reaches origin (P.device ports.old)
        → Reaches origin (P.device ports.new) }
{
    match (parts.class_of(&order), order) {
        (Class::Redirected, Taken::Good(request)) => {
            first_redirected(side, request, parts, ports, memory)
        }
        (Class::Reserved | Class::FillFirst, _) => raise(side, parts, ports, Plan::Reserved),
        _ => given(side, order, ports),
    }
}

// The first work for a read that is redirected from now on.
fn first_redirected<P: Ports>(
    side: MonitorSide,
    request: Request,
    parts: &mut Parts,
    ports: &mut P,
    memory: &mut GuestMemory,
) -> (State, Option<Item>)
    requires fits { Fits (State.Monitor side) parts.old (P.device ports.old) }
    requires opened { is_opened parts.old ≡ true }
    requires phase { (view_held side).file.phase ≡ Busy (Good request) 0 }
    requires fresh { parts.old.hand.redirect ≡ None }
    requires class { class_of_request request parts.old.area parts.old.bitmap ≡ Class.Redirected }
    ensures turned { HasTurned parts.old (P.device ports.old)
        result.0 result.1 parts.new (P.device ports.new) }
    ensures shown { GoesOn (State.Monitor side) parts.old (P.device ports.old) memory.old
        (item_of result.1) result.0 parts.new (P.device ports.new) memory.new }
    ensures steps { tells_steps result.1 ≡ true
        → leaves_sectors (view_held side).file.phase ≡ true }
    ensures client { ClientTurned parts.old.client parts.new.client }
    ensures memory { length memory.new ≡ length memory.old }
    ensures buffers { KeepsBuffers (State.Monitor side) parts.old (P.device ports.old)
        result.0 parts.new (P.device ports.new) }
    ensures sources { KeepsSources (State.Monitor side) parts.old (P.device ports.old)
        result.1 result.0 parts.new (P.device ports.new) }
    ensures requests { KeepsRequests (State.Monitor side) parts.old result.0 parts.new }
    ensures rest { P.rest ports.new ≡ P.rest ports.old }
    ensures reached { (origin : Device) → Reaches origin (P.device ports.old)
        → Reaches origin (P.device ports.new) }
{
    parts.hand.redirect = Some(Redirect::new(request));
    redirected(side, parts, ports, memory)
}

/// A dummy read is begun, for a step of the view.
pub(crate) fn raise<P: Ports>(
    mut side: MonitorSide,
    parts: &Parts,
    ports: &mut P,
    plan: Plan,
) -> (State, Option<Item>)
    requires fits { Fits (State.Monitor side) parts.now (P.device ports.old) }
    requires opened { is_opened parts.now ≡ true }
    requires calm { (view_held side).file.pending ≡ false }
    requires planned { FitsPlan plan (view_held side).file.phase parts.now }
    ensures turned { HasTurned parts.now (P.device ports.old)
        result.0 result.1 parts.now (P.device ports.new) }
    ensures shown { (memory : List ℕ) → GoesOn (State.Monitor side)
        parts.now (P.device ports.old) memory
        (item_of result.1) result.0 parts.now (P.device ports.new) memory }
    ensures steps { tells_steps result.1 ≡ true
        → leaves_sectors (view_held side).file.phase ≡ true }
    ensures buffers { KeepsBuffers (State.Monitor side) parts.now (P.device ports.old)
        result.0 parts.now (P.device ports.new) }
    ensures sources { KeepsSources (State.Monitor side) parts.now (P.device ports.old)
        result.1 result.0 parts.now (P.device ports.new) }
    ensures requests { KeepsRequests (State.Monitor side) parts.now result.0 parts.now }
    ensures rest { P.rest ports.new ≡ P.rest ports.old }
    ensures reached { (origin : Device) → Reaches origin (P.device ports.old)
        → Reaches origin (P.device ports.new) }
{
    let sector = parts.area.sectors - 1;
    let dummy = Dummy::raise(&mut side, ports, sector);
    (
        State::Raising(side, dummy, plan),
        Some(Item::Command(READ_SECTORS, sector, 1)),
    )
}

// The drive is given with the command, unless a transfer of the bus master waits for its walk.
fn given<P: Ports>(side: MonitorSide, order: Taken, ports: &mut P) -> (State, Option<Item>)
    requires phase { (view_held side).file.phase ≡ Busy order 0 }
    requires lawful { IsLawfulView (view_held side) }
    requires ordered { let v = view_held side in
        IsOrdered v v.file.command (P.device ports.old).sectors }
    requires alone { has_own side ≡ false }
    requires free { is_free (P.device ports.old).file ≡ true }
    ensures turned { (p : PartsOf) → is_opened p ≡ true → p.hand.redirect ≡ None
        → is_drives_class (class_of_order order p) ≡ true
        → Fits (State.Monitor side) p (P.device ports.old)
        → HasTurned p (P.device ports.old) result.0 result.1 p (P.device ports.new) }
    ensures shown { (p : PartsOf) (memory : List ℕ) → GoesOn (State.Monitor side)
        p (P.device ports.old) memory
        (item_of result.1) result.0 p (P.device ports.new) memory }
    ensures steps { tells_steps result.1 ≡ true
        → leaves_sectors (view_held side).file.phase ≡ true }
    ensures buffers { (p : PartsOf) → KeepsBuffers (State.Monitor side) p (P.device ports.old)
        result.0 p (P.device ports.new) }
    ensures sources { (p : PartsOf) → KeepsSources (State.Monitor side) p (P.device ports.old)
        result.1 result.0 p (P.device ports.new) }
    ensures requests { (p : PartsOf) → KeepsRequests (State.Monitor side) p result.0 p }
    ensures rest { P.rest ports.new ≡ P.rest ports.old }
    ensures reached { (origin : Device) → Reaches origin (P.device ports.old)
        → Reaches origin (P.device ports.new) }
{
    if waits_for_walk(&order) && side.view().bus.walk.is_none() {
        return (State::Monitor(side), None);
    }
    let byte = side.view().file.command;
    let side = give(side, ports, byte);
    (State::Guest(side), Some(command_item(byte, order)))
}

// The bus master moves the sectors of this order.
fn waits_for_walk(order: &Taken) -> bool
    ensures { result ≡ is_moving (Busy order.now 0) }
{
    match order {
        Taken::Good(request) => matches!(request.form, Form::DmaIn | Form::DmaOut),
        Taken::Bad(_) => false,
    }
}

fn command_item(byte: u8, order: Taken) -> Item
    ensures item { result ≡ command_item byte order }
{
    match order {
        Taken::Good(order) if order.kind.has_range() => {
            Item::Command(byte, order.first, order.count)
        }
        Taken::Good(_) | Taken::Bad(_) => Item::Command(byte, 0, 0),
    }
}
