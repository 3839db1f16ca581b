//! A read that the monitor serves piece by piece.

ghost use Rattle.std.specs.Prelude.{◌≡◌, ◌<◌, ◌≤◌, ◌+◌, ◌*◌, ◌^◌, ℕ, List, length, true, false, is_some, IfSome, None};
ghost use Rattle.ata_taskfile.specs.Device.{Device};
ghost use Rattle.ata_taskfile.specs.Accesses.{Reaches};
ghost use Rattle.ata_taskfile.specs.Lawful.{end_of, position_of};
ghost use Rattle.ata_taskfile.specs.declared.Form.TheVariants.{PioIn, DmaIn};
ghost use Rattle.mon_pool.specs.Region.{buffers_in, out_of};
ghost use Rattle.plain_drive.specs.Plain.{plain};
ghost use Rattle.plain_drive.specs.Step.{AllAct, went};
ghost use Rattle.port_lease.specs.declared.monitor_side.MonitorSide.{MonitorSide as MonitorSideOf};
ghost use Rattle.port_lease.specs.Sides.{has_own, view_held};
ghost use Rattle.guest_view.specs.Fits.{FitsView};
ghost use Rattle.guest_view.specs.Seen.{on_monitor_side};
ghost use Rattle.redirect.specs.Read.{sector_in};
ghost use Rattle.redirect.specs.Scatter.{at_position};
ghost use Rattle.redirect.specs.Meaning.{IsReadable, IsServed};
ghost use Rattle.redirect.specs.Next.{request_of};
ghost use Rattle.overlay.specs.Steps.{leaves_sectors};
ghost use Rattle.monitor_state.specs.State.{end_of_piece, is_opened, range_of};
ghost use Rattle.monitor_state.specs.Buffered.{KeepsBuffers};
ghost use Rattle.monitor_state.specs.Requests.{KeepsRequests};
ghost use Rattle.monitor_state.specs.Sourced.{KeepsSources};
ghost use Rattle.monitor_state.specs.Leases.{AreLeased, leases_of_parts};
ghost use Rattle.monitor_state.specs.Fits.{Fits, FitsArea, FitsParts};
ghost use Rattle.monitor_state.specs.GoesOn.{GoesOn};
ghost use Rattle.monitor_state.specs.Sectors.{IsPieceOf};
ghost use Rattle.streaming.specs.Client.{ClientTurned, HasAsked};
ghost use Rattle.streaming.specs.Monitor.{item_of};
ghost use Rattle.monitor_turn.specs.Collected.{collected};
ghost use Rattle.monitor_turn.specs.Turned.{HasTurned};
ghost use Rattle.monitor_turn.specs.Told.{steps_told, tells_steps};
ghost use Rattle.monitor_turn.specs.Work.{IsWorkedOn};

use crate::commands::raise;
use crate::own::job_item;
use aoe_client::{Slot, a_slot_has_a_blocks_tags};
use ata_taskfile::{Phase, Ports, Request, Taken};
use bm_dma::GuestMemory;
use io_interpret::first_piece;
use mon_pool::a_pool_is_whole;
use monitor_state::{HeldPiece, Parts, Plan, Purpose, State};
use own_pio::{Own, OwnJob};
use port_lease::MonitorSide;
use redirect::{Next, Redirect, scatter};
use schedule_text::Item;

/// One piece of work for a redirected read.
pub(crate) fn redirected<P: Ports>(
    side: MonitorSide,
    parts: &mut Parts,
    ports: &mut P,
    memory: &mut GuestMemory,
) -> (State, Option<Item>)
    requires fits { Fits (State.Monitor side) parts.old (P.device ports.old) }
    requires opened { is_opened parts.old ≡ true }
    requires unfailed { parts.old.hand.failed ≡ false }
    ensures turned { HasTurned parts.old (P.device ports.old)
        result.0 result.1 parts.new (P.device ports.new) }
    ensures shown { GoesOn (State.Monitor side) parts.old (P.device ports.old) memory.old
        (item_of result.1) result.0 parts.new (P.device ports.new) memory.new }
    ensures steps { tells_steps result.1 ≡ true
        → leaves_sectors (view_held side).file.phase ≡ true }
    ensures client { ClientTurned parts.old.client parts.new.client }
    ensures memory { length memory.new ≡ length memory.old }
    ensures buffers { KeepsBuffers (State.Monitor side) parts.old (P.device ports.old)
        result.0 parts.new (P.device ports.new) }
    ensures sources { KeepsSources (State.Monitor side) parts.old (P.device ports.old)
        result.1 result.0 parts.new (P.device ports.new) }
    ensures requests { KeepsRequests (State.Monitor side) parts.old result.0 parts.new }
    ensures rest { P.rest ports.new ≡ P.rest ports.old }
    ensures reached { (origin : Device) → Reaches origin (P.device ports.old)
        → Reaches origin (P.device ports.new) }
{
    let Some(redirect) = parts.hand.redirect else {
        return (State::Monitor(side), None);
    };
    let Phase::Busy(Taken::Good(order), done) = side.view().file.phase else {
        return (State::Monitor(side), None);
    };
    let sector = order.first + u64::from(done);
    let end = order.first + u64::from(order.count);
    a_pool_is_whole(&parts.pool);
    a_slot_has_a_blocks_tags(&parts.client);
    collect(parts, sector, end);
    worked_on(side, redirect, order, done, parts, ports, memory)
}

// A block that was asked and has come is held, with the piece of it that is wanted.
fn collect(parts: &mut Parts, sector: u64, end: u64)
    requires area { FitsArea parts.old }
    requires unheld { is_some parts.old.client.demand ≡ true → parts.old.held ≡ None }
    requires ahead { is_some parts.old.client.demand ≡ true → sector < end }
    ensures after { parts.new ≡ collected sector end parts.old }
{
    match parts.client.done(Slot::Demand) {
        Some((block, lease)) => {
            let piece = first_piece(sector, end, &parts.area, &parts.bitmap);
            let base = u64::from(block) * u64::from(parts.area.block);
            parts.hold(HeldPiece {
                first: piece.first,
                count: piece.count,
                base,
                lease,
                block: Some(block),
            });
        }
        None => {}
    }
}

fn worked_on<P: Ports>(
    side: MonitorSide,
    redirect: Redirect,
    order: Request,
    done: u32,
    parts: &mut Parts,
    ports: &mut P,
    memory: &mut GuestMemory,
) -> (State, Option<Item>)
    requires fits { Fits (State.Monitor side) parts.old (P.device ports.old) }
    requires opened { is_opened parts.old ≡ true }
    requires order { order ≡ request_of redirect }
    requires worked_on { IsWorkedOn (view_held side) parts.old redirect done }
    ensures turned { HasTurned parts.old (P.device ports.old)
        result.0 result.1 parts.new (P.device ports.new) }
    ensures shown { GoesOn (State.Monitor side) parts.old (P.device ports.old) memory.old
        (item_of result.1) result.0 parts.new (P.device ports.new) memory.new }
    ensures client { ClientTurned parts.old.client parts.new.client }
    ensures unasked { is_some parts.old.held ≡ true → parts.new.client ≡ parts.old.client }
    ensures memory { length memory.new ≡ length memory.old }
    ensures buffers { KeepsBuffers (State.Monitor side) parts.old (P.device ports.old)
        result.0 parts.new (P.device ports.new) }
    ensures sources { KeepsSources (State.Monitor side) parts.old (P.device ports.old)
        result.1 result.0 parts.new (P.device ports.new) }
    ensures requests { KeepsRequests (State.Monitor side) parts.old result.0 parts.new }
    ensures rest { P.rest ports.new ≡ P.rest ports.old }
    ensures reached { (origin : Device) → Reaches origin (P.device ports.old)
        → Reaches origin (P.device ports.new) }
{
    let waiting = parts.client.asked(Slot::Demand).is_some();
    let held = parts.held_range();
    match redirect.next(side.view(), &parts.area, &parts.bitmap, held, waiting) {
        Next::Nothing => (State::Monitor(side), None),
        Next::Ask(b) => {
            ask(parts, b);
            (State::Monitor(side), None)
        }
        Next::Read(first, count) => read(side, redirect, first, count, parts, ports),
        Next::Serve => offered(side, redirect, order, done, parts, ports),
        Next::Scatter => scattered(side, redirect, parts, ports, memory),
        Next::Raise => raise(side, parts, ports, Plan::Serve),
        Next::End => raise(side, parts, ports, Plan::End),
    }
}

// A block is asked.
fn ask(parts: &mut Parts, block: u32)
    requires free { parts.old.client.demand ≡ None }
    requires below { block * parts.old.client.block + parts.old.client.block ≤ 2 ^ 32 }
    requires room { out_of parts.old.pool < buffers_in parts.old.pool }
    requires background { parts.old.client.background ≡ None }
    ensures client { HasAsked parts.old.client parts.new.client }
    ensures block { IfSome parts.new.client.demand (λ f. f.block ≡ block) }
    ensures others { parts.new ≡ record parts.old {
      pool = parts.new.pool;
      client = parts.new.client;
    } }
    ensures pool_room { parts.new.pool.room ≡ parts.old.pool.room }
    ensures buffers { buffers_in parts.new.pool ≡ buffers_in parts.old.pool }
    ensures leased { AreLeased (leases_of_parts parts.old) parts.old
        → AreLeased (leases_of_parts parts.new) parts.new }
    ensures kept { (side : MonitorSideOf) (d : Device) →
        KeepsBuffers (State.Monitor side) parts.old d (State.Monitor side) parts.new d }
    ensures sources { (side : MonitorSideOf) (d : Device) →
        KeepsSources (State.Monitor side) parts.old d None (State.Monitor side) parts.new d }
{
    let lease = parts.take_lease();
    match parts.client.ask(Slot::Demand, block, lease) {
        Ok(()) => {}
        Err(_refused) => unreachable!(),
    }
}

// An own read of a piece begins. The buffers go on to hold what the plain drive has there.
fn read<P: Ports>(
    mut side: MonitorSide,
    redirect: Redirect,
    first: u64,
    count: u32,
    parts: &mut Parts,
    ports: &mut P,
) -> (State, Option<Item>)
    requires fits { Fits (State.Monitor side) parts.old (P.device ports.old) }
    requires opened { is_opened parts.old ≡ true }
    requires worked_on { let v = view_held side in
        IsWorkedOn v parts.old redirect (position_of v.file.phase) }
    requires readable { IsReadable (request_of redirect) (view_held side)
        parts.old.area parts.old.bitmap.filled (range_of parts.old.held) first count }
    ensures turned { HasTurned parts.old (P.device ports.old)
        result.0 result.1 parts.new (P.device ports.new) }
    ensures shown { (bytes : List ℕ) →
        GoesOn (State.Monitor side) parts.old (P.device ports.old) bytes
        (item_of result.1) result.0 parts.new (P.device ports.new) bytes }
    ensures client { parts.new.client ≡ parts.old.client }
    ensures buffers { KeepsBuffers (State.Monitor side) parts.old (P.device ports.old)
        result.0 parts.new (P.device ports.new) }
    ensures sources { KeepsSources (State.Monitor side) parts.old (P.device ports.old)
        result.1 result.0 parts.new (P.device ports.new) }
    ensures requests { KeepsRequests (State.Monitor side) parts.old result.0 parts.new }
    ensures rest { P.rest ports.new ≡ P.rest ports.old }
    ensures reached { (origin : Device) → Reaches origin (P.device ports.old)
        → Reaches origin (P.device ports.new) }
{
    let lease = parts.take_lease();
    a_pool_is_whole(&parts.pool);
    let job = OwnJob::Read(first, count);
    let own = Own::begin(&mut side, ports, job);
    let purpose = Purpose::Piece(first, count, lease);
    (State::Running(side, own, purpose), Some(job_item(job)))
}

// A block of the held piece is offered, whose interrupt pends already.
fn offered<P: Ports>(
    mut side: MonitorSide,
    redirect: Redirect,
    order: Request,
    done: u32,
    parts: &Parts,
    ports: &mut P,
) -> (State, Option<Item>)
    requires fits { Fits (State.Monitor side) parts.now (P.device ports.old) }
    requires opened { is_opened parts.now ≡ true }
    requires order { order ≡ request_of redirect }
    requires worked_on { IsWorkedOn (view_held side) parts.now redirect done }
    requires served { IsServed PioIn order (view_held side) (range_of parts.now.held) }
    requires pending { (view_held side).file.pending ≡ true }
    ensures turned { HasTurned parts.now (P.device ports.old)
        result.0 result.1 parts.now (P.device ports.new) }
    ensures shown { (bytes : List ℕ) →
        GoesOn (State.Monitor side) parts.now (P.device ports.old) bytes
        (item_of result.1) result.0 parts.now (P.device ports.new) bytes }
    ensures buffers { KeepsBuffers (State.Monitor side) parts.now (P.device ports.old)
        result.0 parts.now (P.device ports.new) }
    ensures sources { KeepsSources (State.Monitor side) parts.now (P.device ports.old)
        result.1 result.0 parts.now (P.device ports.new) }
    ensures requests { KeepsRequests (State.Monitor side) parts.now result.0 parts.now }
    ensures rest { P.rest ports.new ≡ P.rest ports.old }
    ensures reached { (origin : Device) → Reaches origin (P.device ports.old)
        → Reaches origin (P.device ports.new) }
{
    guest_view::offer(&mut side, order, done);
    (State::Monitor(side), Some(Item::Go(1)))
}

// The sectors of the held piece move as far as the walk goes.
fn scattered<P: Ports>(
    mut side: MonitorSide,
    redirect: Redirect,
    parts: &mut Parts,
    ports: &mut P,
    memory: &mut GuestMemory,
) -> (State, Option<Item>)
    requires fits { Fits (State.Monitor side) parts.old (P.device ports.old) }
    requires opened { is_opened parts.old ≡ true }
    requires worked_on { let v = view_held side in
        IsWorkedOn v parts.old redirect (position_of v.file.phase) }
    requires served { IsServed DmaIn (request_of redirect) (view_held side)
        (range_of parts.old.held) }
    ensures turned { HasTurned parts.old (P.device ports.old)
        result.0 result.1 parts.new (P.device ports.new) }
    ensures shown { GoesOn (State.Monitor side) parts.old (P.device ports.old) memory.old
        (item_of result.1) result.0 parts.new (P.device ports.new) memory.new }
    ensures client { parts.new.client ≡ parts.old.client }
    ensures memory { length memory.new ≡ length memory.old }
    ensures buffers { KeepsBuffers (State.Monitor side) parts.old (P.device ports.old)
        result.0 parts.new (P.device ports.new) }
    ensures sources { KeepsSources (State.Monitor side) parts.old (P.device ports.old)
        result.1 result.0 parts.new (P.device ports.new) }
    ensures requests { KeepsRequests (State.Monitor side) parts.old result.0 parts.new }
    ensures rest { P.rest ports.new ≡ P.rest ports.old }
    ensures reached { (origin : Device) → Reaches origin (P.device ports.old)
        → Reaches origin (P.device ports.new) }
{
    let steps = moved(&mut side, redirect, parts, memory);
    parts.tidy(side.view());
    (State::Monitor(side), steps_item(steps))
}

// The line of so many good steps.
fn steps_item(steps: u32) -> Option<Item>
    ensures item { result ≡ steps_told steps }
{
    if steps == 0 {
        None
    } else {
        Some(Item::Go(steps))
    }
}

// Moves the sectors of the held piece as far as the walk goes, and counts the good steps.
fn moved(side: &mut MonitorSide, redirect: Redirect, parts: &Parts, memory: &mut GuestMemory) -> u32
    requires parts { FitsParts (State.Monitor side.old) parts.now }
    requires worked_on { let v = view_held side.old in
        IsWorkedOn v parts.now redirect (position_of v.file.phase) }
    requires served { IsServed DmaIn (request_of redirect) (view_held side.old)
        (range_of parts.now.held) }
    ensures steps { (d g : Device) → IsPieceOf g parts.now.pool parts.now.held →
        plain (on_monitor_side (view_held side.new) d g) memory.new
        ≡ went result (plain (on_monitor_side (view_held side.old) d g) memory.old) }
    ensures act { (d g : Device) → IsPieceOf g parts.now.pool parts.now.held →
        AllAct result (plain (on_monitor_side (view_held side.old) d g) memory.old) }
    ensures file { let f = (view_held side.old).file in (view_held side.new).file
        ≡ record f { phase = at_position (position_of (view_held side.new).file.phase) f.phase } }
    ensures least { sector_in (view_held side.old).file.phase
        ≤ sector_in (view_held side.new).file.phase }
    ensures most { sector_in (view_held side.new).file.phase
        ≤ end_of (view_held side.old).file.phase }
    ensures count { IfSome parts.now.held
        (λ held. sector_in (view_held side.old).file.phase + result ≤ end_of_piece held) }
    ensures fits { FitsView (view_held side.new) parts.now.area.sectors }
    ensures own { has_own side.new ≡ has_own side.old }
    ensures memory { length memory.new ≡ length memory.old }
{
    match &parts.held {
        Some(held) => scatter(
            side.view_mut(),
            memory,
            parts.pool.bytes(&held.lease),
            held.base,
            held.end(),
        ),
        None => 0,
    }
}
