//! What is done in a turn.

ghost use Rattle.std.specs.Prelude.{◌≡◌, ℕ, length, true, false, List};
ghost use Rattle.ata_taskfile.specs.TaskFile.{holds_reset};
ghost use Rattle.ata_taskfile.specs.Lawful.{is_in_reset};
ghost use Rattle.ata_taskfile.specs.Device.{Device};
ghost use Rattle.ata_taskfile.specs.Accesses.{Reaches};
ghost use Rattle.port_lease.specs.Sides.{view_held};
ghost use Rattle.overlay.specs.Steps.{leaves_sectors};
ghost use Rattle.monitor_state.specs.Buffered.{KeepsBuffers};
ghost use Rattle.monitor_state.specs.Requests.{KeepsRequests};
ghost use Rattle.monitor_state.specs.Sourced.{KeepsSources};
ghost use Rattle.monitor_state.specs.State.{is_opened};
ghost use Rattle.monitor_state.specs.Fits.{Fits, IsBetweenEvents};
ghost use Rattle.monitor_state.specs.GoesOn.{GoesOn};
ghost use Rattle.monitor_state.specs.Overlaid.{OpeningGoesOn};
ghost use Rattle.monitor_state.specs.Seen.{file_seen};
ghost use Rattle.streaming.specs.Client.{ClientTurned};
ghost use Rattle.monitor_turn.specs.Opening.{OpeningFalls, OpeningHolds};
ghost use Rattle.streaming.specs.Monitor.{item_of};
ghost use Rattle.streaming.specs.Told.{MayTell};
ghost use Rattle.monitor_turn.specs.Told.{tells_steps};
ghost use Rattle.monitor_turn.specs.Turned.{HasTurned, KeepsImage, TellsCommand, TellsReady};

use crate::commands::command;
use crate::own::{opening_next, polled};
use ata_taskfile::Ports;
use ata_taskfile::registers::{SRST, has_bit};
use bm_dma::GuestMemory;
use monitor_state::{Parts, State};
use multiplex::{Turn, TurnState, choose};
use port_lease::{GuestSide, MonitorSide, take};
use schedule_text::Item;

/// One turn: the state after it, and its line: a command that was given, good steps of the plain drive, or that
/// opening has ended.
///
/// Steps are told of a reset and of a read alone, which change no sector. A block that is to be obtained is asked of
/// the client. While opening hasn't ended no more is left of it after a turn, and less after each at which the drive
/// isn't at work, and the sectors of every plain drive stay those that the deployment gives its guest, also where it
/// ends now. The buffers go on to hold what the plain drive has there. Each step that is told loads or moves a sector
/// with a source, and no write is given while a read of the guest's is in hand.
pub fn turned<P: Ports>(
    state: State,
    parts: &mut Parts,
    ports: &mut P,
    memory: &mut GuestMemory,
) -> (State, Option<Item>)
    requires fits { Fits state parts.old (P.device ports.old) }
    requires between { IsBetweenEvents state (P.device ports.old) }
    ensures fits { Fits result.0 parts.new (P.device ports.new) }
    ensures between { IsBetweenEvents result.0 (P.device ports.new) }
    ensures commands { TellsCommand (P.device ports.old) (P.device ports.new) result.1 }
    ensures ready { TellsReady parts.old parts.new result.1 }
    ensures plan { MayTell result.1 }
    ensures shown { GoesOn state parts.old (P.device ports.old) memory.old
        (item_of result.1) result.0 parts.new (P.device ports.new) memory.new }
    ensures steps { tells_steps result.1 ≡ true
        → leaves_sectors (file_seen state (P.device ports.old)).phase ≡ true }
    ensures client { ClientTurned parts.old.client parts.new.client }
    ensures image { KeepsImage parts.old parts.new }
    ensures progress { OpeningFalls state parts.old (P.device ports.old)
        result.0 parts.new (P.device ports.new) }
    ensures holds { OpeningHolds state parts.old (P.device ports.old)
        result.0 parts.new (P.device ports.new) }
    ensures opening { OpeningGoesOn state parts.old (P.device ports.old)
        result.0 parts.new (P.device ports.new) }
    ensures buffers { KeepsBuffers state parts.old (P.device ports.old)
        result.0 parts.new (P.device ports.new) }
    ensures sources { KeepsSources state parts.old (P.device ports.old)
        result.1 result.0 parts.new (P.device ports.new) }
    ensures requests { KeepsRequests state parts.old result.0 parts.new }
    ensures memory { length memory.new ≡ length memory.old }
    ensures rest { P.rest ports.new ≡ P.rest ports.old }
    ensures reached { (origin : Device) → Reaches origin (P.device ports.old)
        → Reaches origin (P.device ports.new) }
{
    match state {
        State::Guest(side) => taken(side, parts, ports, memory),
        State::Monitor(side) => monitor(side, parts, ports, memory),
        State::Running(side, own, purpose) => polled(side, own, purpose, parts, ports),
        State::Raising(side, dummy, plan) => (State::Raising(side, dummy, plan), None),
        State::Moving => unreachable!(),
    }
}

// The guest's side: the monitor takes the drive, unless it is busy, and the turn goes on.
fn taken<P: Ports>(
    side: GuestSide,
    parts: &mut Parts,
    ports: &mut P,
    memory: &mut GuestMemory,
) -> (State, Option<Item>)
    requires fits { Fits (State.Guest side) parts.old (P.device ports.old) }
    ensures turned { HasTurned parts.old (P.device ports.old)
        result.0 result.1 parts.new (P.device ports.new) }
    ensures shown { GoesOn (State.Guest side) parts.old (P.device ports.old) memory.old
        (item_of result.1) result.0 parts.new (P.device ports.new) memory.new }
    ensures steps { tells_steps result.1 ≡ true
        → leaves_sectors (P.device ports.old).file.phase ≡ true }
    ensures client { ClientTurned parts.old.client parts.new.client }
    ensures memory { length memory.new ≡ length memory.old }
    ensures buffers { KeepsBuffers (State.Guest side) parts.old (P.device ports.old)
        result.0 parts.new (P.device ports.new) }
    ensures sources { KeepsSources (State.Guest side) parts.old (P.device ports.old)
        result.1 result.0 parts.new (P.device ports.new) }
    ensures requests { KeepsRequests (State.Guest side) parts.old result.0 parts.new }
    ensures rest { P.rest ports.new ≡ P.rest ports.old }
    ensures reached { (origin : Device) → Reaches origin (P.device ports.old)
        → Reaches origin (P.device ports.new) }
{
    match take(side, ports) {
        Ok(side) => monitor(side, parts, ports, memory),
        Err((side, _)) => (State::Guest(side), None),
    }
}

// The monitor's side, on which no command of its own stands.
fn monitor<P: Ports>(
    side: MonitorSide,
    parts: &mut Parts,
    ports: &mut P,
    memory: &mut GuestMemory,
) -> (State, Option<Item>)
    requires fits { Fits (State.Monitor side) parts.old (P.device ports.old) }
    ensures turned { HasTurned parts.old (P.device ports.old)
        result.0 result.1 parts.new (P.device ports.new) }
    ensures shown { GoesOn (State.Monitor side) parts.old (P.device ports.old) memory.old
        (item_of result.1) result.0 parts.new (P.device ports.new) memory.new }
    ensures steps { tells_steps result.1 ≡ true
        → leaves_sectors (view_held side).file.phase ≡ true }
    ensures client { ClientTurned parts.old.client parts.new.client }
    ensures progress { OpeningFalls (State.Monitor side) parts.old (P.device ports.old)
        result.0 parts.new (P.device ports.new) }
    ensures holds { OpeningHolds (State.Monitor side) parts.old (P.device ports.old)
        result.0 parts.new (P.device ports.new) }
    ensures opening { OpeningGoesOn (State.Monitor side) parts.old (P.device ports.old)
        result.0 parts.new (P.device ports.new) }
    ensures memory { length memory.new ≡ length memory.old }
    ensures buffers { KeepsBuffers (State.Monitor side) parts.old (P.device ports.old)
        result.0 parts.new (P.device ports.new) }
    ensures sources { KeepsSources (State.Monitor side) parts.old (P.device ports.old)
        result.1 result.0 parts.new (P.device ports.new) }
    ensures requests { KeepsRequests (State.Monitor side) parts.old result.0 parts.new }
    ensures rest { P.rest ports.new ≡ P.rest ports.old }
    ensures reached { (origin : Device) → Reaches origin (P.device ports.old)
        → Reaches origin (P.device ports.new) }
{
    match choose(&state_of(&side, parts)) {
        Turn::Opening => opening_next(side, parts, ports),
        Turn::Restart => restarted(side, parts, ports),
        Turn::Command => command(side, parts, ports, memory),
        Turn::PollOwn | Turn::Take | Turn::Idle | Turn::Nothing => (State::Monitor(side), None),
    }
}

// The view's reset ends, as a good step of the plain drive.
fn restarted<P: Ports>(mut side: MonitorSide, parts: &Parts, ports: &mut P) -> (State, Option<Item>)
    requires fits { Fits (State.Monitor side) parts.now (P.device ports.old) }
    requires opened { is_opened parts.now ≡ true }
    requires resets { is_in_reset (view_held side).file.phase ≡ true }
    requires unheld { holds_reset (view_held side).file ≡ false }
    ensures turned { HasTurned parts.now (P.device ports.old)
        result.0 result.1 parts.now (P.device ports.new) }
    ensures shown { (memory : List ℕ) → GoesOn (State.Monitor side)
        parts.now (P.device ports.old) memory
        (item_of result.1) result.0 parts.now (P.device ports.new) memory }
    ensures steps { tells_steps result.1 ≡ true
        → leaves_sectors (view_held side).file.phase ≡ true }
    ensures unmoved { P.device ports.new ≡ P.device ports.old }
    ensures buffers { KeepsBuffers (State.Monitor side) parts.now (P.device ports.old)
        result.0 parts.now (P.device ports.new) }
    ensures sources { KeepsSources (State.Monitor side) parts.now (P.device ports.old)
        result.1 result.0 parts.now (P.device ports.new) }
    ensures requests { KeepsRequests (State.Monitor side) parts.now result.0 parts.now }
    ensures rest { P.rest ports.new ≡ P.rest ports.old }
    ensures reached { (origin : Device) → Reaches origin (P.device ports.old)
        → Reaches origin (P.device ports.new) }
{
    guest_view::end_reset(&mut side);
    (State::Monitor(side), Some(Item::Go(1)))
}

// What a turn goes by on the monitor's side.
fn state_of(side: &MonitorSide, parts: &Parts) -> TurnState
    ensures { let v = view_held side.now in result ≡ record {
      own = false;
      dummy = false;
      opened = is_opened parts.now;
      guest_side = false;
      phase = v.file.phase;
      reset_held = holds_reset v.file;
      pending = v.file.pending;
    } }
{
    let file = &side.view().file;
    TurnState {
        own: false,
        dummy: false,
        opened: parts.is_opened(),
        guest_side: false,
        phase: file.phase,
        reset_held: has_bit(SRST, file.control),
        pending: file.pending,
    }
}
