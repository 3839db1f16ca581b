//! What an access does in each state.

ghost use Rattle.std.specs.Prelude.{◌≡◌, true, false, ℕ, List};
ghost use Rattle.ata_taskfile.specs.Access.{answer_to};
ghost use Rattle.ata_taskfile.specs.Accesses.{Reaches};
ghost use Rattle.ata_taskfile.specs.Device.{Device};
ghost use Rattle.plain_drive.specs.Plain.{Plain};
ghost use Rattle.port_lease.specs.Free.{shows_rest as rests};
ghost use Rattle.port_lease.specs.View.{is_command};
ghost use Rattle.guest_view.specs.View.{is_reset};
ghost use Rattle.monitor_state.specs.Fits.{Fits, IsBetweenEvents};
ghost use Rattle.monitor_state.specs.Buffered.{KeepsBuffers};
ghost use Rattle.monitor_state.specs.Opening.{OpeningStays};
ghost use Rattle.monitor_state.specs.Overlaid.{OpeningGoesOn};
ghost use Rattle.monitor_state.specs.Seen.{Shows};
ghost use Rattle.monitor_state.specs.Requests.{AccessKeepsRequests};
ghost use Rattle.monitor_state.specs.Sourced.{AccessKeepsSources};
ghost use Rattle.monitor_access.specs.Marks.{mark_due, mark_over, TakesNone};
ghost use Rattle.monitor_access.specs.Parts.{parts_after, GoesOnHolding, KeepsOthers};
ghost use Rattle.monitor_access.specs.Seen.{IsAnswered, IsShown};

use crate::by_view::by_view;
use ata_taskfile::{Access, Answer, Ports, Reg};
use dummy_read::Dummy;
use guest_view::accesses_leave_the_drives_work;
use monitor_state::{
    Parts, Plan, Purpose, State, accesses_keep_the_fit, held_pieces_are_of_the_parts,
    views_are_in_step,
};
use own_pio::Own;
use port_lease::{GuestSide, MonitorSide, shows_rest, take};
use schedule_text::Item;

/// An access of the guest, other than one that begins a reset: the state after it, its answer, and the mark of a
/// command that the monitor refuses.
///
/// While the guest has the drive it reaches that, but for a command: the drive is taken for it, and the view has it.
/// Else the view answers. No command begins on the drive in an access.
pub fn accessed<P: Ports>(
    state: State,
    parts: &mut Parts,
    ports: &mut P,
    access: &Access,
) -> (State, Answer, Option<Item>)
    requires fits { Fits state parts.old (P.device ports.old) }
    requires between { IsBetweenEvents state (P.device ports.old) }
    requires no_reset { is_reset access.now ≡ false }
    ensures fits { Fits result.0 parts.new (P.device ports.new) }
    ensures between { IsBetweenEvents result.0 (P.device ports.new) }
    ensures answered { IsAnswered state parts.old (P.device ports.old) access.now result.1 }
    ensures shown { IsShown state parts.old (P.device ports.old)
        access.now result.2 result.0 parts.new (P.device ports.new) }
    ensures mark { result.2 ≡ mark_due state parts.old (P.device ports.old) access.now }

    // For every plain drive that the guest sees: its own answer, and a mark exactly where it takes a command that the
    // monitor refuses.
    ensures answers { (memory : List ℕ) (q : Plain) →
        Shows state parts.old (P.device ports.old) memory q
        → result.1 ≡ answer_to access.now q.device }
    ensures marked { (memory : List ℕ) (q : Plain) →
        Shows state parts.old (P.device ports.old) memory q
        → result.2 ≡ mark_over q.device.file parts.old access.now }

    // While opening hasn't ended the sectors of every such plain drive stay so, and as much of it is left.
    ensures opening { OpeningGoesOn state parts.old (P.device ports.old)
        result.0 parts.new (P.device ports.new) }
    ensures stays { OpeningStays state parts.old (P.device ports.old)
        result.0 parts.new (P.device ports.new) }

    // The buffers go on to hold what the plain drive has there.
    ensures buffers { KeepsBuffers state parts.old (P.device ports.old)
        result.0 parts.new (P.device ports.new) }

    // What is there for the guest goes on to have its source, and where a command is taken nothing is there.
    ensures sources { AccessKeepsSources access.now state parts.old (P.device ports.old)
        result.0 parts.new (P.device ports.new) }
    ensures requests { AccessKeepsRequests access.now state parts.old (P.device ports.old)
        result.0 parts.new }
    ensures commands { TakesNone (P.device ports.old).file (P.device ports.new).file }
    ensures parts { parts.new ≡ parts_after result.0 parts.old }
    ensures others { KeepsOthers parts.old parts.new }
    ensures rest { P.rest ports.new ≡ P.rest ports.old }
    ensures reached { (origin : Device) → Reaches origin (P.device ports.old)
        → Reaches origin (P.device ports.new) }
{
    match state {
        State::Guest(side) => guest(side, parts, ports, access),
        State::Monitor(side) => resting(side, parts, ports, access),
        State::Running(side, own, purpose) => running(side, own, purpose, parts, ports, access),
        State::Raising(side, dummy, plan) => raising(side, dummy, plan, parts, ports, access),
        State::Moving => unreachable!(),
    }
}

// On the guest's side.
fn guest<P: Ports>(
    side: GuestSide,
    parts: &mut Parts,
    ports: &mut P,
    access: &Access,
) -> (State, Answer, Option<Item>)
    requires fits { Fits (State.Guest side) parts.old (P.device ports.old) }
    requires no_reset { is_reset access.now ≡ false }
    ensures fits { Fits result.0 parts.new (P.device ports.new) }
    ensures between { IsBetweenEvents result.0 (P.device ports.new) }
    ensures answered { IsAnswered (State.Guest side) parts.old (P.device ports.old)
        access.now result.1 }
    ensures shown { IsShown (State.Guest side) parts.old (P.device ports.old)
        access.now result.2 result.0 parts.new (P.device ports.new) }
    ensures mark { result.2
        ≡ mark_due (State.Guest side) parts.old (P.device ports.old) access.now }
    ensures buffers { GoesOnHolding (State.Guest side) parts.old (P.device ports.old)
        result.0 parts.new (P.device ports.new) }
    ensures sources { AccessKeepsSources access.now (State.Guest side) parts.old (P.device ports.old)
        result.0 parts.new (P.device ports.new) }
    ensures requests { AccessKeepsRequests access.now (State.Guest side) parts.old (P.device ports.old)
        result.0 parts.new }
    ensures commands { TakesNone (P.device ports.old).file (P.device ports.new).file }
    ensures parts { parts.new ≡ parts_after result.0 parts.old }
    ensures others { KeepsOthers parts.old parts.new }
    ensures rest { P.rest ports.new ≡ P.rest ports.old }
    ensures reached { (origin : Device) → Reaches origin (P.device ports.old)
        → Reaches origin (P.device ports.new) }
{
    match *access {
        Access::Write8(Reg::Status, _) => guest_command(side, parts, ports, access),
        _ => guest_other(side, parts, ports, access),
    }
}

// On the guest's side, any access but a command: it reaches the drive.
fn guest_other<P: Ports>(
    mut side: GuestSide,
    parts: &mut Parts,
    ports: &mut P,
    access: &Access,
) -> (State, Answer, Option<Item>)
    requires fits { Fits (State.Guest side) parts.old (P.device ports.old) }
    requires other { is_command access.now ≡ false }
    requires no_reset { is_reset access.now ≡ false }
    ensures fits { Fits result.0 parts.new (P.device ports.new) }
    ensures between { IsBetweenEvents result.0 (P.device ports.new) }
    ensures answered { IsAnswered (State.Guest side) parts.old (P.device ports.old)
        access.now result.1 }
    ensures shown { IsShown (State.Guest side) parts.old (P.device ports.old)
        access.now result.2 result.0 parts.new (P.device ports.new) }
    ensures mark { result.2
        ≡ mark_due (State.Guest side) parts.old (P.device ports.old) access.now }
    ensures buffers { GoesOnHolding (State.Guest side) parts.old (P.device ports.old)
        result.0 parts.new (P.device ports.new) }
    ensures sources { AccessKeepsSources access.now (State.Guest side) parts.old (P.device ports.old)
        result.0 parts.new (P.device ports.new) }
    ensures requests { AccessKeepsRequests access.now (State.Guest side) parts.old (P.device ports.old)
        result.0 parts.new }
    ensures commands { TakesNone (P.device ports.old).file (P.device ports.new).file }
    ensures parts { parts.new ≡ parts_after result.0 parts.old }
    ensures others { KeepsOthers parts.old parts.new }
    ensures rest { P.rest ports.new ≡ P.rest ports.old }
    ensures reached { (origin : Device) → Reaches origin (P.device ports.old)
        → Reaches origin (P.device ports.new) }
{
    let answer = side.access(ports, access);
    (State::Guest(side), answer, None)
}

// A command that comes on the guest's side: where the drive rests the monitor takes it, and the view has the command.
fn guest_command<P: Ports>(
    side: GuestSide,
    parts: &mut Parts,
    ports: &mut P,
    access: &Access,
) -> (State, Answer, Option<Item>)
    requires fits { Fits (State.Guest side) parts.old (P.device ports.old) }
    requires command { is_command access.now ≡ true }
    requires no_reset { is_reset access.now ≡ false }
    ensures fits { Fits result.0 parts.new (P.device ports.new) }
    ensures between { IsBetweenEvents result.0 (P.device ports.new) }
    ensures answered { IsAnswered (State.Guest side) parts.old (P.device ports.old)
        access.now result.1 }
    ensures shown { IsShown (State.Guest side) parts.old (P.device ports.old)
        access.now result.2 result.0 parts.new (P.device ports.new) }
    ensures mark { result.2
        ≡ mark_due (State.Guest side) parts.old (P.device ports.old) access.now }
    ensures buffers { GoesOnHolding (State.Guest side) parts.old (P.device ports.old)
        result.0 parts.new (P.device ports.new) }
    ensures sources { AccessKeepsSources access.now (State.Guest side) parts.old (P.device ports.old)
        result.0 parts.new (P.device ports.new) }
    ensures requests { AccessKeepsRequests access.now (State.Guest side) parts.old (P.device ports.old)
        result.0 parts.new }
    ensures commands { TakesNone (P.device ports.old).file (P.device ports.new).file }
    ensures parts { parts.new ≡ parts_after result.0 parts.old }
    ensures others { KeepsOthers parts.old parts.new }
    ensures rest { P.rest ports.new ≡ P.rest ports.old }
    ensures reached { (origin : Device) → Reaches origin (P.device ports.old)
        → Reaches origin (P.device ports.new) }
{
    if !shows_rest(ports) {
        return (State::Guest(side), Answer::Nothing, None);
    }
    taken_for(side, parts, ports, access)
}

// The drive is taken for a command that it would take: an interrupt of it is acknowledged first, as the command does.
fn taken_for<P: Ports>(
    mut side: GuestSide,
    parts: &mut Parts,
    ports: &mut P,
    access: &Access,
) -> (State, Answer, Option<Item>)
    requires fits { Fits (State.Guest side) parts.old (P.device ports.old) }
    requires command { is_command access.now ≡ true }
    requires rests { rests (P.device ports.old).file ≡ true }
    requires no_reset { is_reset access.now ≡ false }
    ensures fits { Fits result.0 parts.new (P.device ports.new) }
    ensures between { IsBetweenEvents result.0 (P.device ports.new) }
    ensures answered { IsAnswered (State.Guest side) parts.old (P.device ports.old)
        access.now result.1 }
    ensures shown { IsShown (State.Guest side) parts.old (P.device ports.old)
        access.now result.2 result.0 parts.new (P.device ports.new) }
    ensures mark { result.2
        ≡ mark_due (State.Guest side) parts.old (P.device ports.old) access.now }
    ensures buffers { GoesOnHolding (State.Guest side) parts.old (P.device ports.old)
        result.0 parts.new (P.device ports.new) }
    ensures sources { AccessKeepsSources access.now (State.Guest side) parts.old (P.device ports.old)
        result.0 parts.new (P.device ports.new) }
    ensures requests { AccessKeepsRequests access.now (State.Guest side) parts.old (P.device ports.old)
        result.0 parts.new }
    ensures commands { TakesNone (P.device ports.old).file (P.device ports.new).file }
    ensures parts { parts.new ≡ parts_after result.0 parts.old }
    ensures others { KeepsOthers parts.old parts.new }
    ensures rest { P.rest ports.new ≡ P.rest ports.old }
    ensures reached { (origin : Device) → Reaches origin (P.device ports.old)
        → Reaches origin (P.device ports.new) }
{
    side.access(ports, &Access::Read8(Reg::Status));
    match take(side, ports) {
        Ok(side) => resting(side, parts, ports, access),
        Err(_) => unreachable!(),
    }
}

// On the monitor's side without a command of its own.
fn resting<P: Ports>(
    mut side: MonitorSide,
    parts: &mut Parts,
    ports: &mut P,
    access: &Access,
) -> (State, Answer, Option<Item>)
    requires fits { Fits (State.Monitor side) parts.old (P.device ports.old) }
    requires no_reset { is_reset access.now ≡ false }
    ensures fits { Fits result.0 parts.new (P.device ports.new) }
    ensures between { IsBetweenEvents result.0 (P.device ports.new) }
    ensures answered { IsAnswered (State.Monitor side) parts.old (P.device ports.old)
        access.now result.1 }
    ensures shown { IsShown (State.Monitor side) parts.old (P.device ports.old)
        access.now result.2 result.0 parts.new (P.device ports.new) }
    ensures mark { result.2
        ≡ mark_due (State.Monitor side) parts.old (P.device ports.old) access.now }
    ensures opening { OpeningGoesOn (State.Monitor side) parts.old (P.device ports.old)
        result.0 parts.new (P.device ports.new) }
    ensures stays { OpeningStays (State.Monitor side) parts.old (P.device ports.old)
        result.0 parts.new (P.device ports.new) }
    ensures buffers { GoesOnHolding (State.Monitor side) parts.old (P.device ports.old)
        result.0 parts.new (P.device ports.new) }
    ensures sources { AccessKeepsSources access.now (State.Monitor side) parts.old (P.device ports.old)
        result.0 parts.new (P.device ports.new) }
    ensures requests { AccessKeepsRequests access.now (State.Monitor side) parts.old (P.device ports.old)
        result.0 parts.new }
    ensures commands { TakesNone (P.device ports.old).file (P.device ports.new).file }
    ensures parts { parts.new ≡ parts_after result.0 parts.old }
    ensures others { KeepsOthers parts.old parts.new }
    ensures rest { P.rest ports.new ≡ P.rest ports.old }
    ensures reached { (origin : Device) → Reaches origin (P.device ports.old)
        → Reaches origin (P.device ports.new) }
{
    held_pieces_are_of_the_parts();
    views_are_in_step();
    accesses_keep_the_fit();
    accesses_leave_the_drives_work();
    let (answer, mark) = by_view(&mut side, parts, ports, false, access);
    (State::Monitor(side), answer, mark)
}

// While an own command stands.
fn running<P: Ports>(
    mut side: MonitorSide,
    own: Own,
    purpose: Purpose,
    parts: &mut Parts,
    ports: &mut P,
    access: &Access,
) -> (State, Answer, Option<Item>)
    requires fits { Fits (State.Running side own purpose) parts.old (P.device ports.old) }
    requires no_reset { is_reset access.now ≡ false }
    ensures fits { Fits result.0 parts.new (P.device ports.new) }
    ensures between { IsBetweenEvents result.0 (P.device ports.new) }
    ensures answered { IsAnswered (State.Running side own purpose) parts.old (P.device ports.old)
        access.now result.1 }
    ensures shown { IsShown (State.Running side own purpose) parts.old (P.device ports.old)
        access.now result.2 result.0 parts.new (P.device ports.new) }
    ensures mark { result.2
        ≡ mark_due (State.Running side own purpose) parts.old (P.device ports.old) access.now }
    ensures opening { OpeningGoesOn (State.Running side own purpose) parts.old (P.device ports.old)
        result.0 parts.new (P.device ports.new) }
    ensures stays { OpeningStays (State.Running side own purpose) parts.old (P.device ports.old)
        result.0 parts.new (P.device ports.new) }
    ensures buffers { GoesOnHolding (State.Running side own purpose) parts.old (P.device ports.old)
        result.0 parts.new (P.device ports.new) }
    ensures sources { AccessKeepsSources access.now (State.Running side own purpose) parts.old (P.device ports.old)
        result.0 parts.new (P.device ports.new) }
    ensures requests { AccessKeepsRequests access.now (State.Running side own purpose) parts.old (P.device ports.old)
        result.0 parts.new }
    ensures commands { TakesNone (P.device ports.old).file (P.device ports.new).file }
    ensures parts { parts.new ≡ parts_after result.0 parts.old }
    ensures others { KeepsOthers parts.old parts.new }
    ensures rest { P.rest ports.new ≡ P.rest ports.old }
    ensures reached { (origin : Device) → Reaches origin (P.device ports.old)
        → Reaches origin (P.device ports.new) }
{
    held_pieces_are_of_the_parts();
    views_are_in_step();
    accesses_keep_the_fit();
    accesses_leave_the_drives_work();
    let (answer, mark) = by_view(&mut side, parts, ports, false, access);
    (State::Running(side, own, purpose), answer, mark)
}

// While a dummy read is in flight.
fn raising<P: Ports>(
    mut side: MonitorSide,
    dummy: Dummy,
    plan: Plan,
    parts: &mut Parts,
    ports: &mut P,
    access: &Access,
) -> (State, Answer, Option<Item>)
    requires fits { Fits (State.Raising side dummy plan) parts.old (P.device ports.old) }
    requires between { IsBetweenEvents (State.Raising side dummy plan) (P.device ports.old) }
    requires no_reset { is_reset access.now ≡ false }
    ensures fits { Fits result.0 parts.new (P.device ports.new) }
    ensures between { IsBetweenEvents result.0 (P.device ports.new) }
    ensures answered { IsAnswered (State.Raising side dummy plan) parts.old (P.device ports.old)
        access.now result.1 }
    ensures shown { IsShown (State.Raising side dummy plan) parts.old (P.device ports.old)
        access.now result.2 result.0 parts.new (P.device ports.new) }
    ensures mark { result.2
        ≡ mark_due (State.Raising side dummy plan) parts.old (P.device ports.old) access.now }
    ensures buffers { GoesOnHolding (State.Raising side dummy plan) parts.old (P.device ports.old)
        result.0 parts.new (P.device ports.new) }
    ensures sources { AccessKeepsSources access.now (State.Raising side dummy plan) parts.old (P.device ports.old)
        result.0 parts.new (P.device ports.new) }
    ensures requests { AccessKeepsRequests access.now (State.Raising side dummy plan) parts.old (P.device ports.old)
        result.0 parts.new }
    ensures commands { TakesNone (P.device ports.old).file (P.device ports.new).file }
    ensures parts { parts.new ≡ parts_after result.0 parts.old }
    ensures others { KeepsOthers parts.old parts.new }
    ensures rest { P.rest ports.new ≡ P.rest ports.old }
    ensures reached { (origin : Device) → Reaches origin (P.device ports.old)
        → Reaches origin (P.device ports.new) }
{
    held_pieces_are_of_the_parts();
    views_are_in_step();
    accesses_keep_the_fit();
    accesses_leave_the_drives_work();
    let (answer, mark) = by_view(&mut side, parts, ports, true, access);
    (State::Raising(side, dummy, plan), answer, mark)
}
