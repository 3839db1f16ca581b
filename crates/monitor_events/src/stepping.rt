//! A step of the drive.

ghost use Rattle.std.specs.Prelude.{◌≡◌, true, false};
ghost use Rattle.ata_taskfile.specs.declared.Step.{Step as StepOf};
ghost use Rattle.ata_taskfile.specs.declared.Stepped.{Stepped as SteppedOf};
ghost use Rattle.ata_taskfile.specs.Lawful.{is_just_taken};
ghost use Rattle.ata_taskfile.specs.Device.{Device};
ghost use Rattle.ata_taskfile.specs.Accesses.{Reaches};
ghost use Rattle.fill_bitmap.specs.Area.{IsSuitable};
ghost use Rattle.plain_drive.specs.Plain.{Plain};
ghost use Rattle.port_lease.specs.Sides.{view_held, has_own};
ghost use Rattle.guest_view.specs.Fits.{FitsView};
ghost use Rattle.monitor_state.specs.declared.state.State.TheVariants.{Raising};
ghost use Rattle.monitor_state.specs.State.{view_of};
ghost use Rattle.monitor_state.specs.Hand.{HasInHand};
ghost use Rattle.monitor_state.specs.Fits.{Fits, FitsPlan, IsBetweenEvents};
ghost use Rattle.monitor_state.specs.GoesOn.{GoesOn};
ghost use Rattle.monitor_state.specs.Sourced.{KeepsSources};
ghost use Rattle.streaming.specs.Monitor.{item_of};
ghost use Rattle.monitor_events.specs.Shown.{HasComeTo};
ghost use Rattle.monitor_events.specs.Stepping.{device_after_step, ends_dummy, is_resting_state, item_planned, parts_after_step, parts_planned, plan_due_of, plan_of_dummy, plan_of_step, view_after_step, view_planned};

use ata_taskfile::{Phase, Ports, Refused, Step, Stepped, Taken};
use dummy_read::{Dummy, a_step_moves_nothing, a_step_raises_the_interrupt};
use monitor_state::{Hand, Parts, Plan, State};
use port_lease::MonitorSide;
use schedule_text::Item;

/// The drive made a step, and `changed` says whether it had an effect: the state after it, and the plan line of the
/// guest's drive.
///
/// On the guest's side each step that had an effect is one of the guest's drive. Else none is, but that of a dummy read
/// whose interrupt came: the read ends, and the view makes the step that was planned (own).
pub fn stepped<P: Ports>(
    state: State,
    parts: &mut Parts,
    ports: &mut P,
    step: Step,
    changed: Stepped,
) -> (State, Option<Item>)
    requires fits { Fits state parts.old (P.device ports.old) }

    ensures plan { result.1 ≡ plan_due_of state step changed (P.device ports.old) }
    ensures stays { ends_dummy state (P.device ports.old) ≡ false → result.0 ≡ state }
    ensures rests { ends_dummy state (P.device ports.old) ≡ true
        → is_resting_state result.0 ≡ true }
    ensures view { view_of result.0 ≡ view_after_step state (P.device ports.old) }
    ensures parts { parts.new ≡ parts_after_step state (P.device ports.old) parts.old }
    ensures device { P.device ports.new ≡ device_after_step state (P.device ports.old) }

    // The drive made its step before the call: what the guest saw before that makes the step that is told.
    ensures shown { (old now : Plain) → now.device ≡ P.device ports.old
        → HasComeTo state parts.old step changed old now
        → GoesOn state parts.old old.device old.memory (item_of result.1) result.0 parts.new
        (P.device ports.new) now.memory }

    // A step that is told gives the guest no sector without a source.
    ensures sources { (old now : Plain) → now.device ≡ P.device ports.old
        → HasComeTo state parts.old step changed old now
        → KeepsSources state parts.old old.device result.1 result.0 parts.new (P.device ports.new) }

    ensures fits { Fits result.0 parts.new (P.device ports.new) }
    ensures between { IsBetweenEvents result.0 (P.device ports.new) }
    ensures begins { is_just_taken (P.device ports.new).file.phase ≡ true
        → (P.device ports.new).file.phase ≡ (P.device ports.old).file.phase }
    ensures rest { P.rest ports.new ≡ P.rest ports.old }
    ensures reached { (origin : Device) → Reaches origin (P.device ports.old)
        → Reaches origin (P.device ports.new) }
{
    match state {
        State::Guest(side) => (State::Guest(side), guest_plan(step, changed)),
        State::Raising(side, dummy, plan) => raised(side, dummy, plan, parts, ports),
        other => (other, None),
    }
}

// On the guest's side a step that changed the drive is one of the guest's.
fn guest_plan(step: Step, changed: Stepped) -> Option<Item>
    ensures { result ≡ plan_of_step step changed }
{
    match (changed, step) {
        (Stepped::Nothing, _) => None,
        (Stepped::Changed, Step::Good) => Some(Item::Go(1)),
        (Stepped::Changed, Step::Bad) => Some(Item::Bad),
    }
}

// A dummy read whose interrupt is there ends, and the view makes the step that was planned.
fn raised<P: Ports>(
    mut side: MonitorSide,
    mut dummy: Dummy,
    plan: Plan,
    parts: &mut Parts,
    ports: &mut P,
) -> (State, Option<Item>)
    requires fits { Fits (Raising side dummy plan) parts.old (P.device ports.old) }

    ensures plan { result.1 ≡ plan_of_dummy plan (P.device ports.old) }
    ensures stays { (P.device ports.old).file.pending ≡ false
        → result.0 ≡ Raising side dummy plan }
    ensures rests { (P.device ports.old).file.pending ≡ true → is_resting_state result.0 ≡ true }
    ensures view { view_of result.0
        ≡ view_after_step (Raising side dummy plan) (P.device ports.old) }
    ensures parts { parts.new
        ≡ parts_after_step (Raising side dummy plan) (P.device ports.old) parts.old }
    ensures device { P.device ports.new
        ≡ device_after_step (Raising side dummy plan) (P.device ports.old) }
    ensures shown { (kind : StepOf) (effect : SteppedOf) (old now : Plain) →
        now.device ≡ P.device ports.old
        → HasComeTo (Raising side dummy plan) parts.old kind effect old now
        → GoesOn (Raising side dummy plan) parts.old old.device old.memory (item_of result.1)
        result.0 parts.new (P.device ports.new) now.memory }
    ensures sources { (kind : StepOf) (effect : SteppedOf) (old now : Plain) →
        now.device ≡ P.device ports.old
        → HasComeTo (Raising side dummy plan) parts.old kind effect old now
        → KeepsSources (Raising side dummy plan) parts.old old.device result.1
        result.0 parts.new (P.device ports.new) }

    ensures fits { Fits result.0 parts.new (P.device ports.new) }
    ensures between { IsBetweenEvents result.0 (P.device ports.new) }
    ensures begins { is_just_taken (P.device ports.new).file.phase ≡ true
        → (P.device ports.new).file.phase ≡ (P.device ports.old).file.phase }
    ensures rest { P.rest ports.new ≡ P.rest ports.old }
    ensures reached { (origin : Device) → Reaches origin (P.device ports.old)
        → Reaches origin (P.device ports.new) }
{
    a_step_raises_the_interrupt();
    a_step_moves_nothing();
    if !dummy.poll(&mut side, ports) {
        return (State::Raising(side, dummy, plan), None);
    }
    let item = planned(&mut side, plan, parts);
    (State::Monitor(side), Some(item))
}

// The view makes the step that was planned, and what is in hand goes with the command's end.
fn planned(side: &mut MonitorSide, plan: Plan, parts: &mut Parts) -> Item
    requires suitable { IsSuitable parts.old.area }
    requires fits { FitsView (view_held side.old) parts.old.area.sectors }
    requires in_hand { let v = view_held side.old in HasInHand v.file.phase v parts.old }
    requires planned { FitsPlan plan (view_held side.old).file.phase parts.old }

    ensures item { result ≡ item_planned plan }
    ensures view { view_held side.new ≡ view_planned plan (view_held side.old) }
    ensures parts { parts.new ≡ parts_planned plan parts.old }
    ensures fits { FitsView (view_held side.new) parts.old.area.sectors }
    ensures own { has_own side.new ≡ has_own side.old }
{
    let phase = side.view().file.phase;
    match (plan, phase) {
        (Plan::Serve, Phase::Busy(Taken::Good(order), done)) => {
            guest_view::offer(side, order, done);
            Item::Go(1)
        }
        (Plan::Fail, Phase::Busy(Taken::Good(order), done)) => {
            guest_view::fail(side, order, done);
            parts.hand = Hand::empty();
            Item::Bad
        }
        (Plan::Reserved, _) => {
            guest_view::refuse(side, Refused::NotFound);
            Item::Go(1)
        }
        (Plan::End, _) => {
            guest_view::finish(side);
            parts.hand = Hand::empty();
            Item::Go(1)
        }
        (Plan::Serve | Plan::Fail, _) => unreachable!(),
    }
}
