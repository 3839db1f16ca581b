//! The mediator and its calls.

ghost use Rattle.std.specs.Prelude.{◌≡◌, ◌↔◌, ◌∷◌, ◌++◌, ◌<◌, ◌≤◌, ℕ, List, [], None, IfOk, length, drop, false, true, option_map, slice_get};
ghost use Rattle.ata_taskfile.specs.Access.{answer_to};
ghost use Rattle.ata_taskfile.specs.Lawful.{is_just_taken};
ghost use Rattle.ata_taskfile.specs.Device.{Device};
ghost use Rattle.ata_taskfile.specs.Accesses.{Reaches};
ghost use Rattle.plain_drive.specs.Plain.{Plain};
ghost use Rattle.plain_drive.specs.Alike.{after_access};
ghost use Rattle.mon_pool.specs.Region.{HasWholeBuffers, buffers_in};
ghost use Rattle.aoe_client.specs.Asking.{HasTags, both_ticked, due_tags, next_sent};
ghost use Rattle.aoe_client.specs.Messages.{request_frame};
ghost use Rattle.guest_view.specs.View.{is_reset};
ghost use Rattle.monitor_state.specs.Setup.{IsSetup};
ghost use Rattle.monitor_state.specs.Opening.{OpensOnKept};
ghost use Rattle.monitor_state.specs.Overlaid.{Known};
ghost use Rattle.monitor_state.specs.State.{view_of};
ghost use Rattle.monitor_access.specs.Seen.{IsAnswered};
ghost use Rattle.monitor_access.specs.Marks.{TakesNone, mark_due, mark_over};
ghost use Rattle.monitor_access.specs.Parts.{KeepsOthers};
ghost use Rattle.streaming.specs.Client.{ClientTurned, TakesFrame};
ghost use Rattle.streaming.specs.Monitor.{asked_items, item_of};
ghost use Rattle.streaming.specs.Lines.{Line, line_of, of_access, of_frame, of_step, of_tick, of_turn};
ghost use Rattle.monitor_turn.specs.Opening.{OpeningFalls};
ghost use Rattle.monitor_turn.specs.Turned.{KeepsImage};
ghost use Rattle.monitor_events.specs.Stepping.{device_after_step, parts_after_step, plan_due_of, view_after_step};
ghost use Rattle.monitor_events.specs.Hearing.{IsHeard};
ghost use Rattle.monitor_events.specs.Shown.{HasComeTo};
ghost use Rattle.mediator.specs.declared.emitting.TheConstants.{MOST_DUE};
ghost use Rattle.mediator.specs.Mediator.{FitsAtPowerOn, FitsDrive, IsAtPowerOn, IsFit, IsStill, client_of, parts_of, state_of, with_client};
ghost use Rattle.mediator.specs.Emitted.{GivesTurn};
ghost use Rattle.mediator.specs.Couples.{AsksAlong, AsksRightly, Couples, KeepsAll, KeepsAlong, KeepsHeard, StandsAtPowerOn};

use crate::emitting::{push, push_asked};
use crate::restarting::restart;
use aoe_client::{
    a_slot_has_a_blocks_tags, buffers_outlast, only_a_frame_answers_a_tag,
    tags_are_due_until_they_are_sent,
};
use aoe_frame::Frame;
use ata_taskfile::{Access, Answer, Ports, Step, Stepped};
use bm_dma::GuestMemory;
use mon_pool::a_pool_is_whole;
use monitor_access::accessed;
use monitor_events::{heard, stepped};
use monitor_state::{
    NoMemory, Parts, Setup, State, a_good_step_ends_the_wait, asks_stay,
    clients_buffers_are_of_the_pool, leases_go_back_in_order,
    only_a_failed_step_raises_what_is_left, same_asks_keep_the_fit,
};
use monitor_turn::turned;
use port_lease::power_on;
use schedule_text::{Emitted, Item};
use std::alloc::Global;
use std::mem;

/// What stands between the guest and its drive while the image is deployed. It can be neither copied nor let go: `end`
/// spends it, with the leases and the side of the drive that it holds.
///
/// Between two calls every due tag was sent: whoever calls `turn` or `tick` then takes the frames by `next_send` until
/// there is none. It doesn't leave the drive yet.
pub struct Mediator {
    state: State,
    parts: Parts,
}

impl Mediator {
    /// The mediator at power-on. It fails only for want of memory; no later call takes any.
    #[tactic(auto, using(crate::proofs::Starts::starts_fit, crate::proofs::Starts::fit_itself))]
    pub fn new(alloc: Global, setup: &Setup) -> Result<Mediator, NoMemory>
        requires setup { IsSetup setup.now }
        requires image { 0 < setup.now.area.image }
        ensures begun { IfOk result (IsAtPowerOn setup.now.area setup.now.id setup.now.pool) }
        ensures fits { IfOk result FitsAtPowerOn }
        ensures fit { IfOk result IsFit }
        ensures sent { IfOk result (λ m. due_tags (client_of m) ≡ []) }
        ensures stands { IfOk result StandsAtPowerOn }
    {
        Ok(Mediator {
            parts: Parts::new(alloc, setup)?,
            state: State::Monitor(power_on()),
        })
    }

    /// The power came on again: the monitor begins anew, as at the first power-on.
    #[tactic(auto, using(crate::proofs::Restart::parts_are_leased))]
    pub fn power_on(&mut self)
        requires fit { IsFit self.old }
        ensures begun { IsAtPowerOn (parts_of self.old).area (parts_of self.old).id
            (buffers_in (parts_of self.old).pool) self.new }
        ensures fits { FitsAtPowerOn self.new }
        ensures fit { IsFit self.new }
        ensures sent { due_tags (client_of self.new) ≡ [] }
        ensures stands { StandsAtPowerOn self.new }
    {
        leases_go_back_in_order();
        let state = State::Monitor(power_on());
        mem::replace(&mut self.state, state).end(&mut self.parts.pool);
        restart(&mut self.parts);
    }

    /// An access of the guest, other than one that begins a reset: the answer, and the mark of a command that names a
    /// reserved sector.
    pub fn access<P: Ports>(
        &mut self,
        ports: &mut P,
        _memory: &mut GuestMemory,
        access: &Access,
        out: &mut Emitted,
    ) -> Answer
        requires fits { FitsDrive self.old (P.device ports.old) }
        requires still { IsStill self.old (P.device ports.old) }
        requires sent { due_tags (client_of self.old) ≡ [] }
        requires no_reset { is_reset access.now ≡ false }
        requires room { length out.old.items.items < 80 }

        ensures answer { IsAnswered (state_of self.old) (parts_of self.old)
            (P.device ports.old) access.now result }
        ensures items { out.new.items.items ≡ out.old.items.items ++ item_of
            (mark_due (state_of self.old) (parts_of self.old) (P.device ports.old) access.now) }
        ensures bytes { out.new.bytes ≡ out.old.bytes }
        ensures others { KeepsOthers (parts_of self.old) (parts_of self.new) }
        ensures commands { TakesNone (P.device ports.old).file (P.device ports.new).file }

        // For every plain drive for which mediator, drive and memory stand: the answer is its own, a command is marked
        // exactly where it takes it and the monitor refuses it, and without a mark they stand for it afterwards.
        ensures answers { (k : Known) (q : Plain) (lines : List Line) →
            Couples k self.old (P.device ports.old) _memory.old q lines
            → result ≡ answer_to access.now q.device }
        ensures marked { (k : Known) (q : Plain) (lines : List Line) →
            Couples k self.old (P.device ports.old) _memory.old q lines
            → out.new.items.items ≡ out.old.items.items
            ++ item_of (mark_over q.device.file (parts_of self.old) access.now) }
        ensures kept { (k : Known) (q : Plain) (lines : List Line) →
            Couples k self.old (P.device ports.old) _memory.old q lines
            → mark_over q.device.file (parts_of self.old) access.now ≡ None
            → Couples k self.new (P.device ports.new) _memory.new (after_access access.now q)
            (line_of (of_access access.now) q [] ∷ lines) }
        ensures asks { (k : Known) (q : Plain) (lines : List Line) →
            Couples k self.old (P.device ports.old) _memory.old q lines
            → AsksRightly (of_access access.now)
            (item_of (mark_over q.device.file (parts_of self.old) access.now)) q lines }

        ensures fits { FitsDrive self.new (P.device ports.new) }
        ensures still { IsStill self.new (P.device ports.new) }
        ensures sent { due_tags (client_of self.new) ≡ [] }
        ensures memory { _memory.new ≡ _memory.old }
        ensures rest { P.rest ports.new ≡ P.rest ports.old }
        ensures reached { (origin : Device) → Reaches origin (P.device ports.old)
            → Reaches origin (P.device ports.new) }
    {
        let state = mem::replace(&mut self.state, State::Moving);
        let (state, answer, mark) = accessed(state, &mut self.parts, ports, access);
        mem::replace(&mut self.state, state).end(&mut self.parts.pool);
        push(mark, out);
        answer
    }

    /// A turn: what the monitor did in it, and the requests that are to be sent.
    #[tactic(auto, using(crate::proofs::Starts::asks_blocks))]
    pub fn turn<P: Ports>(&mut self, ports: &mut P, memory: &mut GuestMemory, out: &mut Emitted)
        requires fits { FitsDrive self.old (P.device ports.old) }
        requires still { IsStill self.old (P.device ports.old) }
        requires sent { due_tags (client_of self.old) ≡ [] }
        requires room { length out.old.items.items < 16 }

        ensures items { GivesTurn self.old self.new (P.device ports.old) (P.device ports.new)
            out.old.items.items out.new.items.items }
        ensures bytes { out.new.bytes ≡ out.old.bytes }
        ensures few { length (due_tags (client_of self.new)) ≤ MOST_DUE }
        ensures client { ClientTurned (client_of self.old) (client_of self.new) }
        ensures image { KeepsImage (parts_of self.old) (parts_of self.new) }

        // While opening hasn't ended less is left of it after a turn at which the drive isn't at work.
        ensures progress { OpeningFalls (state_of self.old) (parts_of self.old)
            (P.device ports.old) (state_of self.new) (parts_of self.new) (P.device ports.new) }

        ensures kept { KeepsAlong of_turn out.old.items.items out.new.items.items
            self.old (P.device ports.old) memory.old self.new (P.device ports.new) memory.new }
        ensures asks { AsksAlong of_turn out.old.items.items out.new.items.items self.old }

        ensures fits { FitsDrive self.new (P.device ports.new) }
        ensures still { IsStill self.new (P.device ports.new) }
        ensures memory { length memory.new ≡ length memory.old }
        ensures rest { P.rest ports.new ≡ P.rest ports.old }
        ensures reached { (origin : Device) → Reaches origin (P.device ports.old)
            → Reaches origin (P.device ports.new) }
    {
        buffers_are_whole(&self.parts);
        let state = mem::replace(&mut self.state, State::Moving);
        let (state, item) = turned(state, &mut self.parts, ports, memory);
        mem::replace(&mut self.state, state).end(&mut self.parts.pool);
        push(item, out);
        push_asked(&self.parts.client, out);
    }

    /// The drive made a step, and `changed` says whether it had an effect: the plan line of the guest's drive.
    #[tactic(auto, using(crate::proofs::Stepped::stepped_client, crate::proofs::Stepped::stepped_others))]
    pub fn stepped<P: Ports>(
        &mut self,
        ports: &mut P,
        step: Step,
        changed: Stepped,
        out: &mut Emitted,
    )
        requires fits { FitsDrive self.old (P.device ports.old) }
        requires sent { due_tags (client_of self.old) ≡ [] }
        requires room { length out.old.items.items < 80 }

        ensures items { out.new.items.items ≡ out.old.items.items
            ++ item_of (plan_due_of (state_of self.old) step changed (P.device ports.old)) }
        ensures bytes { out.new.bytes ≡ out.old.bytes }
        ensures view { view_of (state_of self.new)
            ≡ view_after_step (state_of self.old) (P.device ports.old) }
        ensures parts { parts_of self.new
            ≡ parts_after_step (state_of self.old) (P.device ports.old) (parts_of self.old) }
        ensures others { KeepsOthers (parts_of self.old) (parts_of self.new) }
        ensures device { P.device ports.new
            ≡ device_after_step (state_of self.old) (P.device ports.old) }
        ensures begins { is_just_taken (P.device ports.new).file.phase ≡ true
            → (P.device ports.new).file.phase ≡ (P.device ports.old).file.phase }

        // The drive has acted before: it stood for the plain drive as it was before its step.
        ensures kept { (old now : Plain) → now.device ≡ P.device ports.old
            → HasComeTo (state_of self.old) (parts_of self.old) step changed old now
            → KeepsAlong (of_step step changed) out.old.items.items out.new.items.items
            self.old old.device old.memory self.new (P.device ports.new) now.memory }
        ensures asks { AsksAlong (of_step step changed) out.old.items.items
            out.new.items.items self.old }

        ensures fits { FitsDrive self.new (P.device ports.new) }
        ensures still { IsStill self.new (P.device ports.new) }
        ensures sent { due_tags (client_of self.new) ≡ [] }
        ensures rest { P.rest ports.new ≡ P.rest ports.old }
        ensures reached { (origin : Device) → Reaches origin (P.device ports.old)
            → Reaches origin (P.device ports.new) }
    {
        buffers_are_whole(&self.parts);
        next_is_on_kept(&self.parts);
        only_a_failed_step_raises_what_is_left();
        a_good_step_ends_the_wait();
        let state = mem::replace(&mut self.state, State::Moving);
        let (state, item) = stepped(state, &mut self.parts, ports, step, changed);
        mem::replace(&mut self.state, state).end(&mut self.parts.pool);
        push(item, out);
    }

    /// A tick: the requests that are to be sent again.
    #[tactic(auto, using(crate::proofs::Starts::asks_blocks))]
    pub fn tick(&mut self, out: &mut Emitted)
        requires fit { IsFit self.old }
        requires sent { due_tags (client_of self.old) ≡ [] }
        requires room { length out.old.items.items ≤ 16 }
        ensures after { self.new ≡ with_client (both_ticked (client_of self.old)) self.old }
        ensures kept { KeepsAll of_tick out.old.items.items out.new.items.items
            self.old self.new }
        ensures asks { AsksAlong of_tick out.old.items.items out.new.items.items self.old }
        ensures items { out.new.items.items
            ≡ out.old.items.items ++ asked_items (due_tags (client_of self.new)) }
        ensures few { length (due_tags (client_of self.new)) ≤ MOST_DUE }
        ensures bytes { out.new.bytes ≡ out.old.bytes }
        ensures fits { (d : Device) → FitsDrive self.old d → FitsDrive self.new d }
        ensures fit { IsFit self.new }
    {
        asks_stay();
        same_asks_keep_the_fit();
        buffers_outlast();
        only_a_frame_answers_a_tag();
        self.parts.client.tick();
        push_asked(&self.parts.client, out);
    }

    /// A frame comes: the mark of one that the server didn't send, exactly where the client took such a one.
    #[tactic(auto, using(crate::proofs::SentTags::heard_due))]
    pub fn frame_in(&mut self, frame: &Frame, injected: bool, out: &mut Emitted)
        requires fit { IsFit self.old }
        requires sent { due_tags (client_of self.old) ≡ [] }
        requires room { length out.old.items.items < 80 }
        ensures marked { injected ≡ true → TakesFrame frame.now (client_of self.old)
            → out.new.items.items ≡ out.old.items.items ++ Item.Forged ∷ [] }
        ensures unmarked { (injected ≡ true → ¬ TakesFrame frame.now (client_of self.old))
            → out.new.items.items ≡ out.old.items.items }
        ensures bytes { out.new.bytes ≡ out.old.bytes }
        ensures heard { IsHeard frame.now (parts_of self.old) (parts_of self.new) }
        ensures state { state_of self.new ≡ state_of self.old }
        ensures kept { KeepsHeard frame.now injected out.old.items.items
            out.new.items.items self.old self.new }
        ensures asks { AsksAlong (of_frame frame.now injected) out.old.items.items
            out.new.items.items self.old }
        ensures fits { (d : Device) → FitsDrive self.old d → FitsDrive self.new d }
        ensures fit { IsFit self.new }
        ensures sent { due_tags (client_of self.new) ≡ [] }
    {
        clients_buffers_are_of_the_pool();
        a_slot_has_a_blocks_tags(&self.parts.client);
        push(heard(&mut self.parts, frame, injected), out);
    }

    /// The request of the first due tag, which is sent thereby; None exactly where no tag is due.
    pub fn next_send(&mut self) -> Option<Frame>
        ensures request { result
            ≡ option_map request_frame (slice_get (due_tags (client_of self.old)) 0) }
        ensures after { self.new ≡ with_client (next_sent (client_of self.old)) self.old }
        ensures left { due_tags (client_of self.new)
            ≡ drop 1 (due_tags (client_of self.old)) }
        ensures kept { (k : Known) (d : Device) (memory : List ℕ) (q : Plain)
            (lines : List Line) →
            Couples k self.old d memory q lines → Couples k self.new d memory q lines }
        ensures fits { (d : Device) → FitsDrive self.old d → FitsDrive self.new d }
        ensures fit { IsFit self.old → IsFit self.new }
    {
        asks_stay();
        same_asks_keep_the_fit();
        tags_are_due_until_they_are_sent();
        buffers_outlast();
        only_a_frame_answers_a_tag();
        self.parts.client.next_send()
    }

    /// Spends the mediator: every lease goes back to the pool, and the drive is left as it stands.
    pub fn end(self)
        requires fit { IsFit self }
    {
        leases_go_back_in_order();
        let Mediator { state, mut parts } = self;
        state.end(&mut parts.pool);
        parts.end();
    }
}

// A slot asks for a block's tags, and the pool's block has the bytes of all its buffers.
fn buffers_are_whole(parts: &Parts)
    ensures tags { HasTags parts.now.client.block parts.now.client.demand }
    ensures whole { HasWholeBuffers parts.now.pool }
{
    a_slot_has_a_blocks_tags(&parts.client);
    a_pool_is_whole(&parts.pool);
}

// The next job of opening, if there is one, is on the sectors that the monitor keeps.
fn next_is_on_kept(parts: &Parts)
    ensures { OpensOnKept parts.now }
{
    let _next = parts.opening.next();
}
