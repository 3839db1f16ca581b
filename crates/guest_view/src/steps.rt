//! The steps of the view's own: the end of a reset, a block that is offered, and the ends of a command.
//!
//! Each is what the drive that the guest sees does in a step, once the drive's line is the view's.

ghost use Rattle.std.specs.Prelude.{◌≡◌, ◌+◌, ◌<◌, ◌≤◌, ◌^◌, ℕ, true, false};
ghost use Rattle.ata_taskfile.specs.TaskFile.{holds_reset};
ghost use Rattle.ata_taskfile.specs.Order.{has_range};
ghost use Rattle.ata_taskfile.specs.Data.{gives_words};
ghost use Rattle.ata_taskfile.specs.Lawful.{is_in_reset, is_just_taken, has_order};
ghost use Rattle.ata_taskfile.specs.declared.Phase.TheVariants.{Busy};
ghost use Rattle.ata_taskfile.specs.declared.Taken.TheVariants.{Good};
ghost use Rattle.port_lease.specs.Sides.{view_held, has_own};
ghost use Rattle.guest_view.specs.Fits.{FitsView};
ghost use Rattle.guest_view.specs.Steps.{after_reset, after_offer, after_refusal, after_finish, after_failure, view_without_walk};

use ata_taskfile::registers::BLOCK_WORDS;
use ata_taskfile::{Phase, Refused, Request, Taken};
use plain_drive::{failure_bit, show_failure};
use port_lease::{MonitorSide, View};

/// Ends a reset, which SRST doesn't hold.
#[tactic(auto, using(crate::proofs::StepsFit::reset_fits))]
pub fn end_reset(side: &mut MonitorSide)
    requires resets { is_in_reset (view_held side.old).file.phase ≡ true }
    requires unheld { holds_reset (view_held side.old).file ≡ false }
    ensures view { view_held side.new ≡ after_reset (view_held side.old) }
    ensures own { has_own side.new ≡ has_own side.old }
    ensures fits { (sectors : ℕ) → FitsView (view_held side.old) sectors
        → FitsView (view_held side.new) sectors }
{
    side.view_mut().file.end_reset();
}

/// Offers a block of an order at position `done`, whose words the guest reads from Data.
#[tactic(auto, using(crate::proofs::StepsFit::offer_fits))]
pub fn offer(side: &mut MonitorSide, order: Request, done: u32)
    requires at_work { (view_held side.old).file.phase ≡ Busy (Good order) done }
    requires gives { gives_words order.form ≡ true }
    requires more { done < order.count }
    ensures view { view_held side.new ≡ after_offer order done (view_held side.old) }
    ensures own { has_own side.new ≡ has_own side.old }
    ensures fits { (sectors : ℕ) → FitsView (view_held side.old) sectors
        → FitsView (view_held side.new) sectors }
{
    let phase = Phase::Ready(Taken::Good(order), done, BLOCK_WORDS);
    side.view_mut().file.interrupt_in(phase);
}

/// Ends a command of which nothing is done as a refused one ends; the address registers stay.
#[tactic(auto, using(crate::proofs::StepsFit::refusal_fits))]
pub fn refuse(side: &mut MonitorSide, reason: Refused)
    requires fresh { is_just_taken (view_held side.old).file.phase ≡ true }
    ensures view { view_held side.new ≡ after_refusal reason (view_held side.old) }
    ensures own { has_own side.new ≡ has_own side.old }
    ensures fits { (sectors : ℕ) → FitsView (view_held side.old) sectors
        → FitsView (view_held side.new) sectors }
{
    side.view_mut().file.refuse(reason);
}

/// Ends the command in hand as done, with its walk.
#[tactic(auto, using(crate::proofs::StepsFit::finish_fits))]
pub fn finish(side: &mut MonitorSide)
    requires stands { has_order (view_held side.old).file.phase ≡ true }
    ensures view { view_held side.new ≡ after_finish (view_held side.old) }
    ensures own { has_own side.new ≡ has_own side.old }
    ensures fits { (sectors : ℕ) → FitsView (view_held side.old) sectors
        → FitsView (view_held side.new) sectors }
{
    let mut view = *side.view();
    end_walk(&mut view);
    view.file.interrupt_in(Phase::Idle);
    *side.view_mut() = view;
}

/// Ends an order that failed at position `done`, with its walk: the address registers name the sector at which it did,
/// where it has any.
#[tactic(auto, using(crate::proofs::StepsFit::failure_fits))]
pub fn fail(side: &mut MonitorSide, order: Request, done: u32)
    requires at_work { (view_held side.old).file.phase ≡ Busy (Good order) done }
    requires within { order.first + order.count < 2 ^ 64 }
    requires position { has_range order.kind ≡ true → done ≤ order.count }
    ensures view { view_held side.new ≡ after_failure order done (view_held side.old) }
    ensures own { has_own side.new ≡ has_own side.old }
    ensures fits { (sectors : ℕ) → FitsView (view_held side.old) sectors
        → FitsView (view_held side.new) sectors }
{
    let mut view = *side.view();
    fail_view(&mut view, order, done);
    *side.view_mut() = view;
}

// The failed end, over the view alone.
fn fail_view(view: &mut View, order: Request, done: u32)
    requires within { order.first + order.count < 2 ^ 64 }
    requires position { has_range order.kind ≡ true → done ≤ order.count }
    ensures { view.new ≡ after_failure order done view.old }
{
    end_walk(view);
    show_failure(&mut view.file, order, done);
    view.file.end_failed(failure_bit(order.kind));
}

// The walk of a command in hand ends with it, where the bus master moves its sectors.
fn end_walk(view: &mut View)
    ensures { view.new ≡ view_without_walk view.old }
{
    if view.file.phase.is_moving() {
        view.bus.end_walk();
    }
}
