//! Laws of what is in hand: what the view's own steps keep of it, and that the drive rests after a dummy read.

ghost use Rattle.std.specs.Prelude.{◌≡◌, ◌+◌, ◌≤◌, ℕ, true, false, IsSomeAnd, is_some};
ghost use Rattle.ata_taskfile.specs.declared.Form.TheVariants.{PioIn, DmaIn};
ghost use Rattle.ata_taskfile.specs.declared.Phase.{Phase as PhaseOf};
ghost use Rattle.ata_taskfile.specs.declared.Phase.TheVariants.{Busy};
ghost use Rattle.ata_taskfile.specs.declared.Request.{Request as RequestOf};
ghost use Rattle.ata_taskfile.specs.declared.Taken.TheVariants.{Good};
ghost use Rattle.ata_taskfile.specs.Device.{Device};
ghost use Rattle.ata_taskfile.specs.Lawful.{is_in_reset, is_just_taken};
ghost use Rattle.ata_taskfile.specs.TaskFile.{masks_line};
ghost use Rattle.port_lease.specs.declared.view.View.{View as ViewOf};
ghost use Rattle.port_lease.specs.declared.monitor_side.MonitorSide.{MonitorSide as SideOf};
ghost use Rattle.port_lease.specs.Sides.{view_held};
ghost use Rattle.dummy_read.specs.declared.dummy.Dummy.{Dummy as DummyOf};
ghost use Rattle.dummy_read.specs.Flight.{ended};
ghost use Rattle.guest_view.specs.Steps.{after_offer, after_reset};
ghost use Rattle.monitor_state.specs.declared.state.State.TheVariants.{Monitor, Raising};
ghost use Rattle.monitor_state.specs.declared.state.Plan.{Plan as PlanOf};
ghost use Rattle.monitor_state.specs.declared.state.Plan.TheVariants.{End, Fail, Reserved};
ghost use Rattle.monitor_state.specs.declared.parts.Parts.{Parts as PartsOf};
ghost use Rattle.monitor_state.specs.State.{end_of_piece};
ghost use Rattle.monitor_state.specs.Pieces.{no_hand, tidied};
ghost use Rattle.monitor_state.specs.Hand.{HasInHand, IsEmptyHanded};
ghost use Rattle.monitor_state.specs.Fits.{FitsDevice, FitsPlan};

/// The view's own steps leave in hand what its phase asks for: the end of a reset, a block of the held piece that is
/// offered, and sectors of it that the bus master moved.
pub fn the_views_steps_keep_what_is_in_hand()
    ensures reset { (v : ViewOf) (p : PartsOf) → is_in_reset v.file.phase ≡ true
        → HasInHand v.file.phase v p → HasInHand (after_reset v).file.phase (after_reset v) p }
    ensures offer { (v : ViewOf) (p : PartsOf) (order : RequestOf) (done : ℕ) →
        v.file.phase ≡ Busy (Good order) done → order.form ≡ PioIn → is_some p.held ≡ true
        → is_some p.hand.redirect ≡ true → HasInHand v.file.phase v p
        → let w = after_offer order done v in HasInHand w.file.phase w p }
    ensures moved { (v w : ViewOf) (p : PartsOf) (order : RequestOf) (from to : ℕ) →
        v.file.phase ≡ Busy (Good order) from → w.file.phase ≡ Busy (Good order) to → from ≤ to
        → order.form ≡ DmaIn → w.file.pending ≡ v.file.pending
        → IsSomeAnd p.held (λ held. order.first + to ≤ end_of_piece held)
        → HasInHand v.file.phase v p → HasInHand w.file.phase w (tidied w.file.phase p) }
{}

/// The hand is empty once a command ends by a planned step, and one that is refused has nothing done.
pub fn planned_ends_leave_an_empty_hand()
    ensures finished { (phase : PhaseOf) (v : ViewOf) (p : PartsOf) → FitsPlan End phase p
        → HasInHand phase v p → IsEmptyHanded (record p { hand = no_hand }) }
    ensures failed { (phase : PhaseOf) (v : ViewOf) (p : PartsOf) → FitsPlan Fail phase p
        → HasInHand phase v p → IsEmptyHanded (record p { hand = no_hand }) }
    ensures refused { (phase : PhaseOf) (v : ViewOf) (p : PartsOf) → FitsPlan Reserved phase p
        → HasInHand phase v p → IsEmptyHanded p }
    ensures fresh { (phase : PhaseOf) (v : ViewOf) (p : PartsOf) → FitsPlan Reserved phase p
        → HasInHand phase v p → is_just_taken phase ≡ true }
{}

/// Once the interrupt of a dummy read is taken the drive rests beside a view in which it pends, masked as it was.
pub fn a_raised_interrupt_fits()
    ensures { (side new : SideOf) (dummy : DummyOf) (planned : PlanOf) (p q : PartsOf)
        (d : Device) → FitsDevice (Raising side dummy planned) p d
        → (view_held new).file.pending ≡ true
        → masks_line (view_held new).file ≡ masks_line (view_held side).file
        → FitsDevice (Monitor new) q (ended false d) }
{}
