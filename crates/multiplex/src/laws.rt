//! Laws: when each turn comes, over every state. No code runs.

ghost use Rattle.std.specs.Prelude.{◌≡◌, ◌↔◌, true, false};
ghost use Rattle.ata_taskfile.specs.declared.Phase.TheVariants as phase;
ghost use Rattle.ata_taskfile.specs.Lawful.{is_in_reset};
ghost use Rattle.multiplex.specs.declared.turn.Turn.TheVariants as turn;
ghost use Rattle.multiplex.specs.declared.turn.TurnState.{TurnState};
ghost use Rattle.multiplex.specs.Turns.{IsUnengaged, MayServe, turn_of, is_busy};

/// An own command that stands is polled, before all else.
pub fn own_commands_are_polled_first()
    ensures { (s : TurnState) → (turn_of s ≡ turn.PollOwn) ↔ (s.own ≡ true) }
{}

/// While a dummy read flies a turn does nothing, whatever else there is to do.
pub fn nothing_is_done_while_a_dummy_read_flies()
    ensures { (s : TurnState) → s.own ≡ false → s.dummy ≡ true → turn_of s ≡ turn.Nothing }
{}

/// Until opening has ended nothing else is begun, whoever has the drive and whatever the guest wants.
pub fn opening_comes_before_the_guest()
    ensures { (s : TurnState) →
        (turn_of s ≡ turn.Opening) ↔ (IsUnengaged s × (s.opened ≡ false)) }
{}

/// The drive is taken exactly where the guest has it, once no command of the monitor's stands and opening has ended.
pub fn the_drive_is_taken_before_any_work()
    ensures { (s : TurnState) → (turn_of s ≡ turn.Take)
        ↔ (IsUnengaged s × (s.opened ≡ true) × (s.guest_side ≡ true)) }
{}

/// The view's reset ends exactly where the monitor may serve it and SRST is held no longer.
pub fn a_reset_ends_once_srst_is_0()
    ensures { (s : TurnState) → (turn_of s ≡ turn.Restart)
        ↔ (MayServe s × (s.phase ≡ phase.Reset) × (s.reset_held ≡ false)) }
{}

/// A guest's command is worked on exactly where the monitor may serve it and the view is Busy.
pub fn commands_are_worked_on_from_the_monitors_side()
    ensures { (s : TurnState) → (turn_of s ≡ turn.Command)
        ↔ (MayServe s × (is_busy s.phase ≡ true)) }
{}

/// The monitor turns to its own work exactly where it may serve the guest, the guest has no command in hand, and no
/// interrupt waits for the guest.
pub fn the_monitors_work_waits_for_the_guest()
    ensures { (s : TurnState) → (turn_of s ≡ turn.Idle)
        ↔ (MayServe s × (s.phase ≡ phase.Idle) × (s.pending ≡ false)) }
{}

/// A turn that took the drive goes on as an idle one, since only an idle drive without an interrupt is taken.
pub fn a_turn_that_took_goes_on_idle()
    ensures { (s : TurnState) → turn_of s ≡ turn.Take → turn_of (record s {
      guest_side = false;
      phase = phase.Idle;
      pending = false;
    }) ≡ turn.Idle }
{}
