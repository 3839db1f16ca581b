//! The choice of a turn.

ghost use Rattle.std.specs.Prelude.{◌≡◌};
ghost use Rattle.multiplex.specs.Turns.{turn_of, turn_by_phase};

use ata_taskfile::Phase;

/// What the monitor does in a turn (own).
#[derive(Clone, Copy, Debug, PartialEq, Eq)]
pub enum Turn {
    /// It polls its own command once.
    PollOwn,
    /// It begins the next command of opening, where the drive shows no BSY.
    Opening,
    /// It takes the drive. Where that succeeds the turn goes on: it is chosen again, on the monitor's side.
    Take,
    /// The view's reset ends.
    Restart,
    /// It works on the guest's command in hand.
    Command,
    /// The guest wants nothing: it settles, copies or leaves.
    Idle,
    Nothing,
}

/// What a turn goes by (own).
#[derive(Clone, Copy, Debug, PartialEq, Eq)]
pub struct TurnState {
    /// An own command stands that is no dummy read.
    pub own: bool,
    /// A dummy read hasn't ended, cancelled or not.
    pub dummy: bool,
    /// Opening has ended.
    pub opened: bool,
    /// The guest has the drive. Then the three below aren't looked at.
    pub guest_side: bool,
    /// The view's phase.
    pub phase: Phase,
    /// SRST is 1 in the view.
    pub reset_held: bool,
    /// An interrupt pends in the view.
    pub pending: bool,
}

/// The turn of this state, by the rule of docs/monitor.md: the first row that holds (own).
pub fn choose(state: &TurnState) -> Turn
    ensures turn { result ≡ turn_of state.now }
{
    if state.own {
        Turn::PollOwn
    } else if state.dummy {
        Turn::Nothing
    } else if !state.opened {
        Turn::Opening
    } else if state.guest_side {
        Turn::Take
    } else {
        by_phase(state.phase, state.reset_held, state.pending)
    }
}

// The turn on the monitor's side, once opening has ended and while no command of the monitor's stands.
fn by_phase(phase: Phase, reset_held: bool, pending: bool) -> Turn
    ensures turn { result ≡ turn_by_phase phase reset_held pending }
{
    match phase {
        Phase::Reset if reset_held => Turn::Nothing,
        Phase::Reset => Turn::Restart,
        Phase::Busy(..) => Turn::Command,
        Phase::Ready(..) => Turn::Nothing,
        Phase::Idle if pending => Turn::Nothing,
        Phase::Idle => Turn::Idle,
    }
}
