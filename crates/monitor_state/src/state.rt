//! Who has the drive, and what the monitor does with it.

ghost use Rattle.std.specs.Prelude.{◌≡◌};
ghost use Rattle.mon_pool.specs.Region.{AreOf, all_given};
ghost use Rattle.monitor_state.specs.Leases.{leases_for, leases_of_state};

use dummy_read::Dummy;
use mon_pool::{Lease, Pool};
use own_pio::Own;
use port_lease::{GuestSide, MonitorSide};

/// Who has the drive, and which command of the monitor's stands (own). It can't be let go: `end` spends it.
pub enum State {
    /// The guest has the drive.
    Guest(GuestSide),
    /// The monitor has the drive, and no command of its own stands.
    Monitor(MonitorSide),
    /// An own command stands, for a purpose.
    Running(MonitorSide, Own, Purpose),
    /// A dummy read is in flight; its interrupt is the one of the view's step that is planned.
    Raising(MonitorSide, Dummy, Plan),
    /// Between two states, inside a call.
    Moving,
}

/// What an own command is for.
pub enum Purpose {
    /// The next command of the opening.
    Opening,
    /// A piece of a redirected read: its first sector, how many, and the buffer that is filled.
    Piece(u64, u32, Lease),
}

/// The step that the view makes once the interrupt of a dummy read is there.
#[derive(Clone, Copy, Debug, PartialEq, Eq)]
pub enum Plan {
    /// A block of the held piece is offered.
    Serve,
    /// A read ends, all of whose sectors the bus master moved.
    End,
    /// The command fails, since the monitor's work for it failed.
    Fail,
    /// The command is refused: it names a sector that the monitor reserves.
    Reserved,
}

impl State {
    /// Spends the state: its lease goes back to the pool.
    pub fn end(self, pool: &mut Pool)
        requires { AreOf (leases_of_state self) pool.old }
        ensures given { pool.new ≡ all_given (leases_of_state self) pool.old }
    {
        match self {
            State::Guest(side) => side.end(),
            State::Monitor(side) => side.end(),
            State::Running(side, _, purpose) => {
                side.end();
                purpose.end(pool);
            }
            State::Raising(side, _, _) => side.end(),
            State::Moving => {}
        }
    }
}

impl Purpose {
    /// Spends the purpose: its lease goes back to the pool.
    pub fn end(self, pool: &mut Pool)
        requires { AreOf (leases_for self) pool.old }
        ensures given { pool.new ≡ all_given (leases_for self) pool.old }
    {
        match self {
            Purpose::Opening => {}
            Purpose::Piece(_, _, lease) => pool.give(lease),
        }
    }
}
