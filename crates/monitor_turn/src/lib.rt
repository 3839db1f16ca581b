//! A turn of the monitor.
//!
//! Start with `turned`. `own` has the end of an own command, `commands` the guest's command in hand, and `redirected`
//! a read of it that the monitor serves. `specs/Turned.antt` says what a turn leaves, and `specs/Opening.antt` what it
//! makes of what is left of opening. What a turn may tell, and what may become of the client, is in `streaming`: its
//! `specs/Told.antt` and `specs/Client.antt`. What the guest sees of it is in `monitor_state`: its `specs/GoesOn.antt`.

#![tactic(auto)]

mod commands;
mod own;
mod redirected;
mod turn;

pub use turn::turned;
