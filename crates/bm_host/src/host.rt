//! The trait `Host`; `specs/Host.antt` says what each call does.

ghost use Rattle.std.specs.Prelude.{◌≤◌, ◌+◌, length};
ghost use Rattle.bm_host.specs.Outside.{Outside, IfTold};
ghost use Rattle.bm_host.specs.Host.{Begins, ReadsAt, ReadsNext, TellsLength, WritesAt, WritesNext};

use crate::{Failed, Role};

/// The files of a run (own).
///
/// A call names a role and changes no other. Where it answers `Failed`, its own count of faults of that role has
/// risen and no other count moved; else none moved. What a role holds is known where the host tells it.
pub trait Host {
    /// What the roles hold, where that is told, and the counts.
    ghost outside: { Self → Outside };

    /// Attaches a name to a role. Report and Out are empty afterwards; any other role holds what it held. After
    /// `Failed` nothing is said of what the role holds.
    fn begin(&mut self, role: Role, name: &str) -> Result<(), Failed>
        ensures { Begins role (outside self.old) (outside self.new) result };

    /// The number of bytes that a role holds.
    fn length(&mut self, role: Role) -> Result<u64, Failed>
        ensures { TellsLength role (outside self.old) (outside self.new) result };

    /// Fills all of `into` with the role's bytes from `place` on.
    fn read_at(&mut self, role: Role, place: u64, into: &mut [u8]) -> Result<(), Failed>
        requires { IfTold ((outside self.old).told role)
            (λ bytes. place + length into.old ≤ length bytes) }
        ensures { ReadsAt role place (length into.old)
            (outside self.old) (outside self.new) into.new result };

    /// Fills the front of `into` with the role's next bytes, and says how many these are: at least one, unless the
    /// role's end is reached or `into` is empty. After `Failed` the role is as before.
    fn read_next(&mut self, role: Role, into: &mut [u8]) -> Result<usize, Failed>
        ensures { ReadsNext role (length into.old)
            (outside self.old) (outside self.new) into.new result };

    /// Replaces the role's bytes from `place` on, and lengthens it where needed; zeros come between its old end and
    /// `place`. After `Failed` nothing is said of what the role holds.
    fn write_at(&mut self, role: Role, place: u64, from: &[u8]) -> Result<(), Failed>
        ensures { WritesAt role place from.now (outside self.old) (outside self.new) result };

    /// Appends all of `from` to the role. After `Failed` a prefix of it was appended.
    fn write_next(&mut self, role: Role, from: &[u8]) -> Result<(), Failed>
        ensures { WritesNext role from.now (outside self.old) (outside self.new) result };
}
