//! Bytes that wait to be written to a role, so that one call to the host writes many.
//!
//! Start with `write_waiting` and `make_room`. `specs/Waiting.antt` says what the written and the waiting bytes are
//! together, and `specs/Kept.antt` what a step leaves as it was.

#![tactic(auto)]

ghost use Rattle.std.specs.Prelude.{◌≡◌, ◌≤◌, ◌+◌, [], length, OnOk};
ghost use Rattle.bm_host.specs.Outside.{Counted, SameElsewhere, Writes};
ghost use Rattle.block_writes.specs.Kept.{KeepsLooked};
ghost use Rattle.block_writes.specs.Waiting.{KeepsWaiting};

use arrayvec::ArrayVec;
use bm_host::{Failed, Host, Role};

/// Writes what waits; nothing waits then. It fails only where the role's count of faults rose, and a prefix of what
/// waited may then be written.
pub fn write_waiting<H: Host, const N: usize>(
    host: &mut H,
    role: Role,
    waiting: &mut ArrayVec<u8, N>,
) -> Result<(), Failed>
    ensures cause { Counted Writes role (H.outside host.old) (H.outside host.new) result }
    ensures looked { KeepsLooked (H.outside host.old) (H.outside host.new) }
    ensures elsewhere { SameElsewhere role (H.outside host.old) (H.outside host.new) }
    ensures waits { OnOk result (KeepsWaiting role waiting.old.items waiting.new.items
        (H.outside host.old) (H.outside host.new)) }
    ensures empty { OnOk result (waiting.new.items ≡ []) }
{
    if waiting.is_empty() {
        return Ok(());
    }
    host.write_next(role, waiting.as_slice())?;
    waiting.clear();
    Ok(())
}

/// Writes what waits, where so many bytes more don't fit beside it; it fails as `write_waiting` does.
pub fn make_room<H: Host, const N: usize>(
    host: &mut H,
    role: Role,
    waiting: &mut ArrayVec<u8, N>,
    more: usize,
) -> Result<(), Failed>
    requires { more ≤ N }
    ensures cause { Counted Writes role (H.outside host.old) (H.outside host.new) result }
    ensures looked { KeepsLooked (H.outside host.old) (H.outside host.new) }
    ensures elsewhere { SameElsewhere role (H.outside host.old) (H.outside host.new) }
    ensures waits { OnOk result (KeepsWaiting role waiting.old.items waiting.new.items
        (H.outside host.old) (H.outside host.new)) }
    ensures room { OnOk result (length waiting.new.items + more ≤ N) }
{
    if more <= waiting.remaining_capacity() {
        return Ok(());
    }
    write_waiting(host, role, waiting)
}
