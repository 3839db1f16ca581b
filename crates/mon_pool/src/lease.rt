//! The right to one buffer of a pool.

use std::marker::Model;

/// The right to one buffer of a pool. It can be neither copied nor let go: `Pool::give` alone takes it.
///
/// A contract sees the buffer's number and where the pool's block lies (`Held` of `specs/Region.antt`). No clause tells
/// where a new block lies, so a lease is known to be of the pool that gave it, and of no other.
pub struct Lease {
    pub(crate) pool: *const u8,
    pub(crate) buffer: usize,
}

impl Model for Lease {
    ghost use Rattle.mon_pool.specs.Region.{Held};

    ghost Value = { Held };

    ghost view = { λ l. record { pool = l.pool; buffer = l.buffer } };
}
