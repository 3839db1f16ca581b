//! The monitor's own memory: one block, and leases of its buffers.
//!
//! Start with `Pool`. `specs/Region.antt` says what a pool holds and what each call does to it, `specs/Lending.antt`
//! how a lease's bytes are lent.
//!
//! The tests are in `src/tests.rt`.

#![tactic(auto)]

mod laws;
mod lease;
mod pool;
#[cfg(test)]
mod tests;

pub use laws::{
    a_given_lease_is_spent, a_lease_is_added, a_new_lease_is_apart, a_pool_is_whole,
    bytes_are_the_holders, leases_are_counted, leases_have_no_order,
};
pub use lease::Lease;
pub use pool::Pool;
pub use std::alloc::AllocError as NoMemory;
