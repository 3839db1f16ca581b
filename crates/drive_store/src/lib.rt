//! The store of a drive: its durable sectors, wherever they lie.
//!
//! Start with `Store`, the trait that a drive reaches its sectors by. `MemoryStore` keeps them in memory, and
//! `FailingStore` is such a store of which one call fails by its number.
//!
//! `specs/Store.antt` says what a store holds and what a call owes, `specs/MemoryStore.antt` what a store in memory
//! tells, and `specs/FailingStore.antt` when a call of a `FailingStore` fails.
//!
//! The tests are in `src/tests.rt`.

#![tactic(auto)]

mod failing_store;
mod memory_store;
mod store;
#[cfg(test)]
mod tests;

pub use failing_store::FailingStore;
pub use memory_store::MemoryStore;
pub use std::alloc::AllocError as NoMemory;
pub use store::Store;

/// A call to a store failed. Its count of faults rose.
#[derive(Clone, Copy, Debug, PartialEq, Eq)]
pub struct StoreFault;
