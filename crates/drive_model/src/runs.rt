//! Runs of accesses, steps, destages and cuts, by hand from the tables of commands and steps in docs/drive.md.
//!
//! A run is a list of acts, each with what is to come of it: `act` has them, and `bench` the drive that they are done
//! to. The other modules are tables of runs, by what they are about; start with `pio`.

mod act;
pub(crate) mod bench;
mod cache;
mod dma;
mod other_commands;
mod pio;
mod resets;
mod store;

use crate::Drive;
use act::Act;
use ata_taskfile::{Step, Stepped};
use bench::Bench;
use drive_store::StoreFault;
use std::alloc::{AllocError, Global};
use std::process::Abort;
use std::test::Fail;
use store::FourSectors;

/// What a run shows, and its acts.
type Run = (&'static str, &'static [Act]);

/// What a run shows, a command in 28 and in 48 bits, and the acts that come after either.
type Pair = (&'static str, [Act; 2], &'static [Act]);

/// The number of no call of a store in a run.
const NO_CALL: u32 = u32::MAX;

const GOOD: Act = Act::Step(Step::Good, Ok(Stepped::Changed));

const BAD: Act = Act::Step(Step::Bad, Ok(Stepped::Changed));

const NO_GOOD: Act = Act::Step(Step::Good, Ok(Stepped::Nothing));

const NO_BAD: Act = Act::Step(Step::Bad, Ok(Stepped::Nothing));

/// A step that fails for want of the store.
const FAULT: Act = Act::Step(Step::Good, Err(StoreFault));

/// Each run goes as it says, on a drive of its own.
fn check(rt: &impl Abort, alloc: Global, runs: &[Run]) -> Result<(), Fail> {
    for &(name, acts) in runs {
        assert_eq!(rt; wrong_in(alloc, NO_CALL, &[], acts)?, None, "{name}");
    }
    Ok(())
}

/// Each run goes as it says after either of its commands, on a drive of its own.
fn check_pairs(rt: &impl Abort, alloc: Global, pairs: &[Pair]) -> Result<(), Fail> {
    for &(name, [narrow, wide], acts) in pairs {
        assert_eq!(rt;
            wrong_in(alloc, NO_CALL, &[narrow], acts)?,
            None,
            "{name}, in 28 bits"
        );
        assert_eq!(rt;
            wrong_in(alloc, NO_CALL, &[wide], acts)?,
            None,
            "{name}, in 48 bits"
        );
    }
    Ok(())
}

/// The first act that doesn't go as it says, by its number from 0 on, on a drive of its own to which these were done
/// before; the number behind the last where one of these doesn't. The call of the store with the number `failing`
/// fails.
fn wrong_in(
    alloc: Global,
    failing: u32,
    before: &[Act],
    acts: &[Act],
) -> Result<Option<usize>, AllocError> {
    let mut bench = failing_sectors(alloc, failing)?;
    if first_wrong(&mut bench, before).is_some() {
        return Ok(Some(acts.len()));
    }
    Ok(first_wrong(&mut bench, acts))
}

/// The first act that doesn't go as it says, by its number from 0 on.
fn first_wrong(bench: &mut Bench<FourSectors>, acts: &[Act]) -> Option<usize> {
    for (i, act) in acts.iter().enumerate() {
        if !act.goes(bench) {
            return Some(i);
        }
    }
    None
}

/// Sectors of 10h, 11h, 12h and 13h in each byte. No call of the store fails.
fn four_sectors(alloc: Global) -> Result<Bench<FourSectors>, AllocError> {
    failing_sectors(alloc, NO_CALL)
}

/// Such sectors, where the call of the store with this number fails.
fn failing_sectors(alloc: Global, failing: u32) -> Result<Bench<FourSectors>, AllocError> {
    let store = FourSectors::new(alloc, failing)?;
    Bench::new(alloc, Drive::new(alloc, store)?)
}
