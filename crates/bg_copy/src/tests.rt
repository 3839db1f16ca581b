//! What happens to a copier, and after each whether copying is allowed and where the cursor is, by hand from the rules.

use crate::{Copier, MOST_GAP, MOST_LIMIT, MOST_WINDOW};
use std::test::Fail;

#[derive(Clone, Copy, Debug)]
enum Act {
    Tick,
    Command,
    Wrote(u32),
    PowerOn,
    Ready,
}

// Does one of these so many times, and says whether copying is allowed then and where the cursor is.
fn after(copier: &mut Copier, times: u32, act: Act) -> (bool, u32) {
    for _ in 0..times {
        match act {
            Act::Tick => copier.tick(),
            Act::Command => copier.command(),
            Act::Wrote(b) => {
                if b < u32::MAX {
                    copier.wrote(b);
                }
            }
            Act::PowerOn => copier.power_on(),
            Act::Ready => copier.ready(),
        }
    }
    (copier.allowed(), copier.cursor())
}

#[test]
fn gap_after_the_ready_and_after_each_copy(rt: HostRuntime) -> Result<(), Fail> {
    use Act::{PowerOn, Ready, Tick, Wrote};
    // A gap of three ticks.
    let mut copier = Copier::new(rt.alloc(), 3, 1, 0)?;
    let cases = [
        (0, Tick, (false, 0)),
        (5, Tick, (false, 0)),
        (1, Ready, (false, 0)),
        (2, Tick, (false, 0)),
        (1, Tick, (true, 0)),
        (9, Tick, (true, 0)),
        (1, Wrote(4), (false, 5)),
        (2, Tick, (false, 5)),
        (1, Wrote(0), (false, 1)),
        (2, Tick, (false, 1)),
        (1, Tick, (true, 1)),
        (1, Wrote(u32::MAX - 1), (false, u32::MAX)),
        (3, Tick, (true, u32::MAX)),
        (1, PowerOn, (false, 0)),
        (3, Tick, (false, 0)),
        (1, Wrote(6), (false, 7)),
        (3, Tick, (false, 7)),
        (1, Ready, (false, 7)),
        (3, Tick, (true, 7)),
    ];
    for (i, (times, act, wanted)) in cases.into_iter().enumerate() {
        assert_eq!(rt; after(&mut copier, times, act), wanted, "{i}: {act:?}");
    }
    Ok(())
}

#[test]
fn commands_of_the_window(rt: HostRuntime) -> Result<(), Fail> {
    use Act::{Command, PowerOn, Ready, Tick, Wrote};
    // No gap, and two commands in three ticks.
    let mut copier = Copier::new(rt.alloc(), 0, 3, 2)?;
    let cases = [
        (1, Ready, (true, 0)),
        (2, Command, (true, 0)),
        (1, Command, (false, 0)),
        (2, Tick, (false, 0)),
        (1, Tick, (true, 0)),
        // One command in each of three ticks; each tick then loses one.
        (1, Command, (true, 0)),
        (1, Tick, (true, 0)),
        (1, Command, (true, 0)),
        (1, Tick, (true, 0)),
        (1, Command, (false, 0)),
        (1, Wrote(0), (false, 1)),
        (1, Tick, (true, 1)),
        (1, Command, (false, 1)),
        (1, Tick, (true, 1)),
        // The two of the tick before, which stay for one tick more, and one of now.
        (3, Tick, (true, 1)),
        (2, Command, (true, 1)),
        (1, Tick, (true, 1)),
        (1, Command, (false, 1)),
        (1, Tick, (false, 1)),
        (1, Tick, (true, 1)),
        // Those of before the ready count, and those of before a power-on don't.
        (3, Command, (false, 1)),
        (1, PowerOn, (false, 0)),
        (1, Ready, (true, 0)),
        (1, PowerOn, (false, 0)),
        (3, Command, (false, 0)),
        (1, Ready, (false, 0)),
        (2, Tick, (false, 0)),
        (1, Tick, (true, 0)),
    ];
    for (i, (times, act, wanted)) in cases.into_iter().enumerate() {
        assert_eq!(rt; after(&mut copier, times, act), wanted, "{i}: {act:?}");
    }
    Ok(())
}

#[test]
fn a_window_of_the_current_tick_alone(rt: HostRuntime) -> Result<(), Fail> {
    use Act::{Command, Ready, Tick};
    // However many commands a tick had, the next one has none of them.
    let mut copier = Copier::new(rt.alloc(), 0, 1, 0)?;
    let cases = [
        (1, Ready, (true, 0)),
        (1, Command, (false, 0)),
        (1, Tick, (true, 0)),
        (100_000, Command, (false, 0)),
        (1, Tick, (true, 0)),
    ];
    for (i, (times, act, wanted)) in cases.into_iter().enumerate() {
        assert_eq!(rt; after(&mut copier, times, act), wanted, "{i}: {act:?}");
    }
    Ok(())
}

#[test]
fn the_widest_ranges(rt: HostRuntime) -> Result<(), Fail> {
    use Act::{Command, Ready, Tick};
    let mut copier = Copier::new(rt.alloc(), MOST_GAP, MOST_WINDOW, MOST_LIMIT)?;
    let cases = [
        (1, Ready, (false, 0)),
        (65_534, Tick, (false, 0)),
        (1, Tick, (true, 0)),
        (65_535, Command, (true, 0)),
        (1_023, Tick, (true, 0)),
        (1, Command, (false, 0)),
        (1, Tick, (true, 0)),
        (65_534, Command, (true, 0)),
        (1, Command, (false, 0)),
        (1_022, Tick, (false, 0)),
        (1, Tick, (true, 0)),
        (1, Command, (false, 0)),
        (1, Tick, (true, 0)),
    ];
    for (i, (times, act, wanted)) in cases.into_iter().enumerate() {
        assert_eq!(rt; after(&mut copier, times, act), wanted, "{i}: {act:?}");
    }
    Ok(())
}
