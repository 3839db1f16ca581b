//! Turns, by hand from the table of docs/monitor.md.

use crate::Turn::{Command, Idle, Nothing, Opening, PollOwn, Restart, Take};
use crate::{Turn, TurnState, choose};
use ata_taskfile::{Form, Kind, Phase, Refused, Request, Taken};
use std::test::Fail;

const READ: Taken = Taken::Good(Request {
    kind: Kind::Read,
    form: Form::PioIn,
    extended: false,
    first: 3,
    count: 2,
});

const REFUSED: Taken = Taken::Bad(Refused::Abort);

// The guest's view rests, and the monitor has the drive and no command of its own.
const AT_REST: TurnState = TurnState {
    own: false,
    dummy: false,
    opened: true,
    guest_side: false,
    phase: Phase::Idle,
    reset_held: false,
    pending: false,
};

// Whether the guest has the drive, whether SRST is held, and whether an interrupt pends.
type Marks = [bool; 3];

// A state with another phase and other marks.
fn with_view(state: TurnState, phase: Phase, marks: Marks) -> TurnState {
    let [guest_side, reset_held, pending] = marks;
    TurnState {
        guest_side,
        phase,
        reset_held,
        pending,
        ..state
    }
}

const PHASES: [Phase; 5] = [
    Phase::Reset,
    Phase::Idle,
    Phase::Busy(READ, 1),
    Phase::Busy(REFUSED, 0),
    Phase::Ready(READ, 0, 256),
];

const MARKS: [Marks; 8] = [
    [false, false, false],
    [false, false, true],
    [false, true, false],
    [false, true, true],
    [true, false, false],
    [true, false, true],
    [true, true, false],
    [true, true, true],
];

// Of this state, in each phase and with all marks, the first whose turn isn't the wanted one, with its turn.
fn first_other(state: TurnState, wanted: Turn) -> Option<(TurnState, Turn)> {
    for phase in PHASES {
        for marks in MARKS {
            let state = with_view(state, phase, marks);
            let found = choose(&state);
            if found != wanted {
                return Some((state, found));
            }
        }
    }
    None
}

#[test]
fn rows_that_look_at_no_view(rt: HostRuntime) -> Result<(), Fail> {
    // Own command, dummy read, opening ended; and the turn in every phase of the view, on either side, with SRST held
    // or not, whether an interrupt pends or not.
    let cases = [
        (true, false, true, PollOwn),
        (true, false, false, PollOwn),
        (true, true, true, PollOwn),
        (true, true, false, PollOwn),
        (false, true, true, Nothing),
        (false, true, false, Nothing),
        (false, false, false, Opening),
    ];
    for (own, dummy, opened, turn) in cases {
        let state = TurnState {
            own,
            dummy,
            opened,
            ..AT_REST
        };
        assert_eq!(rt; first_other(state, turn), None, "{state:?}");
    }
    Ok(())
}

#[test]
fn rows_by_the_view(rt: HostRuntime) -> Result<(), Fail> {
    // Once opening has ended and while no command of the monitor's stands. The phase; then, with SRST held and an
    // interrupt pending, the turns for neither, the interrupt alone, SRST alone, and both.
    let cases = [
        (Phase::Reset, [Restart, Restart, Nothing, Nothing]),
        (Phase::Busy(READ, 0), [Command, Command, Command, Command]),
        (Phase::Busy(READ, 1), [Command, Command, Command, Command]),
        (
            Phase::Busy(REFUSED, 0),
            [Command, Command, Command, Command],
        ),
        (
            Phase::Ready(READ, 0, 256),
            [Nothing, Nothing, Nothing, Nothing],
        ),
        (
            Phase::Ready(READ, 1, 1),
            [Nothing, Nothing, Nothing, Nothing],
        ),
        (Phase::Idle, [Idle, Nothing, Idle, Nothing]),
    ];
    for (phase, turns) in cases {
        let found = [
            choose(&with_view(AT_REST, phase, [false, false, false])),
            choose(&with_view(AT_REST, phase, [false, false, true])),
            choose(&with_view(AT_REST, phase, [false, true, false])),
            choose(&with_view(AT_REST, phase, [false, true, true])),
        ];
        assert_eq!(rt; found, turns, "{phase:?}");
        for marks in [
            [true, false, false],
            [true, false, true],
            [true, true, false],
        ] {
            assert_eq!(rt;
                choose(&with_view(AT_REST, phase, marks)),
                Take,
                "{phase:?} {marks:?}"
            );
        }
    }
    Ok(())
}

#[test]
fn a_turn_goes_on_after_a_take(rt: HostRuntime) -> Result<(), Fail> {
    // The guest has the drive, which is idle: it is taken, and then the monitor has it.
    let given = TurnState {
        guest_side: true,
        ..AT_REST
    };
    assert_eq!(rt; choose(&given), Take);
    let taken = TurnState {
        guest_side: false,
        ..given
    };
    assert_eq!(rt; choose(&taken), Idle);
    Ok(())
}
