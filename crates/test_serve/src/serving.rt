//! `serve` over memory, turn by turn: devices that fail, clocks that don't run straight, and a server that goes on from the
//! record of another. The first three packets go to `help`, who registers two addresses; then it is called at 62,000 ms, and
//! nobody answers.

use crate::datagrams::Datagram;
use crate::logs::{Closed, LastPrinted};
use crate::trial::{Course, Fails, LONGEST, Trial, over_memory};
use sip_loop::ServeError;
use sip_transport::SendOutcome::{Failed, Went};
use sip_transport::{MemoryLink, SendOutcome};
use std::alloc::Global;

/// The first number that no datagram has: 2^62.
const TOO_LARGE: u64 = 4_611_686_018_427_387_904;

/// What is asked of a server in turn, and what is wanted of it.
#[derive(Clone, Copy)]
pub(crate) enum Act {
    /// So many turns are served.
    Serves(u32),
    /// One is, and what its one record says of the moment and of the datagram's number is this.
    Prints(u64, u64),
    /// So many turns are refused so, by a refusal of this number.
    Refuses(u32, ServeError, u8),
    /// A turn whose line of a decision can't be printed is.
    RefusesUnprinted(ServeError, u8),
    /// Nothing can be written to its record any more.
    FillsRecord,
    /// Behind so many datagrams the link was given these, and nothing else.
    Gave(usize, &'static [(Datagram, SendOutcome)]),
    /// What was recorded begins so.
    RecordBegins(&'static [u8]),
    /// What was recorded ends so.
    RecordEnds(&'static [u8]),
}

/// What is tried of a server over memory.
#[derive(Clone, Copy)]
pub(crate) struct Scene {
    course: &'static Course,
    fails: Fails,
    acts: &'static [Act],
}

/// The call and what comes before it.
const HEARD: &[Datagram] = &[
    Datagram::Asks,
    Datagram::Binds,
    Datagram::BindsAgain,
    Datagram::Calls,
];

/// These, one moment at which nothing is due yet, and that of the first copies.
const CALL: &Course = &Course {
    first: 1,
    heard: HEARD,
    readings: &[1_000, 2_000, 3_000, 62_000, 62_499, 62_500],
};

/// The copies of both INVITEs.
const COPIES: &[(Datagram, SendOutcome)] = &[(Datagram::Invite1, Went), (Datagram::Invite2, Went)];

/// The call rings.
const RINGS: &[Act] = &[
    Act::Serves(4),
    Act::Gave(
        3,
        &[
            (Datagram::Trying, Went),
            (Datagram::Invite1, Went),
            (Datagram::Invite2, Went),
        ],
    ),
];

/// The sends of both INVITEs fail: the answer goes out behind them, and both faults are recorded.
pub(crate) const BOTH_SENDS_FAIL: &Scene = &Scene {
    course: CALL,
    fails: Fails::Sends(&[5, 6]),
    acts: &[
        Act::Serves(4),
        Act::Gave(
            3,
            &[
                (Datagram::Trying, Went),
                (Datagram::Invite1, Failed),
                (Datagram::Invite2, Failed),
                (Datagram::Failed, Went),
            ],
        ),
        Act::RecordEnds(b"\nfault 62000 4/1\nfault 62000 4/2\n"),
    ],
};

/// The send of the 100 fails: both INVITEs go out, and go again 500 ms later.
pub(crate) const TRYING_SEND_FAILS: &Scene = &Scene {
    course: CALL,
    fails: Fails::Sends(&[4]),
    acts: &[
        Act::Serves(5),
        Act::Gave(
            3,
            &[
                (Datagram::Trying, Failed),
                (Datagram::Invite1, Went),
                (Datagram::Invite2, Went),
            ],
        ),
        Act::Serves(1),
        Act::Gave(6, COPIES),
    ],
};

/// The send of the answer fails as well: it goes again 500 ms later, and not before.
pub(crate) const FINAL_SEND_FAILS: &Scene = &Scene {
    course: CALL,
    fails: Fails::Sends(&[5, 6, 7]),
    acts: &[
        Act::Serves(5),
        Act::Gave(
            3,
            &[
                (Datagram::Trying, Went),
                (Datagram::Invite1, Failed),
                (Datagram::Invite2, Failed),
                (Datagram::Failed, Failed),
            ],
        ),
        Act::Serves(1),
        Act::Gave(7, &[(Datagram::Failed, Went)]),
    ],
};

/// The copies of both INVITEs are due at one moment, and the send of the first fails: both happened before, and the moment was
/// recorded before either was sent.
pub(crate) const COPY_FAILS_BESIDE_ANOTHER: &Scene = &Scene {
    course: CALL,
    fails: Fails::Sends(&[7]),
    acts: &[
        Act::Serves(6),
        Act::Gave(6, &[(Datagram::Invite1, Failed), (Datagram::Invite2, Went)]),
        Act::RecordEnds(b"\ntime 62499\ntime 62500\nfault 62500 4/1\ntime 62500\n"),
    ],
};

/// The line of a decision can't be printed: its event was recorded, and nothing was sent.
pub(crate) const CLOSED_LOG: &Scene = &Scene {
    course: CALL,
    fails: Fails::Never,
    acts: &[
        Act::RefusesUnprinted(ServeError::Audit, 8),
        Act::Gave(0, &[]),
        Act::RecordBegins(b"text 1000 "),
    ],
};

/// A datagram can't be recorded: its event was taken, and nothing was sent.
pub(crate) const FULL_RECORD: &Scene = &Scene {
    course: CALL,
    fails: Fails::Never,
    acts: &[
        Act::FillsRecord,
        Act::Refuses(1, ServeError::Journal, 7),
        Act::Gave(0, &[]),
    ],
};

/// The third receive fails: what the first two turns sent stands.
pub(crate) const RECEIVE_FAILS: &Scene = &Scene {
    course: CALL,
    fails: Fails::Receives(&[3]),
    acts: &[
        Act::Refuses(4, ServeError::Link, 5),
        Act::Gave(0, &[(Datagram::Challenge, Went), (Datagram::Bound, Went)]),
    ],
};

/// A datagram that has no number any more is heard: the first one has 2^62.
pub(crate) const NUMBERS_WORN: &Scene = &Scene {
    course: &Course {
        first: TOO_LARGE,
        heard: &[Datagram::Asks],
        readings: &[1_000],
    },
    fails: Fails::Never,
    acts: &[Act::Refuses(1, ServeError::Step, 6), Act::Gave(0, &[])],
};

/// A reading that goes back counts as the greatest so far: a datagram is taken then, and nothing goes again but at its moment.
pub(crate) const CLOCK_GOES_BACK: &Scene = &Scene {
    course: &Course {
        first: 1,
        heard: &[
            Datagram::Asks,
            Datagram::Binds,
            Datagram::BindsAgain,
            Datagram::Calls,
            Datagram::Asks,
        ],
        readings: &[1_000, 2_000, 3_000, 62_000, 1_000, 62_499, 61_000, 62_500],
    },
    fails: Fails::Never,
    acts: &[
        Act::Serves(4),
        Act::Prints(62_000, 5),
        Act::Serves(2),
        Act::Gave(
            3,
            &[
                (Datagram::Trying, Went),
                (Datagram::Invite1, Went),
                (Datagram::Invite2, Went),
                (Datagram::Challenge5, Went),
            ],
        ),
        Act::Serves(1),
        Act::Gave(7, COPIES),
    ],
};

/// All that is due of the call by 126,000 ms: both INVITEs seven times, at the last 31,500 ms behind the call; then,
/// 32,000 ms behind the call, the answer, and ten copies of it within 32,000 ms more.
const WHOLE_CALL: &[(Datagram, SendOutcome)] = &[
    (Datagram::Trying, Went),
    (Datagram::Invite1, Went),
    (Datagram::Invite2, Went),
    (Datagram::Invite1, Went),
    (Datagram::Invite2, Went),
    (Datagram::Invite1, Went),
    (Datagram::Invite2, Went),
    (Datagram::Invite1, Went),
    (Datagram::Invite2, Went),
    (Datagram::Invite1, Went),
    (Datagram::Invite2, Went),
    (Datagram::Invite1, Went),
    (Datagram::Invite2, Went),
    (Datagram::Invite1, Went),
    (Datagram::Invite2, Went),
    (Datagram::TimedOut, Went),
    (Datagram::TimedOut, Went),
    (Datagram::TimedOut, Went),
    (Datagram::TimedOut, Went),
    (Datagram::TimedOut, Went),
    (Datagram::TimedOut, Went),
    (Datagram::TimedOut, Went),
    (Datagram::TimedOut, Went),
    (Datagram::TimedOut, Went),
    (Datagram::TimedOut, Went),
    (Datagram::TimedOut, Went),
];

/// A reading that jumps ahead: all that was due happens in one turn, each at its own moment, since what is due behind it counts
/// from there.
pub(crate) const CLOCK_JUMPS: &Scene = &Scene {
    course: &Course {
        first: 1,
        heard: HEARD,
        readings: &[1_000, 2_000, 3_000, 62_000, 126_000],
    },
    fails: Fails::Never,
    acts: &[Act::Serves(5), Act::Gave(3, WHOLE_CALL)],
};

/// What goes on from the record of the call sends nothing at a moment at which nothing is due yet, and then the first copies.
const HEIR: &[Act] = &[
    Act::Serves(1),
    Act::Gave(0, &[]),
    Act::Serves(1),
    Act::Gave(0, COPIES),
];

/// When it begins.
pub(crate) const LATER: &Course = &Course {
    first: 1,
    heard: &[],
    readings: &[62_499, 62_500],
};

/// Whether serving was refused so, by a refusal of this number.
fn is_refused(answer: Result<(), ServeError>, refusal: ServeError, number: u8) -> bool {
    match answer {
        Ok(()) => false,
        Err(e) => e == refusal && e.number() == number,
    }
}

/// Whether a turn is served, and what its one record says of the moment and of the datagram's number is this.
fn prints(trial: &mut Trial<MemoryLink>, at: u64, number: u64) -> bool {
    let mut log = LastPrinted { one: None };
    trial.serve_on(&mut log, 1).is_ok() && log.one == Some((at, number))
}

impl Act {
    fn holds(&self, trial: &mut Trial<MemoryLink>) -> bool {
        match *self {
            Act::Serves(turns) => trial.serve(turns).is_ok(),
            Act::Prints(at, number) => prints(trial, at, number),
            Act::Refuses(turns, refusal, number) => is_refused(trial.serve(turns), refusal, number),
            Act::RefusesUnprinted(refusal, number) => {
                is_refused(trial.serve_on(&mut Closed, 1), refusal, number)
            }
            Act::FillsRecord => {
                trial.fill_record();
                true
            }
            Act::Gave(behind, wanted) => trial.gave(behind, wanted),
            Act::RecordBegins(front) => trial.recorded().starts_with(front),
            Act::RecordEnds(end) => trial.recorded().ends_with(end),
        }
    }
}

fn all_hold(trial: &mut Trial<MemoryLink>, acts: &[Act]) -> bool {
    for act in acts {
        if !act.holds(trial) {
            return false;
        }
    }
    true
}

/// Whether a server comes to what is wanted of it.
pub(crate) fn holds(alloc: Global, scene: &Scene) -> bool {
    match over_memory(alloc, scene.course, scene.fails) {
        Ok(mut trial) => all_hold(&mut trial, scene.acts),
        Err(_) => false,
    }
}

/// Whether a server that goes on from this record, of so many lines, does so.
fn goes_on(alloc: Global, record: &[u8], lines: u64, acts: &[Act]) -> bool {
    match over_memory(alloc, LATER, Fails::Never) {
        Ok(mut trial) => {
            trial.resume(record, LONGEST) == Ok(lines)
                && trial.recorded() == record
                && all_hold(&mut trial, acts)
        }
        Err(_) => false,
    }
}

/// A call that rings goes on where its server ended: the record of the one is taken by another, which sends the copies. It has a
/// line for each of the four datagrams, and one for each Timer J of the three REGISTERs before the call (RFC 3261 17.2.2).
pub(crate) fn call_goes_on(alloc: Global) -> bool {
    match over_memory(alloc, CALL, Fails::Never) {
        Ok(mut trial) => {
            all_hold(&mut trial, RINGS) && goes_on(alloc, trial.recorded(), 7, HEIR)
        }
        Err(_) => false,
    }
}
