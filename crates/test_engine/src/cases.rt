//! The cases by their names, in the order in which they are told.

use crate::alike::{self, Pair};
use crate::calls::{self, Call, TOO_LARGE};
use crate::replays::{self, FailingRow};
use crate::{configurations, runs};
use std::alloc::Global;
use std::io;
use test_forms::tell;

/// What is tried.
#[derive(Clone, Copy)]
enum Tried {
    /// Calls of an engine whose first datagram has this number.
    Calls(u64, &'static [Call]),
    /// Pairs of engines, and whether they go on alike.
    Alike(&'static [Pair]),
    PrintedError,
    RefusedInsideDeliver,
    /// Replays on devices that fail.
    Replays(&'static [FailingRow]),
    RefusedInsideReplay,
    RefusedFirstLines,
    ManyRegisters,
    RunsAreListed,
    ConfigurationsWritten,
    ConfigurationsRead,
    ConfigurationsRefused,
}

impl Tried {
    fn holds(self, alloc: Global) -> bool {
        match self {
            Tried::Calls(first, rows) => calls::hold(alloc, first, rows),
            Tried::Alike(rows) => alike::hold(alloc, rows),
            Tried::PrintedError => calls::printed_error(alloc),
            Tried::RefusedInsideDeliver => calls::refused_inside_deliver(alloc),
            Tried::Replays(rows) => replays::are_ended(alloc, rows),
            Tried::RefusedInsideReplay => replays::refused_inside_replay(alloc),
            Tried::RefusedFirstLines => replays::refused_first_lines(alloc),
            Tried::ManyRegisters => replays::many_registers(alloc),
            Tried::RunsAreListed => runs::runs_are_listed(alloc),
            Tried::ConfigurationsWritten => {
                configurations::configurations_written(alloc) == Ok(true)
            }
            Tried::ConfigurationsRead => configurations::configurations_read(alloc),
            Tried::ConfigurationsRefused => configurations::configurations_refused(alloc),
        }
    }
}

fn tell_of<R: Print + AllocGlobal>(rt: &R, name: &str, tried: Tried) -> io::Result<()> {
    tell(rt, name, tried.holds(rt.alloc()))
}

/// What is tried, by its name, in the order in which it is told.
const CALLS: &[(&str, Tried)] = &[
    (
        "binding_of_a_register",
        Tried::Calls(1, calls::BINDING_OF_A_REGISTER),
    ),
    ("printed_error", Tried::PrintedError),
    (
        "change_keeps_what_stands",
        Tried::Calls(1, calls::CHANGE_KEEPS_WHAT_STANDS),
    ),
    (
        "another_realm_is_refused",
        Tried::Calls(1, calls::ANOTHER_REALM_IS_REFUSED),
    ),
    ("engines_go_on_alike", Tried::Alike(alike::ALIKE)),
];

const DEVICES: &[(&str, Tried)] = &[
    (
        "time_and_number_limits",
        Tried::Calls(TOO_LARGE - 1, calls::TIME_AND_NUMBER_LIMITS),
    ),
    ("failing_reads", Tried::Replays(replays::FAILING_READS)),
    ("failing_writes", Tried::Replays(replays::FAILING_WRITES)),
];

const REFUSALS: &[(&str, Tried)] = &[
    ("refused_inside_deliver", Tried::RefusedInsideDeliver),
    ("refused_inside_replay", Tried::RefusedInsideReplay),
    ("refused_first_lines", Tried::RefusedFirstLines),
    ("many_registers", Tried::ManyRegisters),
    ("runs_are_listed", Tried::RunsAreListed),
];

const CONFIGURATIONS: &[(&str, Tried)] = &[
    ("configurations_written", Tried::ConfigurationsWritten),
    ("configurations_read", Tried::ConfigurationsRead),
    ("configurations_refused", Tried::ConfigurationsRefused),
];

fn tell_each<R: Print + AllocGlobal>(rt: &R, cases: &[(&str, Tried)]) -> io::Result<()> {
    for (name, tried) in cases {
        tell_of(rt, name, *tried)?;
    }
    Ok(())
}

/// Tells of each case whether it held. A new one is a line in one of these; a table of them all takes the proof more steps than it has.
pub fn tell_all<R: Print + AllocGlobal>(rt: &R) -> io::Result<()> {
    for cases in [CALLS, DEVICES, REFUSALS, CONFIGURATIONS] {
        tell_each(rt, cases)?;
    }
    Ok(())
}
