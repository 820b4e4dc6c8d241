//! The cases by their names, in the order in which they are told.

use crate::loopback::{self, Leg};
use crate::records::{self, Row};
use crate::serving::{self, Scene};
use std::alloc::Global;
use std::io;
use std::net::Net;
use test_forms::tell;

/// What is tried.
#[derive(Clone, Copy)]
enum Tried {
    /// `serve` over memory.
    Served(&'static Scene),
    CallGoesOn,
    /// Records that are gone on from.
    Records(&'static [Row]),
    /// Phones on loopback.
    Legs(&'static [Leg]),
}

impl Tried {
    fn holds<R: Net>(self, rt: &R, alloc: Global) -> bool {
        match self {
            Tried::Served(scene) => serving::holds(alloc, scene),
            Tried::CallGoesOn => serving::call_goes_on(alloc),
            Tried::Records(rows) => records::are_resumed(alloc, rows),
            Tried::Legs(legs) => loopback::hold(rt, alloc, legs),
        }
    }
}

fn tell_of<R: Print + AllocGlobal + Net>(rt: &R, name: &str, tried: Tried) -> io::Result<()> {
    tell(rt, name, tried.holds(rt, rt.alloc()))
}

/// What is tried, by its name, in the order in which it is told.
const SENDS: &[(&str, Tried)] = &[
    ("both_sends_fail", Tried::Served(serving::BOTH_SENDS_FAIL)),
    (
        "trying_send_fails",
        Tried::Served(serving::TRYING_SEND_FAILS),
    ),
    ("final_send_fails", Tried::Served(serving::FINAL_SEND_FAILS)),
    (
        "copy_fails_beside_another",
        Tried::Served(serving::COPY_FAILS_BESIDE_ANOTHER),
    ),
];

const CLOCKS: &[(&str, Tried)] = &[
    ("closed_log", Tried::Served(serving::CLOSED_LOG)),
    ("full_record", Tried::Served(serving::FULL_RECORD)),
    ("receive_fails", Tried::Served(serving::RECEIVE_FAILS)),
];

const RECORDS: &[(&str, Tried)] = &[
    ("numbers_worn", Tried::Served(serving::NUMBERS_WORN)),
    ("clock_goes_back", Tried::Served(serving::CLOCK_GOES_BACK)),
    ("clock_jumps", Tried::Served(serving::CLOCK_JUMPS)),
    ("call_goes_on", Tried::CallGoesOn),
];

const DAMAGES: &[(&str, Tried)] = &[
    ("cut_record", Tried::Records(records::CUT_RECORD)),
    ("damaged_record", Tried::Records(records::DAMAGED_RECORD)),
    ("damaged_dot", Tried::Records(records::DAMAGED_DOT)),
];

const LOOPBACK: &[(&str, Tried)] = &[
    ("changed_record", Tried::Records(records::CHANGED_RECORD)),
    ("loopback", Tried::Legs(loopback::LOOPBACK)),
    ("call_on_loopback", Tried::Legs(loopback::CALL_ON_LOOPBACK)),
];

fn tell_each<R: Print + AllocGlobal + Net>(rt: &R, cases: &[(&str, Tried)]) -> io::Result<()> {
    for (name, tried) in cases {
        tell_of(rt, name, *tried)?;
    }
    Ok(())
}

/// Tells of each case whether it held. A new one is a line in one of these; a table of them all takes the proof more steps than it has.
pub fn tell_all<R: Print + AllocGlobal + Net>(rt: &R) -> io::Result<()> {
    for cases in [SENDS, CLOCKS, RECORDS, DAMAGES, LOOPBACK] {
        tell_each(rt, cases)?;
    }
    Ok(())
}
