use crate::case::Case;
use crate::kind::Kind;
use crate::{rule_cases, timer_cases, watch_cases};
use std::io;
use std::rt::Files;

/// What is tried on each kind.
const CASES: &[(Kind, &[Case])] = &[
    (Kind::List, timer_cases::CASES),
    (Kind::Wheel, timer_cases::CASES),
    (Kind::List, rule_cases::CASES),
    (Kind::Index, rule_cases::CASES),
    (Kind::Memory, watch_cases::CASES),
    (Kind::Path, watch_cases::PATH_CASES),
];

fn tell<R: Print>(rt: &R, name: &str, kind: Kind, holds: bool) -> io::Result<()> {
    let word = if holds { "holds" } else { "FAILS" };
    let kind = kind.word();
    println!(rt; "{name} {word} on {kind}")
}

/// Each case on each kind: its name, and whether it held.
pub fn tell_all<R: Print + AllocGlobal + Files>(rt: &R) -> io::Result<()> {
    for (kind, cases) in CASES {
        for case in *cases {
            tell(rt, case.name, *kind, case.holds(rt, *kind))?;
        }
    }
    Ok(())
}
