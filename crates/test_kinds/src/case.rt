use crate::kind::Kind;
use crate::timer_cases::Step;
use crate::{rule_cases, timer_cases, watch_cases};
use sip_policy::ListRules;
use sip_policy_index::IndexedRules;
use sip_timers::ListTimers;
use sip_timers_wheel::WheelTimers;
use std::rt::Files;

/// What is tried.
#[derive(Clone, Copy)]
pub(crate) enum Trial {
    /// Calls of timers.
    Timers(&'static [Step]),
    /// Requests, and what the sample's rules decide about them.
    Rules(&'static [rule_cases::Asked]),
    /// Looks at a file over memory.
    Watch(watch_cases::Asked, &'static [watch_cases::Row]),
    /// The file of this path.
    FileOffered(&'static str),
    /// Paths without one.
    NoFile,
}

/// A case: its name, and what is tried.
#[derive(Clone, Copy)]
pub(crate) struct Case {
    pub(crate) name: &'static str,
    pub(crate) trial: Trial,
}

impl Case {
    /// Whether it holds on this kind.
    pub(crate) fn holds<R: AllocGlobal + Files>(&self, rt: &R, kind: Kind) -> bool {
        let alloc = rt.alloc();
        match (self.trial, kind) {
            (Trial::Timers(steps), Kind::List) => timer_cases::hold::<ListTimers>(alloc, steps),
            (Trial::Timers(steps), _) => timer_cases::hold::<WheelTimers>(alloc, steps),
            (Trial::Rules(rows), Kind::List) => rule_cases::hold::<ListRules>(alloc, rows),
            (Trial::Rules(rows), _) => rule_cases::hold::<IndexedRules>(alloc, rows),
            (Trial::Watch(asked, rows), _) => watch_cases::hold(alloc, asked, rows),
            (Trial::FileOffered(path), _) => watch_cases::file_offered(rt, path),
            (Trial::NoFile, _) => watch_cases::no_file(rt),
        }
    }
}
