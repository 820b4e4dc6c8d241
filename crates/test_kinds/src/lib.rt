//! Each kind of timers and of rules through its trait: worked examples, which hold on every kind. That two kinds answer each call alike is
//! proved: both have the trait's contract, which says the exact answer. Beside them a watch of the file of a configuration, over memory and
//! over a path.
#![tactic(auto)]

mod asking;
mod case;
mod cases;
mod keyed;
mod keyed_timers;
mod kind;
mod rule_cases;
mod timer_cases;
mod watch_cases;

pub use cases::tell_all;
