//! What no stored run shows of the engine, as calls, each a case with a name: calls of an engine, engines that go on alike,
//! replays, runs over lists of events, and configurations in a record (`cases`); and the steps of a script whose memory is
//! refused from outside (`refusals`). A case is rows of a table, which one function for each kind of rows goes through.
#![tactic(auto)]

pub mod alike;
mod calls;
pub mod cases;
mod configurations;
mod devices;
mod driving;
mod fault;
mod kinds;
pub mod refusals;
mod registers;
mod replays;
mod runs;

pub use fault::Fault;
