//! What `serve` does, as calls, each a case with a name: over memory with devices that fail and clocks that don't run straight,
//! records that are gone on from, and phones on loopback. A case is rows of a table, which one function for each kind of rows
//! goes through.
#![tactic(auto)]

mod cases;
mod counting;
mod datagrams;
mod logs;
mod loopback;
mod phone;
mod records;
mod serving;
mod trial;

pub use cases::tell_all;
