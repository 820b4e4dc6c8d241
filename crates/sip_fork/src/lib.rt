//! The table of open requests with their timers (RFC 3261 16: response contexts; 17): which request is open under a key
//! or a number, which one a CANCEL names, which branch a response is to, what is due first, and how a request is opened,
//! changed and closed. Exactly the timers that open requests name stand, in the order in which they fire. Whatever happens
//! to an open request is planned here first, and leaves it as it is to be kept: its parts fit their transactions, its
//! moments are near that of the last event, and its number and key stay. Nothing that changes a request takes memory: who
//! plans reserves before. No moment is read here; who reaches one says so.
//!
//! - Used: `sip_proxy`; `sip_uas`, which places a request that it answers.
//! - Not here: the choice of targets: a call is forked by `sip_targets` and `sip_forwarding`.
//! - Tried: `test_server` by its stored runs.
#![tactic(auto)]

mod change;
mod contexts;
pub mod dialogs;
mod ending;
pub mod firing;
mod first_due;
pub mod keeping;
mod lookup;
mod moving;
pub mod nearness;
pub mod openings;
mod planning;
mod queue;
mod quiet_ending;
mod row;
mod timing;

pub use change::{ChangedRow, NewRow, Prepared};
pub use contexts::Contexts;
pub use first_due::{Due, FirstDue};

/// Of `sip_transaction_table`.
pub mod transaction_table {
    pub use sip_transaction_table::Transaction;
}

/// Of `sip_context`.
pub mod context {
    pub use sip_context::{Input, Sent, is_accepted};
}
