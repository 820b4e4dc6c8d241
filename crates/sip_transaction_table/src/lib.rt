//! By what a server transaction is found (RFC 3261 17.2.3): the key of a request, that is branch, sent-by and method of its
//! top Via; and the table of open requests, at most 1,024 rows in rising order of the numbers of the datagrams that opened
//! them, found by number by bisection, and by their key through a hash under a secret, whichever keys peers choose. A row
//! that closes moves the addresses of the fewer of those before and behind it, and no row: the oldest one moves none.
//!
//! - Used: `sip_fork` keeps the open requests in it, `sip_verdict` reads the key.
//! - Not here: what an open request is (`sip_state`).
//! - Tried: the stored runs of `test_server`.
//!
//! ```text
//! let place = table.find(&key);
//! ```
#![tactic(auto)]

mod boxed;
mod digest;
pub mod examples;
mod front;
mod key;
mod keys;
mod known_method;
mod method;
mod method_text;
mod numbered_rows;
mod row;
mod table;
mod transaction;

pub use boxed::Boxed;
pub use key::{TransactionKey, same_key};
pub use method::KeyMethod;
pub use row::TransactionRow;
pub use table::TransactionTable;
pub use transaction::Transaction;
