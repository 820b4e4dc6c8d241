//! What each IPv4 address did over the steps of a recorded day, from which datagrams came: how many came from there, how many were asked for a
//! credential, were proven by one, or gave a wrong one, how many names they tried, and when the first and the last came. It is defined by the
//! steps that are told of a record, and kept while they are told; and it is written as a table of 80 columns, and for programs.
//!
//! - Used: `sipd_days`, for `sipd sources`.
//! - Not here: whom a credential proves (`sip_auth`); how the steps of a record are told (`sip_retell`); other cells (`sipd_calls`).
//! - Tried: worked days in `src/examples.rt`, as contracts that compute; `test_server`.
//!
//! ```text
//! let mut sources = Sources::new(alloc, filter);
//! retell_record(alloc, &mut engine, &mut lines, &mut reader, longest, None, &mut sources)?;
//! let text = sources_text(alloc, None, engine.config(), at, sources)?;
//! ```
#![tactic(auto)]

mod asked;
mod cells;
mod claims;
pub mod examples;
mod filter;
pub mod laws;
mod listening;
mod program;
mod ranking;
mod source;
mod table;

pub use claims::message_in;
pub use filter::SourceFilter;
pub use listening::Sources;
pub use source::{Source, SourceMoment};
pub use table::{columns_text, sources_text};
