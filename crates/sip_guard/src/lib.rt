//! A link over a link, which hears at most so many datagrams a second from one IP address: who sends more isn't heard beyond
//! that, and takes nothing from the others. Some IP addresses, as those of gateways, are heard always.
//!
//! - Used: `sipd_command` puts it over the socket, where a limit is asked for.
//! - Not here: the links themselves (`sip_transport`).
//! - Tried: worked examples in `src/examples.rt`, as contracts that compute.
//!
//! ```text
//! let mut link = Guard::new(alloc, keys, link, clock, Some(20), gateways)?;
//! link.wait_until_due(next_due, now);
//! let found = link.receive()?;
//! ```
#![tactic(auto)]

mod allowances;
pub mod examples;
mod guard;
pub mod laws;
mod limit;
mod sources;
mod unheard;
mod waiting;

pub use guard::Guard;
pub use limit::Limit;
pub use unheard::{Unheard, UnheardSource};
