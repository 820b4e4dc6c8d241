//! The location service of a registrar (RFC 3261 10.3): the bindings of addresses of record, which of
//! them are live, what a REGISTER asks for, and what it makes of them.
//!
//! - Used: `sip_verdict` plans what a REGISTER asks for, `sip_targets` takes the live bindings, `sip_proxy` keeps them.
//! - Not here: who may register (`sip_policy`).
//! - Tried: `test_parts`.
//!
//! ```text
//! let plan = locations.plan(&registration, now)?;
//! ```
#![tactic(auto)]

mod aor_bindings;
mod aor_ref;
mod binding;
mod binding_table;
mod block;
mod candidate_binding;
mod candidates;
mod code;
mod contacts;
mod edits;
mod error;
pub mod examples;
mod interval;
mod kept_aor;
pub mod laws;
mod live;
mod locations;
mod plan;
mod read_binding;
mod refreshing;
mod refusals;
mod registration;
mod row;
mod rows;

pub use aor_ref::AorRef;
pub use binding::{Binding, BindingRef};
pub use contacts::Contacts;
pub use error::LocationError;
pub use live::{Bindings, LiveBindings};
pub use locations::Locations;
pub use plan::RegisterPlan;
pub use registration::{Refresh, Registration};
