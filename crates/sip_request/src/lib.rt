//! One open request with the timers that it names: which timers its parts have by their phases, and how they are stopped
//! and set once an event changed the request, where a timer that stays the same keeps its key and its place in the order
//! of firing (RFC 3261 16.6 to 16.8, 17; RFC 6026). Who fires looks at the first timer, takes its event and lets the
//! request move its timers; no timer is ever taken out by its moment.
//!
//! - Used: `sip_fork`, for each request that is opened or changed.
//! - Not here: the reading of moments.
//! - Tried: `test_server` by its stored runs.
#![tactic(auto)]

mod branches;
mod likeness;
mod naming;
mod near;
mod part;
pub mod queue_laws;
mod request;
mod retiming;
mod slots;

pub use naming::{branch_part, side_part};
pub use near::near_later;
pub use part::{PartTimers, RequestPart};
pub use request::{Request, RequestPlan, reserve};

/// Of `model_transactions`.
pub mod transactions_model {
    pub use model_transactions::{
        TimerKeys, bounds, branches, events, fitting_events, machines, openings, queue, ties,
        timers,
    };
}
