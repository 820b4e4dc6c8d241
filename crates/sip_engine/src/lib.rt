//! The server: a registrar and a stateful proxy, which performs no input or output. Datagrams, moments and faults of sending
//! are handed in, packets and records are handed out (RFC 3261 10, 16, 17). Each call is exactly one step of the model, or is
//! refused with nothing changed. A datagram is read, what it belongs to is found, and one step is taken for it, whole or not
//! at all: the bytes say a message or are dropped; a response finds the branch that it is to; a request finds the open one
//! with its key, or is new, and is judged (`take_datagram`). Between two steps another configuration may come into force, and nothing
//! else changes then (`Engine::change`).
//!
//! - Used: `sip_run` over a list of events, `sip_replay` over a script, `sip_loop` over a link.
//! - Not here: a socket or a clock (`sip_transport`).
//! - Tried: `test_engine`, `test_server`.
//!
//! ```text
//! let out = engine.deliver(at, word, from, datagram)?;
//! ```
#![tactic(auto)]

mod answering;
mod asking;
mod change_error;
mod copy_or_ack;
mod datagram;
mod delivery_laws;
mod dispatch;
mod engine;
mod error;
mod going;
mod histories;
mod keeping;
mod new_request;
mod new_step;
mod responses;
mod stepping;

pub use change_error::ChangeError;
pub use datagram::take_datagram;
pub use engine::Engine;
pub use error::StepError;

/// Of `sip_model`.
pub mod model {
    pub use sip_model::{bounds, laws, runs};
}
