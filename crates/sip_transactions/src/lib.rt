//! Not in the program: the two client transactions of RFC 3261 17.1 and the two server transactions of 17.2 as machines, which are the
//! definition that the phases of a branch (`Phase` of `sip_state`) and the answering side of an open request (`Side`) are proved to fit, in
//! `model_transactions`. From its state and what it hears, each machine answers with its next state and what is to be done. It holds no
//! message, reads no clock and takes no memory. Who changes a timer of the server changes both.
//!
//! - Used: the laws of `model_transactions`.
//! - Tried: worked runs in `src/client_examples.rt` and `src/server_examples.rt`.
#![tactic(auto)]

mod client_actions;
pub mod client_examples;
mod client_invite;
mod client_other;
pub mod clients;
mod server_actions;
pub mod server_examples;
mod server_invite;
mod server_other;
pub mod servers;

pub use client_actions::{ClientAction, Report};
pub use client_invite::{ClientInvite, ClientInviteInput};
pub use client_other::{ClientOther, ClientOtherInput};
pub use server_actions::ServerAction;
pub use server_invite::{ServerInvite, ServerInviteInput};
pub use server_other::{ServerOther, ServerOtherInput};
