//! What the dialogs that a proxy knows learn of what goes through it (RFC 3261 12, 16.6): the dialog that an answer
//! names, the addresses that a message gives, and the updates of a step, which are all read and made before one is taken.
//! The definitions stand in `sip_state` and `sip_dialog`.
//!
//! - Used: `sip_forwarding`, `sip_uas` and the steps; `sip_proxy` takes them.
//! - Not here: the table of dialogs (`sip_dialog`).
//! - Tried: `test_server` by its stored runs.
#![tactic(auto)]

mod answers;
mod calls;
mod contact_addresses;
mod dialog_update;
mod dialog_updates;
pub mod laws;
mod naming;
mod tags;
mod taking;

pub use contact_addresses::addresses_of;
pub use dialog_update::DialogUpdate;
pub use dialog_updates::DialogUpdates;
pub use naming::answered_dialog;

/// Of `sip_state`.
pub mod state {
    pub use sip_state::{Branch, OpenRequest, Phase, Server, Side, Upward};
}
