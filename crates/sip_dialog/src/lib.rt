//! The dialogs that a proxy knows (RFC 3261 12): how one is learnt from the answers to an INVITE, which
//! addresses it holds, which requests are in it, and when it ends.
//!
//! - Used: `sip_verdict` asks whether a request is in a dialog, `sip_proxy` keeps them, `sip_dialog_updates` says what is
//!   learnt.
//! - Not here: a dialog of a user agent: a proxy only watches.
//! - Tried: `test_parts`.
//!
//! ```text
//! dialogs.learn(answer, now)?;
//! ```
#![tactic(auto)]

mod address_items;
mod addresses;
mod dialog;
mod dialog_state;
mod dialogs;
mod digests;
mod error;
pub mod examples;
pub mod laws;
mod naming;
mod rows;

pub use address_items::item_in;
pub use addresses::is_same_addr;
pub use dialog::{Dialog, DialogId, InviteAnswer};
pub use dialogs::Dialogs;
pub use error::DialogError;
pub use naming::is_same_dialog;
