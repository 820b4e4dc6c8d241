//! What definitions mean, by worked examples that compute: those of the tables (users and rules, nonces, dialogs, bindings, and this server's
//! own places), those about one message (who is proven by its credentials, which checks it passes, and what of it is edited), and those of
//! a verdict (which decision makes what of a request, what policy is asked, and which requests are refused, cancelled or dropped). A
//! definition that a body is proved equal to is pinned by nothing but its reading, where both could mean another thing together: each of
//! these examples refuses such a pair (`tests/double_edits.py`). Nothing runs here.
//!
//! - Used: nobody: it is read.
//! - Not here: a body; what the crates' own examples and laws pin.
//! - Tried: its own proofs.
#![tactic(auto)]

pub mod bindings;
pub mod checks;
pub mod credentials;
pub mod decisions;
pub mod dialogs;
pub mod edits;
pub mod nonces;
pub mod places;
pub mod policy;
pub mod refusals;
