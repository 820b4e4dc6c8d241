//! What isn't SIP: values with several owners, which a copy of a state has in common with the state (`Shared`); hashing under
//! a secret, for maps whose keys peers choose (`KeyedHasher`); and codes of names that are configured (`mixed`).
//!
//! - Used: the tables of dialogs and of open requests hash under a secret (`KeyedHasher`); open requests share the kept message
//!   (`Shared`); hosts, bindings and rules are found by codes (`mixed`).
//! - Not here: anything of SIP.
//! - Tried: the stored runs of `test_server`.
#![tactic(auto)]

mod code;
mod keyed_hasher;
mod shared;
mod word_hasher;

pub use code::{BASIS, mixed};
pub use keyed_hasher::KeyedHasher;
pub use shared::Shared;
pub use word_hasher::WordHasher;
