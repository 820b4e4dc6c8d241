//! Digest access authentication (RFC 2617, RFC 8760): the answers that prove a password, and what credentials say; and the
//! nonces that were issued in challenges, with what a credential is worth against them (RFC 2617 3.2.1, 3.2.2 and 3.3).
//!
//! - Used: `sip_auth` asks what a credential is worth, `sip_proxy` keeps the nonces, `sip_uas` issues one with each
//!   challenge.
//! - Not here: who the user is and which realm counts (`sip_auth`).
//! - Tried: worked examples in `src/examples.rt`, as contracts that compute and `nonce_examples.rt`; outside vectors in
//!   `test_parts`.
//!
//! ```text
//! let NonceCheck { worth, word } = nonces.check(user_a1, &credential, now);
//! ```
#![tactic(auto)]

mod algorithm;
mod answers;
mod credential;
pub mod examples;
mod hashing;
mod hex_numbers;
pub mod laws;
pub mod nonce_examples;
mod nonce_texts;
mod nonces;
mod protection;

pub use algorithm::Algorithm;
pub use answers::{a1, a1_sha256, answer, answer_sha256};
pub use credential::Credential;
pub use hex_numbers::hex_number;
pub use nonce_texts::{nonce_text, word_of};
pub use nonces::{Nonce, NonceCheck, Nonces, Worth};
pub use protection::{Protection, nonce_count};
