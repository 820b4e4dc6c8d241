//! What is asked of a configuration without a server: who may call whom, and where the call goes; the table of a user who is
//! to be added; what a file was understood to say, and what of that is seldom meant.
//!
//! - Used: `sipd_tools`, for `decide`, `user`, `check` and `check --show`; `sipd_expect`, for the
//!   decision of a question.
//! - Not here: the decision of a running server (`sip_verdict`), which is the same definition; reading a file (`sip_config`), and
//!   what is
//!   wrong with one that is refused (`sipd_config_faults`).
//! - Tried: worked examples in `src/examples.rt`, as contracts that compute; `test_server`.
//!
//! ```text
//! let answer = answer_to(alloc, &config, &question)?;
//! ```
#![tactic(auto)]

mod answer;
mod deciding;
mod destination;
mod error;
pub mod examples;
mod fronts;
pub mod laws;
mod methods;
mod password;
mod question;
mod question_texts;
mod showing;
mod telling;
mod user;
mod warning;

pub use answer::Answer;
pub use deciding::{answer_to, line_for, rule_for};
pub use destination::{Destination, destination_of};
pub use error::QuestionError;
pub use password::password_in;
pub use question::DecideQuestion;
pub use question_texts::operation_asked;
pub use showing::{patterns_text, put_clock, put_signed, rule_text, show};
pub use telling::{hop_at, put_address, put_hop, put_number, put_verdict};
pub use user::{UserDigests, added_user, user_table};
pub use warning::digest_warning;
