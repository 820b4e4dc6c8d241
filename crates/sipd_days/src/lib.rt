//! What is told of recorded days: their calls; who was registered, and which calls stood, at a time; and what each address did from which
//! datagrams came.
//!
//! - Used: `sipd_command`; `sipd_page`, for what each address did.
//! - Not here: how the record in a file is told, or several as one history (`sipd_telling`), what a call is (`sip_days`), what an address did
//!   (`sipd_sources`), and how all of it is written (there, `sipd_calls`, `sipd_standing`).
//! - Tried: `test_server`.
#![tactic(auto)]

mod calls;
mod choosing;
mod day_at;
mod moments;
mod showing;
mod sources;
mod standing;

pub use calls::show_calls;
pub use day_at::DayTable;
pub use moments::show_table;
pub use sources::{show_sources, sources_in_file};
