//! What keeps a record of the events that a server takes, and of the configurations under which it takes them, and a recorder that writes
//! each event as a line of a script, so that they can be replayed, and each configuration as lines that give its bytes.
//!
//! Here, too: what a record says of configurations: the whole text of each, in lines of its own in front of the events that were taken
//! while it was in force. These are a segment together.
//!
//! - Used: `sip_loop` tells it each event before the packets of its step go, `sip_resume` what it takes of a record again; `sipd_start`
//!   makes the file, `sipd_old_record` reads a first line; `sipd_tools`, `sipd_start`, for what that says; `sip_replay` says what a record
//!   comes to; `sip_segment_config`, which reads them; `sip_resume`, which takes them again; `sipd_old_record`, for the first one;
//!   `sip_replay` says what they come to.
//! - Not here: what reads a record as events (`sip_replay_script`).
//! - Tried: worked examples in `src/examples.rt`, as contracts that compute; `test_server`; `test_engine`; worked examples in
//!   `src/segment_examples.rt`.
//!
//! ```text
//! match look_ahead(&mut lines, &mut reader)? {
//!     Upcoming::Over => ..,
//!     Upcoming::Configuration => next_configuration(alloc, &mut lines, &mut reader, longest)?,
//!     Upcoming::Event => next_recorded(alloc, &mut lines, &mut reader)?,
//! }
//! ```
#![tactic(auto)]

mod configuration;
mod configuration_lines;
mod configuration_stop;
pub mod examples;
mod journal;
pub mod laws;
mod line_room;
mod no_journal;
mod on_fault;
mod record_head;
mod record_mark;
mod recorder;
pub mod segment_examples;
pub mod segment_laws;
mod types;
mod upcoming;
mod writing;

pub use configuration::next_configuration;
pub use configuration_stop::ConfigurationStop;
pub use journal::{Journal, JournalFault};
pub use no_journal::NoJournal;
pub use on_fault::OnFault;
pub use record_head::{RecordHead, head_text, read_head};
pub use record_mark::RecordMark;
pub use recorder::Recorder;
pub use upcoming::{Upcoming, look_ahead, look_for_event};
