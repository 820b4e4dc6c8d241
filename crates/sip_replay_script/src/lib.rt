//! The text of a script: lines are read as events, and events are written as lines, through readers and writers that may fail at any
//! call. And what a record says of its events.
//!
//! - Used: `sip_replay`, for each line of its script; `sip_journal` and `sip_resume`, for each event that is recorded and taken
//!   again;
//!   `sip_journal` and `sipd_report`, which read lines of their own through it; `sip_replay_print` and `sipd_start`, for what they
//!   write to and read from.
//! - Not here: the server; how its steps are printed (`sip_replay_print`); what a record says of its configurations (`sip_journal`).
//! - Tried: worked examples in `src/examples.rt`, as contracts that compute; `test_engine`.
#![tactic(auto)]

mod cut_line;
mod device;
mod escaped;
mod event;
mod event_text;
pub mod examples;
mod front;
mod gathered;
mod head_line;
pub mod laws;
mod lines;
mod plain;
mod print_stop;
mod read_stop;
mod recorded_event;
mod script;
mod unescaped;
mod writing;

pub use device::{TellingReader, TellingWriter};
pub use escaped::put_escaped;
pub use event::next_line;
pub use event_text::{empty_text, fault_text, text_front, time_text};
pub use front::{put_addr, put_byte, put_number, put_word};
pub use gathered::Gathered;
pub use head_line::DatagramHeadLine;
pub use lines::{ScriptLines, end_of_line};
pub use print_stop::PrintStop;
pub use read_stop::ReadStop;
pub use recorded_event::next_recorded;
pub use script::{DatagramHead, EventLine, line_of};
pub use writing::{hand_on, put};
