//! Recorded days as one page of HTML, for whoever answers for the server. Of all records, which are one history: whether a log comes out of them
//! again, and the calls. Of each: which it is; what was denied by which rule; how many addresses had a live binding, as a picture; what each
//! address did from which datagrams came; and the policy.
//!
//! - Used: `sipd_command`, for `sipd page`.
//! - Not here: how a record is opened and told (`sipd_telling`, `sip_retell`), what is kept of its steps, and how all of it is written
//!   (`sipd_page_sections`), and what a call is (`sip_days`).
//! - Tried: worked parts in `sipd_page_sections`; `tests/page.py`; `test_server`.
//!
//! That the lines which are kept are those of the steps is said in `laws`; that no text is markup, in those of `sipd_page_sections`.
#![tactic(auto)]

mod history;
pub mod laws;
mod log;
mod opening;
mod page;

pub use page::print_page;
