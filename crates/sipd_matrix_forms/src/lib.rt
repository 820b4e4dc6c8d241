//! The whole policy of a configuration in other forms than text: comma-separated values, and a page of HTML.
//!
//! - Used: `sipd_tools`, for `matrix --csv` and `matrix --html`; `sipd_page_sections` writes texts and the policy as it does.
//! - Not here: which cells there are (`sip_matrix`), the table as text (`sipd_matrix`), and one question (`sipd_ask`).
//! - Tried: worked examples in `src/examples.rt`, as contracts that compute.
//!
//! That each cell has one line, each question one cell, and that a cell says where a request goes as `decide` does, is said in `laws`; that
//! no text of a configuration is markup, in those of `sipd_report`.
#![tactic(auto)]

mod csv;
pub mod examples;
mod html;
pub mod laws;
mod outcome;

pub use csv::csv_text;
pub use html::{Level, html_text, put_block, put_policy};
