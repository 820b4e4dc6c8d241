//! The smallest parts of SIP text: tokens, numbers, text compared with and without case, lists cut at
//! their commas, text cut at a byte, escapes `%HH`, quoted text, the spans that name parts of a source,
//! bytes that a value owns, texts that it borrows, and lists of items. Every crate that reads or writes text stands on this one.
//!
//! - Used: every room that reads or writes bytes.
//! - Not here: a grammar of a header field or of a URI (`sip_header`, `sip_uri`).
//! - Tried: worked examples in `src/examples.rt`, as contracts that compute; `test_parts`.
//!
//! ```text
//! let seconds = decimal(value);
//! ```
#![tactic(auto)]

mod buffer;
mod bytes;
mod cuts;
mod distinct_texts;
mod error;
mod escapes;
pub mod examples;
mod few;
mod items;
pub mod laws;
mod lists;
mod numbers;
mod one_item;
mod quotes;
mod span;
mod splits;
mod store;
mod text;
mod words;

pub use buffer::Buffer;
pub use bytes::Bytes;
pub use cuts::{Quoting, first_part, split_outside, split_word};
pub use distinct_texts::{FEW_TEXTS, all_differ, compare_no_case};
pub use error::TextError;
pub use escapes::{hex_value, unescape};
pub use items::Items;
pub use lists::{
    cut_list, is_space_or_tab, without_blanks, without_end_blanks, without_front_blanks,
};
pub use numbers::{
    has_leading_zero, hex_bytes, hex_text, plain_decimal, plain_decimal_below, plain_port,
};
pub use one_item::is_one_item;
pub use quotes::{is_quoted, plain_quoted, split_quoted, unquote};
pub use span::Span;
pub use splits::split_once;
pub use text::Text;
pub use words::{decimal, is_token, lower_case, same_bytes, same_no_case, split_token};
