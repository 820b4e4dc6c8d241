//! How far bytes of one kind go from the front of a text, looked at sixteen at a time: those that may stand in a value of a
//! field, those from `!` to `~`, and those of a name; and, seen in the same way, whether a value is plainly a list of one item,
//! and whether it begins with a text; and where a line ends. A value that isn't plainly one item may be one all the same, and a name may end at a
//! mark further on than is looked: then it is looked at byte by byte.
//!
//! - Used: `sip_message` looks over the lines of a head, `sip_edit` over the front of a Via.
//! - Not here: what a byte alone tells, and lists that are cut (`sip_text`).
//! - Tried: `test_parts`, by the messages that it reads.
//!
//! ```text
//! let end = text_length(line);
//! ```
#![tactic(auto)]

mod begins;
mod lanes;
mod line_end;
mod marks;
mod name;
mod text_run;

pub use begins::begins_with;
pub use line_end::find_crlf;
pub use marks::is_one_value;
pub use name::{name_end, name_length};
pub use text_run::{text_length, visible_length};
