//! What the keys of a configuration's file hold: a value read by its kind and its grammar, the texts of a rule, names of which no
//! two are the same; and why a key is refused, with its place.
//!
//! - Used: `sip_config`, for every table of a file; `sipd_config_faults`, for the place of a refusal; `sipd_ask`, for the grammar
//!   of a user's name.
//! - Not here: which keys a table has, in what order they are looked at, and what a whole file states (`sip_config`).
//! - Tried: through `sip_config`, by worked examples and in `test_parts`.
//!
//! ```text
//! let realm = placed(TableKind::Whole, 0, ConfigKey::Realm, text_at(table, "realm", Grammar::Realm))?;
//! ```
#![tactic(auto)]

mod error;
mod grammar;
mod key;
mod lists;
mod names;
mod refusal;
mod table_kind;
mod texts;
mod values;
mod words;

pub use error::ConfigError;
pub use grammar::Grammar;
pub use key::ConfigKey;
pub use lists::{list_at, table_in};
pub use names::DistinctNames;
pub use refusal::{KeyPlace, Refusal, confirm, none_found, passed, place_at, placed};
pub use table_kind::TableKind;
pub use texts::texts_of;
pub use values::{
    address_of, digest_of, find, list_of, needed, number_between, number_of, port_of,
    some_items_at, text_as, text_at, text_of,
};
pub use words::{is_verdict, operation_of, target_of, verdict_of, who_of};
