//! SIP and SIPS URIs: the tree of RFC 3261 19.1.1, its reading, its written form, and the address of record that a URI
//! names; and what stands in one: hosts, ports and addresses (RFC 3261 25.1), an IPv4 address with a UDP port and its
//! dotted text among them.
//!
//! - Used: whoever reads an address of a message or of the configuration; the program prints addresses.
//! - Not here: whether two URIs are equal (`sip_uri_equality`), where one leads (`sip_hops`), and URIs that are lent
//!   (`sip_uri_ref`).
//! - Tried: worked examples in `src/examples.rt`, as contracts that compute and `host_examples.rt`; `test_parts`.
//!
//! ```text
//! let uri = parse_uri(alloc, b"sip:help@host.com")?;
//! ```
#![tactic(auto)]

mod addr;
mod aor;
mod error;
mod escape_classes;
pub mod examples;
mod headers;
mod host;
pub mod host_examples;
pub mod host_laws;
pub mod laws;
mod parameters;
mod parts;
mod place;
mod plain_forms;
mod port;
mod reading;
mod scheme;
mod uri;
mod user;
mod writing;

pub use addr::{Addr, addr_of, addr_text, ip_of, ip_text};
pub use aor::{Aor, aor_of, same_aor};
pub use error::UriError;
pub use headers::UriHeader;
pub use host::{begins_bracket, host_port, host_port_at, host_port_in, is_host};
pub use parameters::UriParameter;
pub use plain_forms::{plain_host_port, plain_parts, plain_uri_at};
pub use port::port_value;
pub use reading::{parse_uri, uri_in};
pub use scheme::Scheme;
pub use uri::Uri;
pub use user::UserInfo;
pub use writing::write_uri;
