//! SIP and SIPS URIs lent by who read them (RFC 3261 19.1.1), so that each is read once: of one of the plainest form, as most
//! are, no URI is made, but its text is kept, with where its user and its host stand there.
//!
//! - Used: the address of From, To and Contact (`sip_header`), the Request-URI and a contact as a target (`sip_targets`), and
//!   the URI of a credential (`sip_auth`).
//! - Not here: the tree of a URI and its reading (`sip_uri`).
//! - Tried: whole runs (`test_server`).
//!
//! ```text
//! let uri = UriRef::of(alloc, b"sip:help@host.com")?;
//! ```
#![tactic(auto)]

mod plain_uri;
mod uri_form;
mod uri_ref;

pub use uri_ref::UriRef;
