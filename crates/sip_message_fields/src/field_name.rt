//! Names of fields that own their bytes, told from others without case and in their compact forms (RFC 3261 7.3.1, 7.3.3).
ghost use Rattle.std.specs.Prelude.{◌≡◌, IfOk, MatchOption};
ghost use Rattle.sip_message_fields.specs.FieldName.{spelling, name_of, is_length, is_list, is_same_name};
ghost use Rattle.sip_message_fields.specs.declared.field_name.FieldName.TheVariants.{Other};

use crate::known_names::KnownName;
use sip_text::{Bytes, same_no_case};
use std::alloc::{AllocError, Global};

/// The name of a field: one that this project knows (RFC 3261 20), or any other as it was written.
#[derive(Clone)]
pub enum FieldName {
    Via,
    From,
    To,
    CallId,
    CSeq,
    Contact,
    MaxForwards,
    ContentLength,
    ContentType,
    ContentEncoding,
    Subject,
    Supported,
    Route,
    RecordRoute,
    Expires,
    Require,
    ProxyRequire,
    Unsupported,
    Authorization,
    ProxyAuthorization,
    WwwAuthenticate,
    ProxyAuthenticate,
    Warning,
    MinExpires,
    Timestamp,
    Other(Bytes),
}

/// Written out, so that it is proved once and not wherever a name is dropped.
impl Drop for FieldName {
    fn drop(self) {
        match self {
            FieldName::Other(_) => {}
            FieldName::Via
            | FieldName::From
            | FieldName::To
            | FieldName::CallId
            | FieldName::CSeq
            | FieldName::Contact
            | FieldName::MaxForwards
            | FieldName::ContentLength
            | FieldName::ContentType
            | FieldName::ContentEncoding
            | FieldName::Subject
            | FieldName::Supported
            | FieldName::Route
            | FieldName::RecordRoute
            | FieldName::Expires
            | FieldName::Require
            | FieldName::ProxyRequire
            | FieldName::Unsupported
            | FieldName::Authorization
            | FieldName::ProxyAuthorization
            | FieldName::WwwAuthenticate
            | FieldName::ProxyAuthenticate
            | FieldName::Warning
            | FieldName::MinExpires
            | FieldName::Timestamp => {}
        }
    }
}

/// The name that is written so, if this project knows it. Takes no memory.
pub fn known_name(name: &[u8]) -> Option<FieldName>
    ensures { MatchOption result (name_of name.now ≡ Other name.now) (λ known. known ≡ name_of name.now) }
{
    let known = KnownName::from_bytes(name)?;
    Some(known.to_name())
}

impl FieldName {
    /// The name in its full spelling (RFC 3261 20); another name as it was written.
    pub fn spelling(&self) -> &[u8]
        ensures { result.now ≡ spelling self.now }
    {
        match self {
            FieldName::Via => b"Via",
            FieldName::From => b"From",
            FieldName::To => b"To",
            FieldName::CallId => b"Call-ID",
            FieldName::CSeq => b"CSeq",
            FieldName::Contact => b"Contact",
            FieldName::MaxForwards => b"Max-Forwards",
            FieldName::ContentLength => b"Content-Length",
            FieldName::ContentType => b"Content-Type",
            FieldName::ContentEncoding => b"Content-Encoding",
            FieldName::Subject => b"Subject",
            FieldName::Supported => b"Supported",
            FieldName::Route => b"Route",
            FieldName::RecordRoute => b"Record-Route",
            FieldName::Expires => b"Expires",
            FieldName::Require => b"Require",
            FieldName::ProxyRequire => b"Proxy-Require",
            FieldName::Unsupported => b"Unsupported",
            FieldName::Authorization => b"Authorization",
            FieldName::ProxyAuthorization => b"Proxy-Authorization",
            FieldName::WwwAuthenticate => b"WWW-Authenticate",
            FieldName::ProxyAuthenticate => b"Proxy-Authenticate",
            FieldName::Warning => b"Warning",
            FieldName::MinExpires => b"Min-Expires",
            FieldName::Timestamp => b"Timestamp",
            FieldName::Other(name) => name.as_slice(),
        }
    }

    /// The name that is written so, in full or in its compact form, in any case (RFC 3261 7.3.1 and 7.3.3).
    pub fn from_bytes(alloc: Global, name: &[u8]) -> Result<Self, AllocError>
        ensures { IfOk result (λ known. known ≡ name_of name.now) }
    {
        if let Some(known) = known_name(name) {
            return Ok(known);
        }
        Ok(FieldName::Other(Bytes::copy(alloc, name)?))
    }

    /// Whether two names are the same: names are compared without case (RFC 3261 7.3.1). A spelling is compared only
    /// for a name that this project doesn't know. Takes no memory.
    pub fn is_same(&self, other: &FieldName) -> bool
        ensures { result ≡ is_same_name self.now other.now }
    {
        match (KnownName::of(self), KnownName::of(other)) {
            (Some(left), Some(right)) => left.is_same(right),
            _ => same_no_case(self.spelling(), other.spelling()),
        }
    }

    /// Whether it is Content-Length, which a message that was read doesn't keep as a field.
    pub fn is_content_length(&self) -> bool
        ensures { result ≡ is_length self.now }
    {
        matches!(self, FieldName::ContentLength)
    }

    /// Whether `read` cuts values of this name at their commas, so that each item is a field of its own.
    pub fn is_list(&self) -> bool
        ensures { result ≡ is_list self.now }
    {
        matches!(
            self,
            FieldName::Via
                | FieldName::Route
                | FieldName::RecordRoute
                | FieldName::Contact
                | FieldName::Require
                | FieldName::ProxyRequire
        )
    }
}
