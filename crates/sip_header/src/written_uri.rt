use sip_text::Text;
use sip_uri_ref::UriRef;

/// The URI of an address.
#[derive(Drop)]
pub(crate) enum WrittenUri<'a> {
    Sip(UriRef<'a>),
    /// One of another scheme than `sip` and `sips`, as it was written.
    Other(Text<'a>),
}
