use crate::plain_uri::PlainUri;
use sip_uri::Uri;

/// How a URI is lent.
#[derive(Drop)]
pub(crate) enum UriForm<'a> {
    /// One of the plainest form, as most are: no URI is made of it.
    Plain(PlainUri<'a>),
    /// One of any other form, made, in a block of its own: few are, and what is lent stays small.
    Made(Box<Uri>),
}
