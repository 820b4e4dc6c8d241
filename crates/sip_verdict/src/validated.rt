use sip_header::CoreFields;
use sip_message_form::View;
use sip_route::Way;
use sip_targets::RequestUri;

/// A request that passed the checks (RFC 3261 16.3), lent, with what they read of it.
#[derive(Drop)]
pub struct Validated<'v, 'a> {
    /// When it came, in milliseconds.
    pub moment: u64,
    pub message: &'v View<'v>,
    pub method: &'a [u8],
    pub core: &'a CoreFields<'v>,
    /// Where it goes, without this server's own part of the way.
    pub way: &'a Way<'v>,
    /// The SIP or SIPS URI that it is for: the Request-URI that is left, where that is one.
    pub uri: &'a RequestUri<'a>,
}
