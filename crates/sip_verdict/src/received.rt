use sip_header::Via;
use sip_message_form::View;

/// A request as it came, lent, with what was read of it before it is judged.
#[derive(Drop)]
pub struct Received<'v, 'a> {
    /// When it came, in milliseconds.
    pub moment: u64,
    pub message: &'v View<'v>,
    /// The Via on top.
    pub via: &'a Via<'a>,
    pub method: &'a [u8],
    /// Whether fewer bytes of its body came than its Content-Length says.
    pub short: bool,
}
