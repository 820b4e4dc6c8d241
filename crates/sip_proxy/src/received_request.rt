ghost use Rattle.std.specs.Prelude.{◌≡◌, Some};
ghost use Rattle.sip_edit.specs.ReceivedRequest.{top_via};

use sip_forwarding::Arrival;
use sip_header::Via;
use sip_message_form::View;

/// A request as it was received, which the steps are lent.
#[derive(Drop)]
pub struct ReceivedRequest<'a> {
    pub arrival: Arrival,
    pub method: &'a [u8],
    pub message: &'a View<'a>,
    /// The Via on top.
    pub via: Via<'a>,
    /// Whether fewer bytes of its body came than its Content-Length says.
    pub short: bool,
    pub ghost via_is: { top_via message.now ≡ Some via },
}
