use sip_forwarding::Arrival;
use sip_message_form::View;

/// A response as it was received, whose top Via is this server's, which the steps are lent.
#[derive(Drop)]
pub struct ReceivedResponse<'a> {
    pub arrival: Arrival,
    pub message: &'a View<'a>,
    pub status: u16,
    /// The branch of its top Via.
    pub branch: &'a [u8],
    /// The method of its only CSeq.
    pub method: &'a [u8],
    /// Whether it has a second Via, which it would go to.
    pub has_more_vias: bool,
    /// Whether fewer bytes of its body came than its Content-Length says.
    pub short: bool,
}
