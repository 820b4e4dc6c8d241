use crate::bytes::gives_bytes;
use sip_edit_views::ack_of;
use sip_message::view;
use sip_message_form::{Kept, View};
use sip_text::Bytes;
use std::alloc::{AllocError, Global};

/// An INVITE as it went on.
const INVITE: &[u8] =
    b"INVITE sip:help@127.0.0.1:5082 SIP/2.0\r\nVia: SIP/2.0/UDP sip.host.com:5060;branch=z9hG4bK0000000000000000.4.1\r\nRecord-Route: <sip:sip.host.com:5060;lr>\r\nVia: SIP/2.0/UDP pc.host.com:5070;branch=z9hG4bKinv1;rport=5070;received=127.0.0.1\r\nMax-Forwards: 69\r\nFrom: <sip:x@away.net>;tag=f1\r\nTo: <sip:help@host.com>\r\nCall-ID: k1\r\nCSeq: 7 INVITE\r\nContact: <sip:x@127.0.0.1:5070>\r\nContent-Length: 0\r\n\r\n";

/// What it was answered.
const BUSY: &[u8] =
    b"SIP/2.0 486 Busy Here\r\nVia: SIP/2.0/UDP sip.host.com:5060;branch=z9hG4bK0000000000000000.4.1\r\nVia: SIP/2.0/UDP pc.host.com:5070;branch=z9hG4bKinv1;rport=5070;received=127.0.0.1\r\nFrom: <sip:x@away.net>;tag=f1\r\nTo: <sip:help@host.com>;tag=t1\r\nCall-ID: k1\r\nCSeq: 7 INVITE\r\nContent-Length: 0\r\n\r\n";

const ACK: &[u8] =
    b"ACK sip:help@127.0.0.1:5082 SIP/2.0\r\nVia: SIP/2.0/UDP sip.host.com:5060;branch=z9hG4bK0000000000000000.4.1\r\nMax-Forwards: 70\r\nFrom: <sip:x@away.net>;tag=f1\r\nTo: <sip:help@host.com>;tag=t1\r\nCall-ID: k1\r\nCSeq: 7 ACK\r\nContent-Length: 0\r\n\r\n";

/// The text of the ACK of a response to a request.
fn ack(alloc: Global, sent: &View<'_>, response: &View<'_>) -> Result<Bytes, AllocError> {
    let kept = Kept::of(alloc, &ack_of(alloc, sent, response)?)?;
    Bytes::copy(alloc, kept.text())
}

/// The server writes it straight, by `ack_text`, with a To that it kept.
pub(crate) fn ack_of_a_response(alloc: Global) -> bool {
    match (view(alloc, INVITE), view(alloc, BUSY)) {
        (Ok(sent), Ok(response)) => gives_bytes(ack(alloc, &sent, &response), ACK),
        _ => false,
    }
}
