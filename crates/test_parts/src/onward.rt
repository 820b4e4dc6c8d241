use crate::bytes::gives_bytes;
use sip_edit_views::push_record_route;
use sip_message::view;
use sip_message_form::{Kept, View};
use sip_route::Own;
use sip_text::{Bytes, Items};
use std::alloc::{AllocError, Global};

const REQUEST: &[u8] = b"OPTIONS sip:a@host.com SIP/2.0\r\nSubject: a\r\nSubject: b\r\n\r\n";

const RECORDED: &[u8] =
    b"OPTIONS sip:a@host.com SIP/2.0\r\nSubject: a\r\nRecord-Route: <sip:sip.host.com:5060;lr>\r\nSubject: b\r\nContent-Length: 0\r\n\r\n";

/// sip.host.com:5060 at 127.0.0.1, which serves no domain.
fn own_place(alloc: Global) -> Result<Own, AllocError> {
    let host = Bytes::copy(alloc, b"sip.host.com")?;
    Ok(Own {
        host,
        port: 5060,
        domains: Items::new(alloc),
        ip: [127, 0, 0, 1],
    })
}

/// The text of a request with this server's Record-Route.
fn recorded(alloc: Global, own: &Own, request: &View<'_>) -> Result<Bytes, AllocError> {
    let kept = Kept::of(alloc, &push_record_route(alloc, own, request)?)?;
    Bytes::copy(alloc, kept.text())
}

/// The server writes its Record-Route straight, by `text_to_target`.
pub(crate) fn record_route(alloc: Global) -> bool {
    match (own_place(alloc), view(alloc, REQUEST)) {
        (Ok(own), Ok(request)) => gives_bytes(recorded(alloc, &own, &request), RECORDED),
        _ => false,
    }
}
