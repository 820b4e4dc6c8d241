use crate::open_request::OpenRequest;
use sip_dialog::Dialog;
use sip_digest::Nonce;
use sip_location::Binding;
use sip_text::Items;

/// What a proxy knows.
#[derive(Drop)]
pub struct ProxyState {
    /// The greatest moment at which a step stood, in milliseconds.
    pub moment: u64,
    /// The number of the next datagram.
    pub next: u64,
    pub bindings: Items<Binding>,
    pub nonces: Items<Nonce>,
    pub requests: Items<OpenRequest>,
    pub dialogs: Items<Dialog>,
}
