use sip_context_branches::state::Upward;
use sip_event::Packet;
use sip_text::Items;

/// What an event makes an open request send: ACKs, then what goes to the caller, then CANCELs; and what goes again.
#[derive(Drop)]
pub struct Sent {
    pub acks: Items<Packet>,
    pub upward: Items<Upward>,
    pub cancels: Items<Packet>,
    pub copies: Items<Packet>,
}
