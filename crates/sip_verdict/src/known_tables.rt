use sip_dialog::Dialogs;
use sip_digest::Nonces;

/// What a server knows where it judges a request, lent, beside its bindings: among them room is made for the plan of a
/// REGISTER.
#[derive(Drop)]
pub struct KnownTables<'a> {
    pub nonces: &'a Nonces,
    pub dialogs: &'a Dialogs,
    /// Whether as many requests are open as may be.
    pub is_full: bool,
}
