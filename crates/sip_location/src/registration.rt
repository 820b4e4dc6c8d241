use crate::contacts::Contacts;
use sip_header::Expires;
use sip_text::Text;
use sip_uri::Aor;

/// What a registrar reads of a REGISTER (RFC 3261 10.3). Without contacts it is a query.
#[derive(Drop)]
pub struct Registration<'a> {
    /// The address of record that To names.
    pub aor: Aor,
    /// The items of Contact, in their order.
    pub contacts: Contacts<'a>,
    /// What its Expires says.
    pub expires: Expires,
    pub call_id: Text<'a>,
    pub cseq: u32,
}

/// What a registrar reads of a REGISTER with one Contact, all of it lent.
#[derive(Drop)]
pub struct Refresh<'a> {
    /// The address of record that To names.
    pub aor: &'a Aor,
    /// The value of Contact.
    pub contact: &'a [u8],
    /// What its Expires says.
    pub expires: Expires,
    pub call_id: &'a [u8],
    pub cseq: u32,
}
