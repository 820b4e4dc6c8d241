use sip_text::Bytes;
use sip_uri::Addr;

/// A hop to which rules send, as a gateway to another network. No two of a list have one name; who reads a
/// configuration turns the name in a rule into a place of the list.
pub struct Hop {
    pub name: Bytes,
    pub address: Addr,
}

/// Written out, so that it is proved once and not wherever one is dropped.
impl Drop for Hop {
    fn drop(self) {
        let Hop {
            name: _,
            address: _,
        } = self;
    }
}
