use sip_text::Bytes;
use sip_uri::Addr;

/// A row of the address table: where requests for a host and a port go. No two rows have one host and port.
pub struct HostAddress {
    /// A host name, or an address in square brackets.
    pub host: Bytes,
    pub port: u16,
    pub address: Addr,
}

/// Written out, so that it is proved once and not wherever one is dropped.
impl Drop for HostAddress {
    fn drop(self) {
        let HostAddress {
            host: _,
            port: _,
            address: _,
        } = self;
    }
}
