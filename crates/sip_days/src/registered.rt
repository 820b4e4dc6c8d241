use sip_uri::{Addr, Aor};

/// The last REGISTER that changed or named the bindings of an address of record: when it came, in milliseconds, from where, and by how many
/// minutes the office's clock was ahead of UTC then.
pub struct Registered {
    pub aor: Aor,
    pub at: u64,
    pub source: Option<Addr>,
    pub offset: i16,
}

/// Written out, so that it is proved once and not wherever one is dropped.
impl Drop for Registered {
    fn drop(self) {
        let Registered {
            aor: _,
            at: _,
            source: _,
            offset: _,
        } = self;
    }
}
