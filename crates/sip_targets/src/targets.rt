use crate::target::Target;
use sip_base::Shared;
use sip_text::Items;
use sip_uri::{Addr, Uri};

/// Where a request goes that policy lets through.
pub enum Targets {
    /// One target for each live binding of the address of record, in their order.
    Bindings(Items<Target>),
    /// The Request-URI as it came, at the address of the rule's hop. It stands apart, so that no other kind is as large.
    Hop(Shared<Uri>, Addr),
    /// No configured user of an own domain: 404 (Not Found).
    NotFound,
    /// No live binding: 480 (Temporarily Unavailable).
    Unavailable,
}

/// Written out, so that it is proved once and not wherever one is dropped.
impl Drop for Targets {
    fn drop(self) {
        match self {
            Targets::Bindings(_) => {}
            Targets::Hop(_, _) => {}
            Targets::NotFound => {}
            Targets::Unavailable => {}
        }
    }
}
