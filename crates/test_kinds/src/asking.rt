use sip_policy::{Operation, Rules, Ruling};
use sip_text::Bytes;
use sip_uri::Aor;
use std::alloc::{AllocError, Global};

/// A request at a minute of the day, as rules are asked about it.
#[derive(Clone, Copy)]
pub struct Asking {
    /// The name that was proven, or nobody's.
    pub proven: Option<&'static str>,
    pub method: &'static str,
    /// Whether a REGISTER has a Contact.
    pub has_contact: bool,
    pub user: &'static str,
    pub host: &'static str,
    pub minute: u16,
}

fn aor(alloc: Global, user: &str, host: &str) -> Result<Aor, AllocError> {
    let user = Bytes::copy(alloc, user.as_bytes())?;
    let host = Bytes::copy(alloc, host.as_bytes())?;
    Ok(Aor { user, host })
}

/// What rules decide about an operation at an address of record, asked by who is proven.
fn decided<P: Rules>(rules: &P, asking: &Asking, operation: &Operation, aor: &Aor) -> Ruling {
    match asking.proven {
        Some(name) => rules.decide(name.as_bytes(), operation, aor, asking.minute),
        None => rules.decide_unproven(operation, aor, asking.minute),
    }
}

impl Asking {
    /// What rules decide about it.
    pub fn ruling<P: Rules>(&self, alloc: Global, rules: &P) -> Result<Ruling, AllocError> {
        let aor = aor(alloc, self.user, self.host)?;
        let operation = Operation::of_request(alloc, self.method.as_bytes(), self.has_contact)?;
        Ok(decided(rules, self, &operation, &aor))
    }
}
