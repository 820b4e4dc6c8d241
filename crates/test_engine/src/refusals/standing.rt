use crate::kinds::TestServer;
use sip_location::BindingRef;
use sip_text::{Bytes, same_bytes};
use sip_uri::Aor;
use std::alloc::{AllocError, Global};

/// The users of the sample, whose addresses are all at one domain.
const USERS: [&str; 3] = ["Mufasa", "alice", "help"];

const DOMAIN: &str = "host.com";

/// What can be seen of a server: its moment, when something is due, and the bindings of all its users, as text.
#[derive(Drop)]
pub struct ProbeStanding {
    moment: u64,
    due: Option<u64>,
    bindings: Bytes,
}

/// Adds a text, and a blank.
fn put_word(text: &mut Bytes, word: &[u8]) -> Result<(), AllocError> {
    text.extend(word)?;
    text.push(b' ')
}

/// Adds a number, and a blank.
fn put_number(text: &mut Bytes, number: u64) -> Result<(), AllocError> {
    text.push_decimal(number)?;
    text.push(b' ')
}

/// Adds all that a binding holds.
fn put_binding(text: &mut Bytes, binding: &BindingRef<'_>) -> Result<(), AllocError> {
    put_word(text, binding.aor().user())?;
    put_word(text, binding.uri_text())?;
    put_word(text, binding.call_id())?;
    put_number(text, u64::from(binding.cseq()))?;
    put_number(text, binding.expires_at())
}

/// The address of a user.
pub(crate) fn aor_of(alloc: Global, user: &str) -> Result<Aor, AllocError> {
    let user = Bytes::copy(alloc, user.as_bytes())?;
    let host = Bytes::copy(alloc, DOMAIN.as_bytes())?;
    Ok(Aor { user, host })
}

/// Adds the live bindings of a user.
fn put_bindings(
    alloc: Global,
    text: &mut Bytes,
    engine: &TestServer,
    user: &str,
) -> Result<(), AllocError> {
    let aor = aor_of(alloc, user)?;
    let mut live = engine.bindings(&aor);
    while let Some(binding) = live.next() {
        put_binding(text, &binding)?;
    }
    Ok(())
}

impl ProbeStanding {
    pub fn of(alloc: Global, engine: &TestServer) -> Result<ProbeStanding, AllocError> {
        let mut bindings = Bytes::new(alloc);
        for user in USERS {
            put_bindings(alloc, &mut bindings, engine, user)?;
        }
        Ok(ProbeStanding {
            moment: engine.moment(),
            due: engine.next_due(),
            bindings,
        })
    }

    pub fn is_same(&self, other: &ProbeStanding) -> bool {
        self.moment == other.moment
            && self.due == other.due
            && same_bytes(self.bindings.as_slice(), other.bindings.as_slice())
    }
}
