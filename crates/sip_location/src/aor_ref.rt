ghost use Rattle.std.specs.Prelude.{◌≡◌};

use sip_uri::Aor;
use std::marker::Model;

/// An address of record, lent.
#[derive(Drop)]
pub struct AorRef<'a> {
    user: &'a [u8],
    host: &'a [u8],
}

impl<'a> Model for AorRef<'a> {
    ghost use Rattle.sip_uri.specs.declared.aor.Aor.{Aor};

    ghost Value = { Aor };

    ghost view = { λ a. record { user = a.user.now; host = a.host.now } };
}

impl<'a> AorRef<'a> {
    pub(crate) fn new(user: &'a [u8], host: &'a [u8]) -> Self
        ensures { result ≡ record { user = user.now; host = host.now } }
    {
        AorRef { user, host }
    }

    /// One that is at hand.
    pub(crate) fn of(aor: &'a Aor) -> Self
        ensures { result ≡ aor.now }
    {
        AorRef::new(aor.user.as_slice(), aor.host.as_slice())
    }

    /// The same one again.
    pub(crate) fn again(&self) -> AorRef<'a>
        ensures { result ≡ self.now }
    {
        AorRef::new(self.user, self.host)
    }

    /// The user, without escapes.
    pub fn user(&self) -> &'a [u8]
        ensures { result.now ≡ self.now.user }
    {
        self.user
    }

    /// The host, in lower case.
    pub fn host(&self) -> &'a [u8]
        ensures { result.now ≡ self.now.host }
    {
        self.host
    }
}
