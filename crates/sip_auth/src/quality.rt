use sip_digest::Protection;
use sip_message_fields::Value;
use std::marker::Model;

/// The quality of protection `auth` of credentials, as parts of what was read, seen as what an answer says of itself:
/// the count of the nonce's uses as it was sent, and the client's own nonce (RFC 2617 3.2.2).
pub struct Quality<'v> {
    nc: Value<'v>,
    cnonce: Value<'v>,
}

/// Written out, so that it is proved once and not wherever a claim is dropped.
impl<'v> Drop for Quality<'v> {
    fn drop(self) {
        let Quality { nc: _, cnonce: _ } = self;
    }
}

impl<'v> Model for Quality<'v> {
    ghost use Rattle.sip_digest.specs.Protection.{Protection};

    ghost Value = { Protection };

    ghost view = { λ q. record { nc = q.nc; cnonce = q.cnonce } };
}

impl<'v> Quality<'v> {
    ghost use Rattle.std.specs.Prelude.{◌≡◌, Some};
    ghost use Rattle.sip_digest.specs.Protection.{seen};

    /// This count and this nonce.
    pub fn new(nc: Value<'v>, cnonce: Value<'v>) -> Self
        ensures { result ≡ record { nc = nc.entry; cnonce = cnonce.entry } }
    {
        Quality { nc, cnonce }
    }

    /// The protection as an answer takes it.
    pub fn protection(&self) -> Protection<'_>
        ensures { seen (Some result) ≡ Some self.now }
    {
        Protection {
            nc: self.nc.as_slice(),
            cnonce: self.cnonce.as_slice(),
        }
    }
}
