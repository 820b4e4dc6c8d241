ghost use Rattle.std.specs.Prelude.{◌≡◌, IfOk};
ghost use Rattle.sip_uri.specs.Uri.{text_of};
ghost use Rattle.sip_location.specs.KeptBinding.{uri_in, IsUriText};

use sip_base::Shared;
use sip_text::Bytes;
use std::alloc::{AllocError, Global};
use std::marker::Model;

/// The Request-URI that goes to a target, kept as its text, which may have several owners: most contacts' is the text that is
/// registered, so that no URI is made of it.
pub struct TargetUri {
    text: Shared<Bytes>,
}

/// Written out, so that it is proved once and not wherever one is dropped.
impl Drop for TargetUri {
    fn drop(self) {
        let TargetUri { text: _ } = self;
    }
}

impl Model for TargetUri {
    ghost use Rattle.sip_uri.specs.declared.uri.Uri.{Uri};
    ghost use Rattle.sip_location.specs.KeptBinding.{uri_in, IsUriText};

    ghost Value = { Uri };

    ghost view = { λ u. uri_in u.text };

    ghost invariant = { λ u. IsUriText u.text };
}

impl TargetUri {
    /// The one that a text writes. `AllocError` is the only refusal.
    pub(crate) fn of(alloc: Global, text: Bytes) -> Result<Self, AllocError>
        requires { IsUriText text }
        ensures { IfOk result (λ uri. uri ≡ uri_in text) }
    {
        let text = Shared::new(alloc, text)?;
        Ok(TargetUri { text })
    }

    /// Its text. Takes no memory.
    pub fn text(&self) -> &Shared<Bytes>
        ensures { result.now ≡ text_of self.now }
    {
        &self.text
    }
}
