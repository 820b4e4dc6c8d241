ghost use Rattle.std.specs.Prelude.{◌≡◌, codes, false, IfOk};
ghost use Rattle.std.specs.Str.{bytes_eq};
ghost use Rattle.sip_transaction_table.specs.KeyMethod.{method_in, IsTold};

use crate::known_method::KnownMethod;
use crate::method_text::MethodText;
use sip_text::{Bytes, same_bytes};
use std::alloc::{AllocError, Global};
use std::marker::Model;

/// The method of a key, seen as its bytes. Whether it is INVITE is asked of an open request at every turn, and told without
/// them.
pub struct KeyMethod {
    text: MethodText,
}

/// Written out, so that it is proved once and not wherever one is dropped.
impl Drop for KeyMethod {
    fn drop(self) {
        let KeyMethod { text: _ } = self;
    }
}

impl Model for KeyMethod {
    ghost use Rattle.std.specs.Prelude.{ℕ, List};
    ghost use Rattle.sip_transaction_table.specs.KeyMethod.{method_in, IsTold};

    ghost Value = { List ℕ };

    ghost view = { λ m. method_in m.text };

    ghost invariant = { λ m. IsTold m.text };
}

/// Where the bytes of a method stand that isn't INVITE.
fn other_text(alloc: Global, method: &[u8]) -> Result<MethodText, AllocError>
    requires { bytes_eq method.now (codes "INVITE") ≡ false }
    ensures { IfOk result (λ text. (method_in text ≡ method.now) × IsTold text) }
{
    if let Some(known) = KnownMethod::of_other(method) {
        return Ok(MethodText::Known(known));
    }
    let bytes = Box::new(alloc, Bytes::copy(alloc, method)?)?;
    Ok(MethodText::Other(bytes))
}

impl KeyMethod {
    /// A method, copied. `AllocError` is the only refusal.
    pub(crate) fn copy(alloc: Global, method: &[u8]) -> Result<Self, AllocError>
        ensures { IfOk result (λ copy. copy ≡ method.now) }
    {
        if same_bytes(method, b"INVITE") {
            let text = MethodText::Known(KnownMethod::Invite);
            return Ok(KeyMethod { text });
        }
        let text = other_text(alloc, method)?;
        Ok(KeyMethod { text })
    }

    /// Whether it is INVITE, byte by byte. Takes no memory.
    #[inline]
    pub fn is_invite(&self) -> bool
        ensures { result ≡ bytes_eq self.now (codes "INVITE") }
    {
        match &self.text {
            MethodText::Known(known) => known.is_invite(),
            MethodText::Other(_) => false,
        }
    }

    /// Its bytes. Takes no memory.
    #[inline]
    pub fn as_slice(&self) -> &[u8]
        ensures { result.now ≡ self.now }
    {
        match &self.text {
            MethodText::Known(known) => known.spelling(),
            MethodText::Other(bytes) => bytes.as_slice(),
        }
    }
}
