ghost use Rattle.std.specs.Prelude.{◌≡◌, IfOk};

use crate::bytes::Bytes;
use std::alloc::{AllocError, Global};
use std::marker::Model;

/// A text that somebody else keeps, as a datagram, seen as its bytes.
#[derive(Drop)]
pub struct Text<'a> {
    bytes: &'a [u8],
}

impl<'a> Model for Text<'a> {
    ghost use Rattle.std.specs.Prelude.{ℕ, List};

    ghost Value = { List ℕ };

    ghost view = { λ t. t.bytes.now };
}

impl<'a> Text<'a> {
    /// These bytes, of which none is copied.
    #[inline]
    pub fn new(bytes: &'a [u8]) -> Self
        ensures { result ≡ bytes.now }
    {
        Text { bytes }
    }

    /// The bytes, which live as long as who keeps them.
    #[inline]
    pub fn as_slice(&self) -> &'a [u8]
        ensures { result.now ≡ self.now }
    {
        self.bytes
    }

    /// The bytes, copied. `AllocError` is the only refusal.
    #[inline]
    pub fn to_bytes(&self, alloc: Global) -> Result<Bytes, AllocError>
        ensures { IfOk result (λ bytes. bytes ≡ self.now) }
    {
        Bytes::copy(alloc, self.bytes)
    }
}
