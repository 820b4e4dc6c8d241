ghost use Rattle.std.specs.Prelude.{◌≡◌, ◌++◌, [], IfOk, OnOk, OnErr, decimal};

use crate::bytes::Bytes;
use crate::store::put_decimal;
use std::alloc::{AllocError, Global};
use std::marker::Model;

/// What a longer text is written into, in one block of memory, seen as the bytes that it has.
#[derive(Clone)]
pub struct Buffer {
    block: Vec<u8>,
}

/// Written out, so that it is proved once and not wherever one is dropped.
impl Drop for Buffer {
    #[inline]
    fn drop(self) {
        let Buffer { block: _ } = self;
    }
}

impl Model for Buffer {
    ghost use Rattle.std.specs.Prelude.{ℕ, List};

    ghost Value = { List ℕ };

    ghost view = { λ b. b.block.items };
}

impl Buffer {
    /// No bytes, and room for so many.
    #[inline]
    pub fn with_room(alloc: Global, room: usize) -> Result<Self, AllocError>
        ensures { IfOk result (λ buffer. buffer ≡ []) }
    {
        Ok(Buffer {
            block: Vec::with_capacity(alloc, room)?,
        })
    }

    /// These bytes, copied.
    pub fn copy(alloc: Global, bytes: &[u8]) -> Result<Self, AllocError>
        ensures { IfOk result (λ buffer. buffer ≡ bytes.now) }
    {
        let block = Vec::from_slice(alloc, bytes)?;
        Ok(Buffer { block })
    }

    /// The bytes of a block of memory, which stay there.
    #[inline]
    pub(crate) fn of_block(block: Vec<u8>) -> Self
        ensures { result ≡ block.items }
    {
        Buffer { block }
    }

    /// Adds bytes at the end.
    #[inline]
    pub fn extend(&mut self, more: &[u8]) -> Result<(), AllocError>
        ensures ok { OnOk result (self.new ≡ self.old ++ more.now) }
        ensures err { OnErr result (self.new ≡ self.old) }
    {
        self.block.extend_from_slice(more)
    }

    /// Adds a number in decimal at the end.
    pub fn push_decimal(&mut self, number: u64) -> Result<(), AllocError>
        ensures ok { OnOk result (self.new ≡ self.old ++ decimal number) }
        ensures err { OnErr result (self.new ≡ self.old) }
    {
        put_decimal(&mut self.block, number)
    }

    /// The bytes.
    #[inline]
    pub fn as_slice(&self) -> &[u8]
        ensures { result.now ≡ self.now }
    {
        self.block.as_slice()
    }

    /// The bytes, which stay where they are.
    #[inline]
    pub fn into_bytes(self) -> Bytes
        ensures { result ≡ self }
    {
        let Buffer { block } = self;
        Bytes::of_block(block)
    }
}
