//! The byte string of this project: bytes that a value owns. Bytes that are lent are a `Text`.
ghost use Rattle.std.specs.Prelude.{◌≡◌, ◌++◌, [], ◌∷◌, IfOk, OnOk, OnErr, decimal};

use crate::buffer::Buffer;
use crate::store::Store;
use std::alloc::{AllocError, Global};
use std::marker::Model;

/// Bytes of its own, seen as the list of them. A few of them, 16 at most, take no memory beside the value itself.
pub struct Bytes {
    store: Store,
}

/// Written out, so that it is proved once and not wherever one is dropped.
impl Drop for Bytes {
    #[inline]
    fn drop(self) {
        let Bytes { store: _ } = self;
    }
}

impl Model for Bytes {
    ghost use Rattle.std.specs.Prelude.{ℕ, List};

    ghost Value = { List ℕ };

    ghost use Rattle.sip_text.specs.Store.{stored};

    ghost view = { λ b. stored b.store };
}

/// Written out, so that a copy is known to be equal.
impl Clone for Bytes {
    ghost is_clone = { λ bytes copy. copy ≡ bytes };

    fn clone(&self) -> Result<Bytes, AllocError> {
        Bytes::copy(self.store.allocator(), self.as_slice())
    }
}

impl Bytes {
    /// What hands out its memory.
    #[inline]
    pub fn allocator(&self) -> Global {
        self.store.allocator()
    }

    /// No bytes. Takes no memory.
    #[inline]
    pub fn new(alloc: Global) -> Self
        ensures { result ≡ [] }
    {
        Bytes {
            store: Store::new(alloc),
        }
    }

    /// No bytes, and room for so many.
    #[inline]
    pub fn with_room(alloc: Global, room: usize) -> Result<Self, AllocError>
        ensures { IfOk result (λ bytes. bytes ≡ []) }
    {
        Ok(Bytes {
            store: Store::with_room(alloc, room)?,
        })
    }

    /// These bytes, copied.
    #[inline]
    pub fn copy(alloc: Global, bytes: &[u8]) -> Result<Self, AllocError>
        ensures { IfOk result (λ copy. copy ≡ bytes.now) }
    {
        Ok(Bytes {
            store: Store::copy(alloc, bytes)?,
        })
    }

    /// The bytes of a block of memory, which stay there.
    #[inline]
    pub(crate) fn of_block(block: Vec<u8>) -> Self
        ensures { result ≡ block.items }
    {
        Bytes {
            store: Store::Outside(block),
        }
    }

    /// The bytes in a buffer: those in a block of memory stay there, a few are copied.
    pub fn into_buffer(self, alloc: Global) -> Result<Buffer, AllocError>
        ensures { IfOk result (λ buffer. buffer ≡ self) }
    {
        let Bytes { store } = self;
        match store {
            Store::Outside(block) => Ok(Buffer::of_block(block)),
            Store::Inside(few) => Buffer::copy(alloc, few.as_slice()),
        }
    }

    /// Two texts, one behind the other.
    pub fn joined(alloc: Global, front: &[u8], back: &[u8]) -> Result<Self, AllocError>
        ensures { IfOk result (λ both. both ≡ front.now ++ back.now) }
    {
        let mut both = Bytes::with_room(alloc, front.len().saturating_add(back.len()))?;
        both.extend(front)?;
        both.extend(back)?;
        Ok(both)
    }

    /// Adds a byte at the end.
    #[inline]
    pub fn push(&mut self, byte: u8) -> Result<(), AllocError>
        ensures ok { OnOk result (self.new ≡ self.old ++ byte ∷ []) }
        ensures err { OnErr result (self.new ≡ self.old) }
    {
        self.store.push(byte)
    }

    /// Adds bytes at the end.
    #[inline]
    pub fn extend(&mut self, more: &[u8]) -> Result<(), AllocError>
        ensures ok { OnOk result (self.new ≡ self.old ++ more.now) }
        ensures err { OnErr result (self.new ≡ self.old) }
    {
        self.store.extend(more)
    }

    /// Adds a number in decimal at the end.
    #[inline]
    pub fn push_decimal(&mut self, number: u64) -> Result<(), AllocError>
        ensures ok { OnOk result (self.new ≡ self.old ++ decimal number) }
        ensures err { OnErr result (self.new ≡ self.old) }
    {
        self.store.push_decimal(number)
    }

    /// The bytes.
    #[inline]
    pub fn as_slice(&self) -> &[u8]
        ensures { result.now ≡ self.now }
    {
        self.store.as_slice()
    }
}
