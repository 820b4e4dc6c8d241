ghost use Rattle.std.specs.Prelude.{◌≡◌, ◌++◌, [], ◌∷◌, true, false, IfSome};

use std::alloc::Global;
use std::marker::Model;

/// How many bytes stand in the value itself, without a block of memory: most users, hosts, ports and tags.
pub(crate) const INSIDE: usize = 16;

/// A few bytes, in the value itself: the first `length` of its array.
#[derive(Drop)]
pub(crate) struct Few {
    bytes: [u8; INSIDE],
    length: usize,
    alloc: Global,
}

impl Model for Few {
    ghost use Rattle.std.specs.Prelude.{ℕ, ◌≤◌, List, take};

    ghost Value = { List ℕ };

    ghost view = { λ f. take f.length f.bytes };

    ghost invariant = { λ f. f.length ≤ 16 };
}

impl Few {
    /// No bytes.
    #[inline]
    pub(crate) fn new(alloc: Global) -> Self
        ensures { result ≡ [] }
    {
        Few {
            bytes: [0; INSIDE],
            length: 0,
            alloc,
        }
    }

    /// These bytes, copied; None of more than it has room for.
    #[inline]
    pub(crate) fn copy(alloc: Global, bytes: &[u8]) -> Option<Self>
        ensures { IfSome result (λ few. few ≡ bytes.now) }
    {
        let mut few = Few::new(alloc);
        if few.try_extend(bytes) {
            return Some(few);
        }
        None
    }

    /// Adds bytes at the end. Where there is no room for them, the answer is false and nothing changes.
    #[inline]
    pub(crate) fn try_extend(&mut self, more: &[u8]) -> bool
        ensures added { result ≡ true → self.new ≡ self.old ++ more.now }
        ensures full { result ≡ false → self.new ≡ self.old }
    {
        let start = self.length;
        if more.len() > INSIDE - start {
            return false;
        }
        let end = start + more.len();
        self.bytes[start..end].copy_from_slice(more);
        self.length = end;
        true
    }

    /// Adds a byte at the end. Where there is no room for it, the answer is false and nothing changes.
    #[inline]
    pub(crate) fn try_push(&mut self, byte: u8) -> bool
        ensures added { result ≡ true → self.new ≡ self.old ++ byte ∷ [] }
        ensures full { result ≡ false → self.new ≡ self.old }
    {
        let end = self.length;
        if end == INSIDE {
            return false;
        }
        self.bytes[end] = byte;
        self.length = end + 1;
        true
    }

    /// What hands out memory.
    #[inline]
    pub(crate) fn allocator(&self) -> Global {
        self.alloc
    }

    /// The bytes.
    #[inline]
    pub(crate) fn as_slice(&self) -> &[u8]
        ensures { result.now ≡ self.now }
    {
        &self.bytes[..self.length]
    }
}
