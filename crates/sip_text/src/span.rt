/// A part of a source: the bytes from index `start` up to index `end`, which is not in it.
#[derive(Clone, Copy)]
pub struct Span {
    pub start: usize,
    pub end: usize,
}

impl Span {
    ghost use Rattle.std.specs.Prelude.{◌≡◌, true};
    ghost use Rattle.sip_text.specs.Span.{IsWithin, part};

    /// Only where it is another one. Takes no memory.
    #[inline]
    pub fn is_same(self, other: Span) -> bool
        ensures { result ≡ true → self ≡ other }
    {
        self.start == other.start && self.end == other.end
    }

    /// The bytes of this part.
    #[inline]
    pub fn of(self, source: &[u8]) -> &[u8]
        requires { IsWithin self source.now }
        ensures { result.now ≡ part source.now self }
    {
        &source[self.start..self.end]
    }
}
