ghost use Rattle.std.specs.Prelude.{◌≡◌, ◌≤◌, take, drop, length};
ghost use Rattle.sip_text.specs.Span.{part, IsWithin};
ghost use Rattle.sip_message_fields.specs.Slice.{IsSliceOf, IsCutFrom};

use sip_text::Span;

/// The slice of a source that a span names.
pub fn slice_of(source: &[u8], span: Span) -> &[u8]
    requires { IsWithin span source.now }
    ensures value { result.now ≡ part source.now span }
    ensures slice { IsSliceOf source.entry result }
    ensures cut { IsCutFrom source.entry result }
{
    &source[span.start..span.end]
}

/// The slice of a source before an index.
pub fn slice_before(source: &[u8], end: usize) -> &[u8]
    requires { end ≤ length source.now }
    ensures value { result.now ≡ take end source.now }
    ensures slice { IsSliceOf source.entry result }
    ensures cut { IsCutFrom source.entry result }
{
    slice_of(source, Span { start: 0, end })
}

/// The slice of a source from an index on.
pub fn slice_from(source: &[u8], start: usize) -> &[u8]
    requires { start ≤ length source.now }
    ensures value { result.now ≡ drop start source.now }
    ensures slice { IsSliceOf source.entry result }
    ensures cut { IsCutFrom source.entry result }
{
    let end = source.len();
    slice_of(source, Span { start, end })
}
