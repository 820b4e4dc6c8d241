ghost use Rattle.std.specs.Prelude.{◌≡◌, IfOk};
ghost use Rattle.sip_text.specs.Span.{part, IsWithin};
ghost use Rattle.sip_message_fields.specs.Piece.{bytes_of};
ghost use Rattle.sip_message_fields.specs.Slice.{IsPieceCutFrom};

use crate::slices::slice_of;
use sip_text::{Buffer, Span};
use std::alloc::{AllocError, Global};

/// Bytes as a view has them: a part of what was read, or bytes of their own where no part is the same.
#[derive(Clone)]
pub enum ViewPiece<'a> {
    Part(&'a [u8]),
    Joined(Buffer),
}

/// Written out, so that it is proved once and not wherever a piece is dropped.
impl<'a> Drop for ViewPiece<'a> {
    fn drop(self) {
        match self {
            ViewPiece::Part(_) => {}
            ViewPiece::Joined(_) => {}
        }
    }
}

impl<'a> ViewPiece<'a> {
    /// The bytes, wherever they stand.
    #[inline]
    pub fn as_slice(&self) -> &[u8]
        ensures { result.now ≡ bytes_of self.now }
    {
        match self {
            ViewPiece::Part(part) => part,
            ViewPiece::Joined(bytes) => bytes.as_slice(),
        }
    }

    /// A part of the piece: of a part no byte is copied.
    pub fn within(&self, alloc: Global, span: Span) -> Result<Self, AllocError>
        requires { IsWithin span (bytes_of self.now) }
        ensures bytes { IfOk result (λ piece. bytes_of piece ≡ part (bytes_of self.now) span) }
        ensures cut { IfOk result (λ piece. IsPieceCutFrom self.now piece) }
    {
        match self {
            ViewPiece::Part(slice) => Ok(ViewPiece::Part(slice_of(slice, span))),
            ViewPiece::Joined(bytes) => {
                let bytes = Buffer::copy(alloc, span.of(bytes.as_slice()))?;
                Ok(ViewPiece::Joined(bytes))
            }
        }
    }
}
