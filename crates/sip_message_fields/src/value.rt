ghost use Rattle.std.specs.Prelude.{◌≡◌, IfOk, IfSome};

use crate::piece::ViewPiece;
use sip_text::{Bytes, Span};
use std::alloc::{AllocError, Global};
use std::marker::Model;

/// A value of a view, seen as its bytes, wherever they stand.
#[derive(Clone)]
pub struct Value<'a> {
    piece: ViewPiece<'a>,
}

/// Written out, so that it is proved once and not wherever one is dropped.
impl<'a> Drop for Value<'a> {
    fn drop(self) {
        let Value { piece: _ } = self;
    }
}

impl<'a> Model for Value<'a> {
    ghost use Rattle.std.specs.Prelude.{ℕ, List};

    ghost Value = { List ℕ };

    ghost use Rattle.sip_message_fields.specs.Piece.{bytes_of};

    ghost view = { λ v. bytes_of v.piece };
}

impl<'a> Value<'a> {
    ghost use Rattle.sip_text.specs.Span.{part, IsWithin};
    ghost use Rattle.sip_message_fields.specs.Piece.{bytes_of};

    /// A part of what was read. Takes no memory.
    #[inline]
    pub fn of_part(part: &'a [u8]) -> Self
        ensures { result ≡ part.now }
    {
        Value {
            piece: ViewPiece::Part(part),
        }
    }

    /// Bytes of its own.
    pub fn of_bytes(alloc: Global, bytes: Bytes) -> Result<Self, AllocError>
        ensures { IfOk result (λ value. value ≡ bytes) }
    {
        let buffer = bytes.into_buffer(alloc)?;
        Ok(Value {
            piece: ViewPiece::Joined(buffer),
        })
    }

    /// The bytes of a piece.
    #[inline]
    pub fn of_piece(piece: ViewPiece<'a>) -> Self
        ensures { result ≡ bytes_of piece.entry }
    {
        Value { piece }
    }

    /// The bytes, wherever they stand.
    #[inline]
    pub fn as_slice(&self) -> &[u8]
        ensures { result.now ≡ self.now }
    {
        self.piece.as_slice()
    }

    /// The part of what was read that it is, if it is one.
    pub fn as_part(&self) -> Option<&'a [u8]>
        ensures { IfSome result (λ part. part.now ≡ self.now) }
    {
        match &self.piece {
            ViewPiece::Part(part) => Some(*part),
            ViewPiece::Joined(_) => None,
        }
    }

    /// A part of the value: of a part no byte is copied.
    pub fn within(&self, alloc: Global, span: Span) -> Result<Self, AllocError>
        requires { IsWithin span self.now }
        ensures { IfOk result (λ value. value ≡ part self.now span) }
    {
        let piece = self.piece.within(alloc, span)?;
        Ok(Value::of_piece(piece))
    }
}
