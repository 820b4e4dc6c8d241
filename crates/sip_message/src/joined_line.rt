ghost use Rattle.std.specs.Prelude.{◌≡◌, true, IfOk, OnOk, length, take};
ghost use Rattle.sip_text.specs.Words.{is_token_text};
ghost use Rattle.sip_message.specs.Begins.{Begins};
ghost use Rattle.sip_message.specs.Lines.{joined};

use sip_message_fields::slice_before;
use sip_text::{without_end_blanks, without_front_blanks};
use std::alloc::{AllocError, Global};

/// A line with folds: its first part, in which the name of its field stands, and the bytes of all of it.
pub(crate) struct JoinedLine<'a> {
    pub first: &'a [u8],
    pub bytes: Vec<u8>,
    ghost begins: { Begins first.now bytes.items },
}

/// Written out, so that it is proved once and not wherever a line is dropped.
impl<'a> Drop for JoinedLine<'a> {
    fn drop(self) {
        let JoinedLine { first: _, bytes: _ } = self;
    }
}

/// Joins a fold to a line. Only the line's end and the fold are touched, so that many folds cost no more than their
/// bytes.
fn join_fold(line: &mut Vec<u8>, fold: &[u8]) -> Result<(), AllocError>
    ensures { OnOk result (line.new.items ≡ joined line.old.items fold.now) }
{
    let length = without_end_blanks(line.as_slice()).len();
    line.truncate(length);
    line.push(b' ')?;
    line.extend_from_slice(without_front_blanks(fold))
}

impl<'a> JoinedLine<'a> {
    /// A line to which no fold was joined yet.
    #[tactic(auto, using(crate::proofs::Begun::begins_itself))]
    pub(crate) fn begun(alloc: Global, first: &'a [u8]) -> Result<Self, AllocError>
        ensures { IfOk result (λ line. line.bytes.items ≡ first.now) }
    {
        let bytes = Vec::from_slice(alloc, first)?;
        Ok(JoinedLine { first, bytes })
    }

    /// The line with a fold of it.
    #[tactic(auto, using(crate::proofs::Begun::begins_joined))]
    pub(crate) fn with_fold(self, fold: &[u8]) -> Result<Self, AllocError>
        ensures { IfOk result (λ both. both.bytes.items ≡ joined self.entry.bytes.items fold.now) }
    {
        let JoinedLine { first, bytes } = self;
        let mut bytes = bytes;
        join_fold(&mut bytes, fold)?;
        Ok(JoinedLine { first, bytes })
    }

    /// The bytes of all of it.
    pub(crate) fn as_slice(&self) -> &[u8]
        ensures { result.now ≡ self.now.bytes.items }
    {
        self.bytes.as_slice()
    }

    /// The token at its front, where it stands.
    #[tactic(auto, using(crate::proofs::Begun::in_first, crate::proofs::Begun::fits_first))]
    pub(crate) fn front(&self, token: &[u8]) -> &'a [u8]
        requires is_token { is_token_text token.now ≡ true }
        requires is_front { take (length token.now) self.now.bytes.items ≡ token.now }
        ensures { result.now ≡ token.now }
    {
        slice_before(self.first, token.len())
    }
}
