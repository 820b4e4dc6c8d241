ghost use Rattle.std.specs.Prelude.{◌≡◌, [], IfOk};

use sip_base::Shared;
use sip_text::Buffer;
use std::alloc::{AllocError, Global};
use std::marker::Model;

/// The text of an answer that was sent, seen as its bytes; of some answers none is kept. A clone copies no byte. It is a `Buffer`,
/// which takes eight bytes less than `Bytes`.
#[derive(Clone, Drop)]
pub struct AnswerText {
    bytes: Option<Shared<Buffer>>,
}

impl Model for AnswerText {
    ghost use Rattle.std.specs.Prelude.{ℕ, List};
    ghost use Rattle.sip_state.specs.AnswerText.{text_in};

    ghost Value = { List ℕ };

    ghost view = { λ t. text_in t.bytes };
}

impl AnswerText {
    /// No text.
    pub fn none() -> Self
        ensures { result ≡ [] }
    {
        AnswerText { bytes: None }
    }

    /// A copy of a text. `AllocError` is the only refusal.
    pub fn copy(alloc: Global, text: &[u8]) -> Result<Self, AllocError>
        ensures { IfOk result (λ copy. copy ≡ text.now) }
    {
        let bytes = Shared::new(alloc, Buffer::copy(alloc, text)?)?;
        Ok(AnswerText { bytes: Some(bytes) })
    }

    /// The bytes.
    pub fn as_slice(&self) -> &[u8]
        ensures { result.now ≡ self.now }
    {
        match &self.bytes {
            None => b"",
            Some(bytes) => bytes.get().as_slice(),
        }
    }
}
