ghost use Rattle.std.specs.Prelude.{◌≡◌, IfOk};
ghost use Rattle.sip_message_form.specs.Text.{text_of};

use sip_base::Shared;
use sip_message_form::{Kept, View};
use std::alloc::{AllocError, Global};
use std::marker::Model;

/// A message that is kept as its text, seen as the message: it is written once, however often its text is sent or kept.
pub struct KeptAnswer {
    message: Shared<Kept>,
}

/// Written out, so that it is proved once and not wherever one is dropped.
impl Drop for KeptAnswer {
    fn drop(self) {
        let KeptAnswer { message: _ } = self;
    }
}

impl Model for KeptAnswer {
    ghost use Rattle.sip_message_form.specs.declared.message.Message.{Message};

    ghost Value = { Message };

    ghost view = { λ w. w.message };
}

impl KeptAnswer {
    /// A message that is kept.
    pub fn of(message: Shared<Kept>) -> Self
        ensures { result ≡ message }
    {
        KeptAnswer { message }
    }

    /// The message of a view, which is written and kept. `AllocError` is the only refusal.
    pub fn of_view(alloc: Global, view: &View<'_>) -> Result<Self, AllocError>
        ensures { IfOk result (λ written. written ≡ view.now) }
    {
        let message = Shared::new(alloc, Kept::of(alloc, view)?)?;
        Ok(KeptAnswer { message })
    }

    /// The message.
    pub fn get(&self) -> &Kept
        ensures { result.now ≡ self.now }
    {
        self.message.get()
    }

    /// The message, which can get further owners.
    pub fn message(&self) -> &Shared<Kept>
        ensures { result.now ≡ self.now }
    {
        &self.message
    }

    /// Its text, of which no byte is copied.
    pub fn text(&self) -> &[u8]
        ensures { result.now ≡ text_of self.now }
    {
        self.message.get().text()
    }
}
