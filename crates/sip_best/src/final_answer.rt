ghost use Rattle.std.specs.Prelude.{◌≡◌, true};

use sip_base::Shared;
use sip_message_form::Kept;

/// The final answer of a branch: its status, and the message that came, without its top Via. No message
/// came where the answer is made here (RFC 3261 16.7 and 16.8). A clone shares the message.
#[derive(Clone, Drop)]
pub struct Final {
    pub status: u16,
    pub message: Option<Shared<Kept>>,
}

/// Only where two messages are the same, or neither came.
fn same_message(left: &Option<Shared<Kept>>, right: &Option<Shared<Kept>>) -> bool
    ensures { result ≡ true → left.now ≡ right.now }
{
    match (left, right) {
        (Some(one), Some(other)) => one.get().is_same(other.get()),
        (None, None) => true,
        _ => false,
    }
}

impl Final {
    /// Only where another is the same. Takes no memory.
    pub fn is_same(&self, other: &Final) -> bool
        ensures { result ≡ true → self.now ≡ other.now }
    {
        self.status == other.status && same_message(&self.message, &other.message)
    }
}
