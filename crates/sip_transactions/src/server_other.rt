ghost use Rattle.std.specs.Prelude.{◌≡◌};
ghost use Rattle.sip_transactions.specs.ServerOther.{server_other, runs};
ghost use Rattle.sip_transactions.specs.declared.server_other.ServerOther.TheVariants.{Trying};

use crate::server_actions::ServerAction;
use sip_timers::{Actions, Letter, T1};

/// A server transaction of a request that isn't an INVITE (RFC 3261 17.2.2).
///
/// ```text
///           request
///              |
///              v
///       +------------+    200 to 699: send, J = 32000
///       |   Trying   |------------------------+
///       +------------+                        |
///              | 101 to 199: send             |
///              v                              |
///       +------------+  101 to 199: send      |
///       | Proceeding |  request: send again   |
///       +------------+                        |
///              | 200 to 699: send, J = 32000  |
///              v                              |
///       +------------+                        |
///       | Completed  |<-----------------------+
///       +------------+  request: send again
///              | J
///              v
///       +------------+
///       | Terminated |
///       +------------+
/// ```
///
/// To the left of a `:` stands what the transaction hears, to the right what is to be done; times are in
/// milliseconds. What stands beside a state leaves it as it is.
#[derive(Clone, Copy)]
pub enum ServerOther {
    /// The core has answered nothing yet.
    Trying,
    /// The core has answered 101 to 199.
    Proceeding,
    /// The core has answered 200 to 699.
    Completed,
    /// The transaction is over.
    Terminated,
}

/// What a server transaction of a request that isn't an INVITE hears.
#[derive(Clone, Copy)]
pub enum ServerOtherInput {
    /// The request came again.
    Request,
    /// The core answers with this status.
    Answer(u16),
    /// A timer fired.
    Fired(Letter),
}

impl ServerOther {
    /// The transaction of a request that has just come.
    pub fn start() -> ServerOther
        ensures { result ≡ Trying }
    {
        ServerOther::Trying
    }

    /// The next state, and what is to be done. What the figure doesn't name changes nothing.
    pub fn on(self, input: ServerOtherInput) -> (ServerOther, Actions<ServerAction>)
        ensures { result ≡ server_other self input }
    {
        use ServerOther::{Completed, Proceeding, Terminated, Trying};
        use ServerOtherInput::{Answer, Fired, Request};
        match (self, input) {
            (Trying | Proceeding, Answer(101..=199)) => {
                (Proceeding, Actions::of(&[ServerAction::Send]))
            }
            (Proceeding, Request) => (Proceeding, Actions::of(&[ServerAction::SendAgain])),
            (Trying | Proceeding, Answer(200..=699)) => (
                Completed,
                Actions::of(&[ServerAction::Send, ServerAction::Start(Letter::J, 64 * T1)]),
            ),
            (Completed, Request) => (Completed, Actions::of(&[ServerAction::SendAgain])),
            (Completed, Fired(Letter::J)) => (Terminated, Actions::of(&[])),
            (state, _) => (state, Actions::of(&[])),
        }
    }

    /// Whether a timer runs in this state. One that doesn't is stopped when the state is entered.
    pub fn runs(self, letter: Letter) -> bool
        ensures { result ≡ runs self letter }
    {
        matches!((self, letter), (ServerOther::Completed, Letter::J))
    }
}
