//! Not in the program: the client transaction of an INVITE as a machine, which the branches of an INVITE are proved to fit.
ghost use Rattle.std.specs.Prelude.{◌≡◌};
ghost use Rattle.sip_transactions.specs.ClientInvite.{client_invite, start, runs};

use crate::client_actions::{ClientAction, Report};
use sip_timers::{Actions, Letter, T1, doubled};

/// A client transaction of an INVITE (RFC 3261 17.1.1, with the Accepted state of RFC 6026 7.2).
///
/// ```text
///            | start: send, A = 500, B = 32000
///            v
///     +------------+  A: send again, A = min(2A, 32000)
///     |  Calling   |
///     +------------+
///       |    |   | B: up timeout
///       |    |   | fault: up unavailable
///       |    |   +--------------------------------------+
///       |    | 100 to 199: up                           |
///       |    v                                          |
///       |  +------------+  100 to 199: up               |
///       |  | Proceeding |                               |
///       |  +------------+                               |
///       |    |   | given up                             |
///       |    |   +--------------------------------------+
///       |    |                                          |
///       +----+--------------------+                     |
///       | 300 to 699: ACK, up,    | 200 to 299: up,     |
///       | D = 32000               | M = 32000           |
///       v                         v                     |
///     +-----------+  300 to 699:  +----------+          |
///     | Completed |  ACK again    | Accepted |          |
///     +-----------+               +----------+          |
///       | D                       | M   200 to 299: up  |
///       v                         v                     v
///     +---------------------------------------------------+
///     |                    Terminated                     |
///     +---------------------------------------------------+
/// ```
///
/// To the left of a `:` stands what the transaction hears, to the right what is to be done; times are in
/// milliseconds. What stands beside a state leaves it as it is.
#[derive(Clone, Copy)]
pub enum ClientInvite {
    /// No response came.
    Calling {
        /// What Timer A was last set to, in milliseconds.
        interval: u64,
    },
    /// A response of 100 to 199 came.
    Proceeding,
    /// A response of 300 to 699 came.
    Completed,
    /// A response of 200 to 299 came.
    Accepted,
    /// The transaction is over.
    Terminated,
}

/// What a client transaction of an INVITE hears.
#[derive(Clone, Copy)]
pub enum ClientInviteInput {
    /// A response of this status came.
    Received(u16),
    /// A timer fired.
    Fired(Letter),
    /// The INVITE could not be sent.
    Fault,
    /// The core waits no longer for a final response to an INVITE that it has cancelled (RFC 3261 9.1).
    GivenUp,
}

impl ClientInvite {
    /// The transaction of an INVITE that is to be sent now.
    pub fn start() -> (ClientInvite, Actions<ClientAction>)
        ensures { result ≡ start }
    {
        use ClientAction::{Send, Start};
        (
            ClientInvite::Calling { interval: T1 },
            Actions::of(&[Send, Start(Letter::A, T1), Start(Letter::B, 64 * T1)]),
        )
    }

    /// The next state, and what is to be done. What the figures don't name changes nothing.
    pub fn on(self, input: ClientInviteInput) -> (ClientInvite, Actions<ClientAction>)
        ensures { result ≡ client_invite self input }
    {
        use ClientAction::{Ack, AckAgain, SendAgain, Start, Up};
        use ClientInvite::{Accepted, Calling, Completed, Proceeding, Terminated};
        use ClientInviteInput::{Fault, Fired, GivenUp, Received};
        use Report::{Response, Timeout, Unavailable};
        match (self, input) {
            (Calling { interval }, Fired(Letter::A)) => {
                let interval = doubled(interval, 64 * T1);
                let actions = Actions::of(&[SendAgain, Start(Letter::A, interval)]);
                (Calling { interval }, actions)
            }
            (Calling { .. }, Fired(Letter::B)) => (Terminated, Actions::of(&[Up(Timeout)])),
            (Calling { .. }, Fault) => (Terminated, Actions::of(&[Up(Unavailable)])),
            (Calling { .. } | Proceeding, Received(100..=199)) => {
                (Proceeding, Actions::of(&[Up(Response)]))
            }
            (Calling { .. } | Proceeding, Received(200..=299)) => (
                Accepted,
                Actions::of(&[Up(Response), Start(Letter::M, 64 * T1)]),
            ),
            (Calling { .. } | Proceeding, Received(300..=699)) => (
                Completed,
                Actions::of(&[Ack, Up(Response), Start(Letter::D, 64 * T1)]),
            ),
            (Proceeding, GivenUp) => (Terminated, Actions::of(&[])),
            (Completed, Received(300..=699)) => (Completed, Actions::of(&[AckAgain])),
            (Completed, Fired(Letter::D)) => (Terminated, Actions::of(&[])),
            (Accepted, Received(200..=299)) => (Accepted, Actions::of(&[Up(Response)])),
            (Accepted, Fired(Letter::M)) => (Terminated, Actions::of(&[])),
            (state, _) => (state, Actions::of(&[])),
        }
    }

    /// Whether a timer runs in this state. One that doesn't is stopped when the state is entered.
    pub fn runs(self, letter: Letter) -> bool
        ensures { result ≡ runs self letter }
    {
        match self {
            ClientInvite::Calling { .. } => matches!(letter, Letter::A | Letter::B),
            ClientInvite::Completed => matches!(letter, Letter::D),
            ClientInvite::Accepted => matches!(letter, Letter::M),
            ClientInvite::Proceeding | ClientInvite::Terminated => false,
        }
    }
}
