//! Not in the program: the server transaction of an INVITE as a machine, which the answering side of one is proved to fit.
ghost use Rattle.std.specs.Prelude.{◌≡◌, false};
ghost use Rattle.sip_transactions.specs.ServerInvite.{server_invite, runs};
ghost use Rattle.sip_transactions.specs.declared.server_invite.ServerInvite.TheVariants.{Proceeding};

use crate::server_actions::ServerAction;
use sip_timers::{Actions, Letter, T1, T2, T4, doubled};

/// A server transaction of an INVITE (RFC 3261 17.2.1, with the Accepted state of RFC 6026 7.1).
///
/// ```text
///                        INVITE
///                           |
///                           v
///                    +------------+  100 to 199: send
///                    | Proceeding |  INVITE: send again, once the core has answered
///                    +------------+
///    300 to 699: send,    |      | 200 to 299: send, L = 32000
///    G = 500, H = 32000   |      +---------------------------+
///                         v                                  v
///                   +-----------+                      +----------+
///                   | Completed |                      | Accepted |
///                   +-----------+                      +----------+
///                     |       |   INVITE: send again     |   200 to 299: send
///        ACK: I = 5000|       |   G: send again,         |   ACK: up
///                     v       |      G = min(2G, 4000)   |
///             +-----------+   |                          |
///             | Confirmed |   | H                        | L
///             +-----------+   |                          |
///                   | I       |                          |
///                   v         v                          v
///             +-----------------------------------------------+
///             |                   Terminated                  |
///             +-----------------------------------------------+
/// ```
///
/// To the left of a `:` stands what the transaction hears, to the right what is to be done; times are in
/// milliseconds. What stands beside a state leaves it as it is.
#[derive(Clone, Copy)]
pub enum ServerInvite {
    /// The core has given no final answer.
    Proceeding {
        /// Whether it has answered 100 to 199.
        answered: bool,
    },
    /// The core has answered 300 to 699, and no ACK came.
    Completed {
        /// What Timer G was last set to, in milliseconds.
        interval: u64,
    },
    /// The core has answered 300 to 699, and an ACK came.
    Confirmed,
    /// The core has answered 200 to 299.
    Accepted,
    /// The transaction is over.
    Terminated,
}

/// What a server transaction of an INVITE hears.
#[derive(Clone, Copy)]
pub enum ServerInviteInput {
    /// The INVITE came again.
    Invite,
    /// An ACK came.
    Ack,
    /// The core answers with this status.
    Answer(u16),
    /// A timer fired.
    Fired(Letter),
}

impl ServerInvite {
    /// The transaction of an INVITE that has just come.
    pub fn start() -> ServerInvite
        ensures { result ≡ Proceeding false }
    {
        ServerInvite::Proceeding { answered: false }
    }

    /// The next state, and what is to be done. What the figures don't name changes nothing.
    pub fn on(self, input: ServerInviteInput) -> (ServerInvite, Actions<ServerAction>)
        ensures { result ≡ server_invite self input }
    {
        use ServerAction::{Send, SendAgain, Start, Up};
        use ServerInvite::{Accepted, Completed, Confirmed, Proceeding, Terminated};
        use ServerInviteInput::{Ack, Answer, Fired, Invite};
        match (self, input) {
            (Proceeding { answered: true }, Invite) => (self, Actions::of(&[SendAgain])),
            (Proceeding { .. }, Answer(100..=199)) => {
                (Proceeding { answered: true }, Actions::of(&[Send]))
            }
            (Proceeding { .. }, Answer(200..=299)) => {
                (Accepted, Actions::of(&[Send, Start(Letter::L, 64 * T1)]))
            }
            (Proceeding { .. }, Answer(300..=699)) => (
                Completed { interval: T1 },
                Actions::of(&[Send, Start(Letter::G, T1), Start(Letter::H, 64 * T1)]),
            ),
            (Completed { .. }, Invite) => (self, Actions::of(&[SendAgain])),
            (Completed { interval }, Fired(Letter::G)) => {
                let interval = doubled(interval, T2);
                let actions = Actions::of(&[SendAgain, Start(Letter::G, interval)]);
                (Completed { interval }, actions)
            }
            (Completed { .. }, Ack) => (Confirmed, Actions::of(&[Start(Letter::I, T4)])),
            (Completed { .. }, Fired(Letter::H)) => (Terminated, Actions::of(&[])),
            (Confirmed, Fired(Letter::I)) => (Terminated, Actions::of(&[])),
            (Accepted, Answer(200..=299)) => (Accepted, Actions::of(&[Send])),
            (Accepted, Ack) => (Accepted, Actions::of(&[Up])),
            (Accepted, Fired(Letter::L)) => (Terminated, Actions::of(&[])),
            (state, _) => (state, Actions::of(&[])),
        }
    }

    /// Whether a timer runs in this state. One that doesn't is stopped when the state is entered.
    pub fn runs(self, letter: Letter) -> bool
        ensures { result ≡ runs self letter }
    {
        match self {
            ServerInvite::Completed { .. } => matches!(letter, Letter::G | Letter::H),
            ServerInvite::Confirmed => matches!(letter, Letter::I),
            ServerInvite::Accepted => matches!(letter, Letter::L),
            _ => false,
        }
    }
}
