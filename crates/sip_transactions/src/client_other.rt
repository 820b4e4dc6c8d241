//! Not in the program: the client transaction of any other request as a machine, which branches and CANCELs are proved to fit.
ghost use Rattle.std.specs.Prelude.{◌≡◌};
ghost use Rattle.sip_transactions.specs.ClientOther.{client_other, start, runs};

use crate::client_actions::{ClientAction, Report};
use sip_timers::{Actions, Letter, T1, T2, T4, doubled};

/// A client transaction of a request that isn't an INVITE (RFC 3261 17.1.2).
///
/// ```text
///              | start: send, E = 500, F = 32000
///              v
///       +------------+  E: send again, E = min(2E, 4000)
///       |   Trying   |
///       +------------+
///         |    |   | F: up timeout
///         |    |   | fault: up unavailable
///         |    |   +-----------------------------------+
///         |    | 100 to 199: up                        |
///         |    v                                       |
///         |  +------------+  E: send again, E = 4000   |
///         |  | Proceeding |  100 to 199: up            |
///         |  +------------+                            |
///         |    |   | F: up timeout                     |
///         |    |   +-----------------------------------+
///         |    | 200 to 699: up, K = 5000              |
///         v    v                                       |
///       +------------+                                 |
///       | Completed  |                                 |
///       +------------+                                 |
///              | K                                     |
///              v                                       |
///       +------------+                                 |
///       | Terminated |<--------------------------------+
///       +------------+
/// ```
///
/// To the left of a `:` stands what the transaction hears, to the right what is to be done; times are in
/// milliseconds. What stands beside a state leaves it as it is.
#[derive(Clone, Copy)]
pub enum ClientOther {
    /// No response came.
    Trying {
        /// What Timer E was last set to, in milliseconds.
        interval: u64,
    },
    /// A response of 100 to 199 came.
    Proceeding,
    /// A response of 200 to 699 came.
    Completed,
    /// The transaction is over.
    Terminated,
}

/// What a client transaction of a request that isn't an INVITE hears.
#[derive(Clone, Copy)]
pub enum ClientOtherInput {
    /// A response of this status came.
    Received(u16),
    /// A timer fired.
    Fired(Letter),
    /// The request could not be sent.
    Fault,
}

impl ClientOther {
    /// The transaction of a request that is to be sent now.
    pub fn start() -> (ClientOther, Actions<ClientAction>)
        ensures { result ≡ start }
    {
        use ClientAction::{Send, Start};
        (
            ClientOther::Trying { interval: T1 },
            Actions::of(&[Send, Start(Letter::E, T1), Start(Letter::F, 64 * T1)]),
        )
    }

    /// The next state, and what is to be done. What the figure doesn't name changes nothing.
    pub fn on(self, input: ClientOtherInput) -> (ClientOther, Actions<ClientAction>)
        ensures { result ≡ client_other self input }
    {
        use ClientAction::{SendAgain, Start, Up};
        use ClientOther::{Completed, Proceeding, Terminated, Trying};
        use ClientOtherInput::{Fault, Fired, Received};
        use Report::{Response, Timeout, Unavailable};
        match (self, input) {
            (Trying { interval }, Fired(Letter::E)) => {
                let interval = doubled(interval, T2);
                let actions = Actions::of(&[SendAgain, Start(Letter::E, interval)]);
                (Trying { interval }, actions)
            }
            (Trying { .. }, Fault) => (Terminated, Actions::of(&[Up(Unavailable)])),
            (Trying { .. }, Received(100..=199)) => (Proceeding, Actions::of(&[Up(Response)])),
            (Proceeding, Fired(Letter::E)) => {
                (Proceeding, Actions::of(&[SendAgain, Start(Letter::E, T2)]))
            }
            (Proceeding, Received(100..=199)) => (Proceeding, Actions::of(&[Up(Response)])),
            (Trying { .. } | Proceeding, Fired(Letter::F)) => {
                (Terminated, Actions::of(&[Up(Timeout)]))
            }
            (Trying { .. } | Proceeding, Received(200..=699)) => {
                (
                    Completed,
                    Actions::of(&[Up(Response), Start(Letter::K, T4)]),
                )
            }
            (Completed, Fired(Letter::K)) => (Terminated, Actions::of(&[])),
            (state, _) => (state, Actions::of(&[])),
        }
    }

    /// Whether a timer runs in this state. One that doesn't is stopped when the state is entered.
    pub fn runs(self, letter: Letter) -> bool
        ensures { result ≡ runs self letter }
    {
        match self {
            ClientOther::Trying { .. } | ClientOther::Proceeding => {
                matches!(letter, Letter::E | Letter::F)
            }
            ClientOther::Completed => matches!(letter, Letter::K),
            ClientOther::Terminated => false,
        }
    }
}
