//! What is known of an open request (RFC 3261 16: response context; 17.2): its answering side, its answers, its branches.
//! What changes it is in `sip_context`, its timers are in `sip_request`.
ghost use Rattle.std.specs.Prelude.{◌≡◌, true};

use crate::KeptRequest;
use crate::answer_text::AnswerText;
use crate::branch::Branch;
use crate::kept_answer::KeptAnswer;
use crate::resend::Resend;
use sip_base::Shared;
use sip_best::Final;
use sip_text::{Items, same_bytes};
use sip_transaction_table::{TransactionKey, same_key};
use sip_uri::Addr;
use std::alloc::AllocError;

/// How far the answering side of a request is, with its deadline in milliseconds: its server transaction (RFC 3261 17.2;
/// RFC 6026 7.1).
///
/// ```text
///                       a request
///                           |
///                           v
///                    +-------------+  100 to 199: it goes to the caller
///                    |  Answering  |  the request again: the last answer again
///                    +-------------+  RFC 3261: Proceeding, and Trying before any answer
///                           | 200 to 699 goes to the caller:
///                           |   G = 500, H = 32000 (300 to 699 of an INVITE);
///                           |   L = 32000 (2xx of an INVITE);  J = 32000 (another)
///                           v
///                    +-------------+  G: the answer again, G = min(2G, 4000)
///                    |   Closing   |  the request again: the answer again (of an INVITE no 2xx)
///                    +-------------+  a further 2xx of an INVITE: it goes to the caller
///                      |    |         RFC 3261: Completed;  RFC 6026: Accepted (2xx of an INVITE)
///                      |    | ACK of 300 to 699: I = 5000
///                      |    v
///                      |  +--------------+
///                      |  | Acknowledged |  RFC 3261: Confirmed
///                      |  +--------------+
///          H, J, L     |    | I
///                      v    v
///                    +-------------+
///                    |   Closed    |  RFC 3261: Terminated
///                    +-------------+
/// ```
///
/// `model_transactions` proves that each state and each step is one of the machines of `sip_transactions`.
#[derive(Clone, Copy)]
pub enum Side {
    /// It has no final answer yet: Trying, or Proceeding.
    Answering,
    /// A final answer was sent: Accepted after a 2xx of an INVITE, or Completed.
    Closing { until: u64 },
    /// An ACK of it came: Confirmed.
    Acknowledged { until: u64 },
    /// Its transaction ended: Terminated.
    Closed,
}

/// The answer that was sent last: its status and its bytes.
#[derive(Clone, Drop)]
pub struct LastAnswer {
    pub status: u16,
    pub text: AnswerText,
}

/// An open request. What many of its states have in common is shared: a clone copies its branches and its numbers, and no text.
pub struct OpenRequest {
    pub key: Shared<TransactionKey>,
    /// The request as it came, and where it came from.
    pub request: Shared<KeptRequest>,
    /// The number of the datagram that brought it.
    pub number: u64,
    /// When it came, in milliseconds.
    pub arrived_at: u64,
    /// The answer that was sent last.
    pub answer: Option<LastAnswer>,
    pub side: Side,
    /// When the last answer goes again, while it does.
    pub again: Resend,
    /// The final answers of its branches, in order of arrival (RFC 3261 16: response context).
    pub finals: Items<Final>,
    pub branches: Items<Branch>,
}

/// Written out, so that what can't be refused isn't asked for.
impl Clone for OpenRequest {
    ghost is_clone = { λ request copy. copy ≡ request };

    fn clone(&self) -> Result<OpenRequest, AllocError> {
        let key = self.key.clone()?;
        let request = self.request.clone()?;
        let answer = self.answer.clone()?;
        let finals = self.finals.clone()?;
        let branches = self.branches.clone()?;
        Ok(OpenRequest {
            key,
            request,
            number: self.number,
            arrived_at: self.arrived_at,
            answer,
            side: self.side,
            again: self.again,
            finals,
            branches,
        })
    }
}

impl Side {
    /// Only where another is the same, with its deadline. Takes no memory.
    pub fn is_same(self, next: Side) -> bool
        ensures { result ≡ true → self ≡ next }
    {
        match (self, next) {
            (Side::Answering, Side::Answering) => true,
            (Side::Closing { until }, Side::Closing { until: other }) => until == other,
            (Side::Acknowledged { until }, Side::Acknowledged { until: other }) => until == other,
            (Side::Closed, Side::Closed) => true,
            _ => false,
        }
    }
}

impl LastAnswer {
    /// Only where another is the same.
    fn is_same(&self, other: &LastAnswer) -> bool
        ensures { result ≡ true → self.now ≡ other.now }
    {
        if self.status != other.status {
            return false;
        }
        same_bytes(self.text.as_slice(), other.text.as_slice())
    }
}

/// Only where two last answers are the same, or there is neither.
fn same_answer(left: &Option<LastAnswer>, right: &Option<LastAnswer>) -> bool
    ensures { result ≡ true → left.now ≡ right.now }
{
    match (left, right) {
        (Some(one), Some(other)) => one.is_same(other),
        (None, None) => true,
        _ => false,
    }
}

/// Only where two lists have the same final answers, in their order.
fn same_finals(left: &[Final], right: &[Final]) -> bool
    ensures { result ≡ true → left.now ≡ right.now }
{
    if left.len() != right.len() {
        return false;
    }
    for (at, one) in left.iter().enumerate() {
        if !one.is_same(&right[at]) {
            return false;
        }
    }
    true
}

/// Only where two lists have the same branches, in their order.
fn same_branches(left: &[Branch], right: &[Branch]) -> bool
    ensures { result ≡ true → left.now ≡ right.now }
{
    if left.len() != right.len() {
        return false;
    }
    for (at, one) in left.iter().enumerate() {
        if !one.is_same(&right[at]) {
            return false;
        }
    }
    true
}

impl OpenRequest {
    /// Only where another came as it did: its number, its moment and its key.
    fn came_as(&self, other: &OpenRequest) -> bool
        ensures { result ≡ true → (self.now.number ≡ other.now.number) × (self.now.arrived_at ≡ other.now.arrived_at)
            × (self.now.key ≡ other.now.key) }
    {
        if self.number != other.number {
            return false;
        }
        if self.arrived_at != other.arrived_at {
            return false;
        }
        same_key(self.key.get(), other.key.get())
    }

    /// Only where another is answered as it is: its last answer, how far its answering side is, and when that answer goes again.
    fn is_answered_as(&self, other: &OpenRequest) -> bool
        ensures { result ≡ true → (self.now.answer ≡ other.now.answer) × (self.now.side ≡ other.now.side)
            × (self.now.again ≡ other.now.again) }
    {
        same_answer(&self.answer, &other.answer)
            && self.side.is_same(other.side)
            && self.again.is_same(other.again)
    }

    /// Only where another is the same, each part as far; so it does where both came of the same events. Takes no memory, and
    /// costs by its texts.
    pub fn is_same(&self, other: &OpenRequest) -> bool
        ensures { result ≡ true → self.now ≡ other.now }
    {
        if !self.came_as(other) {
            return false;
        }
        if !self.is_answered_as(other) {
            return false;
        }
        let finals = self.finals.as_slice();
        if !same_finals(finals, other.finals.as_slice()) {
            return false;
        }
        let branches = self.branches.as_slice();
        if !same_branches(branches, other.branches.as_slice()) {
            return false;
        }
        self.request.get().is_same(other.request.get())
    }
}

/// Written out, so that it is proved once and not wherever one is dropped.
impl Drop for OpenRequest {
    fn drop(self) {
        let OpenRequest {
            key: _,
            request: _,
            number: _,
            arrived_at: _,
            answer: _,
            side: _,
            again: _,
            finals: _,
            branches: _,
        } = self;
    }
}

/// An answer that goes to the caller: its status, the message with its text, and the address of the branch that it came
/// from, if it came from one.
pub struct Upward {
    pub status: u16,
    pub message: KeptAnswer,
    pub target: Option<Addr>,
}

/// Written out, so that it is proved once and not wherever one is dropped.
impl Drop for Upward {
    fn drop(self) {
        let Upward {
            status: _,
            message: _,
            target: _,
        } = self;
    }
}
