//! A branch of an open request (RFC 3261 16.6, 17.1): where its request went, how far it is, and what of it goes again.
ghost use Rattle.std.specs.Prelude.{◌≡◌, true};

use crate::resend::Resend;
use sip_base::Shared;
use sip_text::{Bytes, same_bytes};
use sip_uri::Addr;
use std::alloc::AllocError;

/// How far a branch is, with its deadline in milliseconds: the client transaction of its request, and Timer C of an INVITE
/// (RFC 3261 9.1, 16.6 step 11, 17.1; RFC 6026 7.2).
///
/// ```text
///            | its request goes to the target: B or F = 32000
///            v
///     +------------+  A (INVITE), E (another): it goes again
///     |  Unheard   |  RFC 3261: Calling, Trying
///     +------------+
///       |    |   | B, F: 408;  a fault: 503
///       |    |   +----------------------------------------+
///       |    | 100 to 199                                 |
///       |    v                                            |
///       |  +------------+  101 to 199 of an INVITE:       |
///       |  |   Heard    |    C = 185000                   |
///       |  +------------+  E (no INVITE): it goes again   |
///       |    |   |   |  RFC 3261: Proceeding              |
///       |    |   |   | F (no INVITE): 408                 |
///       |    |   |   +------------------------------------+
///       |    |   | C, or the search ends: CANCEL,         |
///       |    |   |   32000 to wait for a final response   |
///       |    |   v                                        |
///       |    |  +------------+                            |
///       |    |  | Cancelled  |  RFC 3261: Proceeding      |
///       |    |  +------------+                            |
///       |    |    |   | nothing came: 487                 |
///       |    |    |   +-----------------------------------+
///       +----+----+ 200 to 699                            |
///            |   of an INVITE: D or M = 32000, and ACK    |
///            |     where it is no 2xx; of another: K = 5000
///            v                                            |
///     +------------+  of an INVITE, a 2xx after a 2xx: up;|
///     |    Done    |    300 to 699 after one: ACK again   |
///     +------------+  RFC 6026: Accepted (after a 2xx of  |
///            |          an INVITE); RFC 3261: Completed   |
///            | D, M, K                                    |
///            v                                            v
///     +---------------------------------------------------+
///     |                 Ended: Terminated                 |
///     +---------------------------------------------------+
/// ```
///
/// To the left of a `:` stands what happens, to the right what is done, a status that the branch counts as if it had
/// answered with it, or what the state is called there. The branch of a CANCEL goes the same way, but ends with nothing.
/// `model_transactions` proves that each state and each step is one of the machines of `sip_transactions`.
#[derive(Clone, Copy)]
pub enum Phase {
    /// No response came: Calling, or Trying.
    Unheard { until: u64 },
    /// A provisional response came: Proceeding.
    Heard { until: u64 },
    /// It was sent CANCEL: Proceeding, and no longer than its CANCEL may take.
    Cancelled { until: u64 },
    /// Its final answer came, of this status: Accepted after a 2xx of an INVITE, or Completed.
    Done { until: u64, status: u16 },
    /// Its transaction ended: Terminated.
    Ended,
}

impl Phase {
    /// Only where another is the same, with its deadline. Takes no memory.
    pub fn is_same(self, next: Phase) -> bool
        ensures { result ≡ true → self ≡ next }
    {
        match (self, next) {
            (Phase::Unheard { until }, Phase::Unheard { until: other }) => until == other,
            (Phase::Heard { until }, Phase::Heard { until: other }) => until == other,
            (Phase::Cancelled { until }, Phase::Cancelled { until: other }) => until == other,
            (
                Phase::Done { until, status },
                Phase::Done {
                    until: other,
                    status: another,
                },
            ) => until == other && status == another,
            (Phase::Ended, Phase::Ended) => true,
            _ => false,
        }
    }
}

/// A branch of an open request (RFC 3261 16.6).
pub struct Branch {
    /// The number of its target, from 1.
    pub number: u32,
    /// Whether it is the CANCEL of the branch of that number (RFC 3261 9.1: a transaction of its own).
    pub is_cancel: bool,
    /// Whether it is to be cancelled.
    pub wants_cancel: bool,
    /// The Request-URI of its request.
    pub uri: Shared<Bytes>,
    /// Where its request goes, if it can go anywhere.
    pub address: Option<Addr>,
    pub phase: Phase,
    /// To of its final answer, if that had one: its ACK is made with it (RFC 3261 17.1.1.3).
    pub final_to: Option<Shared<Bytes>>,
    /// When what it sends goes again, while it does.
    pub again: Resend,
}

/// Written out, so that what can't be refused isn't asked for.
impl Clone for Branch {
    ghost is_clone = { λ branch copy. copy ≡ branch };

    fn clone(&self) -> Result<Branch, AllocError> {
        let uri = self.uri.clone()?;
        let final_to = self.final_to.clone()?;
        Ok(Branch {
            number: self.number,
            is_cancel: self.is_cancel,
            wants_cancel: self.wants_cancel,
            uri,
            address: self.address,
            phase: self.phase,
            final_to,
            again: self.again,
        })
    }
}

/// Only where two texts have the same bytes, or neither is there.
fn same_text(left: &Option<Shared<Bytes>>, right: &Option<Shared<Bytes>>) -> bool
    ensures { result ≡ true → left.now ≡ right.now }
{
    match (left, right) {
        (Some(one), Some(other)) => same_bytes(one.get().as_slice(), other.get().as_slice()),
        (None, None) => true,
        _ => false,
    }
}

/// Only where two addresses are one, or there is neither.
fn same_address(left: Option<Addr>, right: Option<Addr>) -> bool
    ensures { result ≡ true → left ≡ right }
{
    match (left, right) {
        (Some(one), Some(other)) => one.is_same(other),
        (None, None) => true,
        _ => false,
    }
}

impl Branch {
    /// Only where another has its number, and each of the two is a CANCEL, or to be cancelled, where the other one is.
    fn is_numbered_as(&self, other: &Branch) -> bool
        ensures { result ≡ true → (self.now.number ≡ other.now.number) × (self.now.is_cancel ≡ other.now.is_cancel)
            × (self.now.wants_cancel ≡ other.now.wants_cancel) }
    {
        self.number == other.number
            && self.is_cancel == other.is_cancel
            && self.wants_cancel == other.wants_cancel
    }

    /// Only where another goes to its target.
    fn goes_as(&self, other: &Branch) -> bool
        ensures { result ≡ true → (self.now.uri ≡ other.now.uri) × (self.now.address ≡ other.now.address) }
    {
        if !same_address(self.address, other.address) {
            return false;
        }
        same_bytes(self.uri.get().as_slice(), other.uri.get().as_slice())
    }

    /// Only where another is as far.
    fn is_as_far_as(&self, other: &Branch) -> bool
        ensures { result ≡ true → (self.now.phase ≡ other.now.phase) × (self.now.final_to ≡ other.now.final_to)
            × (self.now.again ≡ other.now.again) }
    {
        self.phase.is_same(other.phase)
            && same_text(&self.final_to, &other.final_to)
            && self.again.is_same(other.again)
    }

    /// Only where another is the same: one branch to one target, as far. Takes no memory.
    pub(crate) fn is_same(&self, other: &Branch) -> bool
        ensures { result ≡ true → self.now ≡ other.now }
    {
        if !self.is_numbered_as(other) {
            return false;
        }
        if !self.goes_as(other) {
            return false;
        }
        self.is_as_far_as(other)
    }
}

/// Written out, so that it is proved once and not wherever one is dropped.
impl Drop for Branch {
    fn drop(self) {
        let Branch {
            number: _,
            is_cancel: _,
            wants_cancel: _,
            uri: _,
            address: _,
            phase: _,
            final_to: _,
            again: _,
        } = self;
    }
}
