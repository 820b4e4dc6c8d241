ghost use Rattle.std.specs.Prelude.{◌≡◌, ◌+◌, ◌<◌, ◌^◌, Some};
ghost use Rattle.sip_transaction_table.specs.Key.{key_of};
ghost use Rattle.sip_context_branches.specs.context_model.Opening as Definitions;
ghost use Rattle.sip_forwarding.specs.Arrivals.{arrived};

use model_steps::state::{KeptRequest, OpenRequest, Side};
use sip_base::Shared;
use sip_context::state::first_resend;
use sip_text::Items;
use sip_transaction_table::TransactionKey;
use sip_uri::Addr;
use std::alloc::Global;

/// A datagram as it comes.
#[derive(Clone, Copy)]
pub struct Arrival {
    /// Its number.
    pub number: u64,
    /// When it came, in milliseconds.
    pub now: u64,
    /// The word that makes the nonce of a challenge.
    pub word: u128,
    /// Where it came from.
    pub from: Addr,
}

/// A request that comes, with its key, before anything was sent for it. Takes no memory.
pub(crate) fn arriving(
    alloc: Global,
    arrival: Arrival,
    key: Shared<TransactionKey>,
    request: Shared<KeptRequest>,
) -> OpenRequest
    requires key { key_of request.message ≡ Some key }
    requires now { arrival.now + 32000 < 2 ^ 64 }
    ensures { result ≡ Definitions.arriving (arrived arrival request) request.message }
{
    OpenRequest {
        key,
        request,
        number: arrival.number,
        arrived_at: arrival.now,
        answer: None,
        side: Side::Answering,
        again: first_resend(arrival.now),
        finals: Items::new(alloc),
        branches: Items::new(alloc),
    }
}
