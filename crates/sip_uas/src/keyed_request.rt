ghost use Rattle.std.specs.Prelude.{◌≡◌, Some};
ghost use Rattle.sip_transaction_table.specs.Key.{key_of};

use sip_base::Shared;
use sip_forwarding::Arrival;
use sip_transaction_table::TransactionKey;
use sip_verdict::state::KeptRequest;

/// A request that no open one takes (RFC 3261 17.2.3), kept, with its key: who takes its step owns both, and opens it with them.
#[derive(Drop)]
pub struct KeyedRequest {
    /// The datagram that brought it.
    pub arrival: Arrival,
    pub key: Shared<TransactionKey>,
    pub request: Shared<KeptRequest>,
    pub ghost key_is: { key_of request.message ≡ Some key },
    pub ghost from_is: { request.source ≡ arrival.from },
}
