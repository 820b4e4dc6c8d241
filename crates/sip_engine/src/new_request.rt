ghost use Rattle.std.specs.Prelude.{◌≡◌, Some};
ghost use Rattle.sip_transaction_table.specs.Key.{key_of};

use sip_engine_request::proxy::ReceivedRequest;
use sip_transaction_table::TransactionKey;

/// A request that no open one takes (RFC 3261 17.2.3), lent as it was received, with its key, which who opens it owns.
#[derive(Drop)]
pub(crate) struct NewRequest<'a> {
    pub(crate) received: &'a ReceivedRequest<'a>,
    pub(crate) key: TransactionKey,
    ghost key_is: { key_of received.now.message.now ≡ Some key },
}
