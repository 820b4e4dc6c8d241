use sip_header::Via;
use sip_transaction_table::TransactionKey;

/// What a message that came in is.
#[derive(Drop)]
pub enum Incoming<'v> {
    /// It is dropped, whatever is open.
    Dropped,
    /// A response, to the branch with this text that was sent with this method, if there is one.
    Response {
        status: u16,
        /// The branch of its top Via, which is this server's.
        branch: &'v [u8],
        /// The method of its only CSeq.
        method: &'v [u8],
        /// Whether it has a second Via, which it would go to; a response to a CANCEL of this server needs none.
        has_more_vias: bool,
    },
    /// A request, which belongs to the open one with this key, if there is one.
    Request {
        method: &'v [u8],
        /// The Via on top.
        via: Via<'v>,
        key: TransactionKey,
    },
}
