/// A transaction of an open request (RFC 3261 17).
#[derive(Clone, Copy)]
pub enum Transaction {
    /// Its server transaction.
    Server,
    /// The client transaction of the branch at a place among its branches.
    Client { place: usize },
}
