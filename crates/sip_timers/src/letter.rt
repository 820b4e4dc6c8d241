/// Which timer one is (RFC 3261 A; RFC 6026 7.1 and 7.2 for L and M).
#[derive(Clone, Copy, PartialEq, Eq)]
pub enum Letter {
    /// When an INVITE is sent again.
    A,
    /// How long a response to an INVITE is waited for.
    B,
    /// How long a final response is waited for once an INVITE was forwarded: the proxy's, and no machine's
    /// (RFC 3261 16.6).
    C,
    /// How long retransmissions of a final response other than 2xx to an INVITE are waited for.
    D,
    /// When a request that isn't an INVITE is sent again.
    E,
    /// How long a final response to a request that isn't an INVITE is waited for.
    F,
    /// When the final answer to an INVITE is sent again.
    G,
    /// How long an ACK is waited for.
    H,
    /// How long retransmissions of the ACK are waited for.
    I,
    /// How long retransmissions of a request that isn't an INVITE are waited for.
    J,
    /// How long retransmissions of a final response to a request that isn't an INVITE are waited for.
    K,
    /// How long further 2xx are taken from the core, and retransmissions of the INVITE are waited for.
    L,
    /// How long further 2xx to an INVITE are waited for.
    M,
    /// How long a final response is waited for at a branch that was sent CANCEL (RFC 3261 9.1). The
    /// standard gives it no letter.
    Cancelled,
}
