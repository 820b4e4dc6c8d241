/// The keys of the timers of a part of an open request: its answering side, a branch, or the CANCEL of one. The
/// part's phase tells which of them stand; another key means nothing.
#[derive(Clone, Copy)]
pub struct TimerKeys {
    /// Of the timer at which something goes again: A, E or G.
    pub again: usize,
    /// Of the timer at which the transaction ends: B, D, F, H, I, J, K, L or M.
    pub last: usize,
    /// Of the proxy's own timer of a branch of an INVITE: C, or the wait for the answer to one that was sent CANCEL.
    pub call: usize,
}
