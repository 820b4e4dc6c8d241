use sip_timers::Letter;

/// What is to be done for a server transaction.
#[derive(Clone, Copy, Default)]
pub enum ServerAction {
    /// Send the answer that the core hands down.
    #[default]
    Send,
    /// Send the last answer again.
    SendAgain,
    /// Hand the ACK up to the core.
    Up,
    /// Set this timer to fire after so many milliseconds.
    Start(Letter, u64),
}
