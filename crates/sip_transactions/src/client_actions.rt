use sip_timers::Letter;

/// What goes up to the core.
#[derive(Clone, Copy)]
pub enum Report {
    /// The response that came.
    Response,
    /// No response came in time (RFC 3261 17.1.1.2 and 17.1.2.2).
    Timeout,
    /// The request could not be sent, which counts as a 503 (RFC 3261 16.9).
    Unavailable,
}

/// What is to be done for a client transaction.
#[derive(Clone, Copy, Default)]
pub enum ClientAction {
    /// Send the request.
    #[default]
    Send,
    /// Send the request again.
    SendAgain,
    /// Send an ACK for the response that came (RFC 3261 17.1.1.3).
    Ack,
    /// Send that ACK again.
    AckAgain,
    /// Hand this up to the core.
    Up(Report),
    /// Set this timer to fire after so many milliseconds.
    Start(Letter, u64),
}
