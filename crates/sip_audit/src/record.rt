use sip_text::Bytes;
use sip_uri::Aor;

/// What a request asks for.
#[derive(Clone, Copy)]
pub enum AuditOperation {
    /// A REGISTER with a Contact.
    Register,
    /// A REGISTER without Contact.
    List,
    /// Any other method.
    Send,
}

/// What became of a request, and by which rule of the policy; rule 0 says that none matched.
#[derive(Clone, Copy, PartialEq, Eq)]
pub enum AuditOutcome {
    /// It was challenged with this status; no rule decided.
    Challenge { status: u16 },
    /// The rule denied it.
    Deny { rule: u32 },
    /// The rule let it through, to so many targets.
    Sent { rule: u32, targets: u32 },
    /// The rule let it through, and it was answered here with this status.
    Answer { rule: u32, status: u16 },
}

/// What is recorded of a request: the moment in milliseconds and the number of the datagram that brought
/// it, its method, which is a token, the name of the user that was proven, the address of record that it
/// is for, what it asks for, the minute of the day at which the rule decided, if it has a window, and what
/// became of it.
pub struct Record {
    pub at: u64,
    pub number: u64,
    pub method: Bytes,
    pub who: Option<Bytes>,
    pub target: Aor,
    pub operation: AuditOperation,
    pub minute: Option<u16>,
    pub outcome: AuditOutcome,
}

/// Written out, so that it is proved once and not wherever one is dropped.
impl Drop for Record {
    fn drop(self) {
        let Record {
            at: _,
            number: _,
            method: _,
            who: _,
            target: _,
            operation: _,
            minute: _,
            outcome: _,
        } = self;
    }
}
