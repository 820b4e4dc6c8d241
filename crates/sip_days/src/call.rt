use sip_audit::Record;
use sip_dialog::DialogId;
use sip_text::Bytes;
use sip_uri::Addr;

/// The final answer that the caller was sent: when, in milliseconds, its status, and the dialog that it names, if its To has a tag
/// (RFC 3261 12.1).
pub struct Answer {
    pub at: u64,
    pub status: u16,
    pub dialog: Option<DialogId>,
}

/// Written out, so that it is proved once and not wherever one is dropped.
impl Drop for Answer {
    fn drop(self) {
        let Answer {
            at: _,
            status: _,
            dialog: _,
        } = self;
    }
}

/// The BYE that ended a call: when it came, in milliseconds, and whether the caller sent it (RFC 3261 15).
#[derive(Clone, Copy)]
pub struct Ending {
    pub at: u64,
    pub by_caller: bool,
}

/// A call: what was decided of its INVITE, where that came from, its Call-ID, by how many minutes the office's clock was ahead of UTC then,
/// the final answer that its caller was sent, if one was, and, where that was a 2xx, the BYE behind it, if one came.
pub struct Call {
    pub decision: Record,
    pub source: Option<Addr>,
    pub call_id: Option<Bytes>,
    pub offset: i16,
    pub answer: Option<Answer>,
    pub ending: Option<Ending>,
}

/// Written out, so that it is proved once and not wherever one is dropped.
impl Drop for Call {
    fn drop(self) {
        let Call {
            decision: _,
            source: _,
            call_id: _,
            offset: _,
            answer: _,
            ending: _,
        } = self;
    }
}
