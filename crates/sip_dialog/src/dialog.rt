ghost use Rattle.std.specs.Prelude.{◌≡◌, IfOk};

use sip_base::Shared;
use sip_text::{Bytes, Items};
use sip_uri::Addr;
use std::alloc::{AllocError, Global};

/// What names a dialog (RFC 3261 12): its Call-ID and both tags, as a message of it has them. A From
/// without a tag has an empty one. The dialogs of one INVITE share its Call-ID and its From tag.
pub struct DialogId {
    pub call_id: Shared<Bytes>,
    pub from_tag: Shared<Bytes>,
    pub to_tag: Bytes,
}

/// Written out, so that it is proved once and not wherever one is dropped.
impl Drop for DialogId {
    fn drop(self) {
        let DialogId {
            call_id: _,
            from_tag: _,
            to_tag: _,
        } = self;
    }
}

impl DialogId {
    /// The name of these texts, each copied. `AllocError` is the only refusal.
    pub fn of(
        alloc: Global,
        call_id: &[u8],
        from_tag: &[u8],
        to_tag: &[u8],
    ) -> Result<Self, AllocError>
        ensures { IfOk result (λ id. id ≡ record { call_id = call_id.now; from_tag = from_tag.now; to_tag = to_tag.now }) }
    {
        Ok(DialogId {
            call_id: Shared::new(alloc, Bytes::copy(alloc, call_id)?)?,
            from_tag: Shared::new(alloc, Bytes::copy(alloc, from_tag)?)?,
            to_tag: Bytes::copy(alloc, to_tag)?,
        })
    }
}

/// A dialog (RFC 3261 12).
#[derive(Drop)]
pub struct Dialog {
    /// The INVITE's Call-ID and From tag, and the To tag of the answer that made it known.
    pub id: DialogId,
    /// The number of the datagram that brought the INVITE.
    pub number: u64,
    /// Whether a 2xx to the INVITE with this To tag was forwarded.
    pub has_success: bool,
    /// The moment of its last request that was forwarded, in milliseconds; the INVITE's arrival at first.
    pub since: u64,
    /// The addresses to which a request of it may go.
    pub addresses: Items<Addr>,
}

/// What a forwarded answer of 101 to 299 with a To tag tells of the dialog that an INVITE begins.
#[derive(Drop)]
pub struct InviteAnswer {
    /// The INVITE's Call-ID and From tag, and the answer's To tag.
    pub id: DialogId,
    /// The number of the datagram that brought the INVITE.
    pub number: u64,
    /// The moment at which it came, in milliseconds.
    pub arrived_at: u64,
    /// Whether the answer is a 2xx.
    pub is_success: bool,
    /// The INVITE's source, the target of the branch that answered, and what Contact and Record-Route of
    /// the INVITE and of the answer give.
    pub addresses: Items<Addr>,
}
