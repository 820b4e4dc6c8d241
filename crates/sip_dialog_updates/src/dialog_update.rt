ghost use Rattle.std.specs.Prelude.{◌≡◌, ◌≤◌, ◌+◌};
ghost use Rattle.sip_dialog.specs.Dialogs.{learnt};
ghost use Rattle.sip_dialog.specs.Sameness.{SameDialogs};
ghost use Rattle.sip_dialog_updates.specs.DialogUpdates.{after_update, room_for};

use sip_dialog::{DialogId, Dialogs, InviteAnswer};
use sip_text::Items;
use sip_uri::Addr;

/// What something that goes through this server tells the dialogs that it knows.
pub enum DialogUpdate {
    /// An answer of 101 to 299 to an INVITE: its dialog is known (RFC 3261 12.1).
    Learn(InviteAnswer),
    /// An answer: its dialog, if known, holds these addresses, too.
    Teach {
        id: DialogId,
        addresses: Items<Addr>,
    },
    /// A request of a dialog: this is known from now on, and holds these addresses, too (RFC 3261 12.2).
    Renew {
        id: DialogId,
        addresses: Items<Addr>,
    },
    /// A 2xx to a BYE: its dialog ends (RFC 3261 15).
    End(DialogId),
    /// The INVITE of this number left the open requests: its dialogs without a 2xx end (RFC 3261 12.3).
    Expire(u64),
}

/// Written out, so that it is proved once and not wherever a update is dropped. One is dropped only for want of memory.
impl Drop for DialogUpdate {
    fn drop(self) {
        match self {
            DialogUpdate::Learn(_) => {}
            DialogUpdate::Teach {
                id: _,
                addresses: _,
            } => {}
            DialogUpdate::Renew {
                id: _,
                addresses: _,
            } => {}
            DialogUpdate::End(_) => {}
            DialogUpdate::Expire(_) => {}
        }
    }
}

/// An answer to an INVITE makes its dialog known, if there is a place for it.
fn learn(dialogs: &mut Dialogs, answer: InviteAnswer, now: u64)
    requires { 1 ≤ dialogs.old.room }
    ensures learnt { SameDialogs now dialogs.new.dialogs (learnt now answer dialogs.old.dialogs) }
    ensures room { dialogs.old.room ≤ dialogs.new.room + 1 }
    ensures secret { dialogs.new.secret ≡ dialogs.old.secret }
{
    match dialogs.learn(answer, now) {
        Ok(()) => {}
        Err(_full) => {}
    }
}

impl DialogUpdate {
    /// The dialogs take the update.
    pub(crate) fn take(self, dialogs: &mut Dialogs, now: u64)
        requires { room_for self ≤ dialogs.old.room }
        ensures taken { SameDialogs now dialogs.new.dialogs (after_update now self dialogs.old.dialogs) }
        ensures room { dialogs.old.room ≤ dialogs.new.room + room_for self }
        ensures secret { dialogs.new.secret ≡ dialogs.old.secret }
    {
        match self {
            DialogUpdate::Learn(answer) => learn(dialogs, answer, now),
            DialogUpdate::Teach { id, addresses } => dialogs.teach(&id, addresses.as_slice(), now),
            DialogUpdate::Renew { id, addresses } => dialogs.renew(&id, addresses.as_slice(), now),
            DialogUpdate::End(id) => dialogs.end(&id),
            DialogUpdate::Expire(number) => dialogs.expire(number, now),
        }
    }
}
