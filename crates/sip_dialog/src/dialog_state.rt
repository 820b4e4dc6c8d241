//! What is known of a dialog beside its name, until when it is known, and what an answer, a request and an end change of that.
ghost use Rattle.std.specs.Prelude.{◌≡◌, ◌≤◌, ◌+◌, ◌&&◌, true, false};
ghost use Rattle.std.specs.List.{list_any};
ghost use Rattle.sip_dialog.specs.declared.dialog.DialogId.{DialogId};
ghost use Rattle.sip_dialog.specs.Addresses.{is_same_addr};
ghost use Rattle.sip_dialog.specs.Dialogs.{told, answered_again, begun, is_unconfirmed};
ghost use Rattle.sip_dialog.specs.Rows.{dialog_of, is_recent};
ghost use Rattle.sip_dialog.specs.Sameness.{as_seen};

use crate::addresses::Addresses;
use crate::dialog::{DialogId, InviteAnswer};
use sip_uri::Addr;

/// How long a dialog is known after its last request, in milliseconds: twelve hours.
const LIFE: u64 = 43_200_000;

/// The earlier of a moment and of the one at which a dialog ends whose last request came at `since`, in milliseconds.
pub(crate) fn earlier_end(until: u64, since: u64) -> u64
    ensures until { result ≤ until }
    ensures since { result ≤ since + 43200000 }
{
    until.min(since.saturating_add(LIFE))
}

/// What is known of a dialog beside its name, as `Dialog` says it.
#[derive(Drop)]
pub(crate) struct DialogState {
    pub(crate) number: u64,
    pub(crate) has_success: bool,
    pub(crate) since: u64,
    pub(crate) addresses: Addresses,
}

impl DialogState {
    /// The name of a dialog that an answer makes known, and what is known of it.
    pub(crate) fn begin(answer: InviteAnswer) -> (DialogId, Self)
        ensures id { result.0 ≡ answer.id }
        ensures begun { dialog_of result.0 result.1 ≡ begun answer }
    {
        let InviteAnswer {
            id,
            number,
            arrived_at,
            is_success,
            addresses: given,
        } = answer;
        let mut addresses = Addresses::new();
        addresses.add_all(given.as_slice());
        let standing = DialogState {
            number,
            has_success: is_success,
            since: arrived_at,
            addresses,
        };
        (id, standing)
    }

    /// Whether the dialog is still known.
    pub(crate) fn is_recent(&self, now: u64) -> bool
        ensures { result ≡ is_recent now self.now }
    {
        now.saturating_sub(self.since) < LIFE
    }

    /// Whether the dialog is one of an INVITE to which no 2xx was forwarded.
    pub(crate) fn is_unconfirmed(&self, number: u64) -> bool
        ensures { (id : DialogId) → result ≡ is_unconfirmed number (dialog_of id self.now) }
    {
        self.number == number && !self.has_success
    }

    /// Only where a 2xx was forwarded to both or to neither, and where to neither, one INVITE began both.
    fn is_begun_as(&self, other: &DialogState) -> bool
        ensures success { result ≡ true → self.now.has_success ≡ other.now.has_success }
        ensures number { result ≡ true → self.now.has_success ≡ false → self.now.number ≡ other.now.number }
    {
        if self.has_success {
            return other.has_success;
        }
        !other.has_success && self.number == other.number
    }

    /// Only where another is seen alike by later steps: whichever INVITE began it, where a 2xx to that was forwarded.
    pub(crate) fn is_seen_as(&self, other: &DialogState) -> bool
        ensures { result ≡ true → (id : DialogId) → as_seen (dialog_of id self.now) ≡ as_seen (dialog_of id other.now) }
    {
        if !self.is_begun_as(other) {
            return false;
        }
        if !self.addresses.is_same(&other.addresses) {
            return false;
        }
        self.since == other.since
    }

    /// Whether a request to this address is in the dialog.
    pub(crate) fn allows(&self, address: Addr, now: u64) -> bool
        ensures { result ≡ (is_recent now self.now && list_any (is_same_addr address) self.now.addresses) }
    {
        self.is_recent(now) && self.addresses.holds(address)
    }

    /// Learns addresses.
    pub(crate) fn tell(&mut self, addresses: &[Addr])
        ensures { (id : DialogId) → dialog_of id self.new ≡ told addresses.now (dialog_of id self.old) }
    {
        self.addresses.add_all(addresses);
    }

    /// Learns addresses from a request, which renews the dialog.
    pub(crate) fn renew(&mut self, addresses: &[Addr], now: u64)
        ensures { (id : DialogId) → dialog_of id self.new ≡ record (told addresses.now (dialog_of id self.old)) { since = now } }
    {
        self.addresses.add_all(addresses);
        self.since = now;
    }

    /// Learns from a further answer to an INVITE.
    pub(crate) fn answer_again(&mut self, answer: &InviteAnswer)
        ensures { (id : DialogId) → dialog_of id self.new ≡ answered_again answer.now (dialog_of id self.old) }
    {
        self.addresses.add_all(answer.addresses.as_slice());
        self.has_success = self.has_success || answer.is_success;
    }
}
