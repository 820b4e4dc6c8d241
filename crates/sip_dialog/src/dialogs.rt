//! The calls on the dialogs that are known (RFC 3261 12): what is asked of them, and what begins, renews and ends one.
ghost use Rattle.std.specs.Prelude.{◌≡◌, ◌≢◌, ◌↔◌, ◌≤◌, ◌+◌, ℕ, true, [], length, map, Err, IfErr, OnOk, OnErr};
ghost use Rattle.sip_base.specs.KeyedHasher.{fed_first};
ghost use Rattle.sip_dialog.specs.declared.error.DialogError.TheVariants.{NoMemory, Full};
ghost use Rattle.sip_dialog.specs.Dialogs.{is_in_dialog, is_full_for, learnt, taught, renewed, without_dialog, after_invite};
ghost use Rattle.sip_dialog.specs.Sameness.{as_seen, SameDialogs};

use crate::dialog::{DialogId, InviteAnswer};
use crate::error::DialogError;
use crate::rows::DialogRows;
use sip_uri::Addr;
use std::alloc::Global;
use std::marker::Model;

/// The dialogs that a proxy knows, found by their names in constant time, whichever names peers choose.
/// Seen as the dialogs that stand in it, in any order, how many more can be learnt with no memory, and the secret of their hashes.
/// Some that stand aren't known any more: they are forgotten when they are met, and all of them when room is
/// wanted among 4,096.
#[derive(Drop)]
pub struct Dialogs {
    rows: DialogRows,
}

impl Model for Dialogs {
    ghost use Rattle.sip_dialog.specs.Table.{Table};

    ghost Value = { Table };

    ghost use Rattle.std.specs.Prelude.{◌≤◌, length};
    ghost use Rattle.sip_dialog.specs.Rows.{dialogs_in};

    ghost view = { λ d. record { dialogs = dialogs_in d.rows.entries; room = d.rows.room; secret = d.rows.secret } };

    ghost invariant = { λ d. length d.rows.entries ≤ 4096 };
}

impl Dialogs {
    /// No dialog. Names are hashed under the secret `keys`. Takes no memory.
    pub fn new(alloc: Global, keys: u128) -> Self
        ensures dialogs { result.dialogs ≡ [] }
        ensures secret { result.secret ≡ fed_first keys }
    {
        Dialogs {
            rows: DialogRows::new(alloc, keys),
        }
    }

    /// How many dialogs stand in it, those counted that aren't known any more: at most 4,096.
    pub fn len(&self) -> usize
        ensures value { result ≡ length self.now.dialogs }
        ensures few { result ≤ 4096 }
    {
        self.rows.len()
    }

    /// Whether a request of this name, to this address, is in a dialog that is known (RFC 3261 12.2.2,
    /// 16.12.1). Takes no memory.
    pub fn allows(&self, id: &DialogId, address: Addr, now: u64) -> bool
        ensures { result ≡ is_in_dialog now self.now.dialogs id.now address }
    {
        self.rows.allows(id, address, now)
    }

    /// Only where another table knows the same dialogs at a moment, in any order, whichever INVITE began those with a 2xx. Takes
    /// no memory; a look-up for each.
    pub fn is_same(&self, other: &Dialogs, now: u64) -> bool
        ensures { result ≡ true → SameDialogs now (map as_seen self.now.dialogs) (map as_seen other.now.dialogs) }
    {
        self.rows.is_same(&other.rows, now)
    }

    /// Makes room for one more dialog, so that the next `learn` isn't refused for want of memory. `NoMemory`
    /// is the only refusal.
    pub fn reserve(&mut self) -> Result<(), DialogError>
        ensures dialogs { self.new.dialogs ≡ self.old.dialogs }
        ensures ok { OnOk result (1 ≤ self.new.room) }
        ensures err { IfErr result (λ e. e ≡ NoMemory) }
        ensures room { self.old.room ≤ self.new.room }
        ensures secret { self.new.secret ≡ self.old.secret }
    {
        self.rows.reserve()?;
        Ok(())
    }

    /// Learns from an answer of 101 to 299 with a To tag to an INVITE, once it was forwarded (RFC 3261 12.1).
    /// `Full` exactly where 4,096 dialogs are known and this would be one more; `NoMemory` never where there
    /// is room. A refusal leaves what is known.
    pub fn learn(&mut self, answer: InviteAnswer, now: u64) -> Result<(), DialogError>
        ensures ok { OnOk result (SameDialogs now self.new.dialogs (learnt now answer self.old.dialogs)) }
        ensures err { OnErr result (SameDialogs now self.new.dialogs self.old.dialogs) }
        ensures full { (result ≡ Err Full) ↔ (is_full_for now answer.id self.old.dialogs ≡ true) }
        ensures memory { 1 ≤ self.old.room → result ≢ Err NoMemory }
        ensures room { self.old.room ≤ self.new.room + 1 }
        ensures secret { self.new.secret ≡ self.old.secret }
    {
        self.rows.learn(answer, now)
    }

    /// Tells the dialog of a name, if it is known, the addresses that an answer gives which was forwarded.
    /// Takes no memory.
    pub fn teach(&mut self, id: &DialogId, addresses: &[Addr], now: u64)
        ensures taught { SameDialogs now self.new.dialogs (taught now id.now addresses.now self.old.dialogs) }
        ensures room { self.old.room ≤ self.new.room }
        ensures secret { self.new.secret ≡ self.old.secret }
    {
        self.rows.teach(id, addresses, now);
    }

    /// Renews the dialog of a name, if it is known, by a request of it that was forwarded, and tells it the
    /// addresses that this gives (RFC 3261 12.2). Takes no memory.
    pub fn renew(&mut self, id: &DialogId, addresses: &[Addr], now: u64)
        ensures renewed { SameDialogs now self.new.dialogs (renewed now id.now addresses.now self.old.dialogs) }
        ensures room { self.old.room ≤ self.new.room }
        ensures secret { self.new.secret ≡ self.old.secret }
    {
        self.rows.renew(id, addresses, now);
    }

    /// Ends the dialog of a name, at whichever moment: a 2xx to a BYE of it was forwarded (RFC 3261 15).
    /// Takes no memory.
    pub fn end(&mut self, id: &DialogId)
        ensures ended { (now : ℕ) → SameDialogs now self.new.dialogs (without_dialog now id.now self.old.dialogs) }
        ensures room { self.old.room ≤ self.new.room }
        ensures secret { self.new.secret ≡ self.old.secret }
    {
        self.rows.end(id);
    }

    /// Ends the dialogs of an INVITE to which no 2xx was forwarded, once it left the open requests (RFC 3261
    /// 12.3). Takes no memory.
    pub fn expire(&mut self, number: u64, now: u64)
        ensures left { SameDialogs now self.new.dialogs (after_invite now number self.old.dialogs) }
        ensures room { self.old.room ≤ self.new.room }
        ensures secret { self.new.secret ≡ self.old.secret }
    {
        self.rows.expire(number, now);
    }
}
