//! The table of known dialogs: found by a digest of their names, at most 4,096, and forgotten once they aren't known any more.
ghost use Rattle.std.specs.Prelude.{◌≡◌, ◌≤◌, ◌<◌, ◌+◌, ◌++◌, ◌∷◌, [], Bool, true, not, length, map, filter, count_by, position, MatchOption, ℕ};
ghost use Rattle.std.specs.Prelude.{is_some, IfSome, IfNone, IfErr, Err, nat_le, ◌↔◌, ◌≢◌, OnOk, OnErr, IsOk};
ghost use Rattle.std.specs.List.{AllByRecursion};
ghost use Rattle.sip_base.specs.KeyedHasher.{fed_first};
ghost use Rattle.sip_dialog.specs.declared.error.DialogError.TheVariants.{NoMemory, Full};
ghost use Rattle.sip_dialog.specs.Dialogs.{known, knows, is_in_dialog, learnt, taught, renewed, is_full_for, begun, after_invite, without_dialog};
ghost use Rattle.sip_dialog.specs.declared.dialog.DialogId.{DialogId};
ghost use Rattle.sip_dialog.specs.declared.dialog.Dialog.{Dialog};
ghost use Rattle.sip_dialog.specs.declared.dialog.InviteAnswer.{InviteAnswer};
ghost use Rattle.sip_dialog.specs.Naming.{digest_of};
ghost use Rattle.sip_dialog.specs.Rows.{dialog_of, dialogs_in, is_recent, names, StandsAt, StandsNowhere, IsKnownAt, IsTakenOut, StoodBehind};
ghost use Rattle.sip_dialog.specs.Rows.{AreKnownBefore};
ghost use Rattle.sip_dialog.specs.Sameness.{as_seen, SameDialogs};
ghost use Rattle.sip_dialog.specs.Met.{IsMet, Stands};

use crate::dialog::{DialogId, InviteAnswer};
use crate::dialog_state::{DialogState, earlier_end};
use crate::digests::Digests;
use crate::error::DialogError;
use crate::naming::{is_same_dialog, is_same_name};
use sip_base::KeyedHasher;
use sip_uri::Addr;
use std::alloc::{AllocError, Global};
use std::hash::{BuildHasher, Hash, Hasher};
use std::marker::Model;

/// How many dialogs are known at most.
const KNOWN: usize = 4096;

/// The dialogs that stand in a table, by their names: those without a 2xx in front, so that these alone are
/// looked at where an INVITE leaves the open requests. A name is found by its digest under a secret. Seen as all
/// of them, in any order, how many more can be put in with no memory, and the secret.
#[derive(Drop)]
pub(crate) struct DialogRows {
    rows: Vec<(DialogId, DialogState)>,
    /// Of each row the digest of its name.
    digests: Digests,
    keyed: KeyedHasher,
    /// How many stand in front: behind them all have a 2xx.
    early: usize,
    /// The moment before which none of their dialogs ends, in milliseconds.
    until: u64,
}

impl Model for DialogRows {
    ghost use Rattle.sip_dialog.specs.Rows.{Entries};

    ghost Value = { Entries };

    ghost use Rattle.std.specs.Prelude.{◌-◌, min, vec_len, vec_capacity};
    ghost use Rattle.sip_dialog.specs.Rows.{AreNamed, IsFront, AreKnownBefore};

    ghost view = { λ r. record {
      entries = r.rows.items;
      room = min (vec_capacity r.rows - vec_len r.rows) r.digests.room;
      secret = r.keyed;
    } };

    ghost invariant = { λ r. AreNamed r.keyed r.digests.list r.rows.items × IsFront r.early r.rows.items
        × AreKnownBefore r.until r.rows.items };
}

/// The digest of a name, alike for both sides of a call.
#[tactic(auto, unfolding(crate::specs::Naming::digest_of))]
fn digest_of(keyed: &KeyedHasher, id: &DialogId) -> u64
    ensures { result ≡ digest_of keyed.now id.now }
{
    let mut state = keyed.build_hasher();
    id.hash(&mut state);
    state.finish()
}

/// Where the row of a name stands, row by row. Called only where two have one digest.
fn search(rows: &[(DialogId, DialogState)], id: &DialogId) -> Option<usize>
    ensures { result ≡ position (λ row. names id.now row.0) rows.now }
{
    rows.iter().position(|row| is_same_dialog(&row.0, id))
}

/// The moment at which the first of the rows' dialogs ends, in milliseconds. Called only where as many rows stand as may be
/// known.
fn first_end(rows: &[(DialogId, DialogState)]) -> u64
    ensures { AreKnownBefore result rows.now }
{
    let mut until = u64::MAX;
    for row in rows {
        until = earlier_end(until, row.1.since);
    }
    until
}

/// How many rows are of dialogs that are known.
fn count_recent(rows: &[(DialogId, DialogState)], now: u64) -> usize
    ensures { result ≡ length (filter (λ row. is_recent now row.1) rows.now) }
{
    rows.iter().filter(|row| row.1.is_recent(now)).count()
}

/// Only where a row has this name, byte by byte, and is seen so by later steps.
fn is_row_of(row: &(DialogId, DialogState), id: &DialogId, standing: &DialogState) -> bool
    ensures name { result ≡ true → row.now.0 ≡ id.now }
    ensures seen { result ≡ true → (k : DialogId) → as_seen (dialog_of k row.now.1) ≡ as_seen (dialog_of k standing.now) }
{
    if !is_same_name(&row.0, id) {
        return false;
    }
    row.1.is_seen_as(standing)
}

/// Only where each of some rows that is of a dialog which is known stands in a table, as later steps see it.
fn are_met(rows: &[(DialogId, DialogState)], other: &DialogRows, now: u64) -> bool
    ensures { result ≡ true → AllByRecursion (IsMet now other.now.entries) rows.now }
{
    for row in rows {
        if !other.meets(row, now) {
            return false;
        }
    }
    true
}

impl DialogRows {
    /// No rows. Names are hashed under the secret `keys`.
    pub(crate) fn new(alloc: Global, keys: u128) -> Self
        ensures entries { result.entries ≡ [] }
        ensures secret { result.secret ≡ fed_first keys }
    {
        DialogRows {
            rows: Vec::new(alloc),
            digests: Digests::new(alloc),
            keyed: KeyedHasher::new(keys),
            early: 0,
            until: u64::MAX,
        }
    }

    /// How many rows stand in it.
    pub(crate) fn len(&self) -> usize
        ensures { result ≡ length self.now.entries }
    {
        self.rows.len()
    }

    /// Makes room for one more row.
    pub(crate) fn reserve(&mut self) -> Result<(), AllocError>
        ensures entries { self.new.entries ≡ self.old.entries }
        ensures ok { OnOk result (1 ≤ self.new.room) }
        ensures room { self.old.room ≤ self.new.room }
        ensures secret { self.new.secret ≡ self.old.secret }
    {
        self.rows.reserve(1)?;
        self.digests.reserve()
    }

    /// The digest of a name, by which its row is found.
    fn digest(&self, id: &DialogId) -> u64
        ensures { result ≡ digest_of self.now.secret id.now }
    {
        digest_of(&self.keyed, id)
    }

    /// Where the row of a name stands, which has this digest.
    fn find(&self, id: &DialogId, digest: u64) -> Option<usize>
        requires { digest ≡ digest_of self.now.secret id.now }
        ensures { MatchOption result (StandsNowhere id.now self.now.entries) (StandsAt id.now self.now.entries) }
    {
        if self.digests.is_shared() {
            return search(self.rows.as_slice(), id);
        }
        let at = self.digests.find(digest)?;
        if is_same_dialog(&self.rows[at].0, id) {
            Some(at)
        } else {
            None
        }
    }

    /// Takes a row out. The last of those in front takes the place of one of them, and the last of all the place
    /// that is free then.
    fn take_out(&mut self, at: usize)
        requires { at < length self.old.entries }
        ensures taken { IsTakenOut self.old.entries at self.new.entries }
        ensures behind { (k : ℕ) → at ≤ k → k < length self.new.entries → StoodBehind self.old.entries at self.new.entries k }
        ensures len { length self.new.entries + 1 ≡ length self.old.entries }
        ensures room { self.old.room ≤ self.new.room }
        ensures secret { self.new.secret ≡ self.old.secret }
    {
        if at >= self.early {
            let _taken = self.rows.swap_remove(at);
            self.digests.swap_remove(at);
            return;
        }
        self.early -= 1;
        let last = self.early;
        self.rows.swap(at, last);
        self.digests.swap(at, last);
        let _early = self.rows.swap_remove(last);
        self.digests.swap_remove(last);
    }

    /// Puts a row that has a 2xx behind those without.
    fn settle(&mut self, at: usize)
        requires { at < length self.old.entries }
        ensures same { (p : Dialog → Bool) → count_by p (dialogs_in self.new.entries) ≡ count_by p (dialogs_in self.old.entries) }
        ensures len { length self.new.entries ≡ length self.old.entries }
        ensures room { self.old.room ≤ self.new.room }
        ensures secret { self.new.secret ≡ self.old.secret }
    {
        if at < self.early && self.rows[at].1.has_success {
            self.early -= 1;
            self.rows.swap(at, self.early);
            self.digests.swap(at, self.early);
        }
    }

    /// Whether a request is in a dialog that is known.
    pub(crate) fn allows(&self, id: &DialogId, address: Addr, now: u64) -> bool
        ensures { result ≡ is_in_dialog now (dialogs_in self.now.entries) id.now address }
    {
        let digest = self.digest(id);
        match self.find(id, digest) {
            Some(at) => self.rows[at].1.allows(address, now),
            None => false,
        }
    }

    /// How many rows are of dialogs that are known.
    fn recent_count(&self, now: u64) -> usize
        ensures { result ≡ length (filter (λ row. is_recent now row.1) self.now.entries) }
    {
        count_recent(self.rows.as_slice(), now)
    }

    /// Only where a row of another table stands here under the same name, byte by byte, and is seen alike by later steps.
    fn has(&self, id: &DialogId, standing: &DialogState) -> bool
        ensures { result ≡ true → Stands (as_seen (dialog_of id.now standing.now)) (map as_seen (dialogs_in self.now.entries)) }
    {
        let digest = self.digest(id);
        match self.find(id, digest) {
            Some(at) => is_row_of(&self.rows[at], id, standing),
            None => false,
        }
    }

    /// Only where a row of another table isn't of a dialog that is known, or stands here as later steps see it.
    fn meets(&self, row: &(DialogId, DialogState), now: u64) -> bool
        ensures { result ≡ true → IsMet now self.now.entries row.now }
    {
        if !row.1.is_recent(now) {
            return true;
        }
        self.has(&row.0, &row.1)
    }

    /// Only where another table knows the same dialogs, as later steps see them: as many, and each that is known here. A look-up for
    /// each.
    pub(crate) fn is_same(&self, other: &DialogRows, now: u64) -> bool
        ensures { result ≡ true → SameDialogs now (map as_seen (dialogs_in self.now.entries))
            (map as_seen (dialogs_in other.now.entries)) }
    {
        let _named = &self.digests;
        let count = self.recent_count(now);
        let other_count = other.recent_count(now);
        if count != other_count {
            return false;
        }
        are_met(self.rows.as_slice(), other, now)
    }

    /// Where the row of a dialog stands, whose name has this digest, if the dialog is known. A row that isn't known any
    /// more is forgotten.
    fn meet(&mut self, id: &DialogId, digest: u64, now: u64) -> Option<usize>
        requires { digest ≡ digest_of self.old.secret id.now }
        ensures known { is_some result ≡ knows now id.now (dialogs_in self.old.entries) }
        ensures same { SameDialogs now (dialogs_in self.new.entries) (dialogs_in self.old.entries) }
        ensures met { IfSome result (IsKnownAt now id.now self.new.entries) }
        ensures within { IfSome result (λ at. at < length self.new.entries) }
        ensures unmet { IfNone result (StandsNowhere id.now self.new.entries) }
        ensures len { length self.new.entries ≤ length self.old.entries }
        ensures room { self.old.room ≤ self.new.room }
        ensures secret { self.new.secret ≡ self.old.secret }
    {
        let at = match self.find(id, digest) {
            Some(at) => at,
            None => return None,
        };
        if self.rows[at].1.is_recent(now) {
            return Some(at);
        }
        self.take_out(at);
        None
    }

    /// Tells the dialog of a name addresses, if it is known.
    pub(crate) fn teach(&mut self, id: &DialogId, addresses: &[Addr], now: u64)
        ensures taught { SameDialogs now (dialogs_in self.new.entries) (taught now id.now addresses.now (dialogs_in self.old.entries)) }
        ensures len { length self.new.entries ≤ length self.old.entries }
        ensures room { self.old.room ≤ self.new.room }
        ensures secret { self.new.secret ≡ self.old.secret }
    {
        let digest = self.digest(id);
        if let Some(at) = self.meet(id, digest, now) {
            self.rows[at].1.tell(addresses);
        }
    }

    /// Renews the dialog of a name, if it is known, and tells it addresses.
    pub(crate) fn renew(&mut self, id: &DialogId, addresses: &[Addr], now: u64)
        ensures renewed { SameDialogs now (dialogs_in self.new.entries) (renewed now id.now addresses.now (dialogs_in self.old.entries)) }
        ensures len { length self.new.entries ≤ length self.old.entries }
        ensures room { self.old.room ≤ self.new.room }
        ensures secret { self.new.secret ≡ self.old.secret }
    {
        let digest = self.digest(id);
        if let Some(at) = self.meet(id, digest, now) {
            let until = earlier_end(self.until, now);
            self.rows[at].1.renew(addresses, now);
            self.until = until;
        }
    }

    /// Takes the dialog of a name out.
    pub(crate) fn end(&mut self, id: &DialogId)
        ensures ended { (now : ℕ) → SameDialogs now (dialogs_in self.new.entries) (without_dialog now id.now (dialogs_in self.old.entries)) }
        ensures len { length self.new.entries ≤ length self.old.entries }
        ensures room { self.old.room ≤ self.new.room }
        ensures secret { self.new.secret ≡ self.old.secret }
    {
        let digest = self.digest(id);
        if let Some(at) = self.find(id, digest) {
            self.take_out(at);
        }
    }

    /// Takes the dialogs of an INVITE out to which no 2xx was forwarded.
    pub(crate) fn expire(&mut self, number: u64, now: u64)
        ensures left { SameDialogs now (dialogs_in self.new.entries) (after_invite now number (dialogs_in self.old.entries)) }
        ensures len { length self.new.entries ≤ length self.old.entries }
        ensures room { self.old.room ≤ self.new.room }
        ensures secret { self.new.secret ≡ self.old.secret }
    {
        let mut at = self.early;
        while at > 0 {
            at -= 1;
            if self.rows[at].1.is_unconfirmed(number) {
                self.take_out(at);
            }
        }
    }

    /// Forgets the dialogs that aren't known any more. Called only where as many rows stand as may be known.
    fn forget(&mut self, now: u64)
        ensures known { (p : Dialog → Bool) → count_by p (dialogs_in self.new.entries) ≡ count_by p (known now (dialogs_in self.old.entries)) }
        ensures absent { (id : DialogId) → StandsNowhere id self.old.entries → StandsNowhere id self.new.entries }
        ensures len { length self.new.entries ≤ length self.old.entries }
        ensures room { self.old.room ≤ self.new.room }
        ensures secret { self.new.secret ≡ self.old.secret }
    {
        let mut place = self.rows.len();
        while place > 0 {
            place -= 1;
            if !self.rows[place].1.is_recent(now) {
                self.take_out(place);
            }
        }
    }

    /// Looks anew when the first of the dialogs ends. Called only where as many rows stand as may be known.
    fn look_ahead(&mut self)
        ensures entries { self.new.entries ≡ self.old.entries }
        ensures room { self.old.room ≤ self.new.room }
        ensures secret { self.new.secret ≡ self.old.secret }
    {
        let until = first_end(self.rows.as_slice());
        self.until = until;
    }

    /// Whether one more dialog may become known. Only where as many rows stand as may be known, and one of them may have
    /// ended, a pass over all forgets those that aren't known any more.
    fn has_place(&mut self, now: u64) -> bool
        requires { length self.old.entries ≤ 4096 }
        ensures place { result ≡ not (nat_le 4096 (length (known now (dialogs_in self.old.entries)))) }
        ensures same { SameDialogs now (dialogs_in self.new.entries) (dialogs_in self.old.entries) }
        ensures nowhere { (id : DialogId) → StandsNowhere id self.old.entries → StandsNowhere id self.new.entries }
        ensures few { result ≡ true → length self.new.entries < 4096 }
        ensures len { length self.new.entries ≤ length self.old.entries }
        ensures room { self.old.room ≤ self.new.room }
        ensures secret { self.new.secret ≡ self.old.secret }
    {
        if self.rows.len() < KNOWN {
            return true;
        }
        if now < self.until {
            return false;
        }
        self.forget(now);
        self.look_ahead();
        self.rows.len() < KNOWN
    }

    /// Makes a dialog known that no row has, and whose name has this digest. Of want of memory it says `NoMemory`, and
    /// leaves the rows.
    fn begin(&mut self, answer: InviteAnswer, digest: u64) -> Result<(), DialogError>
        requires new { StandsNowhere answer.id self.old.entries }
        requires digest { digest ≡ digest_of self.old.secret answer.id }
        ensures ok { OnOk result ((p : Dialog → Bool) → count_by p (dialogs_in self.new.entries)
            ≡ count_by p (dialogs_in self.old.entries ++ begun answer ∷ [])) }
        ensures len { OnOk result (length self.new.entries ≡ length self.old.entries + 1) }
        ensures err { OnErr result (self.new.entries ≡ self.old.entries) }
        ensures memory { IfErr result (λ e. e ≡ NoMemory) }
        ensures room { 1 ≤ self.old.room → IsOk result }
        ensures left { self.old.room ≤ self.new.room + 1 }
        ensures secret { self.new.secret ≡ self.old.secret }
    {
        self.rows.reserve(1)?;
        self.digests.push(digest)?;
        let last = self.rows.len();
        let is_success = answer.is_success;
        let until = earlier_end(self.until, answer.arrived_at);
        self.rows.push_reserved(DialogState::begin(answer));
        self.until = until;
        if !is_success {
            self.rows.swap(self.early, last);
            self.digests.swap(self.early, last);
            self.early += 1;
        }
        Ok(())
    }

    /// Learns from an answer to an INVITE: of the dialog of its name, or that there is one more.
    pub(crate) fn learn(&mut self, answer: InviteAnswer, now: u64) -> Result<(), DialogError>
        requires { length self.old.entries ≤ 4096 }
        ensures ok { OnOk result (SameDialogs now (dialogs_in self.new.entries) (learnt now answer (dialogs_in self.old.entries))) }
        ensures err { OnErr result (SameDialogs now (dialogs_in self.new.entries) (dialogs_in self.old.entries)) }
        ensures full { (result ≡ Err Full) ↔ (is_full_for now answer.id (dialogs_in self.old.entries) ≡ true) }
        ensures room { 1 ≤ self.old.room → result ≢ Err NoMemory }
        ensures left { self.old.room ≤ self.new.room + 1 }
        ensures len { length self.new.entries ≤ 4096 }
        ensures secret { self.new.secret ≡ self.old.secret }
    {
        let digest = self.digest(&answer.id);
        if let Some(at) = self.meet(&answer.id, digest, now) {
            self.rows[at].1.answer_again(&answer);
            self.settle(at);
            return Ok(());
        }
        if !self.has_place(now) {
            return Err(DialogError::Full);
        }
        self.begin(answer, digest)
    }
}
