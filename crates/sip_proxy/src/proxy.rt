//! What the proxy knows, as the steps look it up, and a moment or a number that passes alone.
//! All other changes are in `changing`, `cancelling`, `ending` and `registering`.
ghost use Rattle.std.specs.Prelude.{◌≡◌, ◌<◌, ◌≤◌, ◌==◌, ◌+◌, ◌^◌, List, [], false, length, position, slice_get, nat_le, find, option_map};
ghost use Rattle.std.specs.Prelude.{true, map, MatchOption, Some, IfOk, IfSome};
ghost use Rattle.sip_digest.specs.Nonces.{lasting};
ghost use Rattle.sip_dialog.specs.Sameness.{as_seen, SameDialogs};
ghost use Rattle.sip_location.specs.Sameness.{SameBindings};
ghost use Rattle.std.specs.List.{AllPairs};
ghost use Rattle.std.specs.Option.{option_and_then};
ghost use Rattle.sip_fork.specs.Due.{IsFirst, IsFirstAt, IsNothingDue, IsOfFirst};
ghost use Rattle.sip_fork.specs.Firing.{KeepsOrder};
ghost use Rattle.sip_fork.specs.Places.{branch_at};
ghost use Rattle.sip_verdict.specs.context_model.FoundBranch.{found_branch};
ghost use Rattle.sip_timers.specs.declared.timer.Timer.{Timer};
ghost use Rattle.sip_transaction_table.specs.Key.{same_key};
ghost use Rattle.sip_location.specs.Binding.{live};
ghost use Rattle.sip_dialog_updates.specs.state.State.{first_state, has_key};
ghost use Rattle.sip_dialog_updates.specs.state.declared.branch.Branch.{Branch};
ghost use Rattle.sip_dialog_updates.specs.state.declared.open_request.OpenRequest.{OpenRequest};
ghost use Rattle.sip_verdict.specs.verdict_model.Verdict.{is_cancelled_by};
ghost use Rattle.sip_base.specs.KeyedHasher.{fed_first};
ghost use Rattle.sip_proxy.specs.Proxy.{Becomes, IsCounted, MayCome, secrets_of};

use sip_dialog::Dialogs;
use sip_dialog_updates::state::{OpenRequest, Server};
use sip_digest::Nonces;
use sip_fork::{Contexts, FirstDue};
use sip_location::{LiveBindings, Locations};
use sip_timers::Timers;
use sip_transaction_table::TransactionKey;
use sip_uri::Aor;
use std::alloc::{AllocError, Global};
use std::marker::Model;

/// What a proxy knows while it runs: its open requests with their timers, the bindings, nonces and dialogs, the last
/// moment, in milliseconds, and the number of the next datagram.
pub struct Proxy<T: Timers> {
    pub(crate) contexts: Contexts<T>,
    pub(crate) locations: Locations,
    pub(crate) nonces: Nonces,
    pub(crate) dialogs: Dialogs,
    next: u64,
}

/// Written out, so that it is proved once and not wherever one is dropped.
impl<T: Timers> Drop for Proxy<T> {
    fn drop(self) {
        let Proxy {
            contexts: _,
            locations: _,
            nonces: _,
            dialogs: _,
            next: _,
        } = self;
    }
}

impl<T: Timers> Model for Proxy<T> {
    ghost use Rattle.sip_proxy.specs.Proxy.{Proxy};

    ghost Value = { Proxy };

    ghost view = { λ p. record {
      state = record {
        moment = p.contexts.moment;
        next = p.next;
        bindings = p.locations.rows;
        nonces = p.nonces;
        requests = p.contexts.requests;
        dialogs = p.dialogs.dialogs;
      };
      timers = p.contexts.pending;
      room = p.locations.room;
      secrets = record { requests = p.contexts.secret; dialogs = p.dialogs.secret };
    } };
}

/// No open request; keys are hashed under the secret `keys`. `AllocError` is the only refusal.
fn no_requests<T: Timers>(alloc: Global, keys: u128) -> Result<Contexts<T>, AllocError>
    ensures requests { IfOk result (λ contexts. contexts.requests ≡ []) }
    ensures pending { IfOk result (λ contexts. contexts.pending ≡ []) }
    ensures moment { IfOk result (λ contexts. contexts.moment ≡ 0) }
    ensures secret { IfOk result (λ contexts. contexts.secret ≡ fed_first keys) }
{
    match Contexts::new(alloc, keys) {
        Ok(contexts) => Ok(contexts),
        Err(_) => Err(AllocError),
    }
}

/// No binding. `AllocError` is the only refusal.
fn no_bindings(alloc: Global) -> Result<Locations, AllocError>
    ensures { IfOk result (λ locations. locations.rows ≡ []) }
{
    match Locations::new(alloc) {
        Ok(locations) => Ok(locations),
        Err(_) => Err(AllocError),
    }
}

impl<T: Timers> Proxy<T> {
    /// It knows nothing yet. Keys that peers choose are hashed under the secret `keys`; the first datagram gets the number
    /// `first`. `AllocError` is the only refusal.
    pub fn new(alloc: Global, keys: u128, first: u64) -> Result<Self, AllocError>
        ensures state { IfOk result (λ proxy. proxy.state ≡ first_state first) }
        ensures timers { IfOk result (λ proxy. proxy.timers ≡ []) }
        ensures secrets { IfOk result (λ proxy. proxy.secrets ≡ secrets_of keys) }
    {
        let contexts = no_requests(alloc, keys)?;
        let locations = no_bindings(alloc)?;
        let nonces = Nonces::new(alloc)?;
        Ok(Proxy {
            contexts,
            locations,
            nonces,
            dialogs: Dialogs::new(alloc, keys),
            next: first,
        })
    }

    /// The last moment, in milliseconds.
    pub fn moment(&self) -> u64
        ensures value { result ≡ self.now.state.moment }
        ensures small { result < 2 ^ 62 }
    {
        self.contexts.moment()
    }

    /// The number of the next datagram.
    pub fn next(&self) -> u64
        ensures { result ≡ self.now.state.next }
    {
        let _open = &self.contexts;
        self.next
    }

    /// Only where another gives the next datagram the number that it does.
    fn counts_as(&self, other: &Proxy<T>) -> bool
        ensures { result ≡ true → self.now.state.next ≡ other.now.state.next }
    {
        let mine = self.next();
        let theirs = other.next();
        mine == theirs
    }

    /// Only where another says the same from its moment on, which is this one's: the same open requests and next number, the
    /// same live bindings of each address of record, the same nonces from the first that lives, and the same known dialogs,
    /// whichever INVITE began those with a 2xx. Takes no memory, and costs by what stands.
    pub fn is_same(&self, other: &Proxy<T>) -> bool
        ensures moment { result ≡ true → self.now.state.moment ≡ other.now.state.moment }
        ensures next { result ≡ true → self.now.state.next ≡ other.now.state.next }
        ensures bindings { result ≡ true → SameBindings self.now.state.moment self.now.state.bindings other.now.state.bindings }
        ensures nonces { result ≡ true → lasting self.now.state.moment self.now.state.nonces
            ≡ lasting self.now.state.moment other.now.state.nonces }
        ensures requests { result ≡ true → self.now.state.requests ≡ other.now.state.requests }
        ensures dialogs { result ≡ true → SameDialogs self.now.state.moment (map as_seen self.now.state.dialogs)
            (map as_seen other.now.state.dialogs) }
    {
        if !self.counts_as(other) {
            return false;
        }
        let now = self.contexts.moment();
        if !self.contexts.is_same(&other.contexts) {
            return false;
        }
        if !self.nonces.is_same(&other.nonces, now) {
            return false;
        }
        if !self.locations.is_same(&other.locations, now) {
            return false;
        }
        self.dialogs.is_same(&other.dialogs, now)
    }

    /// The live bindings of an address of record at the last moment, in their order, lent. Takes no memory.
    pub fn bindings<'a>(&'a self, aor: &'a Aor) -> LiveBindings<'a>
        ensures { result ≡ live aor.now self.now.state.moment self.now.state.bindings }
    {
        let moment = self.contexts.moment();
        self.locations.live(aor, moment)
    }

    /// How many requests are open: at most 1,024. Their numbers rise, and their keys differ.
    pub fn len(&self) -> usize
        ensures value { result ≡ length self.now.state.requests }
        ensures few { result ≤ 1024 }
        ensures rise { AllPairs (λ (a b : OpenRequest). a.number < b.number) self.now.state.requests }
        ensures apart { AllPairs (λ (a b : OpenRequest). same_key a.key b.key ≡ false) self.now.state.requests }
    {
        self.contexts.len()
    }

    /// How many dialogs stand in its table, those counted that aren't known any more: at most 4,096.
    pub fn dialog_count(&self) -> usize
        ensures value { result ≡ length self.now.state.dialogs }
        ensures few { result ≤ 4096 }
    {
        let _open = &self.contexts;
        self.dialogs.len()
    }

    /// Whether no more can be opened.
    pub fn is_full(&self) -> bool
        ensures { result ≡ nat_le 1024 (length self.now.state.requests) }
    {
        self.contexts.is_full()
    }

    /// The open request at a place.
    pub fn get(&self, place: usize) -> &OpenRequest
        requires { place < length self.now.state.requests }
        ensures { slice_get self.now.state.requests place ≡ Some result.now }
    {
        self.contexts.get(place)
    }

    /// The place of the open request with a number, by bisection.
    pub fn find_number(&self, number: u64) -> Option<usize>
        ensures place { result ≡ position (λ (r : OpenRequest). r.number == number) self.now.state.requests }
        ensures request { option_and_then (slice_get self.now.state.requests) result
            ≡ find (λ (r : OpenRequest). r.number == number) self.now.state.requests }
    {
        self.contexts.find_number(number)
    }

    /// The place of the open request with a key (RFC 3261 17.2.3).
    pub fn find(&self, key: &TransactionKey) -> Option<usize>
        ensures place { result ≡ position (has_key key.now) self.now.state.requests }
        ensures request { option_and_then (slice_get self.now.state.requests) result ≡ find (has_key key.now) self.now.state.requests }
    {
        self.contexts.find(key)
    }

    /// The place of the earliest open request that a CANCEL with this key names (RFC 3261 9.2).
    pub fn find_cancelled(&self, key: &TransactionKey) -> Option<usize>
        ensures place { result ≡ position (is_cancelled_by key.now) self.now.state.requests }
        ensures request { option_and_then (slice_get self.now.state.requests) result ≡ find (is_cancelled_by key.now) self.now.state.requests }
    {
        self.contexts.find_cancelled(key)
    }

    /// The open request, and its branch, that a response is to whose top Via has this text as its branch and whose CSeq has
    /// this method, by their places (RFC 3261 17.1.3). Takes no memory.
    pub fn find_branch(&self, server: &Server, text: &[u8], method: &[u8]) -> Option<(usize, usize)>
        ensures { option_map (branch_at self.now.state.requests) result
            ≡ option_map (λ (found : OpenRequest × Branch). Some found) (found_branch server.now text.now method.now self.now.state.requests) }
    {
        self.contexts.find_branch(server, text, method)
    }

    /// What is due first of all open requests: no deadline stands before it, and nothing is to go again before it; of what is
    /// due at one moment, what a timer was set for first. None exactly where no deadline stands and nothing is to go again.
    /// Takes no memory.
    pub fn first(&self) -> Option<FirstDue>
        ensures first { MatchOption result (IsNothingDue self.now.state.requests) (IsFirst self.now.state.requests) }
        ensures in_order { IfSome result (IsOfFirst self.now.timers self.now.state.requests) }
    {
        self.contexts.first()
    }

    /// When what is due first of all open requests is due, in milliseconds. None exactly where no deadline stands and nothing is
    /// to go again. Takes no memory.
    pub fn first_moment(&self) -> Option<u64>
        ensures { MatchOption result (IsNothingDue self.now.state.requests) (IsFirstAt self.now.state.requests) }
    {
        self.contexts.first_moment()
    }

    /// A moment comes at which nothing happens. Takes no memory.
    pub fn wait(&mut self, now: u64)
        requires { MayCome self.old.state now }
        ensures becomes { Becomes now self.old.state.requests [] self.old.state self.new.state }
        ensures queue { KeepsOrder self.old.timers self.new.timers self.new.state.requests }
        ensures timers { self.new.timers ≡ self.old.timers }
        ensures room { self.new.room ≡ self.old.room }
        ensures secrets { self.new.secrets ≡ self.old.secrets }
    {
        self.contexts.reach(now);
    }

    /// A datagram takes the next number, which is given; the one after it is next. Takes no memory.
    pub fn count(&mut self) -> u64
        requires { self.old.state.next < 2 ^ 62 }
        ensures number { result ≡ self.old.state.next }
        ensures counted { IsCounted self.old.state self.new.state }
        ensures queue { (old : List Timer) → KeepsOrder old self.old.timers self.old.state.requests → KeepsOrder old self.new.timers self.new.state.requests }
        ensures timers { self.new.timers ≡ self.old.timers }
        ensures room { self.new.room ≡ self.old.room }
        ensures secrets { self.new.secrets ≡ self.old.secrets }
    {
        let number = self.next;
        self.next = number + 1;
        number
    }
}
