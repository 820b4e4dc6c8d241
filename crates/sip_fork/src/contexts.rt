//! The table of open requests with their timers (RFC 3261 16, 17): what is found in it, planned, opened, changed and ended.
//! What an input makes of a request is said in `sip_context`.
ghost use Rattle.std.specs.Prelude.{◌≡◌, ◌<◌, ◌≤◌, ◌==◌, [], ℕ, true, false, ◌+◌, ◌-◌, ◌^◌, max, length, position, find, nat_le, slice_get};
ghost use Rattle.std.specs.Prelude.{option_map, None, Some, IfOk, IfErr, IfSome, OnOk, MatchOption};
ghost use Rattle.std.specs.List.{All, AllPairs};
ghost use Rattle.std.specs.Option.{option_and_then};
ghost use Rattle.sip_base.specs.KeyedHasher.{fed_first};
ghost use Rattle.sip_transaction_table.specs.Key.{same_key};
ghost use Rattle.sip_timers.specs.declared.error.TimerError.TheVariants.{NoMemory};
ghost use Rattle.sip_dialog_updates.specs.state.State.{has_key, with_one_more};
ghost use Rattle.sip_dialog_updates.specs.state.declared.open_request.OpenRequest.{OpenRequest};
ghost use Rattle.model_steps.specs.verdict_model.Verdict.{is_cancelled_by};
ghost use Rattle.model_steps.specs.context_model.FoundBranch.{found_branch};
ghost use Rattle.sip_dialog_updates.specs.state.declared.branch.Branch.{Branch};
ghost use Rattle.model_steps.specs.Effect.{replaced};
ghost use Rattle.model_steps.specs.Step.{NoneBefore, NoneAgainBefore};
ghost use Rattle.sip_fork.specs.Keeping.{IsKeptAs, IsOf};
ghost use Rattle.sip_request.specs.transactions_model.Near.{IsWithin};
ghost use Rattle.sip_request.specs.Near.{most_timers};
ghost use Rattle.sip_context.specs.Inputs.{changing, outcome, outcome_of};
ghost use Rattle.sip_fork.specs.Quiet.{alone, ends_alone};
ghost use Rattle.sip_context.specs.declared.input.Input as Inputs;
ghost use Rattle.sip_dialog_updates.specs.state.declared.server.Server as Servers;
ghost use Rattle.sip_fork.specs.Ending.{IsDeadlineOf, ended, left_invite};
ghost use Rattle.sip_fork.specs.Contexts.{IsFitting, IsSame};
ghost use Rattle.sip_fork.specs.Firing.{IsQueueOf, KeepsOrder};
ghost use Rattle.sip_request.specs.transactions_model.Matching.{AreBranched};
ghost use Rattle.sip_request.specs.transactions_model.Kept.{AreKept};
ghost use Rattle.sip_fork.specs.Due.{IsFirst, IsFirstAt, IsNothingDue, IsOfFirst};
ghost use Rattle.sip_fork.specs.Places.{branch_at};

use crate::change::{ChangedRow, NewRow, Prepared};
use crate::ending::{ends_quietly, invite_number, leaves_with};
use crate::first_due::{FirstDue, what_at};
use crate::keeping::{inputs_fit, inputs_keep};
use crate::lookup::place_of_sent;
use crate::moving::{change_row, close_row, end_row, open_row};
use crate::planning::prepared;
use crate::queue::Queue;
use crate::row::OpenRow;
use crate::timing::timers_stand_for_moments;
use model_steps::context_model::laws::found_by_numbers;
use sip_context::Input;
use sip_dialog_updates::state::{OpenRequest, Server};
use sip_edit::branch_of_text;
use sip_request::transactions_model::bounds::time_passes;
use sip_request::transactions_model::branches::timers_are_apart;
use sip_timers::{TimerError, Timers};
use sip_transaction_table::{Transaction, TransactionKey, TransactionTable};
use std::alloc::{AllocError, Global};
use std::marker::Model;

/// The open requests in rising order of their numbers, each with a key of its own, and exactly the timers that they name.
/// Moments are milliseconds.
pub struct Contexts<T: Timers> {
    table: TransactionTable<OpenRow>,
    timers: Queue<T>,
    moment: u64,
}

/// Written out, so that it is proved once and not wherever one is dropped.
impl<T: Timers> Drop for Contexts<T> {
    fn drop(self) {
        let Contexts {
            table: _,
            timers: _,
            moment: _,
        } = self;
    }
}

impl<T: Timers> Model for Contexts<T> {
    ghost use Rattle.std.specs.Prelude.{map};
    ghost use Rattle.sip_request.specs.declared.request.Request.{Request};
    ghost use Rattle.sip_fork.specs.Contexts.{Contexts, AreWhole};

    ghost Value = { Contexts };

    ghost view = { λ c. record {
      requests = map (λ (r : Request). r.open_request) c.table.rows;
      pending = c.timers.pending;
      moment =
          c.moment;
      reached = c.timers.reached;
      places = c.table.room;
      room = c.timers.room;
      secret = c.table.secret;
    } };

    ghost invariant = { λ c. AreWhole c.timers.pending c.moment c.timers.reached c.table.rows };
}

impl<T: Timers> Contexts<T> {
    /// No open request. Keys are hashed under the secret `keys`. `NoMemory` is the only refusal.
    pub fn new(alloc: Global, keys: u128) -> Result<Self, TimerError>
        ensures requests { IfOk result (λ contexts. contexts.requests ≡ []) }
        ensures pending { IfOk result (λ contexts. contexts.pending ≡ []) }
        ensures moment { IfOk result (λ contexts. contexts.moment ≡ 0) }
        ensures reached { IfOk result (λ contexts. contexts.reached ≡ 0) }
        ensures secret { IfOk result (λ contexts. contexts.secret ≡ fed_first keys) }
        ensures refused { IfErr result (λ e. e ≡ NoMemory) }
    {
        let table = TransactionTable::new(alloc, keys)?;
        let timers = Queue::new(alloc)?;
        Ok(Contexts {
            table,
            timers,
            moment: 0,
        })
    }

    /// The last moment that came, in milliseconds.
    pub fn moment(&self) -> u64
        ensures value { result ≡ self.now.moment }
        ensures small { result < 2 ^ 62 }
    {
        let _open = &self.table;
        self.moment
    }

    /// Only where another table has the same open requests, at the same moment. Takes no memory, and costs by their texts.
    pub fn is_same(&self, other: &Contexts<T>) -> bool
        ensures requests { result ≡ true → self.now.requests ≡ other.now.requests }
        ensures moment { result ≡ true → self.now.moment ≡ other.now.moment }
    {
        if !self.has_requests_of(other) {
            return false;
        }
        let mine = self.moment();
        let theirs = other.moment();
        mine == theirs
    }

    /// Only where another table has the same open requests, in their order.
    fn has_requests_of(&self, other: &Contexts<T>) -> bool
        ensures { result ≡ true → self.now.requests ≡ other.now.requests }
    {
        let count = self.len();
        let other_count = other.len();
        if count != other_count {
            return false;
        }
        for place in 0..count {
            let mine = self.get(place);
            let theirs = other.get(place);
            if !mine.is_same(theirs) {
                return false;
            }
        }
        true
    }

    /// How many requests are open: at most 1,024. Their numbers rise, and their keys differ.
    pub fn len(&self) -> usize
        ensures value { result ≡ length self.now.requests }
        ensures few { result ≤ 1024 }
        ensures rise { AllPairs (λ (a b : OpenRequest). a.number < b.number) self.now.requests }
        ensures apart { AllPairs (λ (a b : OpenRequest). same_key a.key b.key ≡ false) self.now.requests }
    {
        self.table.len()
    }

    /// Whether no more can be opened.
    pub fn is_full(&self) -> bool
        ensures { result ≡ nat_le 1024 (length self.now.requests) }
    {
        self.table.is_full()
    }

    /// The open request at a place.
    pub fn get(&self, place: usize) -> &OpenRequest
        requires { place < length self.now.requests }
        ensures { slice_get self.now.requests place ≡ Some result.now }
    {
        &self.table.get(place).request.open_request
    }

    /// The place of the open request with a number, by bisection.
    pub fn find_number(&self, number: u64) -> Option<usize>
        ensures place { result ≡ position (λ (r : OpenRequest). r.number == number) self.now.requests }
        ensures request { option_and_then (slice_get self.now.requests) result ≡ find (λ (r : OpenRequest). r.number == number) self.now.requests }
    {
        self.table.find_number(number)
    }

    /// The place of the open request with a key (RFC 3261 17.2.3).
    pub fn find(&self, key: &TransactionKey) -> Option<usize>
        ensures place { result ≡ position (has_key key.now) self.now.requests }
        ensures request { option_and_then (slice_get self.now.requests) result ≡ find (has_key key.now) self.now.requests }
    {
        self.table.find(key)
    }

    /// The place of the earliest open request that a CANCEL with this key names (RFC 3261 9.2).
    pub fn find_cancelled(&self, key: &TransactionKey) -> Option<usize>
        ensures place { result ≡ position (is_cancelled_by key.now) self.now.requests }
        ensures request { option_and_then (slice_get self.now.requests) result ≡ find (is_cancelled_by key.now) self.now.requests }
    {
        self.table.find_cancelled(key)
    }

    /// The open request, and its branch, that a response is to whose top Via has this text as its branch and whose CSeq has
    /// this method, by their places (RFC 3261 17.1.3): found by the two numbers in the text, in the time of a bisection and of
    /// a walk through the request's own branches. Takes no memory.
    pub fn find_branch(&self, server: &Server, text: &[u8], method: &[u8]) -> Option<(usize, usize)>
        ensures { option_map (branch_at self.now.requests) result
            ≡ option_map (λ (found : OpenRequest × Branch). Some found) (found_branch server.now text.now method.now self.now.requests) }
    {
        found_by_numbers();
        let _rows = &self.table;
        let _open = self.len();
        let id = branch_of_text(server.word, text)?;
        let place = self.find_number(id.number)?;
        let branch = place_of_sent(self.get(place), id.target, method)?;
        Some((place, branch))
    }

    /// Makes room for one more request, so that the next one is opened with no memory for its place. `AllocError` is the
    /// only refusal.
    pub fn reserve_one(&mut self) -> Result<(), AllocError>
        ensures requests { self.new.requests ≡ self.old.requests }
        ensures pending { self.new.pending ≡ self.old.pending }
        ensures moment { self.new.moment ≡ self.old.moment }
        ensures reached { self.new.reached ≡ self.old.reached }
        ensures ok { OnOk result (1 ≤ self.new.places) }
        ensures places { self.old.places ≤ self.new.places }
        ensures room { self.new.room ≡ self.old.room }
        ensures secret { self.new.secret ≡ self.old.secret }
    {
        self.table.reserve_one()
    }

    /// Makes room for so many more timers. `NoMemory` is the only refusal; room that was there stays.
    pub fn reserve(&mut self, timers: usize) -> Result<(), TimerError>
        ensures requests { self.new.requests ≡ self.old.requests }
        ensures pending { self.new.pending ≡ self.old.pending }
        ensures moment { self.new.moment ≡ self.old.moment }
        ensures reached { self.new.reached ≡ self.old.reached }
        ensures places { self.new.places ≡ self.old.places }
        ensures ok { OnOk result (timers ≤ self.new.room) }
        ensures room { self.old.room ≤ self.new.room }
        ensures refused { IfErr result (λ e. e ≡ NoMemory) }
        ensures secret { self.new.secret ≡ self.old.secret }
    {
        self.timers.reserve(timers)
    }

    /// Plans what an input makes of the open request at a place, at a moment in milliseconds, and what is sent then (RFC 3261
    /// 16.7 to 16.10, 17). Nothing is changed. `AllocError` is the only refusal.
    pub fn plan(
        &self,
        alloc: Global,
        server: &Server,
        now: u64,
        place: usize,
        input: Input<'_>,
    ) -> Result<Prepared, AllocError>
        requires place { place < length self.now.requests }
        requires later { self.now.moment ≤ now }
        requires small { now < 2 ^ 62 }
        requires about { (r : OpenRequest) → slice_get self.now.requests place ≡ Some r → IsOf r now input }
        ensures outcome { IfOk result (λ prepared. (r : OpenRequest) → slice_get self.now.requests place ≡ Some r
            → outcome prepared.change prepared.sent ≡ outcome_of server.now now r input.entry) }
        ensures kept { IfOk result (λ prepared. (r : OpenRequest) → slice_get self.now.requests place ≡ Some r → IsKeptAs now r prepared.change) }
    {
        inputs_fit();
        inputs_keep();
        let _moment = self.moment;
        let row = self.table.get(place);
        let prepared = prepared(alloc, server, now, &row.request.open_request, input)?;
        Ok(prepared)
    }

    /// Makes room for the timers of a request as it is to be. `NoMemory` is the only refusal; room that was there stays.
    pub fn prepare(&mut self, request: &OpenRequest) -> Result<(), TimerError>
        ensures requests { self.new.requests ≡ self.old.requests }
        ensures pending { self.new.pending ≡ self.old.pending }
        ensures moment { self.new.moment ≡ self.old.moment }
        ensures reached { self.new.reached ≡ self.old.reached }
        ensures places { self.new.places ≡ self.old.places }
        ensures ok { OnOk result (most_timers request.now ≤ self.new.room) }
        ensures room { self.old.room ≤ self.new.room }
        ensures refused { IfErr result (λ e. e ≡ NoMemory) }
        ensures secret { self.new.secret ≡ self.old.secret }
    {
        let _open = &self.table;
        sip_request::reserve(&mut self.timers, request)
    }

    /// The open request at a place becomes what was prepared, of its number and its key, and its timers follow; one that stays
    /// open no longer is closed. Takes no memory.
    pub fn change(&mut self, place: usize, change: ChangedRow)
        requires place { place < length self.old.requests }
        requires same { (r : OpenRequest) → slice_get self.old.requests place ≡ Some r → IsSame r change }
        requires within { IsWithin self.old.moment change }
        requires branches { (r : OpenRequest) → slice_get self.old.requests place ≡ Some r → AreBranched r.branches → AreKept r.branches change.branches }
        requires fitting { IsFitting self.old.reached self.old.room change }
        ensures requests { self.new.requests ≡ replaced change self.old.requests }
        ensures queue { KeepsOrder self.old.pending self.new.pending self.new.requests }
        ensures moment { self.new.moment ≡ self.old.moment }
        ensures reached { self.new.reached ≡ self.old.reached }
        ensures places { self.old.places ≤ self.new.places }
        ensures room { self.old.room ≤ self.new.room + most_timers change }
        ensures secret { self.new.secret ≡ self.old.secret }
    {
        let _stood = self.table.get(place);
        if change.closes() {
            close_row(&mut self.table, &mut self.timers, place);
        } else {
            change_row(&mut self.table, &mut self.timers, place, change);
        }
    }

    /// Whether the deadline of a transaction of the open request at a place does no more than to end it: nothing is sent, and
    /// nothing else of the request changes. Takes no memory.
    pub fn ends_quietly(&self, place: usize, transaction: Transaction) -> bool
        requires { place < length self.now.requests }
        ensures exact { (r : OpenRequest) → slice_get self.now.requests place ≡ Some r → result ≡ ends_alone transaction r }
        ensures outcome { result ≡ true → (r : OpenRequest) → slice_get self.now.requests place ≡ Some r → (server : Servers.Server) (now : ℕ) (input : Inputs.Input)
            → IsDeadlineOf r transaction input → outcome_of server now r input ≡ changing (alone (ended transaction r)) [] }
        ensures kept { result ≡ true → (r : OpenRequest) → slice_get self.now.requests place ≡ Some r → (server : Servers.Server) (now : ℕ) (input : Inputs.Input)
            → self.now.moment ≤ now → IsOf r now input → IsDeadlineOf r transaction input → IsKeptAs now r (ended transaction r) }
    {
        inputs_keep();
        let _moment = self.moment;
        let row = self.table.get(place);
        ends_quietly(&row.request.open_request, transaction)
    }

    /// A transaction of the open request at a place ends where the request stands, and its timers are stopped; a request that
    /// stays open no longer is closed. Gives the number of an INVITE that is. Takes no memory.
    pub fn end(&mut self, place: usize, transaction: Transaction) -> Option<u64>
        requires place { place < length self.old.requests }
        requires kept { (r : OpenRequest) → slice_get self.old.requests place ≡ Some r → IsKeptAs self.old.moment r (ended transaction r) }
        ensures requests { (r : OpenRequest) → slice_get self.old.requests place ≡ Some r
            → self.new.requests ≡ replaced (ended transaction r) self.old.requests }
        ensures queue { KeepsOrder self.old.pending self.new.pending self.new.requests }
        ensures left { (r : OpenRequest) → slice_get self.old.requests place ≡ Some r → result ≡ left_invite (ended transaction r) }
        ensures moment { self.new.moment ≡ self.old.moment }
        ensures reached { self.new.reached ≡ self.old.reached }
        ensures places { self.old.places ≤ self.new.places }
        ensures room { self.old.room ≤ self.new.room }
        ensures secret { self.new.secret ≡ self.old.secret }
    {
        time_passes();
        let row = self.table.get(place);
        let request = &row.request.open_request;
        if leaves_with(request, transaction) {
            let left = invite_number(request);
            close_row(&mut self.table, &mut self.timers, place);
            left
        } else {
            end_row(&mut self.table, &mut self.timers, place, transaction);
            None
        }
    }

    /// Opens a request that was prepared, whose number is above all others and whose key isn't open. Takes no memory.
    pub fn open(&mut self, opening: NewRow)
        requires few { length self.old.requests < 1024 }
        requires places { 1 ≤ self.old.places }
        requires last { All (λ (r : OpenRequest). r.number < opening.number) self.old.requests }
        requires alone { position (has_key opening.key) self.old.requests ≡ None }
        requires within { IsWithin self.old.moment opening }
        requires branched { AreBranched opening.branches }
        requires fitting { IsFitting self.old.reached self.old.room opening }
        ensures requests { self.new.requests ≡ with_one_more opening self.old.requests }
        ensures queue { KeepsOrder self.old.pending self.new.pending self.new.requests }
        ensures moment { self.new.moment ≡ self.old.moment }
        ensures reached { self.new.reached ≡ self.old.reached }
        ensures places { self.old.places ≤ self.new.places + 1 }
        ensures room { self.old.room ≤ self.new.room + most_timers opening }
        ensures secret { self.new.secret ≡ self.old.secret }
    {
        open_row(&mut self.table, &mut self.timers, opening);
    }

    /// What is due first of all open requests, if anything is: no deadline stands before it, and nothing is to go again before
    /// it; of what is due at one moment, what a timer was set for first. None exactly where no deadline stands and nothing is to
    /// go again. Takes no memory.
    pub fn first(&self) -> Option<FirstDue>
        ensures first { MatchOption result (IsNothingDue self.now.requests) (IsFirst self.now.requests) }
        ensures in_order { IfSome result (IsOfFirst self.now.pending self.now.requests) }
    {
        timers_stand_for_moments();
        let _open = self.table.len();
        let (due, name) = self.timers.first()?;
        let place = self.table.find_number(name.request).unwrap();
        let row = self.table.get(place);
        let what = what_at(&row.request.open_request, name.owner, due).unwrap();
        Some(FirstDue { due, place, what })
    }

    /// When what is due first of all open requests is due, in milliseconds, without a look at its request. None exactly where no
    /// deadline stands and nothing is to go again. Takes no memory.
    pub fn first_moment(&self) -> Option<u64>
        ensures { MatchOption result (IsNothingDue self.now.requests) (IsFirstAt self.now.requests) }
    {
        timers_stand_for_moments();
        let _open = self.table.len();
        let first = self.timers.first()?;
        Some(first.0)
    }

    /// The timers that stand are those that open requests name, in the order in which they are due, and no two are alike; so they stay as
    /// they are where nothing changes. Does nothing.
    pub fn stand_in_order(&self)
        ensures timers { IsQueueOf self.now.pending self.now.requests }
        ensures still { KeepsOrder self.now.pending self.now.pending self.now.requests }
    {
        timers_are_apart();
        self.timers.stand_in_order();
    }

    /// A moment comes before which nothing is due. Takes no memory.
    pub fn reach(&mut self, moment: u64)
        requires none { NoneBefore moment self.old.requests }
        requires none_again { NoneAgainBefore moment self.old.requests }
        requires early { moment < 2 ^ 62 }
        ensures requests { self.new.requests ≡ self.old.requests }
        ensures pending { self.new.pending ≡ self.old.pending }
        ensures queue { KeepsOrder self.old.pending self.new.pending self.new.requests }
        ensures moment { self.new.moment ≡ max self.old.moment moment }
        ensures reached { self.new.reached ≡ max self.old.reached (moment - 1) }
        ensures places { self.new.places ≡ self.old.places }
        ensures room { self.old.room ≤ self.new.room }
        ensures secret { self.new.secret ≡ self.old.secret }
    {
        timers_stand_for_moments();
        time_passes();
        self.stand_in_order();
        self.moment = self.moment.max(moment);
        if moment > 0 {
            self.timers.reach(moment - 1);
        }
    }
}
