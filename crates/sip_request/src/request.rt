//! An open request with its timers' keys, as the table of `sip_fork` keeps it: its timers are set, moved or stopped with it.
ghost use Rattle.std.specs.Prelude.{◌≡◌, ◌≤◌, ◌+◌, ◌^◌, [], length, IfOk, IfErr, OnOk};
ghost use Rattle.sip_timers.specs.Timers.{KeysDiffer};
ghost use Rattle.sip_timers.specs.declared.error.TimerError.TheVariants.{NoMemory};
ghost use Rattle.sip_timers.specs.Moves.{IsHeld, Moves};
ghost use Rattle.sip_timers.specs.Setting.{SetsInOrder};
ghost use Rattle.sip_request.specs.Near.{IsNear, most_timers};
ghost use Rattle.sip_request.specs.Named.{HasKeys, IsReady, named_by};
ghost use Rattle.model_transactions.specs.Matching.{AreMatched};
ghost use Rattle.sip_request.specs.Order.{keyed, named_in_order};
ghost use Rattle.sip_request.specs.Ended.{become, branch_ended, ended_at, side_ended};

use crate::branches::stop_at;
use crate::naming::side_part;
use crate::part::{NO_KEYS, stop_part};
use crate::retiming::{begin, end, retime};
use model_transactions::TimerKeys;
use model_transactions::state::{Branch, OpenRequest, Phase, Side};
use sip_text::Items;
use sip_timers::{TimerError, Timers};
use std::alloc::{AllocError, Global};

/// An open request, with the keys of the timers that it names: those of its answering side, and those of its branches in
/// their order.
#[derive(Drop)]
pub struct Request {
    pub open_request: OpenRequest,
    pub side: TimerKeys,
    pub branches: Items<TimerKeys>,
}

/// What an event makes of an open request, and room for the keys of its branches.
#[derive(Drop)]
pub struct RequestPlan {
    pub request: OpenRequest,
    pub keys: Items<TimerKeys>,
}

impl RequestPlan {
    /// The plan that an open request becomes this one. `AllocError` is the only refusal.
    pub fn of(alloc: Global, request: OpenRequest) -> Result<Self, AllocError>
        ensures request { IfOk result (λ plan. plan.request ≡ request) }
        ensures keys { IfOk result (λ plan. HasKeys plan.request plan.keys) }
    {
        let keys = RequestPlan::room_for(alloc, &request)?;
        Ok(RequestPlan { request, keys })
    }

    /// Room for the keys of the branches of an open request. `AllocError` is the only refusal.
    pub fn room_for(alloc: Global, request: &OpenRequest) -> Result<Items<TimerKeys>, AllocError>
        ensures { IfOk result (λ keys. HasKeys request.now keys) }
    {
        blank_keys(alloc, request.branches.as_slice().len())
    }
}

/// Makes room for the timers that an open request may name. `NoMemory` is the only refusal.
pub fn reserve<T: Timers>(timers: &mut T, request: &OpenRequest) -> Result<(), TimerError>
    ensures ok { OnOk result (most_timers request.now ≤ T.room timers.new) }
    ensures kept { T.room timers.old ≤ T.room timers.new }
    ensures same { T.pending timers.new ≡ T.pending timers.old }
    ensures still { T.reached timers.new ≡ T.reached timers.old }
    ensures refused { IfErr result (λ e. e ≡ NoMemory) }
{
    let branches = request.branches.as_slice().len();
    if branches >= MOST_BRANCHES {
        return Err(TimerError::NoMemory);
    }
    timers.reserve(3 * branches + 3)
}

/// From so many branches on, their timers can't be counted.
const MOST_BRANCHES: usize = 1 << 32;

/// A key for each of so many branches, which means nothing yet.
fn blank_keys(alloc: Global, count: usize) -> Result<Items<TimerKeys>, AllocError>
    ensures { IfOk result (λ keys. length keys ≡ count) }
{
    let mut keys = Items::with_room(alloc, count)?;
    for _place in 0..count {
        keys.push(NO_KEYS)?;
    }
    Ok(keys)
}

/// The branch at a place among some ends.
fn end_at(branches: &mut [Branch], place: usize)
    ensures { branches.new ≡ ended_at place branches.old }
{
    if place < branches.len() {
        branches[place].phase = Phase::Ended;
    }
}

impl Request {
    /// The request as it was planned, none of whose timers is set.
    pub fn planned(plan: RequestPlan) -> Self
        ensures request { result.open_request ≡ plan.request }
        ensures keys { result.branches ≡ plan.keys }
    {
        let RequestPlan { request, keys } = plan;
        Request {
            open_request: request,
            side: NO_KEYS,
            branches: keys,
        }
    }

    /// An open request that came: its timers are set, and no others. Takes no memory.
    pub fn begin<T: Timers>(&mut self, timers: &mut T)
        requires apart { KeysDiffer (T.pending timers.old) }
        requires ready { IsReady (T.reached timers.old) (T.room timers.old) (record { request = self.old.open_request; keys = self.old.branches }) }
        ensures moves { Moves (T.pending timers.old) [] (T.pending timers.new) (named_by self.new) }
        ensures sets { SetsInOrder (T.pending timers.old) [] (T.pending timers.new) (named_in_order self.new) }
        ensures request { self.new.open_request ≡ self.old.open_request }
        ensures keys { HasKeys self.new.open_request self.new.branches }
        ensures left { T.room timers.old ≤ T.room timers.new + most_timers self.old.open_request }
        ensures still { T.reached timers.new ≡ T.reached timers.old }
    {
        self.side = begin(timers, &self.open_request, self.branches.as_mut_slice());
    }

    /// The request as it was planned, which is to take the place of another one: its timers are set, and no others of those
    /// that stood before. Takes no memory.
    pub fn follow<T: Timers>(&mut self, timers: &mut T, was: &Request)
        requires held { IsHeld (T.pending timers.old) (named_by was.now) }
        requires timed { IsNear (2 ^ 64) was.now.open_request }
        requires ready { IsReady (T.reached timers.old) (T.room timers.old) (record { request = self.old.open_request; keys = self.old.branches }) }
        ensures moves { Moves (T.pending timers.old) (named_by was.now) (T.pending timers.new) (named_by self.new) }
        ensures sets { AreMatched (keyed was.now.open_request.branches was.now.branches) self.old.open_request.branches
            → SetsInOrder (T.pending timers.old) (named_by was.now) (T.pending timers.new) (named_in_order self.new) }
        ensures request { self.new.open_request ≡ self.old.open_request }
        ensures keys { HasKeys self.new.open_request self.new.branches }
        ensures left { T.room timers.old ≤ T.room timers.new + most_timers self.old.open_request }
        ensures still { T.reached timers.new ≡ T.reached timers.old }
    {
        self.side = retime(
            timers,
            &was.open_request,
            was.side,
            was.branches.as_slice(),
            &self.open_request,
            self.branches.as_mut_slice(),
        );
    }

    /// The timers of the answering side, which is to close, are stopped.
    pub fn stop_side<T: Timers>(&self, timers: &mut T)
        requires { IsHeld (T.pending timers.old) (named_by self.now) }
        ensures moves { Moves (T.pending timers.old) (named_by self.now) (T.pending timers.new)
            (named_by (become (side_ended self.now.open_request) self.now)) }
        ensures sets { SetsInOrder (T.pending timers.old) [] (T.pending timers.new) [] }
        ensures left { T.room timers.old ≤ T.room timers.new }
        ensures still { T.reached timers.new ≡ T.reached timers.old }
    {
        stop_part(timers, &side_part(&self.open_request), self.side);
    }

    /// The timers of the branch at a place, which is to end, are stopped.
    pub fn stop_branch<T: Timers>(&self, timers: &mut T, place: usize)
        requires held { IsHeld (T.pending timers.old) (named_by self.now) }
        requires timed { IsNear (2 ^ 64) self.now.open_request }
        ensures moves { Moves (T.pending timers.old) (named_by self.now) (T.pending timers.new)
            (named_by (become (branch_ended place self.now.open_request) self.now)) }
        ensures sets { SetsInOrder (T.pending timers.old) [] (T.pending timers.new) [] }
        ensures left { T.room timers.old ≤ T.room timers.new }
        ensures still { T.reached timers.new ≡ T.reached timers.old }
    {
        stop_at(timers, &self.open_request, self.branches.as_slice(), place);
    }

    /// The answering side closes. Its timers were stopped.
    pub fn end_side(&mut self)
        ensures { self.new ≡ become (side_ended self.old.open_request) self.old }
    {
        self.open_request.side = Side::Closed;
    }

    /// The branch at a place ends. Its timers were stopped.
    pub fn end_branch(&mut self, place: usize)
        ensures { self.new ≡ become (branch_ended place self.old.open_request) self.old }
    {
        end_at(self.open_request.branches.as_mut_slice(), place);
    }

    /// The request is open no longer: its timers are stopped.
    pub fn close<T: Timers>(&self, timers: &mut T)
        requires held { IsHeld (T.pending timers.old) (named_by self.now) }
        requires timed { IsNear (2 ^ 64) self.now.open_request }
        ensures moves { Moves (T.pending timers.old) (named_by self.now) (T.pending timers.new) [] }
        ensures sets { SetsInOrder (T.pending timers.old) [] (T.pending timers.new) [] }
        ensures left { T.room timers.old ≤ T.room timers.new }
        ensures still { T.reached timers.new ≡ T.reached timers.old }
    {
        end(
            timers,
            &self.open_request,
            self.side,
            self.branches.as_slice(),
        );
    }
}
