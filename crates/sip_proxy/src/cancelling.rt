//! What a CANCEL does to the table (RFC 3261 9.2, 16.10), as one change: it is opened, and the request that it names is changed.
ghost use Rattle.std.specs.Prelude.{◌≡◌, ◌<◌, ◌≤◌, ◌+◌, ◌^◌, ℕ, List, length, position, slice_get, None, Some, IfOk, IfSome, OnOk, OnErr};
ghost use Rattle.std.specs.List.{All};
ghost use Rattle.sip_fork.specs.Firing.{KeepsOrder};
ghost use Rattle.sip_fork.specs.Keeping.{IsKeptAs};
ghost use Rattle.sip_fork.specs.request.Near.{most_timers};
ghost use Rattle.sip_forwarding.specs.transactions_model.Fits.{Fits};
ghost use Rattle.sip_forwarding.specs.transactions_model.Matching.{AreBranched};
ghost use Rattle.sip_dialog_updates.specs.DialogUpdates.{beginnings};
ghost use Rattle.sip_fork.specs.steps_model.Effect.{replaced};
ghost use Rattle.sip_fork.specs.steps_model.Step.{NoneBefore, NoneAgainBefore};
ghost use Rattle.sip_forwarding.specs.transactions_model.Near.{IsWithin};
ghost use Rattle.sip_dialog_updates.specs.state.State.{has_key, with_one_more};
ghost use Rattle.sip_dialog_updates.specs.state.declared.open_request.OpenRequest.{OpenRequest};
ghost use Rattle.sip_proxy.specs.Proxy.{Becomes, MayCome};

use crate::changing::{fits_once_it_came, open_at, reserve_dialog};
use crate::drafting::EventDraft;
use crate::proxy::Proxy;
use sip_dialog_updates::state::OpenRequest;
use sip_event::Packet;
use sip_fork::firing::orders_join;
use sip_fork::{ChangedRow, Contexts, NewRow};
use sip_forwarding::Drafted;
use sip_text::Items;
use sip_timers::Timers;
use std::alloc::AllocError;

/// For how many timers a request needs room. None where memory doesn't go so far.
fn timers_of(request: &OpenRequest) -> Option<usize>
    ensures { IfSome result (λ timers. timers ≡ most_timers request.now) }
{
    let branches = request.branches.as_slice().len();
    branches.checked_mul(3)?.checked_add(3)
}

/// For how many timers two requests need room. None where memory doesn't go so far.
fn timers_of_both(opened: &OpenRequest, changed: &OpenRequest) -> Option<usize>
    ensures { IfSome result (λ timers. timers ≡ most_timers opened.now + most_timers changed.now) }
{
    timers_of(opened)?.checked_add(timers_of(changed)?)
}

/// Makes room for so many timers. `AllocError` is the only refusal.
fn reserve_timers<T: Timers>(contexts: &mut Contexts<T>, timers: usize) -> Result<(), AllocError>
    ensures requests { contexts.new.requests ≡ contexts.old.requests }
    ensures pending { contexts.new.pending ≡ contexts.old.pending }
    ensures moment { contexts.new.moment ≡ contexts.old.moment }
    ensures places { contexts.new.places ≡ contexts.old.places }
    ensures ok { OnOk result (timers ≤ contexts.new.room) }
    ensures secret { contexts.new.secret ≡ contexts.old.secret }
{
    match contexts.reserve(timers) {
        Ok(()) => Ok(()),
        Err(_) => Err(AllocError),
    }
}

/// Makes room for one more request, and for the timers of it and of another one. `AllocError` is the only refusal.
fn reserve_both<T: Timers>(
    contexts: &mut Contexts<T>,
    opened: &OpenRequest,
    changed: &OpenRequest,
) -> Result<(), AllocError>
    ensures requests { contexts.new.requests ≡ contexts.old.requests }
    ensures pending { contexts.new.pending ≡ contexts.old.pending }
    ensures moment { contexts.new.moment ≡ contexts.old.moment }
    ensures places { OnOk result (1 ≤ contexts.new.places) }
    ensures room { OnOk result (most_timers opened.now + most_timers changed.now ≤ contexts.new.room) }
    ensures secret { contexts.new.secret ≡ contexts.old.secret }
{
    let Some(timers) = timers_of_both(opened, changed) else {
        return Err(AllocError);
    };
    contexts.reserve_one()?;
    reserve_timers(contexts, timers)
}

/// With one more request, every other one is at its place.
fn others_keep_their_places()
    ensures { (x : OpenRequest) (requests : List OpenRequest) (place : ℕ) → place < length requests
        → slice_get (with_one_more x requests) place ≡ slice_get requests place }
{}

/// A moment comes, a request is opened, and the open request at a place, another one, becomes what was prepared. Takes no
/// memory.
fn open_and_change_at<T: Timers>(
    contexts: &mut Contexts<T>,
    now: u64,
    opened: NewRow,
    place: usize,
    change: ChangedRow,
)
    requires few { length contexts.old.requests < 1024 }
    requires places { 1 ≤ contexts.old.places }
    requires place { place < length contexts.old.requests }
    requires last { All (λ (r : OpenRequest). r.number < opened.number) contexts.old.requests }
    requires alone { position (has_key opened.key) contexts.old.requests ≡ None }
    requires later { contexts.old.moment ≤ now }
    requires small { now < 2 ^ 62 }
    requires none_before { NoneBefore now contexts.old.requests }
    requires none_again { NoneAgainBefore now contexts.old.requests }
    requires fits { Fits opened }
    requires within { IsWithin now opened }
    requires branched { AreBranched opened.branches }
    requires kept { (r : OpenRequest) → slice_get contexts.old.requests place ≡ Some r → IsKeptAs now r change }
    requires room { most_timers opened + most_timers change ≤ contexts.old.room }
    ensures requests { contexts.new.requests ≡ replaced change (with_one_more opened contexts.old.requests) }
    ensures queue { KeepsOrder contexts.old.pending contexts.new.pending contexts.new.requests }
    ensures moment { contexts.new.moment ≡ now }
    ensures secret { contexts.new.secret ≡ contexts.old.secret }
{
    fits_once_it_came();
    others_keep_their_places();
    orders_join();
    let _stood = contexts.get(place);
    contexts.stand_in_order();
    open_at(contexts, now, opened);
    contexts.stand_in_order();
    contexts.change(place, change);
    contexts.stand_in_order();
}

impl<T: Timers> Proxy<T> {
    /// At a moment in milliseconds a request is opened, as `open` does, and the open request at a place, another one, becomes
    /// what was drafted, as `change` does; what a CANCEL does (RFC 3261 9.2, 16.10). Gives what the change sends. Refused with
    /// `AllocError` where there is no memory for the two, their timers or a dialog; nothing is changed then.
    pub fn open_and_change(
        &mut self,
        now: u64,
        opened: NewRow,
        place: usize,
        draft: EventDraft,
    ) -> Result<Items<Packet>, AllocError>
        requires space { length self.old.state.requests < 1024 }
        requires place { place < length self.old.state.requests }
        requires moment { MayCome self.old.state now }
        requires last { All (λ (r : OpenRequest). r.number < opened.number) self.old.state.requests }
        requires alone { position (has_key opened.key) self.old.state.requests ≡ None }
        requires fits { Fits opened }
        requires within { IsWithin now opened }
        requires branched { AreBranched opened.branches }
        requires kept { (r : OpenRequest) → slice_get self.old.state.requests place ≡ Some r → IsKeptAs now r draft.change }
        requires few { beginnings draft.drafted.updates ≤ 1 }
        ensures becomes { OnOk result (Becomes now (replaced draft.change (with_one_more opened self.old.state.requests))
            draft.drafted.updates self.old.state self.new.state) }
        ensures queue { OnOk result (KeepsOrder self.old.timers self.new.timers self.new.state.requests) }
        ensures sent { IfOk result (λ packets. packets ≡ draft.drafted.packets) }
        ensures unchanged { OnErr result (self.new.state ≡ self.old.state) }
        ensures timers { OnErr result (self.new.timers ≡ self.old.timers) }
        ensures room { self.new.room ≡ self.old.room }
        ensures secrets { self.new.secrets ≡ self.old.secrets }
    {
        let EventDraft { change, drafted } = draft;
        let Drafted { packets, updates } = drafted;
        reserve_both(&mut self.contexts, opened.request(), change.request())?;
        reserve_dialog(&mut self.dialogs, &updates)?;
        open_and_change_at(&mut self.contexts, now, opened, place, change);
        updates.take(&mut self.dialogs, now);
        Ok(packets)
    }
}
