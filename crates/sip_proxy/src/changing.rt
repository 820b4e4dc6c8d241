//! How a step changes what the proxy knows: an open request is changed or opened, and dialogs learn. All memory is taken before.
ghost use Rattle.std.specs.Prelude.{◌≡◌, ◌<◌, ◌≤◌, ◌+◌, ◌-◌, ◌^◌, ℕ, max, length, position, slice_get, None, Some, IfOk, OnOk, OnErr};
ghost use Rattle.std.specs.List.{All};
ghost use Rattle.sip_fork.specs.Contexts.{IsFitting};
ghost use Rattle.sip_fork.specs.Firing.{KeepsOrder};
ghost use Rattle.sip_fork.specs.request.Near.{most_timers};
ghost use Rattle.sip_forwarding.specs.transactions_model.Fits.{Fits};
ghost use Rattle.sip_forwarding.specs.transactions_model.Matching.{AreBranched};
ghost use Rattle.sip_dialog_updates.specs.DialogUpdates.{beginnings};
ghost use Rattle.sip_fork.specs.steps_model.Effect.{replaced};
ghost use Rattle.sip_fork.specs.steps_model.Step.{NoneBefore, NoneAgainBefore};
ghost use Rattle.sip_forwarding.specs.transactions_model.Near.{IsWithin};
ghost use Rattle.sip_dialog_updates.specs.state.State.{has_key, with_one_more};
ghost use Rattle.sip_dialog_updates.specs.state.declared.open_request.OpenRequest.{OpenRequest};
ghost use Rattle.sip_fork.specs.Keeping.{IsKeptAs};
ghost use Rattle.sip_proxy.specs.Proxy.{Becomes, MayCome};

use crate::drafting::EventDraft;
use crate::proxy::Proxy;
use sip_dialog::Dialogs;
use sip_dialog_updates::DialogUpdates;
use sip_dialog_updates::state::OpenRequest;
use sip_event::Packet;
use sip_fork::{ChangedRow, Contexts, NewRow};
use sip_forwarding::Drafted;
use sip_forwarding::transactions_model::bounds::time_passes;
use sip_text::Items;
use sip_timers::Timers;
use std::alloc::AllocError;

/// Makes room for the timers of a request. `AllocError` is the only refusal.
fn reserve_timers<T: Timers>(
    contexts: &mut Contexts<T>,
    request: &OpenRequest,
) -> Result<(), AllocError>
    ensures requests { contexts.new.requests ≡ contexts.old.requests }
    ensures pending { contexts.new.pending ≡ contexts.old.pending }
    ensures moment { contexts.new.moment ≡ contexts.old.moment }
    ensures places { contexts.new.places ≡ contexts.old.places }
    ensures ok { OnOk result (most_timers request.now ≤ contexts.new.room) }
    ensures secret { contexts.new.secret ≡ contexts.old.secret }
{
    match contexts.prepare(request) {
        Ok(()) => Ok(()),
        Err(_) => Err(AllocError),
    }
}

/// Makes room for a dialog that updates may make known. `AllocError` is the only refusal.
pub(crate) fn reserve_dialog(
    dialogs: &mut Dialogs,
    updates: &DialogUpdates,
) -> Result<(), AllocError>
    requires few { beginnings updates.now ≤ 1 }
    ensures dialogs { dialogs.new.dialogs ≡ dialogs.old.dialogs }
    ensures ok { OnOk result (beginnings updates.now ≤ dialogs.new.room) }
    ensures secret { dialogs.new.secret ≡ dialogs.old.secret }
{
    match updates.reserve(dialogs) {
        Ok(()) => Ok(()),
        Err(_) => Err(AllocError),
    }
}

/// What is near a moment fits once the moment has come.
pub(crate) fn fits_once_it_came()
    ensures fitting { (old now reached free : ℕ) (r : OpenRequest) → reached ≡ max old (now - 1) → Fits r → IsWithin now r → most_timers r
        ≤ free → IsFitting reached free r }
    ensures within { (old now moment : ℕ) (r : OpenRequest) → moment ≡ max old now → IsWithin now r → IsWithin moment r }
    ensures kept { (old now moment : ℕ) (r x : OpenRequest) → moment ≡ max old now → IsKeptAs now r x → IsKeptAs moment r x }
{
    time_passes();
}

/// A moment comes, and the open request at a place becomes what was prepared. Takes no memory.
fn change_at<T: Timers>(contexts: &mut Contexts<T>, now: u64, place: usize, change: ChangedRow)
    requires place { place < length contexts.old.requests }
    requires later { contexts.old.moment ≤ now }
    requires small { now < 2 ^ 62 }
    requires none_before { NoneBefore now contexts.old.requests }
    requires none_again { NoneAgainBefore now contexts.old.requests }
    requires kept { (r : OpenRequest) → slice_get contexts.old.requests place ≡ Some r → IsKeptAs now r change }
    requires room { most_timers change ≤ contexts.old.room }
    ensures requests { contexts.new.requests ≡ replaced change contexts.old.requests }
    ensures queue { KeepsOrder contexts.old.pending contexts.new.pending contexts.new.requests }
    ensures moment { contexts.new.moment ≡ now }
    ensures secret { contexts.new.secret ≡ contexts.old.secret }
{
    fits_once_it_came();
    let _stood = contexts.get(place);
    contexts.reach(now);
    contexts.change(place, change);
}

/// A moment comes, and a request is opened. Takes no memory.
pub(crate) fn open_at<T: Timers>(contexts: &mut Contexts<T>, now: u64, opening: NewRow)
    requires few { length contexts.old.requests < 1024 }
    requires places { 1 ≤ contexts.old.places }
    requires last { All (λ (r : OpenRequest). r.number < opening.number) contexts.old.requests }
    requires alone { position (has_key opening.key) contexts.old.requests ≡ None }
    requires later { contexts.old.moment ≤ now }
    requires small { now < 2 ^ 62 }
    requires none_before { NoneBefore now contexts.old.requests }
    requires none_again { NoneAgainBefore now contexts.old.requests }
    requires fits { Fits opening }
    requires within { IsWithin now opening }
    requires branched { AreBranched opening.branches }
    requires room { most_timers opening ≤ contexts.old.room }
    ensures requests { contexts.new.requests ≡ with_one_more opening contexts.old.requests }
    ensures queue { KeepsOrder contexts.old.pending contexts.new.pending contexts.new.requests }
    ensures moment { contexts.new.moment ≡ now }
    ensures reached { contexts.new.reached ≡ max contexts.old.reached (now - 1) }
    ensures room { contexts.old.room ≤ contexts.new.room + most_timers opening }
    ensures secret { contexts.new.secret ≡ contexts.old.secret }
{
    fits_once_it_came();
    contexts.reach(now);
    contexts.open(opening);
}

/// Makes room for one more request. `AllocError` is the only refusal.
fn reserve_open<T: Timers>(
    contexts: &mut Contexts<T>,
    request: &OpenRequest,
) -> Result<(), AllocError>
    ensures requests { contexts.new.requests ≡ contexts.old.requests }
    ensures pending { contexts.new.pending ≡ contexts.old.pending }
    ensures moment { contexts.new.moment ≡ contexts.old.moment }
    ensures places { OnOk result (1 ≤ contexts.new.places) }
    ensures room { OnOk result (most_timers request.now ≤ contexts.new.room) }
    ensures secret { contexts.new.secret ≡ contexts.old.secret }
{
    contexts.reserve_one()?;
    reserve_timers(contexts, request)
}

impl<T: Timers> Proxy<T> {
    /// At a moment in milliseconds the open request at a place becomes what was drafted, of its number and its key, and the
    /// dialogs learn of it; one that stays open no longer is closed. Gives what is sent. Refused with `AllocError` where
    /// there is no memory for timers or a dialog; nothing is changed then.
    pub fn change(
        &mut self,
        now: u64,
        place: usize,
        draft: EventDraft,
    ) -> Result<Items<Packet>, AllocError>
        requires place { place < length self.old.state.requests }
        requires moment { MayCome self.old.state now }
        requires kept { (r : OpenRequest) → slice_get self.old.state.requests place ≡ Some r → IsKeptAs now r draft.change }
        requires few { beginnings draft.drafted.updates ≤ 1 }
        ensures becomes { OnOk result (Becomes now (replaced draft.change self.old.state.requests) draft.drafted.updates
            self.old.state self.new.state) }
        ensures queue { OnOk result (KeepsOrder self.old.timers self.new.timers self.new.state.requests) }
        ensures sent { IfOk result (λ packets. packets ≡ draft.drafted.packets) }
        ensures unchanged { OnErr result (self.new.state ≡ self.old.state) }
        ensures timers { OnErr result (self.new.timers ≡ self.old.timers) }
        ensures room { self.new.room ≡ self.old.room }
        ensures secrets { self.new.secrets ≡ self.old.secrets }
    {
        reserve_timers(&mut self.contexts, draft.change.request())?;
        reserve_dialog(&mut self.dialogs, &draft.drafted.updates)?;
        let EventDraft { change, drafted } = draft;
        change_at(&mut self.contexts, now, place, change);
        let Drafted { packets, updates } = drafted;
        updates.take(&mut self.dialogs, now);
        Ok(packets)
    }

    /// At a moment in milliseconds a request is opened whose number is above all others and whose key isn't open, and the
    /// dialogs learn of it. Refused with `AllocError` where there is no memory for it, its timers or a dialog; nothing is
    /// changed then.
    pub fn open(
        &mut self,
        now: u64,
        opening: NewRow,
        updates: DialogUpdates,
    ) -> Result<(), AllocError>
        requires space { length self.old.state.requests < 1024 }
        requires moment { MayCome self.old.state now }
        requires last { All (λ (r : OpenRequest). r.number < opening.number) self.old.state.requests }
        requires alone { position (has_key opening.key) self.old.state.requests ≡ None }
        requires fits { Fits opening }
        requires within { IsWithin now opening }
        requires branched { AreBranched opening.branches }
        requires few { beginnings updates ≤ 1 }
        ensures becomes { OnOk result (Becomes now (with_one_more opening self.old.state.requests) updates self.old.state
            self.new.state) }
        ensures queue { OnOk result (KeepsOrder self.old.timers self.new.timers self.new.state.requests) }
        ensures unchanged { OnErr result (self.new.state ≡ self.old.state) }
        ensures timers { OnErr result (self.new.timers ≡ self.old.timers) }
        ensures room { self.new.room ≡ self.old.room }
        ensures secrets { self.new.secrets ≡ self.old.secrets }
    {
        reserve_open(&mut self.contexts, opening.request())?;
        reserve_dialog(&mut self.dialogs, &updates)?;
        open_at(&mut self.contexts, now, opening);
        updates.take(&mut self.dialogs, now);
        Ok(())
    }

    /// At a moment in milliseconds the dialogs learn, and no open request changes: an ACK that goes on renews its dialog (RFC
    /// 3261 12.2, 13.2.2.4). Refused with `AllocError` where there is no memory for a dialog; nothing is changed then.
    pub fn learn(&mut self, now: u64, updates: DialogUpdates) -> Result<(), AllocError>
        requires moment { MayCome self.old.state now }
        requires few { beginnings updates ≤ 1 }
        ensures becomes { OnOk result (Becomes now self.old.state.requests updates self.old.state self.new.state) }
        ensures unchanged { OnErr result (self.new.state ≡ self.old.state) }
        ensures queue { OnOk result (KeepsOrder self.old.timers self.new.timers self.new.state.requests) }
        ensures timers { self.new.timers ≡ self.old.timers }
        ensures room { self.new.room ≡ self.old.room }
        ensures secrets { self.new.secrets ≡ self.old.secrets }
    {
        reserve_dialog(&mut self.dialogs, &updates)?;
        self.contexts.reach(now);
        updates.take(&mut self.dialogs, now);
        Ok(())
    }
}
