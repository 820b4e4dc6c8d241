ghost use Rattle.std.specs.Prelude.{◌≡◌, ◌≤◌, ◌<◌, ◌^◌, ℕ, [], true, length, slice_get, Some};
ghost use Rattle.sip_dialog_updates.specs.state.declared.server.Server.{Server};
ghost use Rattle.sip_dialog_updates.specs.state.declared.open_request.OpenRequest.{OpenRequest};
ghost use Rattle.sip_fork.specs.Ending.{IsDeadlineOf, ended, left_invite};
ghost use Rattle.sip_fork.specs.Firing.{KeepsOrder};
ghost use Rattle.sip_fork.specs.Keeping.{IsKeptAs, IsOf};
ghost use Rattle.sip_fork.specs.context.Inputs.{changing, outcome_of};
ghost use Rattle.sip_fork.specs.Quiet.{alone, ends_alone};
ghost use Rattle.sip_fork.specs.context.declared.input.Input.{Input};
ghost use Rattle.sip_fork.specs.steps_model.Effect.{replaced};
ghost use Rattle.sip_fork.specs.steps_model.Step.{NoneBefore, NoneAgainBefore};
ghost use Rattle.sip_proxy.specs.Expiring.{expiring};
ghost use Rattle.sip_proxy.specs.Proxy.{Becomes, MayCome};

use crate::changing::fits_once_it_came;
use crate::proxy::Proxy;
use sip_fork::Contexts;
use sip_fork::transaction_table::Transaction;
use sip_timers::Timers;

/// A moment comes, and a transaction of the open request at a place ends. Gives the number of an INVITE that leaves with it.
fn end_at<T: Timers>(
    contexts: &mut Contexts<T>,
    now: u64,
    place: usize,
    transaction: Transaction,
) -> Option<u64>
    requires place { place < length contexts.old.requests }
    requires later { contexts.old.moment ≤ now }
    requires small { now < 2 ^ 62 }
    requires none_before { NoneBefore now contexts.old.requests }
    requires none_again { NoneAgainBefore now contexts.old.requests }
    requires kept { (r : OpenRequest) → slice_get contexts.old.requests place ≡ Some r → IsKeptAs now r (ended transaction r) }
    ensures requests { (r : OpenRequest) → slice_get contexts.old.requests place ≡ Some r
        → contexts.new.requests ≡ replaced (ended transaction r) contexts.old.requests }
    ensures queue { KeepsOrder contexts.old.pending contexts.new.pending contexts.new.requests }
    ensures left { (r : OpenRequest) → slice_get contexts.old.requests place ≡ Some r → result ≡ left_invite (ended transaction r) }
    ensures moment { contexts.new.moment ≡ now }
    ensures secret { contexts.new.secret ≡ contexts.old.secret }
{
    fits_once_it_came();
    contexts.reach(now);
    contexts.end(place, transaction)
}

impl<T: Timers> Proxy<T> {
    /// Whether the deadline of a transaction of the open request at a place does no more than to end it: nothing is sent, and
    /// nothing else of the request changes. Takes no memory.
    pub fn ends_quietly(&self, place: usize, transaction: Transaction) -> bool
        requires { place < length self.now.state.requests }
        ensures exact { (r : OpenRequest) → slice_get self.now.state.requests place ≡ Some r → result ≡ ends_alone transaction r }
        ensures outcome { result ≡ true → (r : OpenRequest) → slice_get self.now.state.requests place ≡ Some r → (server : Server) (now : ℕ) (input : Input)
            → IsDeadlineOf r transaction input → outcome_of server now r input ≡ changing (alone (ended transaction r)) [] }
        ensures kept { result ≡ true → (r : OpenRequest) → slice_get self.now.state.requests place ≡ Some r → (server : Server) (now : ℕ) (input : Input)
            → self.now.state.moment ≤ now → IsOf r now input → IsDeadlineOf r transaction input → IsKeptAs now r (ended transaction r) }
    {
        self.contexts.ends_quietly(place, transaction)
    }

    /// At a moment in milliseconds a transaction of the open request at a place ends; a request that stays open no longer is
    /// closed, and the dialogs of an INVITE end with it to which no 2xx was forwarded. Takes no memory.
    pub fn end(&mut self, now: u64, place: usize, transaction: Transaction)
        requires place { place < length self.old.state.requests }
        requires moment { MayCome self.old.state now }
        requires kept { (r : OpenRequest) → slice_get self.old.state.requests place ≡ Some r → IsKeptAs now r (ended transaction r) }
        ensures becomes { (r : OpenRequest) → slice_get self.old.state.requests place ≡ Some r
            → Becomes now (replaced (ended transaction r) self.old.state.requests) (expiring (left_invite (ended transaction r))) self.old.state
            self.new.state }
        ensures queue { KeepsOrder self.old.timers self.new.timers self.new.state.requests }
        ensures room { self.new.room ≡ self.old.room }
        ensures secrets { self.new.secrets ≡ self.old.secrets }
    {
        if let Some(number) = end_at(&mut self.contexts, now, place, transaction) {
            self.dialogs.expire(number, now);
        }
    }
}
