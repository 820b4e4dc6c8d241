ghost use Rattle.std.specs.Prelude.{◌≡◌, ◌<◌, ◌^◌, IfOk, is_some, List, Option};
ghost use Rattle.sip_verdict.specs.Verdict.{HasRoom, Is, IsRequestOf, goes_on};
ghost use Rattle.sip_verdict.specs.state.Names.{AreNames};
ghost use Rattle.sip_transaction_table.specs.declared.key.TransactionKey.{TransactionKey};
ghost use Rattle.sip_location.specs.declared.binding.Binding.{Binding};
ghost use Rattle.sip_dialog_updates.specs.state.Arrival.{Arrival};
ghost use Rattle.sip_dialog_updates.specs.state.declared.open_request.OpenRequest.{OpenRequest};
ghost use Rattle.sip_verdict.specs.verdict_model.Verdict as Definition;

use crate::proxy::Proxy;
use crate::received_request::ReceivedRequest;
use sip_policy::Rules;
use sip_timers::Timers;
use sip_verdict::state::DialogNames;
use sip_verdict::{Judge, KnownTables, Received, Verdict, ack_verdict, new_verdict};
use std::alloc::{AllocError, Global};

impl<T: Timers> Proxy<T> {
    /// The verdict on a request that no open one is found for (RFC 3261 9.2, 10.3, 16.3 to 16.5), at the moment at which it
    /// came. What names its dialogs is made exactly where it goes on and is kept. Nothing is changed; there is room for
    /// the plan that a REGISTER gives. `AllocError` is the only refusal.
    pub fn verdict<'v, R: Rules>(
        &mut self,
        alloc: Global,
        judge: &Judge<R>,
        request: &ReceivedRequest<'v>,
        names: &mut Option<DialogNames>,
    ) -> Result<Verdict<'v>, AllocError>
        requires moment { request.now.arrival.now < 2 ^ 62 }
        requires request { IsRequestOf request.now.method.now request.now.message.now.start }
        ensures verdict { IfOk result (λ verdict. (a : Arrival) (key : TransactionKey) → a.now ≡ request.now.arrival.now
            → Is judge.now self.old.state.bindings request.now.arrival.now (Definition.found_for_cancel self.old.state key a.from)
            (Definition.new_verdict judge.now self.old.state a request.now.message.now request.now.short request.now.method.now key) verdict) }
        ensures room { IfOk result (HasRoom self.new.room) }
        ensures names { AreNames request.now.message.now names.new }
        ensures made { IfOk result (λ verdict. is_some names.new ≡ goes_on verdict) }
        ensures unchanged { self.new.state ≡ self.old.state }
        ensures timers { self.new.timers ≡ self.old.timers }
        ensures secrets { self.new.secrets ≡ self.old.secrets }
    {
        let is_full = self.contexts.is_full();
        let known = KnownTables {
            nonces: &self.nonces,
            dialogs: &self.dialogs,
            is_full,
        };
        let received = Received {
            moment: request.arrival.now,
            message: request.message,
            via: &request.via,
            method: request.method,
            short: request.short,
        };
        new_verdict(alloc, judge, &mut self.locations, &known, &received, names)
    }

    /// The verdict on an ACK that a 2xx calls for, or that belongs to no open request: it goes on in a dialog that is known,
    /// or is dropped (RFC 3261 13.2.2.4, 16.11). Nothing is changed. `AllocError` is the only refusal.
    pub fn ack_verdict<'v, R: Rules>(
        &self,
        alloc: Global,
        judge: &Judge<R>,
        request: &ReceivedRequest<'v>,
    ) -> Result<Verdict<'v>, AllocError>
        requires request { IsRequestOf request.now.method.now request.now.message.now.start }
        ensures { IfOk result (λ verdict. (rows : List Binding) (named : Option OpenRequest)
            → Is judge.now rows request.now.arrival.now named
            (Definition.ack_verdict judge.now self.now.state request.now.arrival.now request.now.message.now request.now.short) verdict) }
    {
        let _open = &self.contexts;
        let received = Received {
            moment: request.arrival.now,
            message: request.message,
            via: &request.via,
            method: request.method,
            short: request.short,
        };
        ack_verdict(alloc, judge, &self.dialogs, &received)
    }
}
