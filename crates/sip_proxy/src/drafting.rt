ghost use Rattle.std.specs.Prelude.{◌≡◌, ◌≤◌, ◌<◌, ◌^◌, ℕ, length, slice_get, Some, IfOk};
ghost use Rattle.sip_fork.specs.Keeping.{IsOf};
ghost use Rattle.sip_forwarding.specs.Forwarding.{IsInputTo};
ghost use Rattle.sip_fork.specs.context.declared.input.Input.{Input};
ghost use Rattle.sip_dialog_updates.specs.state.declared.open_request.OpenRequest.{OpenRequest};
ghost use Rattle.sip_proxy.specs.Drafts.{IsDrafted};

use crate::configured::Configured;
use crate::proxy::Proxy;
use sip_fork::context::Input;
use sip_fork::{ChangedRow, Prepared};
use sip_forwarding::{Drafted, draft_change};
use sip_timers::Timers;
use std::alloc::{AllocError, Global};

/// What an input is going to do: the open request as it becomes, what is sent, and what the dialogs learn of it.
#[derive(Drop)]
pub struct EventDraft {
    pub change: ChangedRow,
    pub drafted: Drafted,
}

/// An input about a request is one to it.
fn inputs_come_to_requests()
    ensures { (r : OpenRequest) (now : ℕ) (input : Input) → IsOf r now input → IsInputTo r input }
{}

impl<T: Timers> Proxy<T> {
    /// Drafts what an input makes of the open request at a place, at a moment in milliseconds. Nothing is changed.
    /// `AllocError` is the only refusal.
    pub fn draft_input(
        &self,
        alloc: Global,
        configured: &Configured<'_>,
        now: u64,
        place: usize,
        input: Input<'_>,
    ) -> Result<EventDraft, AllocError>
        requires place { place < length self.now.state.requests }
        requires later { self.now.state.moment ≤ now }
        requires small { now < 2 ^ 62 }
        requires about { (r : OpenRequest) → slice_get self.now.state.requests place ≡ Some r → IsOf r now input }
        ensures { IfOk result (λ draft. (r : OpenRequest) → slice_get self.now.state.requests place ≡ Some r
            → IsDrafted configured.now.hops.now.addresses configured.now.server.now now r input.entry draft) }
    {
        inputs_come_to_requests();
        let Prepared { change, sent } = self
            .contexts
            .plan(alloc, configured.server, now, place, input)?;
        let drafted = draft_change(alloc, configured.hops, change.request(), sent)?;
        Ok(EventDraft { change, drafted })
    }
}
