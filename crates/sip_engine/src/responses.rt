ghost use Rattle.std.specs.Prelude.{◌≡◌, ◌||◌, if◌then◌else◌, Some, IsSome, IfOk};
ghost use Rattle.sip_verdict.specs.Incoming.{IsResponse};
ghost use Rattle.sip_engine_request.specs.proxy.Proxy.{IsComing};
ghost use Rattle.sip_engine_request.specs.fork.Places.{branch_at};
ghost use Rattle.sip_engine_request.specs.forwarding.Arrivals.{arrival_of};
ghost use Rattle.sip_verdict.specs.state.declared.branch.Branch.{Branch};
ghost use Rattle.sip_verdict.specs.state.declared.open_request.OpenRequest.{OpenRequest};
ghost use Rattle.sip_verdict.specs.verdict_model.Verdict as Definition;
ghost use Rattle.sip_engine_request.specs.Steps.{IsWhole, Takes};

use sip_engine_request::proxy::{Configured, Proxy, ReceivedResponse};
use sip_engine_request::{take_dropped, take_response};
use sip_event::StepOut;
use sip_timers::Timers;
use sip_verdict::laws;
use std::alloc::{AllocError, Global};

/// Whether a response to the branch at these places is taken: it has a second Via, or is to a CANCEL of this server.
fn is_taken<T: Timers>(proxy: &Proxy<T>, place: usize, branch: usize, has_more_vias: bool) -> bool
    requires { IsSome (branch_at proxy.now.state.requests (place, branch)) }
    ensures { (r : OpenRequest) (b : Branch) → branch_at proxy.now.state.requests (place, branch) ≡ Some (r, b) → result
        ≡ (b.is_cancel || has_more_vias) }
{
    proxy.get(place).branches.as_slice()[branch].is_cancel || has_more_vias
}

/// The step of a response to the branch at these places: one without a second Via is dropped, but one to a CANCEL of this
/// server (RFC 3261 16.7). `AllocError` is the only refusal; nothing is changed then.
fn take_found<T: Timers>(
    alloc: Global,
    configured: &Configured<'_>,
    proxy: &mut Proxy<T>,
    response: &ReceivedResponse<'_>,
    place: usize,
    branch: usize,
) -> Result<StepOut, AllocError>
    requires coming { IsComing proxy.old.state response.now.arrival }
    requires found { IsSome (branch_at proxy.old.state.requests (place, branch)) }
    ensures does { IfOk result (λ out. (r : OpenRequest) (b : Branch) → branch_at proxy.old.state.requests (place, branch) ≡ Some (r, b)
        → Takes configured.now.server.now proxy.old.state response.now.arrival response.now.message.now
        (if b.is_cancel || response.now.has_more_vias then Definition.Respond r b response.now.status else Definition.Drop) out
        proxy.new.state) }
    ensures whole { IsWhole proxy.old proxy.new result }
{
    if is_taken(proxy, place, branch, response.has_more_vias) {
        return take_response(alloc, configured, proxy, response, place, branch);
    }
    Ok(take_dropped(alloc, proxy, response.arrival))
}

/// The step of a response; one whose branch isn't found is dropped (RFC 3261 16.7, 17.1.3). `AllocError` is the only refusal;
/// nothing is changed then.
pub(crate) fn take_reply<T: Timers>(
    alloc: Global,
    configured: &Configured<'_>,
    proxy: &mut Proxy<T>,
    response: &ReceivedResponse<'_>,
) -> Result<StepOut, AllocError>
    requires coming { IsComing proxy.old.state response.now.arrival }
    requires response { IsResponse configured.now.server.now.config.own response.now.message.now response.now.short response.now.status
        response.now.branch.now response.now.method.now response.now.has_more_vias }
    ensures does { IfOk result (λ out. Takes configured.now.server.now proxy.old.state response.now.arrival response.now.message.now
        (Definition.message_verdict configured.now.server.now proxy.old.state (arrival_of response.now.arrival) response.now.message.now
        response.now.short) out proxy.new.state) }
    ensures whole { IsWhole proxy.old proxy.new result }
{
    laws::responses();
    match proxy.find_branch(configured.server, response.branch, response.method) {
        Some((place, number)) => take_found(alloc, configured, proxy, response, place, number),
        None => Ok(take_dropped(alloc, proxy, response.arrival)),
    }
}
