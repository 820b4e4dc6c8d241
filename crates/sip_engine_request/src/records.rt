ghost use Rattle.std.specs.Prelude.{◌≡◌, [], ◌∷◌, length, IfOk, IfSome};
ghost use Rattle.sip_audit.specs.declared.record.AuditOutcome.TheVariants.{Sent};
ghost use Rattle.sip_proxy.specs.steps_model.Effect as Effects;
ghost use Rattle.sip_uas.specs.forwarding.Arrivals.{arrival_of};
ghost use Rattle.sip_dialog_updates.specs.state.declared.server.Server.{Server};
ghost use Rattle.sip_targets.specs.Targets.{target_list};
ghost use Rattle.sip_proxy.specs.verdict.verdict_model.Verdict.{minute_on};

use crate::RoutedRequest;
use sip_audit::{AuditOutcome, Record};
use sip_proxy::verdict::state::KeptRequest;
use sip_targets::Targets;
use sip_text::Items;
use sip_uas::forwarding::Arrival;
use sip_uas::records_of;
use std::alloc::{AllocError, Global};

/// How many targets there are, if that is a number of 32 bits.
fn count_of(targets: &Targets) -> Option<u32>
    ensures { IfSome result (λ count. count ≡ length (target_list targets.now)) }
{
    match targets {
        Targets::Bindings(targets) => u32::try_from(targets.as_slice().len()).ok(),
        Targets::Hop(..) => Some(1),
        Targets::NotFound | Targets::Unavailable => Some(0),
    }
}

/// What is recorded of a request that a rule lets through to its targets. `AllocError` is the only refusal; it also comes
/// where there are more targets than numbers of 32 bits.
pub(crate) fn sending_records(
    alloc: Global,
    arrival: Arrival,
    request: &KeptRequest,
    sending: &RoutedRequest<'_, '_>,
) -> Result<Items<Record>, AllocError>
    ensures { IfOk result (λ records. (server : Server)
        → sending.now.judged.now.minute ≡ minute_on server sending.now.judged.now.question
        → records ≡ Effects.record_of server (arrival_of arrival) request.now.message sending.now.judged.now.question
        (Sent sending.now.rule (length (target_list sending.now.targets.now))) ∷ []) }
{
    let Some(targets) = count_of(sending.targets) else {
        return Err(AllocError);
    };
    records_of(
        alloc,
        arrival,
        request,
        sending.judged,
        AuditOutcome::Sent {
            rule: sending.rule,
            targets,
        },
    )
}
