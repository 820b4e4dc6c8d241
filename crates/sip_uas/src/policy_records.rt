ghost use Rattle.std.specs.Prelude.{◌≡◌, [], ◌∷◌, IfOk};
ghost use Rattle.sip_forwarding.specs.Arrivals.{arrival_of};
ghost use Rattle.sip_forwarding.specs.steps_model.Effect as Effects;
ghost use Rattle.sip_dialog_updates.specs.state.declared.server.Server.{Server};
ghost use Rattle.sip_verdict.specs.verdict_model.Verdict.{minute_on};

use crate::records::record_of;
use sip_audit::{AuditOutcome, Record};
use sip_forwarding::Arrival;
use sip_text::Items;
use sip_verdict::Judged;
use sip_verdict::state::KeptRequest;
use std::alloc::{AllocError, Global};

/// What is recorded of a request that policy was asked about, and of which this became. `AllocError` is the only refusal.
pub fn records_of(
    alloc: Global,
    arrival: Arrival,
    request: &KeptRequest,
    judged: &Judged<'_>,
    outcome: AuditOutcome,
) -> Result<Items<Record>, AllocError>
    ensures { IfOk result (λ records. (server : Server) → judged.now.minute ≡ minute_on server judged.now.question
        → records ≡ Effects.record_of server (arrival_of arrival) request.now.message judged.now.question outcome ∷ []) }
{
    let records = record_of(alloc, arrival, &request.start(), judged, outcome)?;
    Ok(records)
}
