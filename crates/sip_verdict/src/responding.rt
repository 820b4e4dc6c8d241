ghost use Rattle.std.specs.Prelude.{◌≡◌, IfOk, option_map, List, ℕ};
ghost use Rattle.std.specs.Result.{result_ok};
ghost use Rattle.sip_message_fields.specs.declared.field_name.FieldName.TheVariants as Name;
ghost use Rattle.sip_message_fields.specs.Values.{values_of};
ghost use Rattle.sip_header.specs.CoreFields.{cseq_in};
ghost use Rattle.sip_message_form.specs.declared.message.Start.TheVariants as Start;
ghost use Rattle.sip_verdict.specs.Incoming.{Is};
ghost use Rattle.model_verdict.specs.Verdict.{is_many};

use crate::incoming::Incoming;
use sip_edit::OwnVias;
use sip_header::cseq_of;
use sip_message_fields::FieldName;
use sip_message_form::View;
use std::alloc::{AllocError, Global};

/// The method of the only CSeq of a response (RFC 3261 17.1.3, 20.16).
#[tactic(auto, using(crate::proofs::OneCSeq::none_there, crate::proofs::OneCSeq::several, crate::proofs::OneCSeq::one))]
pub(crate) fn cseq_method<'v>(response: &'v View<'_>) -> Option<&'v [u8]>
    ensures { option_map (λ method. method.now) result ≡ option_map (λ cseq. cseq.method) (result_ok (cseq_in response.now.fields)) }
{
    if 1 < response.fields().count(&FieldName::CSeq) {
        return None;
    }
    let value = response.fields().first(&FieldName::CSeq)?;
    let cseq = cseq_of(value)?;
    Some(cseq.method.as_slice())
}

/// Whether a response has a second Via.
fn has_more_vias(response: &View<'_>) -> bool
    ensures { result ≡ is_many (values_of Name.Via response.now.fields) }
{
    1 < response.fields().count(&FieldName::Via)
}

/// A response with this status: it is whole, the Via on top is this server's and has a branch, and there is one CSeq; or
/// it is dropped (RFC 3261 16.7 step 1, 17.1.3, 18.3).
pub(crate) fn response_of<'v>(
    alloc: Global,
    own_vias: &OwnVias,
    response: &'v View<'_>,
    status: u16,
    short: bool,
) -> Result<Incoming<'v>, AllocError>
    ensures { IfOk result (λ incoming. (reason : List ℕ) → response.now.start ≡ Start.Status status reason → Is own_vias.now response.now short incoming) }
{
    if short {
        return Ok(Incoming::Dropped);
    }
    let Some(branch) = own_vias.top_branch(alloc, response)? else {
        return Ok(Incoming::Dropped);
    };
    let Some(method) = cseq_method(response) else {
        return Ok(Incoming::Dropped);
    };
    Ok(Incoming::Response {
        status,
        branch,
        method,
        has_more_vias: has_more_vias(response),
    })
}
