ghost use Rattle.std.specs.Prelude.{◌≡◌, ◌++◌, OnOk};
ghost use Rattle.sip_context_branches.specs.context_model.Retransmission;

use model_steps::state::OpenRequest;
use sip_context::answer_to;
use sip_context_branches::answer_again;
use sip_event::Packet;
use sip_text::{Bytes, Items};
use std::alloc::{AllocError, Global};

/// Adds what a copy of an open request gets, and what goes again by itself when it is due: the last answer, but no 2xx to
/// an INVITE, and nothing once an ACK came or the transaction ended (RFC 3261 13.3.1.4, 17.2). `AllocError` is the only
/// refusal.
pub fn copy_packets(
    alloc: Global,
    out: &mut Items<Packet>,
    request: &OpenRequest,
) -> Result<(), AllocError>
    ensures { OnOk result (out.new ≡ out.old ++ Retransmission.answers_again request.now request.now.answer) }
{
    let Some(text) = answer_again(request) else {
        return Ok(());
    };
    let text = Bytes::copy(alloc, text)?;
    out.push(answer_to(true, request, text))?;
    Ok(())
}
