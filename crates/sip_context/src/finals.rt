ghost use Rattle.std.specs.Prelude.{◌≡◌, None, OnOk};
ghost use Rattle.sip_context_branches.specs.state.declared.branch.Phase.TheVariants.{Ended};
ghost use Rattle.sip_context_branches.specs.context_model.Branches as Contexts;

use crate::side::is_answering;
use sip_best::Final;
use sip_context_branches::set_phase;
use sip_context_branches::state::{Branch, OpenRequest, Phase};
use std::alloc::AllocError;

/// One more final answer of its branches, which is kept while none went to the caller.
pub(crate) fn keep_final(request: &mut OpenRequest, answer: Final) -> Result<(), AllocError>
    ensures { OnOk result (request.new ≡ Contexts.with_final answer request.old) }
{
    if is_answering(request.side) {
        request.finals.push(answer)
    } else {
        Ok(())
    }
}

/// A branch ends.
pub(crate) fn end(request: &mut OpenRequest, branch: &Branch) -> Result<(), AllocError>
    ensures { OnOk result (request.new ≡ Contexts.with_phase branch.now Ended request.old) }
{
    set_phase(&mut request.branches, branch, Phase::Ended)
}

/// A branch ends as if it had answered with a status (RFC 3261 16.8, 16.9).
pub(crate) fn give_up(
    request: &mut OpenRequest,
    branch: &Branch,
    status: u16,
) -> Result<(), AllocError>
    ensures { OnOk result (request.new ≡ Contexts.given_up branch.now status request.old) }
{
    end(request, branch)?;
    keep_final(
        request,
        Final {
            status,
            message: None,
        },
    )
}
