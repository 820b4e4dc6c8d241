ghost use Rattle.std.specs.Prelude.{◌≡◌, position};
ghost use Rattle.model_steps.specs.context_model.BranchById as Branches;

use sip_dialog_updates::state::{Branch, OpenRequest};

/// Whether a branch of an open request is to the target of a number, and was sent with a method (RFC 3261 17.1.3).
fn is_sent(request: &OpenRequest, target: u32, method: &[u8], branch: &Branch) -> bool
    ensures { result ≡ Branches.is_sent target method.now request.now branch.now }
{
    if branch.number != target {
        return false;
    }
    if branch.is_cancel {
        return b"CANCEL".as_slice() == method;
    }
    request.key.get().is_method(method)
}

/// The place of the first such branch.
pub(crate) fn place_of_sent(request: &OpenRequest, target: u32, method: &[u8]) -> Option<usize>
    ensures { result ≡ position (Branches.is_sent target method.now request.now) request.now.branches }
{
    request
        .branches
        .as_slice()
        .iter()
        .position(|branch| is_sent(request, target, method, branch))
}
