ghost use Rattle.std.specs.Prelude.{◌≡◌, ◌&&◌, codes};
ghost use Rattle.std.specs.List.{list_all};
ghost use Rattle.std.specs.Str.{bytes_eq};
ghost use Rattle.sip_state.specs.declared.branch.Branch.{Branch};
ghost use Rattle.sip_state.specs.State as States;

use sip_state::{Branch, OpenRequest, Phase, Side, is_invite};

/// Whether a request is a BYE.
pub(crate) fn is_bye(request: &OpenRequest) -> bool
    ensures { result ≡ bytes_eq request.now.key.method (codes "BYE") }
{
    request.key.get().is_method(b"BYE")
}

/// Whether the answering side of a request has ended.
fn is_closed(side: Side) -> bool
    ensures { result ≡ States.is_closed side }
{
    match side {
        Side::Closed => true,
        Side::Answering | Side::Closing { .. } | Side::Acknowledged { .. } => false,
    }
}

/// Whether a branch has ended.
fn is_ended(phase: Phase) -> bool
    ensures { result ≡ States.is_ended phase }
{
    match phase {
        Phase::Ended => true,
        Phase::Unheard { .. }
        | Phase::Heard { .. }
        | Phase::Cancelled { .. }
        | Phase::Done { .. } => false,
    }
}

/// Whether all of some branches have ended.
fn all_ended(branches: &[Branch]) -> bool
    ensures { result ≡ list_all (λ (b : Branch). States.is_ended b.phase) branches.now }
{
    branches.iter().all(|branch| is_ended(branch.phase))
}

/// Whether a request stays open no longer.
fn has_left(request: &OpenRequest) -> bool
    ensures { result ≡ States.has_left request.now }
{
    is_closed(request.side) && all_ended(request.branches.as_slice())
}

/// Whether it is an INVITE that stays open no longer.
pub(crate) fn is_left_invite(request: &OpenRequest) -> bool
    ensures { result ≡ (States.is_invite request.now && States.has_left request.now) }
{
    is_invite(request) && has_left(request)
}
