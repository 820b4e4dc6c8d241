ghost use Rattle.std.specs.Prelude.{◌≡◌};
ghost use Rattle.model_context.specs.state.State as States;
ghost use Rattle.model_context.specs.Branches as Contexts;

use model_context::state::Phase;

/// Whether a branch has a final answer, or counts as having one.
pub fn is_final(phase: Phase) -> bool
    ensures { result ≡ States.is_final phase }
{
    match phase {
        Phase::Unheard { .. } | Phase::Heard { .. } | Phase::Cancelled { .. } => false,
        Phase::Done { .. } | Phase::Ended => true,
    }
}

/// Whether a branch is sent its CANCEL if it is to be cancelled: a provisional response came (RFC 3261 9.1).
pub(crate) fn is_ready(phase: Phase) -> bool
    ensures { result ≡ Contexts.is_ready phase }
{
    matches!(phase, Phase::Heard { .. })
}
