ghost use Rattle.std.specs.Prelude.{◌≡◌, ◌+◌, ◌<◌, ◌≤◌, ◌^◌};
ghost use Rattle.model_context.specs.Retransmission;

use model_context::state::Resend;

/// The next time: after twice the wait, but at most so long (RFC 3261 17.1.1.2, 17.1.2.2, 17.2.1).
pub(crate) fn resend_after(most: u64, last: Resend) -> Resend
    requires most { most ≤ 32000 }
    requires due { last.due + 32000 < 2 ^ 64 }
    ensures { result ≡ Retransmission.resend_after most last }
{
    let wait = last.wait.saturating_mul(2).min(most);
    Resend {
        due: last.due + wait,
        wait,
    }
}
