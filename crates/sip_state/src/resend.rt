ghost use Rattle.std.specs.Prelude.{◌≡◌, ◌+◌, ◌*◌, ◌<◌, ◌^◌, true};
ghost use Rattle.sip_timers.specs.Intervals.{T1};
ghost use Rattle.sip_state.specs.State as States;

use sip_timers::T1;

/// When something that was sent goes again.
#[derive(Clone, Copy)]
pub struct Resend {
    /// The moment at which it goes next, in milliseconds.
    pub due: u64,
    /// The wait before that moment, in milliseconds.
    pub wait: u64,
}

impl Resend {
    /// Only where another is at the same moment, after the same wait. Takes no memory.
    pub fn is_same(self, next: Resend) -> bool
        ensures { result ≡ true → self ≡ next }
    {
        self.due == next.due && self.wait == next.wait
    }
}

/// When what is sent at a moment goes again for the first time: T1 later (RFC 3261 17.1.1.2, 17.1.2.2, 17.2.1).
pub fn first_resend(now: u64) -> Resend
    requires { now + 64 * T1 < 2 ^ 64 }
    ensures { result ≡ States.first_resend now }
{
    Resend {
        due: now + T1,
        wait: T1,
    }
}
