ghost use Rattle.std.specs.Prelude.{◌≡◌, ◌*◌, min};

/// The estimate of the round-trip time, in milliseconds (RFC 3261 17.1.1.1). 64 times as long a request waits for its final
/// response, and an answered one is kept (Timers B, D, F, H, J, L and M).
pub const T1: u64 = 500;

/// The longest interval between two transmissions of a request that isn't an INVITE (RFC 3261 17.1.2.2),
/// and of a final answer to an INVITE (RFC 3261 17.2.1), in milliseconds.
pub const T2: u64 = 4_000;

/// The longest time that a message stays in the network, in milliseconds (RFC 3261 17.1.2.2).
pub const T4: u64 = 5_000;

/// Timer C: how long an INVITE that was heard of waits for more, in milliseconds (RFC 3261 16.6 step 11: more than three minutes).
pub const TIMER_C: u64 = 185_000;

/// How much longer than 64*T1 Timer C is, in milliseconds.
pub const TIMER_C_PAST_B: u64 = TIMER_C - 64 * T1;

/// Twice an interval, up to a limit.
pub fn doubled(interval: u64, limit: u64) -> u64
    ensures { result ≡ min (2 * interval) limit }
{
    interval.saturating_mul(2).min(limit)
}
