ghost use Rattle.std.specs.Prelude.{◌≡◌, Some, None, if◌then◌else◌};
ghost use Rattle.sip_guard.specs.Allowance.{admits, behind, moment_of};
ghost use Rattle.sip_guard.specs.Limits.{limit_of};

/// The greatest number of datagrams a second that can be asked for.
const MOST: u32 = 1_000_000;

/// What a datagram counts for, where a millisecond counts for as much as datagrams a second are allowed.
const DATAGRAM: u128 = 1000;

/// How many datagrams of one source are handed on: so many a second, and so many at once.
#[derive(Clone, Copy, Debug, PartialEq, Eq)]
pub struct Limit {
    pub per_second: u32,
    pub burst: u32,
}

impl Limit {
    /// So many datagrams a second, 1 to 1,000,000, and twice as many at once. None for other numbers.
    pub fn of_rate(per_second: u32) -> Option<Limit>
        ensures { result ≡ limit_of per_second }
    {
        if per_second == 0 || per_second > MOST {
            return None;
        }
        Some(Limit {
            per_second,
            burst: 2 * per_second,
        })
    }

    /// A moment, in milliseconds, as a number of a source.
    pub(crate) fn moment_of(&self, now: u64) -> u128
        ensures { result ≡ moment_of self.now now }
    {
        u128::from(self.per_second) * u128::from(now)
    }

    /// The number of a source behind a datagram at a moment, where that is within its allowance.
    pub(crate) fn number_behind(&self, used: u128, now: u64) -> Option<u128>
        ensures { result ≡ (if admits self.now used now then Some (behind self.now used now) else None) }
    {
        let moment = self.moment_of(now);
        let owed = used.saturating_sub(moment);
        let allowed = DATAGRAM * u128::from(self.burst);
        if owed > allowed || owed + DATAGRAM > allowed {
            return None;
        }
        Some(moment + owed + DATAGRAM)
    }
}
