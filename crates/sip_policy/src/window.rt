ghost use Rattle.std.specs.Prelude.{◌≡◌, ◌<◌};
ghost use Rattle.sip_policy.specs.Window as Definitions;

/// A minute, in milliseconds.
const MINUTE: u64 = 60_000;

/// A day, in minutes.
const DAY: u64 = 1_440;

/// The minutes of each day at which a rule holds: from the first to before the last, over midnight where
/// the first is above the last. Both are 0 to 1439, and they differ.
#[derive(Clone, Copy)]
pub struct Window {
    pub from: u16,
    pub until: u16,
}

impl Window {
    /// Whether a minute of the day is in the window. Takes no memory.
    pub fn contains(&self, minute: u16) -> bool
        ensures { result ≡ Definitions.is_within minute self.now }
    {
        if self.from < self.until {
            self.from <= minute && minute < self.until
        } else {
            self.from <= minute || minute < self.until
        }
    }
}

/// The minute of the day at a moment, in milliseconds since the start of 1970 in UTC, where local time is
/// `offset` minutes ahead of UTC: the division rounds down. Takes no memory.
pub fn minute_of(now: u64, offset: i16) -> u16
    ensures value { result ≡ Definitions.minute_of now offset }
    ensures in_a_day { result < 1440 }
{
    let local = (now / MINUTE + DAY) as i64 + i64::from(offset);
    (local.unsigned_abs() % DAY) as u16
}

/// Whether a rule with such a window, or with none, holds at a minute of the day. Takes no memory.
pub fn holds(window: Option<Window>, minute: u16) -> bool
    ensures { result ≡ Definitions.holds minute window }
{
    match window {
        Some(window) => window.contains(minute),
        None => true,
    }
}
