//! For how long a contact is bound (RFC 3261 10.2.1.1, 10.3 step 7).
ghost use Rattle.std.specs.Prelude.{◌≡◌, ◌≤◌};
ghost use Rattle.sip_location.specs.Interval as Definitions;
ghost use Rattle.sip_location.specs.Registration as Registrations;

use sip_header::{ContactItem, Expires, contact_expires};

/// The seconds that are granted where none are asked for.
const HOUR: u64 = 3600;

/// The most seconds that are granted.
const DAY: u64 = 86_400;

/// The fewest seconds that are granted.
pub(crate) const MINUTE: u64 = 60;

/// A contact's own `expires`, else the request's.
pub(crate) fn own_or(own: Expires, expires: Expires) -> Expires
    ensures { result ≡ Definitions.own_or own expires }
{
    match own {
        Expires::Absent => expires,
        Expires::Malformed => own,
        Expires::Seconds(_) => own,
    }
}

/// The seconds that are granted: an hour where none are said, and at most a day.
pub(crate) fn granted(expires: Expires) -> u64
    ensures value { result ≡ Definitions.granted expires }
    ensures small { result ≤ 86400 }
{
    match expires {
        Expires::Absent => HOUR,
        Expires::Malformed => HOUR,
        Expires::Seconds(seconds) => seconds.min(DAY),
    }
}

/// The seconds for which a contact is bound.
pub(crate) fn seconds_for(contact: &ContactItem<'_>, expires: Expires) -> u64
    ensures value { result ≡ Registrations.seconds_for contact.now expires }
    ensures small { result ≤ 86400 }
{
    granted(own_or(contact_expires(contact), expires))
}

/// Less than a minute, and no removal.
pub(crate) fn is_brief(seconds: u64) -> bool
    ensures { result ≡ Definitions.is_brief seconds }
{
    0 < seconds && seconds < MINUTE
}

/// Whether 0 seconds are said.
pub(crate) fn is_zero(expires: Expires) -> bool
    ensures { result ≡ Definitions.is_zero expires }
{
    match expires {
        Expires::Absent => false,
        Expires::Malformed => false,
        Expires::Seconds(seconds) => seconds == 0,
    }
}
