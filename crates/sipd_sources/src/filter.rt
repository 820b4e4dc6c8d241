//! Which datagrams are counted.
ghost use Rattle.std.specs.Prelude.{◌≡◌};
ghost use Rattle.sipd_sources.specs.Filter as Definitions;

use crate::source::SourceMoment;
use sip_text::same_bytes;
use sipd_report::{is_within, shown_seconds};

/// Which datagrams are counted: those that meet all of what is given. Times are in seconds since 1970 began, on the office's clock.
#[derive(Clone, Copy)]
pub struct SourceFilter {
    /// From this second on.
    pub since: Option<u64>,
    /// Before this second.
    pub until: Option<u64>,
    /// From this address.
    pub from: Option<[u8; 4]>,
}

/// Whether an address is the one that is given.
fn is_from(from: Option<[u8; 4]>, ip: [u8; 4]) -> bool
    ensures { result ≡ Definitions.is_from from ip }
{
    match from {
        Some(from) => same_bytes(from.as_slice(), ip.as_slice()),
        None => true,
    }
}

impl SourceFilter {
    /// Whether a moment is within the times that are given.
    fn is_in_time(self, moment: SourceMoment) -> bool
        ensures { result ≡ Definitions.is_in_time self moment }
    {
        let second = shown_seconds(moment.at, moment.offset);
        is_within(self.since, self.until, second)
    }

    /// Whether a datagram is counted that came from an address at a moment.
    pub(crate) fn takes(self, moment: SourceMoment, ip: [u8; 4]) -> bool
        ensures { result ≡ Definitions.takes self moment ip }
    {
        self.is_in_time(moment) && is_from(self.from, ip)
    }
}
