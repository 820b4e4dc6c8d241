//! The clock of an office that was set to another offset meanwhile, as at the end of summer time.
ghost use Rattle.std.specs.Prelude.{◌≡◌};
ghost use Rattle.sipd_report.specs.Zones as Definitions;

/// From a moment on the office's clock is so many minutes ahead of UTC.
#[derive(Clone, Copy)]
pub struct Zone {
    /// That moment, in milliseconds since 1970 began in UTC.
    pub since: u64,
    /// The minutes.
    pub offset: i16,
}

/// How many minutes the clock is ahead at a moment, if the zone began by then, and else as it was without it.
fn offset_behind(zone: Zone, offset: i16, at: u64) -> i16
    ensures { result ≡ Definitions.offset_behind zone offset at }
{
    if zone.since <= at {
        zone.offset
    } else {
        offset
    }
}

/// How many minutes the clock is ahead at a moment: by the last of some zones that began by then; where none did, as it is without them.
pub(crate) fn offset_at(zones: &[Zone], offset: i16, at: u64) -> i16
    ensures { result ≡ Definitions.offset_at zones.now offset at }
{
    let mut ahead = offset;
    for zone in zones {
        ahead = offset_behind(*zone, ahead, at);
    }
    ahead
}
