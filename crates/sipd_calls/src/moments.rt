//! Moments and lengths of time.
ghost use Rattle.std.specs.Prelude.{◌≡◌, ◌<◌, ◌^◌, ◌++◌, OnOk};
ghost use Rattle.sipd_report.specs.Times.{dated_text, offset_text};
ghost use Rattle.sipd_calls.specs.Moments as Definitions;

use sip_text::Bytes;
use sipd_report::{
    Date, date_of, push_clock, push_dated, push_offset, push_two_digits, shown_seconds,
};
use std::alloc::AllocError;

/// A day, in seconds.
const DAY: u64 = 86_400;

/// Adds month and day.
fn push_day(text: &mut Bytes, date: Date) -> Result<(), AllocError>
    ensures { OnOk result (text.new ≡ text.old ++ Definitions.day_text date) }
{
    push_two_digits(text, date.month)?;
    text.push(b'-')?;
    push_two_digits(text, date.day)
}

/// Adds seconds since 1970 began, as 11-27 14:03:36.
pub fn push_short(text: &mut Bytes, seconds: u64) -> Result<(), AllocError>
    requires { seconds < 2 ^ 60 }
    ensures { OnOk result (text.new ≡ text.old ++ Definitions.short_text seconds) }
{
    push_day(text, date_of(seconds / DAY))?;
    text.push(b' ')?;
    push_clock(text, seconds % DAY)
}

/// Adds a moment on a clock that is so many minutes ahead of UTC, as 11-27 14:03:36.
pub fn push_start_at(text: &mut Bytes, offset: i16, at: u64) -> Result<(), AllocError>
    ensures { OnOk result (text.new ≡ text.old ++ Definitions.start_text offset at) }
{
    push_short(text, shown_seconds(at, offset))
}

/// Adds seconds since 1970 began with their year, and how far their clock is ahead of UTC (ISO 8601).
fn push_ahead_of(text: &mut Bytes, offset: i16, seconds: u64) -> Result<(), AllocError>
    requires { seconds < 2 ^ 60 }
    ensures { OnOk result (text.new ≡ text.old ++ (dated_text 84 seconds ++ offset_text offset)) }
{
    push_dated(text, b'T', seconds)?;
    push_offset(text, offset)
}

/// Adds a moment on such a clock, as 2026-11-27T14:03:36+01:00 (ISO 8601).
pub fn push_iso_at(text: &mut Bytes, offset: i16, at: u64) -> Result<(), AllocError>
    ensures { OnOk result (text.new ≡ text.old ++ Definitions.iso_text offset at) }
{
    push_ahead_of(text, offset, shown_seconds(at, offset))
}

/// Adds the clock of a title, and the line's end.
fn push_zone(text: &mut Bytes, offset: i16) -> Result<(), AllocError>
    ensures { OnOk result (text.new ≡ text.old ++ Definitions.zone_text offset) }
{
    text.extend(b" UTC")?;
    push_offset(text, offset)?;
    text.push(b'\n')
}

/// Adds what a title says of such seconds.
fn push_title_of(text: &mut Bytes, offset: i16, seconds: u64) -> Result<(), AllocError>
    requires { seconds < 2 ^ 60 }
    ensures { OnOk result (text.new ≡ text.old ++ (dated_text 32 seconds ++ Definitions.zone_text offset)) }
{
    push_dated(text, b' ', seconds)?;
    push_zone(text, offset)
}

/// Adds the moment that a table is of, on a clock that is so many minutes ahead of UTC, as a line.
pub fn push_title(text: &mut Bytes, offset: i16, at: u64) -> Result<(), AllocError>
    ensures { OnOk result (text.new ≡ text.old ++ Definitions.title offset at) }
{
    push_title_of(text, offset, shown_seconds(at, offset))
}

/// Adds a colon, and a number in two digits or more.
fn push_further(text: &mut Bytes, number: u64) -> Result<(), AllocError>
    ensures { OnOk result (text.new ≡ text.old ++ Definitions.further_digits number) }
{
    text.push(b':')?;
    push_two_digits(text, number)
}

/// Adds hours, minutes and seconds.
fn push_length_of(
    text: &mut Bytes,
    hours: u64,
    minutes: u64,
    seconds: u64,
) -> Result<(), AllocError>
    ensures { OnOk result (text.new ≡ text.old ++ Definitions.length_of hours minutes seconds) }
{
    if hours == 0 {
        text.push_decimal(minutes)?;
        return push_further(text, seconds);
    }
    text.push_decimal(hours)?;
    push_further(text, minutes)?;
    push_further(text, seconds)
}

/// Adds so many seconds, as 2:21 or 1:02:21.
pub fn push_length(text: &mut Bytes, seconds: u64) -> Result<(), AllocError>
    ensures { OnOk result (text.new ≡ text.old ++ Definitions.length_text seconds) }
{
    push_length_of(text, seconds / 3600, seconds / 60 % 60, seconds % 60)
}

/// Milliseconds in seconds: the nearest one, and the later one of two.
pub fn seconds_of(milliseconds: u64) -> u64
    ensures { result ≡ Definitions.seconds_of milliseconds }
{
    milliseconds / 1000 + (milliseconds % 1000 + 500) / 1000
}
