//! How a report writes a moment: date and time of day on a clock that is so many minutes ahead of UTC; and the moment at which such a clock
//! shows them.
ghost use Rattle.std.specs.Prelude.{◌≡◌, ◌<◌, ◌^◌, ◌++◌, ◌∷◌, OnOk};
ghost use Rattle.sipd_report.specs.Times as Definitions;

use crate::calendar::{Date, date_of};
use crate::query::Form;
use sip_text::Bytes;
use std::alloc::AllocError;

/// A day, in seconds.
const DAY: u64 = 86_400;

/// Adds a number in two digits or more.
pub fn push_two_digits(text: &mut Bytes, number: u64) -> Result<(), AllocError>
    ensures { OnOk result (text.new ≡ text.old ++ Definitions.two_digits number) }
{
    if number < 10 {
        text.push(b'0')?;
    }
    text.push_decimal(number)
}

/// Adds a mark, and a number in two digits or more.
fn push_behind(text: &mut Bytes, mark: u8, number: u64) -> Result<(), AllocError>
    ensures { OnOk result (text.new ≡ text.old ++ mark ∷ Definitions.two_digits number) }
{
    text.push(mark)?;
    push_two_digits(text, number)
}

fn push_date(text: &mut Bytes, date: Date) -> Result<(), AllocError>
    ensures { OnOk result (text.new ≡ text.old ++ Definitions.date_text date) }
{
    text.push_decimal(date.year)?;
    push_behind(text, b'-', date.month)?;
    push_behind(text, b'-', date.day)
}

/// Adds the time of day at a second of it, as 14:03:36.
pub fn push_clock(text: &mut Bytes, second: u64) -> Result<(), AllocError>
    ensures { OnOk result (text.new ≡ text.old ++ Definitions.clock_text second) }
{
    push_two_digits(text, second / 3600)?;
    push_behind(text, b':', second / 60 % 60)?;
    push_behind(text, b':', second % 60)
}

/// Adds a mark, and the time of day.
fn push_clock_behind(text: &mut Bytes, mark: u8, second: u64) -> Result<(), AllocError>
    ensures { OnOk result (text.new ≡ text.old ++ mark ∷ Definitions.clock_text second) }
{
    text.push(mark)?;
    push_clock(text, second)
}

/// Adds hours and minutes.
pub(crate) fn push_minutes(text: &mut Bytes, minutes: u64) -> Result<(), AllocError>
    ensures { OnOk result (text.new ≡ text.old ++ Definitions.minutes_text minutes) }
{
    push_two_digits(text, minutes / 60)?;
    push_behind(text, b':', minutes % 60)
}

/// Adds how far a clock is ahead of UTC, in minutes, as +01:00.
pub fn push_offset(text: &mut Bytes, offset: i16) -> Result<(), AllocError>
    ensures { OnOk result (text.new ≡ text.old ++ Definitions.offset_text offset) }
{
    let sign = if offset < 0 { b'-' } else { b'+' };
    text.push(sign)?;
    push_minutes(text, u64::from(offset.unsigned_abs()))
}

/// What a clock shows that is so many minutes ahead of UTC, at a moment in milliseconds since the start of 1970: in seconds since that, not
/// before it.
pub fn shown_seconds(at: u64, offset: i16) -> u64
    ensures shown { result ≡ Definitions.shown_seconds at offset }
    ensures small { result < 2 ^ 60 }
{
    let seconds = at / 1000;
    let shift = 60 * u64::from(offset.unsigned_abs());
    if offset < 0 {
        seconds.saturating_sub(shift)
    } else {
        seconds + shift
    }
}

/// Adds date and time of day with a mark between them, at seconds since 1970 began.
#[tactic(auto, using(crate::proofs::Ends::behind_date))]
pub fn push_dated(text: &mut Bytes, mark: u8, seconds: u64) -> Result<(), AllocError>
    requires { seconds < 2 ^ 60 }
    ensures { OnOk result (text.new ≡ text.old ++ Definitions.dated_text mark seconds) }
{
    push_date(text, date_of(seconds / DAY))?;
    push_clock_behind(text, mark, seconds % DAY)
}

/// What stands between date and time of day.
fn mark_of(form: Form) -> u8
    ensures { result ≡ Definitions.mark_of form }
{
    match form {
        Form::Table => b' ',
        Form::Csv => b'T',
    }
}

/// Adds such seconds as a form has them, with the offset of their clock.
fn push_moment(text: &mut Bytes, form: Form, offset: i16, seconds: u64) -> Result<(), AllocError>
    requires { seconds < 2 ^ 60 }
    ensures { OnOk result (text.new ≡ text.old ++ Definitions.moment_text form offset seconds) }
{
    push_dated(text, mark_of(form), seconds)?;
    push_offset(text, offset)
}

/// Adds a moment, in milliseconds since 1970 began in UTC.
pub(crate) fn put_time(text: &mut Bytes, form: Form, offset: i16, at: u64) -> Result<(), AllocError>
    ensures { OnOk result (text.new ≡ text.old ++ Definitions.time_text form offset at) }
{
    push_moment(text, form, offset, shown_seconds(at, offset))
}
