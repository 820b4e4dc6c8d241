//! Dates and times of day, read (ISO 8601), for each command that takes a time.
ghost use Rattle.std.specs.Prelude.{◌≡◌, ◌<◌, ◌≤◌, ◌^◌, length, take, sum, slice_get, IfSome};
ghost use Rattle.std.specs.Option.{option_copied};
ghost use Rattle.sipd_report.specs.Calendar;
ghost use Rattle.sipd_report.specs.Said as Definitions;

use crate::calendar::{Date, days_of_months};
use sip_text::{decimal, split_once};
use std::alloc::{AllocError, Global};

/// How many days there are from 1 January of the year 1 up to that of 1970.
const DAYS_TO_1970: u64 = 719_162;

/// A number that a text of so many digits says, if it is below a limit.
fn number_of(width: usize, limit: u64, text: &[u8]) -> Option<u64>
    ensures value { result ≡ Definitions.number_of width limit text.now }
    ensures below { IfSome result (λ n. n < limit) }
{
    if text.len() != width {
        return None;
    }
    let number = decimal(text)?;
    if number < limit { Some(number) } else { None }
}

/// The days of the month at a place, counted from 0.
fn days_at(months: &[u64], place: usize) -> Option<&u64>
    ensures { option_copied result ≡ slice_get months.now place }
{
    months.get(place)
}

/// How many days a month has, 0 where there is none of that number.
fn days_in_month(year: u64, month: u64) -> u64
    ensures { result ≡ Definitions.days_in_month year month }
{
    let months = days_of_months(year);
    match days_at(&months, month.saturating_sub(1) as usize) {
        Some(days) => *days,
        None => 0,
    }
}

/// Whether there is such a date, from 1970 on.
fn is_date(date: Date) -> bool
    ensures { result ≡ Definitions.is_date date }
{
    date.year >= 1970
        && date.month >= 1
        && date.day >= 1
        && date.day <= days_in_month(date.year, date.month)
}

/// The date of a year, a month and a day.
fn date_in(year: &[u8], month: &[u8], day: &[u8]) -> Option<Date>
    ensures value { result ≡ Definitions.date_in year.now month.now day.now }
    ensures small { IfSome result (λ date. date.year < 10000) }
    ensures month { IfSome result (λ date. date.month < 13) }
    ensures day { IfSome result (λ date. date.day < 32) }
{
    let year = number_of(4, 10_000, year)?;
    let month = number_of(2, 13, month)?;
    let day = number_of(2, 32, day)?;
    let date = Date { year, month, day };
    if is_date(date) { Some(date) } else { None }
}

/// The date that a text says, as 2026-10-14.
fn date_said(text: &[u8]) -> Option<Date>
    ensures value { result ≡ Definitions.date_said text.now }
    ensures small { IfSome result (λ date. date.year < 10000) }
    ensures month { IfSome result (λ date. date.month < 13) }
    ensures day { IfSome result (λ date. date.day < 32) }
{
    let (year, rest) = split_once(text, b'-')?;
    let (month, day) = split_once(rest, b'-')?;
    date_in(year, month, day)
}

/// The days of some months together.
fn days_in(months: &[u64]) -> u64
    requires { sum months.now < 2 ^ 64 }
    ensures { result ≡ sum months.now }
{
    months.iter().sum()
}

/// The first of some months.
fn front_of(months: &[u64], count: usize) -> &[u64]
    requires { count ≤ length months.now }
    ensures { result.now ≡ take count months.now }
{
    &months[..count]
}

/// How many leap years there are from the year 1 up to a year.
fn leap_years_to(year: u64) -> u64
    requires { year < 10000 }
    ensures value { result ≡ Calendar.leap_years_to year }
    ensures small { result < 20000 }
{
    (year / 4).saturating_sub(year / 100) + year / 400
}

/// How many days there are from 1 January of the year 1 up to that of a year.
fn days_before_year(year: u64) -> u64
    requires { year < 10000 }
    ensures value { result ≡ Calendar.days_before_year year }
    ensures small { result < 4000000 }
{
    let years = year.saturating_sub(1);
    365 * years + leap_years_to(years)
}

/// How many days there are from 1 January of a year up to the first of a month.
fn days_before_month(year: u64, month: u64) -> u64
    requires { month < 13 }
    ensures value { result ≡ Definitions.days_before_month year month }
    ensures small { result < 400 }
{
    let months = days_of_months(year);
    days_in(front_of(&months, month.saturating_sub(1) as usize))
}

/// How many days a date is behind 1 January 1970.
fn days_of(date: Date) -> u64
    requires { (date.year < 10000) × (date.month < 13) × (date.day < 32) }
    ensures value { result ≡ Definitions.days_of date }
    ensures small { result < 5000000 }
{
    let days = days_before_year(date.year) + days_before_month(date.year, date.month);
    (days + date.day.saturating_sub(1)).saturating_sub(DAYS_TO_1970)
}

/// The second of the day, of hour, minute and second.
fn second_in(hour: &[u8], minute: &[u8], second: &[u8]) -> Option<u64>
    ensures value { result ≡ Definitions.second_in hour.now minute.now second.now }
    ensures small { IfSome result (λ s. s < 90000) }
{
    let hour = number_of(2, 24, hour)?;
    let minute = number_of(2, 60, minute)?;
    let second = number_of(2, 60, second)?;
    Some(3600 * hour + 60 * minute + second)
}

/// The second of the day that a text says, as 06:30 or 06:30:15.
fn second_said(text: &[u8]) -> Option<u64>
    ensures value { result ≡ Definitions.second_said text.now }
    ensures small { IfSome result (λ s. s < 90000) }
{
    let (hour, rest) = split_once(text, b':')?;
    match split_once(rest, b':') {
        Some((minute, second)) => second_in(hour, minute, second),
        None => second_in(hour, rest, b"00"),
    }
}

/// The second of a day, where a text says the day.
fn second_of_day(text: &[u8], second: u64) -> Option<u64>
    requires { second < 90000 }
    ensures value { result ≡ Definitions.second_of_day text.now second }
    ensures small { IfSome result (λ s. s < 2 ^ 50) }
{
    let date = date_said(text)?;
    Some(86_400 * days_of(date) + second)
}

/// The time that a text says, in seconds since 1970 began on the office's clock: a date, or a date, `T` and a time of day. None of any other
/// text. Takes no memory.
pub fn time_said(text: &[u8]) -> Option<u64>
    ensures value { result ≡ Definitions.time_said text.now }
    ensures small { IfSome result (λ s. s < 2 ^ 50) }
{
    match split_once(text, b'T') {
        Some((date, clock)) => {
            let second = second_said(clock)?;
            second_of_day(date, second)
        }
        None => second_of_day(text, 0),
    }
}

/// The moment in milliseconds since 1970 began in UTC at which a clock that is so many minutes ahead of it shows such a time; where that
/// would be before 1970, the start of 1970.
pub fn moment_at(second: u64, offset: i16) -> u64
    requires { second < 2 ^ 50 }
    ensures value { result ≡ Definitions.moment_at second offset }
    ensures small { result < 2 ^ 62 }
{
    let shift = 60 * u64::from(offset.unsigned_abs());
    if offset < 0 {
        1000 * (second + shift)
    } else {
        1000 * second.saturating_sub(shift)
    }
}

/// What is complained of a text that says no time. `AllocError` is the only refusal.
pub fn no_time(alloc: Global, text: &str) -> Result<String, AllocError> {
    format!(in alloc;
        "no time: {text}: it is a date, as 2026-10-14, or with a time of day, as 2026-10-14T06:30"
    )
}
