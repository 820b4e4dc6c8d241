//! When a request is to be let through, read.
ghost use Rattle.std.specs.Prelude.{◌≡◌, ◌<◌, IfSome};
ghost use Rattle.sipd_expect.specs.Times as Definitions;

use crate::error::LineError;
use sip_matrix::Times;
use sip_policy::Window;
use sip_text::{decimal, same_bytes, split_once};

fn hour_of(digits: &[u8]) -> Option<u16>
    ensures value { result ≡ Definitions.hour_of digits.now }
    ensures below { IfSome result (λ hour. hour < 24) }
{
    let hour = decimal(digits)?;
    if hour < 24 { Some(hour as u16) } else { None }
}

fn minute_of(digits: &[u8]) -> Option<u16>
    ensures value { result ≡ Definitions.minute_of digits.now }
    ensures below { IfSome result (λ minute. minute < 60) }
{
    if digits.len() != 2 {
        return None;
    }
    let minute = decimal(digits)?;
    if minute < 60 {
        Some(minute as u16)
    } else {
        None
    }
}

/// A minute of the day.
fn clock_of(text: &[u8]) -> Option<u16>
    ensures { result ≡ Definitions.clock_of text.now }
{
    let (hours, minutes) = split_once(text, b':')?;
    let hour = hour_of(hours)?;
    let minute = minute_of(minutes)?;
    Some(hour * 60 + minute)
}

fn between(from: Option<u16>, until: Option<u16>) -> Result<Times, LineError>
    ensures { result ≡ Definitions.between from until }
{
    match (from, until) {
        (Some(from), Some(until)) => {
            if from == until {
                Err(LineError::BadTimes)
            } else {
                Ok(Times::Within(Window { from, until }))
            }
        }
        _ => Err(LineError::BadTimes),
    }
}

/// `always`, `never`, or `HH:MM-HH:MM`.
pub(crate) fn times_of(text: &[u8]) -> Result<Times, LineError>
    ensures { result ≡ Definitions.times_of text.now }
{
    if same_bytes(text, b"always") {
        return Ok(Times::Always);
    }
    if same_bytes(text, b"never") {
        return Ok(Times::Never);
    }
    match split_once(text, b'-') {
        Some((from, until)) => between(clock_of(from), clock_of(until)),
        None => Err(LineError::BadTimes),
    }
}
