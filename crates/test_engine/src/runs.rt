//! Runs over lists of events.

use crate::calls::TOO_LARGE;
use crate::driving::PHONE;
use crate::kinds::{BOOT, ServerRules, ServerTimers};
use crate::registers::{REGISTER, REGISTER_AGAIN};
use sip_config_types::sample;
use sip_event::Event;
use sip_replay::engine::StepError;
use sip_replay::run::run;
use sip_text::Bytes;
use std::alloc::{AllocError, Global};

/// Moments, and the datagram that comes then, with its word, or time alone that passes: both REGISTERs, until neither is
/// open, each for 32 seconds; then a moment that is too large, and one that isn't.
const EVENTS: &[(u64, Option<(u128, &[u8])>)] = &[
    (1_000, Some((1, REGISTER))),
    (2_000, Some((2, REGISTER_AGAIN))),
    (40_000, None),
    (TOO_LARGE, None),
    (50_000, None),
];

fn event(alloc: Global, at: u64, heard: Option<(u128, &[u8])>) -> Result<Event, AllocError> {
    match heard {
        Some((word, bytes)) => Ok(Event::Datagram {
            at,
            word,
            from: PHONE,
            bytes: Bytes::copy(alloc, bytes)?,
        }),
        None => Ok(Event::Time { at }),
    }
}

/// Adds so many of the events.
fn push_events(alloc: Global, events: &mut Vec<Event>, count: usize) -> Result<(), AllocError> {
    for (at, heard) in EVENTS.iter().take(count) {
        events.push(event(alloc, *at, *heard)?)?;
    }
    Ok(())
}

/// Whether a run over the events lists a step for each REGISTER, for the end of each, and for the moment 40,000, and
/// stops so.
fn lists_registering(alloc: Global, events: &[Event], stopped: Option<StepError>) -> bool {
    let Ok(config) = sample(alloc) else {
        return false;
    };
    let listed = run::<ServerTimers, ServerRules>(alloc, config, BOOT, events);
    match listed.steps.as_slice() {
        [first, second, ends, ends_too, last] => {
            let moments = [first.at, second.at, ends.at, ends_too.at, last.at];
            moments == [1_000, 2_000, 33_000, 34_000, 40_000] && listed.stopped == stopped
        }
        _ => false,
    }
}

fn is_listed(alloc: Global, count: usize, stopped: Option<StepError>) -> bool {
    let mut events = Vec::new(alloc);
    match push_events(alloc, &mut events, count) {
        Ok(()) => lists_registering(alloc, events.as_slice(), stopped),
        Err(_) => false,
    }
}

/// A run over a list of events to its end; and one that is refused, whose list goes on behind that.
pub(crate) fn runs_are_listed(alloc: Global) -> bool {
    is_listed(alloc, 3, None) && is_listed(alloc, 5, Some(StepError::MomentTooLarge))
}
