//! A script played step by step: a step that is refused for want of memory is given again, and what is printed stays the same.
use crate::fault::Fault;
use crate::kinds::{TestServer, opened};
use crate::refusals::take::take;
use sip_event::Event;
use sip_replay_print::{PrintRoom, print_step};
use sip_replay_script::{EventLine, Gathered, ScriptLines, next_line};
use sip_text::Bytes;
use std::alloc::{AllocError, Global};
use std::io::{Read, Write};

/// Takes the steps of an event, those of what is due before it first, and prints them; how many were refused at first.
fn take_event<W: Write, M: Write>(
    alloc: Global,
    engine: &mut TestServer,
    event: &Event,
    output: &mut W,
    marks: &mut M,
) -> Result<u64, Fault> {
    let mut room = PrintRoom::new();
    let mut refused = 0u64;
    for _ in 0..u64::MAX {
        let taken = take(alloc, engine, event, marks)?;
        print_step(alloc, output, &mut room, &taken.out)?;
        refused = refused.saturating_add(u64::from(taken.is_refused));
        if taken.is_own {
            return Ok(refused);
        }
    }
    Err(Fault::Script)
}

/// The event that a line begins, a datagram with a copy of these bytes.
pub(crate) fn event_of(
    alloc: Global,
    line: EventLine,
    bytes: &Gathered,
) -> Result<Event, AllocError> {
    match line {
        EventLine::Whole(event) => Ok(event),
        EventLine::Head(head) => Ok(Event::Datagram {
            at: head.at,
            word: head.word,
            from: head.from,
            bytes: Bytes::copy(alloc, bytes.as_slice())?,
        }),
    }
}

/// Takes all events of a script; how many steps were refused at first.
fn take_all<I: Read, W: Write, M: Write>(
    alloc: Global,
    engine: &mut TestServer,
    lines: &mut ScriptLines,
    bytes: &mut Gathered,
    input: &mut I,
    output: &mut W,
    marks: &mut M,
) -> Result<u64, Fault> {
    let mut refused = 0u64;
    for _ in 0..u64::MAX {
        let Some(line) = next_line(alloc, lines, input, bytes)? else {
            return Ok(refused);
        };
        let event = event_of(alloc, line, bytes)?;
        refused = refused.saturating_add(take_event(alloc, engine, &event, output, marks)?);
    }
    Err(Fault::Script)
}

/// Plays a script on a server with the sample configuration and prints its steps; how many were refused at first.
pub fn play<I: Read, W: Write, M: Write>(
    alloc: Global,
    input: &mut I,
    output: &mut W,
    marks: &mut M,
) -> Result<u64, Fault> {
    let mut engine = opened(alloc, 1)?;
    let mut lines = ScriptLines::new(alloc)?;
    let mut bytes = Gathered::new(alloc);
    take_all(
        alloc,
        &mut engine,
        &mut lines,
        &mut bytes,
        input,
        output,
        marks,
    )
}
