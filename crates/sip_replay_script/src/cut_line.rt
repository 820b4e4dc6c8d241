ghost use Rattle.std.specs.Prelude.{◌<◌, ◌++◌, ◌↔◌, length, IfOk, IsTrue};
ghost use Rattle.sip_replay_script.specs.Events.{BeginsEvent, BeginsLine, EndsAs, StopsAt, StopsIn};

use crate::lines::LONGEST_LINE;
use crate::read_stop::ReadStop;
use crate::script::line_of;
use std::alloc::{AllocError, Global};

/// Why no event is read where no line is; of one that was cut these are the bytes.
#[inline(never)]
pub(crate) fn stop_at(alloc: Global, line: &[u8], stop: ReadStop) -> ReadStop
    ensures { StopsAt line.now stop result }
{
    if let ReadStop::Cut = stop {
        return stop_in_line(alloc, line);
    }
    stop
}

/// Why no event is read where a script ends within a line: what there is of it is the front of a line that begins an event, or is damaged.
fn stop_in_line(alloc: Global, line: &[u8]) -> ReadStop
    ensures { StopsIn line.now result }
{
    match begins_line(alloc, line) {
        Ok(true) => ReadStop::Cut,
        Ok(false) => ReadStop::Damaged,
        Err(e) => ReadStop::from(e),
    }
}

/// Whether a text is the front of a line that begins an event. Wherever it is cut, it goes on as the shortest line of its kind does,
/// or, within an escape of a line `text`, by one digit.
fn begins_line(alloc: Global, text: &[u8]) -> Result<bool, AllocError>
    ensures { IfOk result (λ begins. IsTrue begins ↔ BeginsLine text.now) }
{
    if ends_as(alloc, text, b"time 0")? {
        return Ok(true);
    }
    if ends_as(alloc, text, b"fault 0 0/0")? {
        return Ok(true);
    }
    if ends_as(
        alloc,
        text,
        b"datagram 0 0.0.0.0:1 00000000000000000000000000000000",
    )? {
        return Ok(true);
    }
    if ends_as(
        alloc,
        text,
        b"hex 0 0.0.0.0:1 00000000000000000000000000000000 00",
    )? {
        return Ok(true);
    }
    if ends_as(
        alloc,
        text,
        b"text 0 0.0.0.0:1 00000000000000000000000000000000 n",
    )? {
        return Ok(true);
    }
    if ends_as(alloc, text, b"0")? {
        return Ok(true);
    }
    ends_as(alloc, text, b"f")
}

/// Whether a text and some end of a sample are a line that begins an event.
fn ends_as(alloc: Global, text: &[u8], sample: &[u8]) -> Result<bool, AllocError>
    requires { length sample.now < 200 }
    ensures { IfOk result (λ ends. IsTrue ends ↔ EndsAs text.now sample.now) }
{
    for place in 0..sample.len() + 1 {
        if begins_event(alloc, text, &sample[place..])? {
            return Ok(true);
        }
    }
    Ok(false)
}

/// Whether a text and its end are a line that begins an event.
fn begins_event(alloc: Global, front: &[u8], tail: &[u8]) -> Result<bool, AllocError>
    ensures { IfOk result (λ begins. IsTrue begins ↔ BeginsEvent (front.now ++ tail.now)) }
{
    let mut line = Vec::new(alloc);
    line.extend_from_slice(front)?;
    line.extend_from_slice(tail)?;
    if line.len() > LONGEST_LINE {
        return Ok(false);
    }
    Ok(line_of(alloc, &line)?.is_some())
}
