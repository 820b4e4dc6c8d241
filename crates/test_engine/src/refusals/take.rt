ghost use Rattle.std.specs.Prelude.{◌≡◌, OnErr};

use crate::fault::Fault;
use crate::kinds::TestServer;
use crate::refusals::standing::ProbeStanding;
use sip_event::{Event, StepOut};
use sip_replay::engine::StepError;
use sip_replay::run::{event_moment, fire_next, take_event};
use std::alloc::Global;
use std::io::Write;

/// A step, whether it is its event's own, and whether it was refused at first.
#[derive(Drop)]
pub struct ProbeTaken {
    pub out: StepOut,
    pub is_own: bool,
    pub is_refused: bool,
}

/// The step of what is due first by an event's moment, or the event's own.
pub(crate) fn step(engine: &mut TestServer, event: &Event) -> Result<ProbeTaken, StepError>
    ensures { OnErr result (engine.new ≡ engine.old) }
{
    if let Some(out) = fire_next(engine, event_moment(event))? {
        return Ok(ProbeTaken {
            out,
            is_own: false,
            is_refused: false,
        });
    }
    let out = take_event(engine, event)?;
    Ok(ProbeTaken {
        out,
        is_own: true,
        is_refused: false,
    })
}

/// Says a word, where it can be heard at once.
fn say<M: Write>(marks: &mut M, word: &[u8]) -> Result<(), Fault> {
    marks.write_all(word)?;
    marks.flush()?;
    Ok(())
}

/// The same step once more, where nothing changed since.
fn step_again(
    alloc: Global,
    engine: &mut TestServer,
    event: &Event,
    before: &ProbeStanding,
) -> Result<ProbeTaken, Fault> {
    let after = ProbeStanding::of(alloc, engine)?;
    if !after.is_same(before) {
        return Err(Fault::Changed);
    }
    let taken = step(engine, event)?;
    Ok(ProbeTaken {
        out: taken.out,
        is_own: taken.is_own,
        is_refused: true,
    })
}

/// Takes the step of what is due first by an event's moment, or the event's own, and once more where it is refused for
/// want of memory.
pub fn take<M: Write>(
    alloc: Global,
    engine: &mut TestServer,
    event: &Event,
    marks: &mut M,
) -> Result<ProbeTaken, Fault> {
    let before = ProbeStanding::of(alloc, engine)?;
    say(marks, b"step\n")?;
    let first = step(engine, event);
    say(marks, b"done\n")?;
    match first {
        Ok(taken) => Ok(taken),
        Err(StepError::NoMemory) => step_again(alloc, engine, event, &before),
        Err(e) => Err(Fault::from(e)),
    }
}
