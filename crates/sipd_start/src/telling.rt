//! The events and configurations of a record told to a journal, without a server.
use crate::not_resumed::StartStop;
use crate::old_lines::{OldBeginning, OldLines};
use crate::taking::{old_beginning, tell};
use sip_event::Event;
use sip_journal::{
    ConfigurationStop, Journal, JournalFault, RecordHead, Upcoming, look_ahead, next_configuration,
};
use sip_replay_script::{ReadStop, ScriptLines, TellingReader, next_recorded};
use sipd_exit::{Exit, Stated};
use sipd_reload::MOST_BYTES;
use std::alloc::Global;

/// Tells a journal an event.
fn tell_event<J: Journal>(event: &Event, journal: &mut J) -> Result<(), JournalFault> {
    match event {
        Event::Datagram {
            at,
            word,
            from,
            bytes,
        } => journal.heard(*at, *word, *from, bytes.as_slice()),
        Event::Time { at } => journal.passed(*at),
        Event::Fault { at, ticket } => journal.failed(*at, *ticket),
    }
}

/// Tells the next event, if a whole one stands there; whether one did.
fn tell_recorded<I: TellingReader, J: Journal>(
    alloc: Global,
    lines: &mut ScriptLines,
    reader: &mut I,
    journal: &mut J,
) -> Result<bool, Exit> {
    match next_recorded(alloc, lines, reader) {
        Ok(Some(event)) => match tell_event(&event, journal) {
            Ok(()) => Ok(true),
            Err(JournalFault) => Err(Exit::Recording),
        },
        Ok(None) | Err(ReadStop::Cut) => Ok(false),
        Err(ReadStop::NoMemory) => Err(Exit::Memory),
        Err(ReadStop::Damaged | ReadStop::Read) => Err(Exit::NoShorter),
    }
}

/// Tells the next configuration, if a whole one stands there; whether one did.
fn tell_configuration<I: TellingReader, J: Journal>(
    alloc: Global,
    lines: &mut ScriptLines,
    reader: &mut I,
    journal: &mut J,
) -> Result<bool, Exit> {
    match next_configuration(alloc, lines, reader, MOST_BYTES) {
        Ok(Some(text)) => {
            tell(text.as_slice(), journal)?;
            Ok(true)
        }
        Ok(None) | Err(ConfigurationStop::Cut) => Ok(false),
        Err(ConfigurationStop::NoMemory) => Err(Exit::Memory),
        Err(_) => Err(Exit::NoShorter),
    }
}

/// Tells what comes next in a record; whether something did.
fn tell_next<I: TellingReader, J: Journal>(
    alloc: Global,
    lines: &mut ScriptLines,
    reader: &mut I,
    journal: &mut J,
) -> Result<bool, Exit> {
    match look_ahead(lines, reader) {
        Ok(Upcoming::Over) => Ok(false),
        Ok(Upcoming::Configuration) => tell_configuration(alloc, lines, reader, journal),
        Ok(Upcoming::Event) => tell_recorded(alloc, lines, reader, journal),
        Err(_) => Err(Exit::NoShorter),
    }
}

/// Tells what is left of a record, up to its end or a cut. Refusals: `Memory`; `Recording`, where the journal failed; `NoShorter`, where what is
/// left is damaged, or can't be read.
fn tell_rest<I: TellingReader, J: Journal>(
    alloc: Global,
    lines: &mut ScriptLines,
    reader: &mut I,
    journal: &mut J,
) -> Result<(), Exit> {
    for _ in 0..u64::MAX {
        if !tell_next(alloc, lines, reader, journal)? {
            return Ok(());
        }
    }
    Ok(())
}

/// Tells what is left of a record, with the configuration with which it begins first.
fn tell_lines<I: TellingReader, J: Journal>(
    alloc: Global,
    old: OldLines,
    reader: &mut I,
    journal: &mut J,
) -> Result<(), Exit> {
    let OldLines { mut lines, first } = old;
    tell(first.as_slice(), journal)?;
    tell_rest(alloc, &mut lines, reader, journal)
}

/// Tells all that stands behind the first line of a record, which says this head, and then the configuration of a file.
pub(crate) fn tell_behind<I: TellingReader, J: Journal>(
    alloc: Global,
    stated: &Stated,
    head: &RecordHead,
    reader: &mut I,
    journal: &mut J,
) -> Result<(), StartStop> {
    let old = old_beginning(alloc, stated, head, reader)?;
    let OldBeginning { lines, config: _ } = old;
    tell_lines(alloc, lines, reader, journal)?;
    tell(stated.bytes.as_slice(), journal)?;
    Ok(())
}
