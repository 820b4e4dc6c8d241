//! The next item of a record: an event, or a configuration.
ghost use Rattle.std.specs.Prelude.{◌≡◌, ◌≤◌, IfOk, IfErr, IfNone, IfSome, OnErr};
ghost use Rattle.sip_replay_script.specs.Devices.{later};
ghost use Rattle.sip_replay_script.specs.Lines.{pending, IsSpent};
ghost use Rattle.sip_replay_script.specs.Recorded.{GivesRecorded};
ghost use Rattle.sip_segment_config.specs.Last.{EndsCut};
ghost use Rattle.sip_resume.specs.Resumes.{EndsHere};
ghost use Rattle.sip_resume.specs.Takes.{TakesConfiguration};
ghost use Rattle.sip_resume.specs.run.Due.{standing_of};
ghost use Rattle.sip_retell.specs.Errors;
ghost use Rattle.sip_retell.specs.Items;
ghost use Rattle.sip_retell.specs.Retells.{BeginsOn, GoesOn};
ghost use Rattle.sip_retell.specs.Stops.{EventStops, RetellStops, UnbegunStops, UnreadStops};
ghost use Rattle.sip_retell.specs.declared.error.RetellError.TheVariants as Refusal;

use crate::error::RetellError;
use crate::passing::tell_in_turn;
use sip_event::Event;
use sip_journal::{Upcoming, look_ahead};
use sip_listener::Listener;
use sip_policy::Rules;
use sip_replay_script::{ReadStop, ScriptLines, TellingReader, next_recorded};
use sip_resume::engine::Engine;
use sip_resume::run::event_moment;
use sip_resume::take_configuration;
use sip_segment_config::SegmentStop;
use sip_text::Buffer;
use sip_timers::Timers;
use std::alloc::Global;

/// What became of the next item.
#[derive(Clone, Copy)]
pub(crate) enum NextItem {
    /// It was taken and told.
    Told,
    /// It is an event that is later than the moment that was asked for.
    Later,
    /// None stands there, or the front of one that was cut.
    Over,
}

/// Whether a moment is later than the one that is asked for.
fn is_later(until: Option<u64>, at: u64) -> bool
    ensures { result ≡ Items.is_later until at }
{
    match until {
        Some(until) => until < at,
        None => false,
    }
}

/// Whether a record ends where no event is read that would begin with this line.
fn end_at(stop: ReadStop, first: u64) -> Result<(), RetellError>
    ensures { result ≡ Errors.end_at stop first }
{
    match stop {
        ReadStop::NoMemory => Err(RetellError::NoMemory),
        ReadStop::Damaged => Err(RetellError::Damaged(first)),
        ReadStop::Cut => Ok(()),
        ReadStop::Read => Err(RetellError::Read),
    }
}

/// The next event of a record; none where it ends, or was cut in its last one. A fault of the reader is no end.
fn read_next<I: TellingReader>(
    alloc: Global,
    lines: &mut ScriptLines,
    reader: &mut I,
) -> Result<Option<Event>, RetellError>
    ensures given { IfOk result
        (λ found. IfSome found (λ event. GivesRecorded lines.old lines.new (I.remaining reader.old) (I.remaining reader.new) event)) }
    ensures over { IfOk result (λ found. IfNone found (IfSome (pending lines.old (I.remaining reader.old)) EndsHere)) }
    ensures refused { IfErr result (UnreadStops (IsSpent (I.has_failed reader.new) lines.new.asks) (pending lines.old (I.remaining reader.old))
        lines.old.number) }
    ensures asked { later lines.new.asks (I.asked reader.new) ≡ later lines.old.asks (I.asked reader.old) }
    ensures less { lines.new.asks ≤ lines.old.asks }
{
    let first = lines.number() + 1;
    match next_recorded(alloc, lines, reader) {
        Ok(found) => Ok(found),
        Err(stop) => {
            end_at(stop, first)?;
            Ok(None)
        }
    }
}

/// Takes the next event of a record and tells its steps, if a whole one stands there that isn't later than a moment.
fn tell_event<T: Timers, R: Rules, I: TellingReader, L: Listener>(
    alloc: Global,
    engine: &mut Engine<T, R>,
    lines: &mut ScriptLines,
    reader: &mut I,
    until: Option<u64>,
    listener: &mut L,
) -> Result<NextItem, RetellError>
    ensures server { engine.new.server ≡ engine.old.server }
    ensures next { IfOk result (GoesOn L.hears engine.old.server engine.old.server (standing_of engine.old) (standing_of engine.new) lines.old lines.new
        (I.remaining reader.old) (I.remaining reader.new) until listener.old listener.new) }
    ensures refused { IfErr result (EventStops L.hears L.refuses engine.old.server (standing_of engine.old) (standing_of engine.new)
        (IsSpent (I.has_failed reader.new) lines.new.asks) (pending lines.old (I.remaining reader.old)) lines.old.number until
        listener.old listener.new) }
    ensures gave_up { result ≡ Err Refusal.Listener → L.gave_up listener.new }
    ensures asked { later lines.new.asks (I.asked reader.new) ≡ later lines.old.asks (I.asked reader.old) }
    ensures less { lines.new.asks ≤ lines.old.asks }
    ensures secrets { engine.new.secrets ≡ engine.old.secrets }
{
    let Some(event) = read_next(alloc, lines, reader)? else {
        return Ok(NextItem::Over);
    };
    let at = event_moment(&event);
    if is_later(until, at) {
        return Ok(NextItem::Later);
    }
    tell_in_turn(engine, event, listener)?;
    Ok(NextItem::Told)
}

/// Whether a record ends where no configuration is taken.
fn end_of(stop: SegmentStop) -> Result<(), RetellError>
    ensures { result ≡ Errors.end_of stop }
{
    match stop {
        SegmentStop::NoMemory => Err(RetellError::NoMemory),
        SegmentStop::Damaged(line) => Err(RetellError::Damaged(line)),
        SegmentStop::Cut(_) => Ok(()),
        SegmentStop::Read => Err(RetellError::Read),
        SegmentStop::TooLong(line) => Err(RetellError::TooLong(line)),
        SegmentStop::NoConfiguration(line, e) => Err(RetellError::NoConfiguration(line, e)),
        SegmentStop::OtherFrame(line, key) => Err(RetellError::OtherFrame(line, key)),
    }
}

/// Takes the next configuration of a record, in force from now on; none where the record ends, or was cut in it.
fn begin_segment<T: Timers, R: Rules, I: TellingReader>(
    alloc: Global,
    engine: &mut Engine<T, R>,
    lines: &mut ScriptLines,
    reader: &mut I,
    longest: usize,
) -> Result<Option<Buffer>, RetellError>
    ensures taken { IfOk result (λ found. IfSome found (λ text. TakesConfiguration engine.old engine.new lines.old lines.new
        (I.remaining reader.old) (I.remaining reader.new) text)) }
    ensures over { IfOk result (λ found. IfNone found (IfSome (pending lines.old (I.remaining reader.old)) EndsCut)) }
    ensures waits { IfOk result (λ found. IfNone found (engine.new ≡ engine.old)) }
    ensures refused { IfErr result (UnbegunStops engine.old.server longest (IsSpent (I.has_failed reader.new) lines.new.asks)
        (pending lines.old (I.remaining reader.old)) lines.old.number) }
    ensures unchanged { OnErr result (engine.new ≡ engine.old) }
    ensures asked { later lines.new.asks (I.asked reader.new) ≡ later lines.old.asks (I.asked reader.old) }
    ensures less { lines.new.asks ≤ lines.old.asks }
    ensures secrets { engine.new.secrets ≡ engine.old.secrets }
{
    match take_configuration(alloc, engine, lines, reader, longest) {
        Ok(found) => Ok(found),
        Err(stop) => {
            end_of(stop)?;
            Ok(None)
        }
    }
}

/// What became of the next configuration, whose text is given where one was taken.
fn item_of(found: Option<Buffer>) -> NextItem
    ensures { result ≡ Items.item_of found }
{
    match found {
        Some(_) => NextItem::Told,
        None => NextItem::Over,
    }
}

/// The same, and what became of it. Nothing is told: the next step is, with the configuration.
fn tell_configuration<T: Timers, R: Rules, I: TellingReader>(
    alloc: Global,
    engine: &mut Engine<T, R>,
    lines: &mut ScriptLines,
    reader: &mut I,
    longest: usize,
) -> Result<NextItem, RetellError>
    ensures next { IfOk result (BeginsOn engine.old engine.new lines.old lines.new (I.remaining reader.old) (I.remaining reader.new)) }
    ensures refused { IfErr result (UnbegunStops engine.old.server longest (IsSpent (I.has_failed reader.new) lines.new.asks)
        (pending lines.old (I.remaining reader.old)) lines.old.number) }
    ensures unchanged { OnErr result (engine.new ≡ engine.old) }
    ensures asked { later lines.new.asks (I.asked reader.new) ≡ later lines.old.asks (I.asked reader.old) }
    ensures less { lines.new.asks ≤ lines.old.asks }
    ensures secrets { engine.new.secrets ≡ engine.old.secrets }
{
    let found = begin_segment(alloc, engine, lines, reader, longest)?;
    Ok(item_of(found))
}

/// Takes the next item of a record, and tells its steps.
pub(crate) fn tell_next<T: Timers, R: Rules, I: TellingReader, L: Listener>(
    alloc: Global,
    engine: &mut Engine<T, R>,
    lines: &mut ScriptLines,
    reader: &mut I,
    longest: usize,
    until: Option<u64>,
    listener: &mut L,
) -> Result<NextItem, RetellError>
    ensures next { IfOk result (GoesOn L.hears engine.old.server engine.new.server (standing_of engine.old) (standing_of engine.new) lines.old lines.new
        (I.remaining reader.old) (I.remaining reader.new) until listener.old listener.new) }
    ensures refused { IfErr result (RetellStops L.hears L.refuses engine.old.server (standing_of engine.old) (standing_of engine.new) longest
        (IsSpent (I.has_failed reader.new) lines.new.asks) (pending lines.old (I.remaining reader.old)) lines.old.number until
        listener.old listener.new) }
    ensures same { OnErr result (engine.new.server ≡ engine.old.server) }
    ensures gave_up { result ≡ Err Refusal.Listener → L.gave_up listener.new }
    ensures asked { later lines.new.asks (I.asked reader.new) ≡ later lines.old.asks (I.asked reader.old) }
    ensures less { lines.new.asks ≤ lines.old.asks }
    ensures secrets { engine.new.secrets ≡ engine.old.secrets }
{
    match look_ahead(lines, reader) {
        Ok(Upcoming::Over) => Ok(NextItem::Over),
        Ok(Upcoming::Configuration) => tell_configuration(alloc, engine, lines, reader, longest),
        Ok(Upcoming::Event) => tell_event(alloc, engine, lines, reader, until, listener),
        Err(_) => Err(RetellError::Read),
    }
}
