//! The last configuration of a record, for who tells a change against it (`sipd_tools`). No event is taken here.
ghost use Rattle.std.specs.Prelude.{◌≡◌, ◌≤◌, ℕ, length, IfOk, IfErr, IfSome, IfNone};
ghost use Rattle.sip_replay_script.specs.Devices.{later};
ghost use Rattle.sip_replay_script.specs.Lines.{pending, IsSpent};
ghost use Rattle.sip_replay_script.specs.Recorded.{IsDamagedRecord};
ghost use Rattle.sip_journal.specs.Configurations.{IsDamagedConfiguration};
ghost use Rattle.sip_segment_config.specs.Last.{last_behind, EndsCut, EndsWith, EndsWithNone, GivesPart, IsDamagedPart, IsLastOf};
ghost use Rattle.sip_segment_config.specs.Last.{LastStops, PartStops, SaysToEnd};

use crate::reading::{RecordedConfig, config_in};
use crate::stop::SegmentStop;
use sip_journal::segment_laws::segments_join;
use sip_journal::{ConfigurationStop, Upcoming, look_ahead, next_configuration};
use sip_replay_script::{ReadStop, ScriptLines, TellingReader, next_recorded};
use sip_text::Buffer;
use std::alloc::Global;

/// The bytes of a configuration that a record holds, and the line that it begins with.
#[derive(Drop)]
struct LastText {
    text: Buffer,
    first: u64,
}

/// What comes next in a record.
#[derive(Drop)]
enum RecordPart {
    /// An event, which was passed.
    Event,
    /// A configuration, which was read.
    Configuration(LastText),
}

impl RecordPart {
    /// The last configuration behind this part, where there was that one before.
    fn behind(self, last: Option<LastText>) -> Option<LastText>
        ensures { result ≡ last_behind self last }
    {
        match self {
            RecordPart::Event => last,
            RecordPart::Configuration(newer) => Some(newer),
        }
    }
}

/// Passes the next event of a record; none where it ends, or was cut in it.
fn pass_event<I: TellingReader>(
    alloc: Global,
    lines: &mut ScriptLines,
    reader: &mut I,
) -> Result<Option<RecordPart>, SegmentStop>
    ensures passed { (longest : ℕ) → IfOk result (λ found. IfSome found (GivesPart longest lines.old lines.new (I.remaining reader.old) (I.remaining reader.new))) }
    ensures over { IfOk result (λ found. IfNone found (IfSome (pending lines.old (I.remaining reader.old)) EndsCut)) }
    ensures refused { (longest : ℕ) → IfErr result (PartStops IsDamagedRecord longest (IsSpent (I.has_failed reader.new) lines.new.asks)
        (pending lines.old (I.remaining reader.old)) lines.old.number) }
    ensures asked { later lines.new.asks (I.asked reader.new) ≡ later lines.old.asks (I.asked reader.old) }
    ensures less { lines.new.asks ≤ lines.old.asks }
{
    let first = lines.number() + 1;
    match next_recorded(alloc, lines, reader) {
        Ok(Some(_)) => Ok(Some(RecordPart::Event)),
        Ok(None) | Err(ReadStop::Cut) => Ok(None),
        Err(ReadStop::NoMemory) => Err(SegmentStop::NoMemory),
        Err(ReadStop::Damaged) => Err(SegmentStop::Damaged(first)),
        Err(ReadStop::Read) => Err(SegmentStop::Read),
    }
}

/// Reads the next configuration of a record; none where it ends, or was cut in it.
fn read_text<I: TellingReader>(
    alloc: Global,
    lines: &mut ScriptLines,
    reader: &mut I,
    longest: usize,
) -> Result<Option<RecordPart>, SegmentStop>
    ensures given { IfOk result (λ found. IfSome found (GivesPart longest lines.old lines.new (I.remaining reader.old) (I.remaining reader.new))) }
    ensures over { IfOk result (λ found. IfNone found (IfSome (pending lines.old (I.remaining reader.old)) EndsCut)) }
    ensures refused { IfErr result (PartStops IsDamagedConfiguration longest (IsSpent (I.has_failed reader.new) lines.new.asks)
        (pending lines.old (I.remaining reader.old)) lines.old.number) }
    ensures asked { later lines.new.asks (I.asked reader.new) ≡ later lines.old.asks (I.asked reader.old) }
    ensures less { lines.new.asks ≤ lines.old.asks }
{
    let first = lines.number() + 1;
    match next_configuration(alloc, lines, reader, longest) {
        Ok(Some(text)) => Ok(Some(RecordPart::Configuration(LastText { text, first }))),
        Ok(None) | Err(ConfigurationStop::Cut) => Ok(None),
        Err(stop) => Err(SegmentStop::unread(stop, first)),
    }
}

/// What comes next in a record, which is passed or read; nothing where it ends, or was cut in it.
fn next_part<I: TellingReader>(
    alloc: Global,
    lines: &mut ScriptLines,
    reader: &mut I,
    longest: usize,
) -> Result<Option<RecordPart>, SegmentStop>
    ensures given { IfOk result (λ found. IfSome found (GivesPart longest lines.old lines.new (I.remaining reader.old) (I.remaining reader.new))) }
    ensures over { IfOk result (λ found. IfNone found (IfSome (pending lines.old (I.remaining reader.old)) EndsCut)) }
    ensures refused { IfErr result (PartStops IsDamagedPart longest (IsSpent (I.has_failed reader.new) lines.new.asks)
        (pending lines.old (I.remaining reader.old)) lines.old.number) }
    ensures asked { later lines.new.asks (I.asked reader.new) ≡ later lines.old.asks (I.asked reader.old) }
    ensures less { lines.new.asks ≤ lines.old.asks }
{
    match look_ahead(lines, reader) {
        Ok(Upcoming::Over) => Ok(None),
        Ok(Upcoming::Event) => pass_event(alloc, lines, reader),
        Ok(Upcoming::Configuration) => read_text(alloc, lines, reader, longest),
        Err(_) => Err(SegmentStop::Read),
    }
}

/// The text of the last configuration of what is still to come of a record.
fn last_text<I: TellingReader>(
    alloc: Global,
    lines: &mut ScriptLines,
    reader: &mut I,
    longest: usize,
) -> Result<Option<LastText>, SegmentStop>
    ensures found { IfOk result (λ last. SaysToEnd (pending lines.old (I.remaining reader.old)) (IsLastOf longest lines.old.number last)) }
    ensures refused { IfErr result (LastStops longest (IsSpent (I.has_failed reader.new) lines.new.asks)
        (pending lines.old (I.remaining reader.old)) lines.old.number) }
    ensures asked { later lines.new.asks (I.asked reader.new) ≡ later lines.old.asks (I.asked reader.old) }
    ensures less { lines.new.asks ≤ lines.old.asks }
{
    segments_join();
    let mut last = None;
    'parts: loop {
        let Some(part) = next_part(alloc, lines, reader, longest)? else {
            return Ok(last);
        };
        last = part.behind(last);
    }
}

/// The last configuration of what is still to come of a record, behind its first line; the text of each has at most so many bytes. Events
/// are passed, and of all configurations but the last the lines alone are read. A record that was cut in its last event or configuration
/// is read up to the last whole one; `None`, where it holds none. Refusals: `NoMemory`; `Damaged` with the line from which on what is left
/// says no event and no configuration, and is no front of one's text; `TooLong`, where a text has more bytes; `Read`, where the reader
/// failed or was asked as often as it may be; `NoConfiguration`, where the last text is refused.
pub fn last_configuration<I: TellingReader>(
    alloc: Global,
    lines: &mut ScriptLines,
    reader: &mut I,
    longest: usize,
) -> Result<Option<RecordedConfig>, SegmentStop>
    ensures last { IfOk result (λ found. IfSome found (λ held. EndsWith (pending lines.old (I.remaining reader.old)) held.text held.config)) }
    ensures short { IfOk result (λ found. IfSome found (λ held. length held.text ≤ longest)) }
    ensures none { IfOk result (λ found. IfNone found (EndsWithNone (pending lines.old (I.remaining reader.old)))) }
    ensures refused { IfErr result (LastStops longest (IsSpent (I.has_failed reader.new) lines.new.asks)
        (pending lines.old (I.remaining reader.old)) lines.old.number) }
    ensures asked { later lines.new.asks (I.asked reader.new) ≡ later lines.old.asks (I.asked reader.old) }
    ensures less { lines.new.asks ≤ lines.old.asks }
{
    let Some(last) = last_text(alloc, lines, reader, longest)? else {
        return Ok(None);
    };
    let LastText { text, first } = last;
    let config = config_in(alloc, text.as_slice(), first)?;
    Ok(Some(RecordedConfig { text, config }))
}
