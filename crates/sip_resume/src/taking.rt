ghost use Rattle.std.specs.Prelude.{◌≡◌, ◌≤◌, length, IfOk, IfErr, IfSome, IfNone, OnOk, OnErr};
ghost use Rattle.sip_replay_script.specs.Devices.{later};
ghost use Rattle.sip_replay_script.specs.Lines.{pending, IsOver, IsSpent};
ghost use Rattle.sip_resume.specs.Stops.{ChangeStops, SegmentStops};
ghost use Rattle.sip_resume.specs.Takes.{ChangesTo, TakesConfiguration};

use sip_config_types::Config;
use sip_policy::Rules;
use sip_replay_script::{ScriptLines, TellingReader};
use sip_run::engine::{ChangeError, Engine};
use sip_segment_config::{RecordedConfig, SegmentStop, read_configuration};
use sip_text::Buffer;
use sip_timers::Timers;
use std::alloc::Global;

/// Takes the next configuration of a record, whose text has at most so many bytes: it is in force from now on, and its text is given;
/// `None` at the record's end. Refusals, behind which the server is as it was: `NoMemory`; `Damaged`, where what is left says no
/// configuration, and is no front of what says one, with the line with which it begins, as the others that name one; `Cut`, where it is
/// such a front; `TooLong`, where the text has more bytes; `Read`, where the reader failed or was asked as often as it may be;
/// `NoConfiguration`, where the text is refused, and `OtherFrame`, where the server says of itself something else, by the first such key.
pub fn take_configuration<T: Timers, R: Rules, I: TellingReader>(
    alloc: Global,
    engine: &mut Engine<T, R>,
    lines: &mut ScriptLines,
    reader: &mut I,
    longest: usize,
) -> Result<Option<Buffer>, SegmentStop>
    ensures taken { IfOk result (λ found. IfSome found (λ text. TakesConfiguration engine.old engine.new lines.old lines.new
        (I.remaining reader.old) (I.remaining reader.new) text)) }
    ensures short { IfOk result (λ found. IfSome found (λ text. length text ≤ longest)) }
    ensures over { IfOk result (λ found. IfNone found (IsOver lines.old lines.new (I.remaining reader.old) (I.remaining reader.new))) }
    ensures waits { IfOk result (λ found. IfNone found (engine.new ≡ engine.old)) }
    ensures refused { IfErr result (SegmentStops engine.old.server longest (IsSpent (I.has_failed reader.new) lines.new.asks)
        (pending lines.old (I.remaining reader.old)) lines.old.number) }
    ensures unchanged { OnErr result (engine.new ≡ engine.old) }
    ensures asked { later lines.new.asks (I.asked reader.new) ≡ later lines.old.asks (I.asked reader.old) }
    ensures less { lines.new.asks ≤ lines.old.asks }
    ensures secrets { engine.new.secrets ≡ engine.old.secrets }
{
    let first = lines.number() + 1;
    let Some(held) = read_configuration(alloc, lines, reader, longest)? else {
        return Ok(None);
    };
    let RecordedConfig { text, config } = held;
    change_to(engine, config, first)?;
    Ok(Some(text))
}

/// Has a server be under a configuration, whose first line is this one.
fn change_to<T: Timers, R: Rules>(
    engine: &mut Engine<T, R>,
    config: Config,
    first: u64,
) -> Result<(), SegmentStop>
    ensures changed { OnOk result (ChangesTo engine.old engine.new config) }
    ensures refused { IfErr result (ChangeStops engine.old.server config first) }
    ensures unchanged { OnErr result (engine.new ≡ engine.old) }
    ensures secrets { engine.new.secrets ≡ engine.old.secrets }
{
    match engine.change(config) {
        Ok(()) => Ok(()),
        Err(ChangeError::NoMemory) => Err(SegmentStop::NoMemory),
        Err(ChangeError::OtherFrame(key)) => Err(SegmentStop::OtherFrame(first, key)),
    }
}
