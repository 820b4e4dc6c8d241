ghost use Rattle.std.specs.Prelude.{◌≡◌, ◌≤◌, length, IfOk, IfErr, IfSome, IfNone};
ghost use Rattle.sip_replay_script.specs.Devices.{later};
ghost use Rattle.sip_replay_script.specs.Lines.{pending, IsOver, IsSpent};
ghost use Rattle.sip_config.specs.Stated.{States};
ghost use Rattle.sip_segment_config.specs.Stops.{IsNext, ReadStops, TextStops};
ghost use Rattle.sip_segment_config.specs.Reads.{GivesStated};

use crate::stop::SegmentStop;
use sip_config::{ConfigError, read_config_bytes};
use sip_config_types::Config;
use sip_journal::next_configuration;
use sip_replay_script::{ScriptLines, TellingReader};
use sip_text::Buffer;
use std::alloc::Global;

/// A configuration that a record holds.
#[derive(Drop)]
pub struct RecordedConfig {
    /// The bytes of its file.
    pub text: Buffer,
    /// What they state.
    pub config: Config,
}

/// The next configuration of a record, whose text has at most so many bytes; `None` at the record's end. Refused as
/// `take_configuration` is, but for `OtherFrame`: with the first one a server may begin.
pub fn read_configuration<I: TellingReader>(
    alloc: Global,
    lines: &mut ScriptLines,
    reader: &mut I,
    longest: usize,
) -> Result<Option<RecordedConfig>, SegmentStop>
    ensures given { IfOk result (λ found. IfSome found (λ held. GivesStated lines.old lines.new (I.remaining reader.old)
        (I.remaining reader.new) held.text held.config)) }
    ensures next { IfOk result (λ found. IfSome found (λ held. IsNext (pending lines.old (I.remaining reader.old)) held.text)) }
    ensures short { IfOk result (λ found. IfSome found (λ held. length held.text ≤ longest)) }
    ensures over { IfOk result (λ found. IfNone found (IsOver lines.old lines.new (I.remaining reader.old) (I.remaining reader.new))) }
    ensures refused { IfErr result (ReadStops longest (IsSpent (I.has_failed reader.new) lines.new.asks)
        (pending lines.old (I.remaining reader.old)) lines.old.number) }
    ensures asked { later lines.new.asks (I.asked reader.new) ≡ later lines.old.asks (I.asked reader.old) }
    ensures less { lines.new.asks ≤ lines.old.asks }
{
    let first = lines.number() + 1;
    let text = match next_configuration(alloc, lines, reader, longest) {
        Ok(Some(text)) => text,
        Ok(None) => return Ok(None),
        Err(stop) => return Err(SegmentStop::unread(stop, first)),
    };
    let config = config_in(alloc, text.as_slice(), first)?;
    Ok(Some(RecordedConfig { text, config }))
}

/// The configuration that a text states, whose first line is this one.
pub(crate) fn config_in(alloc: Global, text: &[u8], first: u64) -> Result<Config, SegmentStop>
    ensures stated { IfOk result (States text.now) }
    ensures refused { IfErr result (TextStops text.now first) }
{
    match read_config_bytes(alloc, text) {
        Ok(config) => Ok(config),
        Err(ConfigError::NoMemory) => Err(SegmentStop::NoMemory),
        Err(e) => Err(SegmentStop::NoConfiguration(first, e)),
    }
}
