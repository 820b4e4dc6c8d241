ghost use Rattle.std.specs.Prelude.{◌≡◌, ◌≤◌, ◌⊎◌, [], true, false, OnOk, IfOk, IfErr, IfSome};
ghost use Rattle.std.specs.Io.KnownBytes.{Keeps};
ghost use Rattle.sip_journal.specs.Configurations.{begins_configuration, begins_event, BeginsBy, ComesNext, HasFirst};
ghost use Rattle.sip_replay_script.specs.Devices.{later};
ghost use Rattle.sip_replay_script.specs.Lines.{left, pending, IsSpent};
ghost use Rattle.sip_replay_script.specs.Recorded.{IsDamagedRecord};
ghost use Rattle.sip_replay_script.specs.declared.read_stop.ReadStop.TheVariants.{Read};

use sip_replay_script::{ReadStop, ScriptLines, TellingReader};

/// What comes next in a record.
#[derive(Clone, Copy)]
pub enum Upcoming {
    /// Nothing.
    Over,
    /// What may be a configuration, and is no event.
    Configuration,
    /// What may be an event, and is no configuration.
    Event,
}

/// Whether what says a configuration may begin with this byte; no event does then.
fn begins_configuration(byte: u8) -> bool
    ensures { result ≡ begins_configuration byte }
{
    matches!(byte, b'=' | b'+' | b'c')
}

/// Whether what says an event may begin with this byte; no configuration does then.
fn begins_event(byte: u8) -> bool
    ensures { result ≡ begins_event byte }
{
    matches!(byte, b't' | b'h' | b'd' | b'f')
}

/// What comes next in a record, of which nothing is passed: so `next_configuration` and `next_recorded` find it there. `Read` is the
/// only refusal.
pub fn look_ahead<R: TellingReader>(
    lines: &mut ScriptLines,
    reader: &mut R,
) -> Result<Upcoming, ReadStop>
    ensures next { IfOk result (λ next. ComesNext next lines.old lines.new (R.remaining reader.old) (R.remaining reader.new)) }
    ensures first { IfOk result (λ next. HasFirst next (pending lines.old (R.remaining reader.old))) }
    ensures number { lines.new.number ≡ lines.old.number }
    ensures fewer { OnOk result (left lines.new ≤ left lines.old) }
    ensures stopped { IfErr result (λ stop. (stop ≡ Read) × IsSpent (R.has_failed reader.new) lines.new.asks) }
    ensures asked { later lines.new.asks (R.asked reader.new) ≡ later lines.old.asks (R.asked reader.old) }
    ensures less { lines.new.asks ≤ lines.old.asks }
{
    let Some(byte) = lines.peek(reader)? else {
        return Ok(Upcoming::Over);
    };
    if begins_configuration(byte) {
        Ok(Upcoming::Configuration)
    } else {
        Ok(Upcoming::Event)
    }
}

/// Whether what comes next in a record, of which nothing is passed, begins as an event does; where it doesn't, nothing comes, or what is no event
/// and no front of one's text. `Read` is the only refusal.
pub fn look_for_event<R: TellingReader>(
    lines: &mut ScriptLines,
    reader: &mut R,
) -> Result<bool, ReadStop>
    ensures kept { OnOk result (Keeps (pending lines.old (R.remaining reader.old)) (pending lines.new (R.remaining reader.new))) }
    ensures event { IfOk result (λ is. is ≡ true → IfSome (pending lines.old (R.remaining reader.old)) (BeginsBy begins_event true)) }
    ensures none { IfOk result (λ is. is ≡ false → IfSome (pending lines.old (R.remaining reader.old)) (λ bytes. (bytes ≡ []) ⊎ IsDamagedRecord bytes)) }
    ensures number { lines.new.number ≡ lines.old.number }
    ensures fewer { OnOk result (left lines.new ≤ left lines.old) }
    ensures stopped { IfErr result (λ stop. (stop ≡ Read) × IsSpent (R.has_failed reader.new) lines.new.asks) }
    ensures asked { later lines.new.asks (R.asked reader.new) ≡ later lines.old.asks (R.asked reader.old) }
    ensures less { lines.new.asks ≤ lines.old.asks }
{
    match lines.peek(reader)? {
        Some(byte) => Ok(begins_event(byte)),
        None => Ok(false),
    }
}
