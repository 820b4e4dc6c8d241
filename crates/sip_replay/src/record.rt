ghost use Rattle.std.specs.Prelude.{◌≡◌, ◌≤◌, IfErr, OnOk};
ghost use Rattle.sip_replay_script.specs.Devices.{later, GaveUp};
ghost use Rattle.sip_replay_script.specs.Lines.{pending, IsSpent};
ghost use Rattle.sip_resume.specs.declared.record_error.RecordError.TheVariants as Refusal;
ghost use Rattle.sip_replay.specs.Records.{IsRecordReplay, IsRecordUnreplayed};

use sip_config_types::Config;
use sip_event::Boot;
use sip_journal::NoJournal;
use sip_policy::Rules;
use sip_replay_print::Printer;
use sip_replay_script::{ScriptLines, TellingReader, TellingWriter};
use sip_resume::engine::Engine;
use sip_resume::laws::every_record_is_lawful;
use sip_resume::{RecordError, resume_record};
use sip_timers::Timers;
use std::alloc::Global;

/// Replays what is to come of a record, behind its first line, from a start with a configuration, a word and a number: its events, each
/// under the configuration that it says was in force, and prints the packets of each step, then the lines of its records. A record that
/// was cut in its last event or configuration is replayed up to the last whole one. Each valid new request outside a dialog is sent to
/// exactly the unexpired bindings or the configured hop that the first matching rule of the configuration in force gives its proven user;
/// bindings change or are listed exactly as an allowed REGISTER says; every policy denial is a 403 whose Warning names that rule; all else
/// sent belongs to an open request or a known dialog. Refusals: as `resume_record` says. What was written before a refusal stays, and
/// nothing is flushed.
pub fn replay_record<T: Timers, R: Rules, I: TellingReader, W: TellingWriter + Drop>(
    alloc: Global,
    config: Config,
    boot: Boot,
    lines: &mut ScriptLines,
    reader: &mut I,
    longest: usize,
    printer: &mut Printer<W>,
) -> Result<(), RecordError>
    ensures replayed { OnOk result (IsRecordReplay config boot.word boot.first (pending lines.old (I.remaining reader.old)) lines.old.number
        (W.contents printer.old.writer) (W.contents printer.new.writer)) }
    ensures refused { IfErr result (IsRecordUnreplayed config boot.word boot.first longest (IsSpent (I.has_failed reader.new) lines.new.asks)
        (pending lines.old (I.remaining reader.old)) lines.old.number (W.contents printer.old.writer) (W.contents printer.new.writer)) }
    ensures gave_up { result ≡ Err Refusal.Write → GaveUp (W.has_failed printer.new.writer) (W.called printer.new.writer) }
    ensures asked { later lines.new.asks (I.asked reader.new) ≡ later lines.old.asks (I.asked reader.old) }
    ensures less { lines.new.asks ≤ lines.old.asks }
{
    every_record_is_lawful();
    let mut engine = match Engine::<T, R>::open(alloc, config, boot) {
        Ok(engine) => engine,
        Err(_) => return Err(RecordError::NoMemory),
    };
    resume_record(
        alloc,
        &mut engine,
        lines,
        reader,
        longest,
        &mut NoJournal,
        printer,
    )?;
    Ok(())
}
