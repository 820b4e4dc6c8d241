ghost use Rattle.std.specs.Prelude.{◌≡◌, [], Some, IfErr, IfOk, OnOk};
ghost use Rattle.sip_model.specs.steps_model.Step.{moment_of};
ghost use Rattle.sip_replay_script.specs.Devices.{later};
ghost use Rattle.sip_replay_script.specs.Lines.{IsSpent, pending};
ghost use Rattle.sip_model.specs.TimerOrder.{first_standing};
ghost use Rattle.sip_retell.specs.Retells.{RunsTold};
ghost use Rattle.sip_retell.specs.run.Due.{NothingDueBy, standing_of};
ghost use Rattle.sipd_exit.specs.declared.exit.Exit.TheVariants.{Memory};
ghost use Rattle.sipd_old_record.specs.Readers.{most_asks};
ghost use Rattle.sipd_telling.specs.Tellings.{IsBegun, IsToldOn, IsUnbegun, IsUnpassed, IsUntoldOn, server_with};

use crate::exits::exit_of_retell;
use sip_config_types::Config;
use sip_event::Boot;
use sip_journal::RecordHead;
use sip_listener::Listener;
use sip_policy::Rules;
use sip_replay_script::{ScriptLines, TellingReader};
use sip_retell::engine::Engine;
use sip_retell::{pass_time, retell_record};
use sip_timers::Timers;
use sipd_exit::{Exit, Stated};
use sipd_old_record::configuration_of;
use sipd_reload::MOST_BYTES;
use std::alloc::Global;

/// A server that takes a record again, and the lines of the record that were read.
pub struct Telling<T: Timers, P: Rules> {
    pub engine: Engine<T, P>,
    pub lines: ScriptLines,
}

/// Written out, so that it is proved once and not wherever one is dropped.
impl<T: Timers, P: Rules> Drop for Telling<T, P> {
    fn drop(self) {
        let Telling {
            engine: _,
            lines: _,
        } = self;
    }
}

/// A server that starts with a configuration, and with the word and the number of a record's first line.
fn started<T: Timers, P: Rules>(
    alloc: Global,
    config: Config,
    head: &RecordHead,
) -> Result<Engine<T, P>, Exit>
    ensures server { IfOk result (λ engine. engine.server ≡ server_with config head.now.word) }
    ensures standing { IfOk result (λ engine. standing_of engine ≡ first_standing head.now.first) }
    ensures refused { IfErr result (λ exit. exit ≡ Memory) }
{
    let boot = Boot {
        word: head.word,
        first: head.first,
        keys: 0,
    };
    match Engine::<T, P>::open(alloc, config, boot) {
        Ok(engine) => Ok(engine),
        Err(_) => Err(Exit::Memory),
    }
}

/// The server that is to take what stands behind the first line of a record, which says this head: it has the configuration with which the
/// record begins. Refused as `sipd_old_record::configuration_of` is, and with `Memory`.
pub fn begin<T: Timers, P: Rules, I: TellingReader>(
    alloc: Global,
    head: &RecordHead,
    named: Option<&Stated>,
    reader: &mut I,
) -> Result<Telling<T, P>, Exit>
    ensures begun { IfOk result (λ telling. IsBegun head.now named.entry telling.engine.server (standing_of telling.engine) telling.lines (I.remaining reader.old)
        (I.remaining reader.new)) }
    ensures refused { IfErr result (IsUnbegun head.now named.entry (I.has_failed reader.new) (I.asked reader.old) (I.asked reader.new) (I.remaining reader.old)) }
    ensures asked { IfOk result (λ telling. later telling.lines.asks (I.asked reader.new) ≡ later most_asks (I.asked reader.old)) }
{
    let mut lines = ScriptLines::new(alloc)?;
    let config = configuration_of(alloc, head, named, &mut lines, reader)?;
    match started::<T, P>(alloc, config, head) {
        Ok(engine) => Ok(Telling { engine, lines }),
        Err(exit) => Err(exit),
    }
}

/// Tells a listener what is left of a record, up to its end, or to the first event that is later than a moment, if one is given. What was told
/// before a refusal stays told. Refusals: `Script`, with the line of the record's file from which on it is damaged, or that holds a
/// configuration which isn't taken, or the last line of an event that no server took; `Memory`; `Device`, where the reader failed, or the
/// listener gave up.
pub fn tell<T: Timers, P: Rules, I: TellingReader, L: Listener>(
    alloc: Global,
    telling: &mut Telling<T, P>,
    reader: &mut I,
    until: Option<u64>,
    listener: &mut L,
) -> Result<(), Exit>
    ensures told { OnOk result (IsToldOn L.hears telling.old.engine.server telling.new.engine.server (standing_of telling.old.engine)
        (standing_of telling.new.engine) (pending telling.old.lines (I.remaining reader.old)) telling.old.lines.number until listener.old listener.new) }
    ensures refused { IfErr result (IsUntoldOn L.hears L.refuses telling.old.engine.server telling.new.engine.server (standing_of telling.old.engine)
        (standing_of telling.new.engine) (IsSpent (I.has_failed reader.new) telling.new.lines.asks) (pending telling.old.lines (I.remaining reader.old))
        telling.old.lines.number until listener.old listener.new (L.gave_up listener.new)) }
    ensures asked { later telling.new.lines.asks (I.asked reader.new) ≡ later telling.old.lines.asks (I.asked reader.old) }
{
    match retell_record(
        alloc,
        &mut telling.engine,
        &mut telling.lines,
        reader,
        MOST_BYTES,
        until,
        listener,
    ) {
        Ok(_) => Ok(()),
        Err(e) => Err(exit_of_retell(e, telling.lines.number())),
    }
}

/// Lets time pass up to a moment in milliseconds, and tells a listener what is due by then. Refusals: `Memory`; `Script`, with the last line that
/// was read, where the moment is 2^62 ms or more, and something is due; `Device`, where the listener gave up.
pub fn pass<T: Timers, P: Rules, L: Listener>(
    telling: &mut Telling<T, P>,
    at: u64,
    listener: &mut L,
) -> Result<(), Exit>
    ensures server { telling.new.engine.server ≡ telling.old.engine.server }
    ensures lines { telling.new.lines ≡ telling.old.lines }
    ensures passed { OnOk result (RunsTold L.hears telling.old.engine.server (standing_of telling.old.engine) (standing_of telling.new.engine) [] (Some at)
        listener.old listener.new) }
    ensures none_due { OnOk result (NothingDueBy (moment_of telling.new.engine.state at) telling.new.engine.state) }
    ensures refused { IfErr result (IsUnpassed L.hears L.refuses telling.old.engine.server (standing_of telling.old.engine) (standing_of telling.new.engine) at
        listener.old listener.new (L.gave_up listener.new)) }
{
    match pass_time(&mut telling.engine, at, listener) {
        Ok(()) => Ok(()),
        Err(e) => Err(exit_of_retell(e, telling.lines.number())),
    }
}
