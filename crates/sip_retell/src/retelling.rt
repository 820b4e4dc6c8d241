ghost use Rattle.std.specs.Prelude.{◌≡◌, ◌≤◌, IfOk, IfErr};
ghost use Rattle.sip_replay_script.specs.Devices.{later};
ghost use Rattle.sip_replay_script.specs.Lines.{pending, IsSpent};
ghost use Rattle.sip_resume.specs.run.Due.{standing_of};
ghost use Rattle.sip_retell.specs.Retells.{IsRetold};
ghost use Rattle.sip_retell.specs.Stops.{IsUnretold};
ghost use Rattle.sip_retell.specs.declared.error.RetellError.TheVariants as Refusal;

use crate::error::RetellError;
use crate::next::{NextItem, tell_next};
use sip_listener::Listener;
use sip_policy::Rules;
use sip_replay_script::{ScriptLines, TellingReader};
use sip_resume::engine::Engine;
use sip_timers::Timers;
use std::alloc::Global;

/// How far a record was told.
#[derive(Clone, Copy)]
pub struct Retold {
    /// How many lines were given by the end of the last item that was taken.
    pub lines: u64,
    /// Whether the record ends there, or was cut there; otherwise an event comes next that is later than the moment that was asked for.
    pub is_over: bool,
}

/// Takes what stands behind the first line of a record, item by item, up to its end, or to the first event that is later than a moment, if
/// one is given: each event under the configuration in force, behind all that is due by its moment, and each configuration, of at most so
/// many bytes. Each step is told to the listener, with its event if it is an event's own, its packets and its records; nothing is sent. So
/// what the listener hears is exactly the steps of the run over the events that the record says, in their order. A record that was cut in
/// its last item, as one that is being written may be, is told up to the last whole one. An event that is later is read, and isn't taken:
/// `pass_time` brings the server up to the moment. The lines that are given are counted on from those that were given before. Refusals:
/// `NoMemory`; `Damaged` with the line from which on what is left says no event and no configuration, and is no front of one's text;
/// `Read`, where the reader failed or was asked as often as it may be; `Step`, where the server refuses the next event: its moment is 2^62
/// ms or more, or a datagram's number would be; `TooLong`, where the next configuration has more bytes; `NoConfiguration`, where its text
/// is refused; `OtherFrame`, where it says something else of the server itself, by the first such key; `Listener`, where the listener gave
/// up. What was taken by then stays taken, and was told, but for the last step perhaps.
pub fn retell_record<T: Timers, R: Rules, I: TellingReader, L: Listener>(
    alloc: Global,
    engine: &mut Engine<T, R>,
    lines: &mut ScriptLines,
    reader: &mut I,
    longest: usize,
    until: Option<u64>,
    listener: &mut L,
) -> Result<Retold, RetellError>
    ensures retold { IfOk result (λ retold. IsRetold L.hears engine.old.server engine.new.server (standing_of engine.old) (standing_of engine.new)
        (pending lines.old (I.remaining reader.old)) lines.old.number retold.lines until listener.old listener.new retold.is_over) }
    ensures refused { IfErr result (IsUnretold L.hears L.refuses engine.old.server engine.new.server (standing_of engine.old) (standing_of engine.new) longest
        (IsSpent (I.has_failed reader.new) lines.new.asks) (pending lines.old (I.remaining reader.old)) lines.old.number until
        listener.old listener.new) }
    ensures gave_up { result ≡ Err Refusal.Listener → L.gave_up listener.new }
    ensures asked { later lines.new.asks (I.asked reader.new) ≡ later lines.old.asks (I.asked reader.old) }
    ensures less { lines.new.asks ≤ lines.old.asks }
    ensures secrets { engine.new.secrets ≡ engine.old.secrets }
{
    let mut taken = lines.number();
    'items: loop {
        let onward = tell_next(alloc, engine, lines, reader, longest, until, listener)?;
        match onward {
            NextItem::Told => taken = lines.number(),
            NextItem::Later => {
                return Ok(Retold {
                    lines: taken,
                    is_over: false,
                });
            }
            NextItem::Over => {
                return Ok(Retold {
                    lines: taken,
                    is_over: true,
                });
            }
        }
    }
}
