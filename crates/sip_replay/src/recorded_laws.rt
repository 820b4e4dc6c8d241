//! What is served, gone on with and replayed of one record are the same steps: the laws of recorders, of resuming and of replays together.
ghost use Rattle.std.specs.Prelude.{◌≡◌, ◌++◌, ℕ, List, [], None, Option, Some};
ghost use Rattle.std.specs.Io.KnownBytes.{Appends};
ghost use Rattle.sip_config_types.specs.declared.config.Config.{Config};
ghost use Rattle.sip_config_change.specs.Frame.{frame_key_of};
ghost use Rattle.sip_event.specs.declared.event.Event.{Event};
ghost use Rattle.sip_event.specs.declared.event.StepOut.{StepOut};
ghost use Rattle.sip_journal.specs.Segments.{SaysWhole, Segment};
ghost use Rattle.sip_config.specs.Stated.{States};
ghost use Rattle.sip_journal.specs.Record.{NotesConfiguration};
ghost use Rattle.sip_replay_print.specs.Print.{printed};
ghost use Rattle.sip_replay_script.specs.Lines.{IsSpent};
ghost use Rattle.sip_model.specs.state.declared.server.Server.{Server};
ghost use Rattle.sip_model.specs.TimerOrder.{Standing, first_standing};
ghost use Rattle.sip_model.specs.Ties.{AreOne};
ghost use Rattle.sip_resume.specs.Outputs.{Outputs};
ghost use Rattle.sip_resume.specs.Whole.{IsRecordResumed, IsRecordUnresumed};
ghost use Rattle.sip_resume.specs.declared.record_error.RecordError.{RecordError};
ghost use Rattle.sip_replay.specs.Records.{IsRecordReplay};
ghost use Rattle.sip_replay.specs.Replays.{server_with};
ghost use Rattle.sip_loop.specs.Serving.{IsServed, IsUnserved, Told, gathered, steps_taken};
ghost use Rattle.sip_loop.specs.declared.serve_error.ServeError.{ServeError};
ghost use Rattle.sip_replay.specs.Recorded.{IsRecordedUnder, PrintsFront, RecordsFront};
ghost use Rattle.sip_replay.specs.Unresumed.{BeginsNoConfiguration, IsUnresumed};

use crate::laws::script_says_one_list;
use sip_config_change::laws::policy_in_the_old_frame_is_new;
use sip_journal::segment_laws::{next_configuration_is_one, record_says_one_list};
use sip_loop::laws::replayed_is_served;
use sip_model::periods::under_one_is_a_run;
use sip_model::runs::runs_join;
use sip_model::ties::runs_are_one;
use sip_replay_script::TellingReader;
use sip_replay_script::laws::{next_event_is_one, written_event_is_recorded};

/// A server that begins has an empty record. Where turns are served whole and the journal tells its bytes, what it grew by is the
/// record of the steps that were taken, behind that of what the server did before, whichever configurations came into force in it.
pub fn served_is_recorded()
    ensures begins { (server : Server) (first : ℕ) → IsRecordedUnder server server first [] [] (first_standing first) }
    ensures goes_on { (server now : Server) (first : ℕ) (text : List ℕ) (steps : List StepOut) (turns : ℕ) (old new : Standing)
        (before after : Told) (front more : List ℕ)
        → IsRecordedUnder server now first text steps old → (served : IsServed turns now old new before after)
        → before.journal.bytes ≡ Some (Some front) → after.journal.bytes ≡ Some (Some (front ++ more))
        → IsRecordedUnder server now first (text ++ more) (steps ++ gathered steps_taken served.done) new }
{
    replayed_is_served();
    runs_join();
    script_says_one_list();
    written_event_is_recorded();
}

/// Where bytes state a configuration by which the server is to others what it was, and the journal was told them, what it grew by is the
/// record of that: the same steps, to the same state, and this configuration is in force behind them.
pub fn change_is_recorded()
    ensures { (server now : Server) (first : ℕ) (text : List ℕ) (steps : List StepOut) (last : Standing) (bytes : List ℕ) (config : Config)
        (front more : List ℕ)
        → IsRecordedUnder server now first text steps last → States bytes config → frame_key_of now.config config ≡ None
        → NotesConfiguration (Some (Some front)) (Some (Some (front ++ more))) bytes
        → IsRecordedUnder server (record { config = config; word = now.word }) first (text ++ more) steps last }
{
    runs_join();
    policy_in_the_old_frame_is_new();
}

/// Where serving is refused, whatever for, what the journal grew by is the record of the first of the steps that were taken, up to the
/// own step of the last event that it was told. Nothing of what came behind that was given to the link: that waits until its event was
/// told (`IsPath`).
pub fn unserved_is_recorded()
    ensures { (server now : Server) (first : ℕ) (text : List ℕ) (steps : List StepOut) (turns : ℕ) (old new : Standing)
        (before after : Told) (e : ServeError) (front more : List ℕ)
        → IsRecordedUnder server now first text steps old → (unserved : IsUnserved turns now old new before after e)
        → before.journal.bytes ≡ Some (Some front) → after.journal.bytes ≡ Some (Some (front ++ more))
        → RecordsFront server first (text ++ more) (steps ++ gathered steps_taken unserved.done) }
{
    runs_join();
}

/// A record that was cut behind one of its events, or one of its configurations, records the first of the steps, up to the own step of
/// the last event in front of that.
pub fn front_is_recorded()
    ensures { (server now : Server) (first : ℕ) (text further : List ℕ) (steps : List StepOut) (last : Standing) (events : List Event)
        (segments : List Segment)
        → IsRecordedUnder server now first (text ++ further) steps last → SaysWhole events segments text → RecordsFront server first text steps }
{
    next_configuration_is_one();
    next_event_is_one();
    written_event_is_recorded();
}

/// A server that was brought to where a text leads, by its events and its configurations, has it for its record, behind that of what it
/// did before; and so it has what its journal was told meanwhile (`told`), where that tells its bytes.
pub fn resumed_is_recorded()
    ensures taken { (server now server_then : Server) (first : ℕ) (text : List ℕ) (steps : List StepOut) (old new : Standing)
        (bytes : Option (List ℕ)) (lines lines_then : ℕ) (outs outs_then : Outputs) (last : Option StepOut)
        → IsRecordedUnder server now first text steps old
        → (resumed : IsRecordResumed now server_then old new bytes lines outs outs_then lines_then last)
        → IsRecordedUnder server server_then first (text ++ resumed.text) (steps ++ resumed.takes.runs.steps) new }
    ensures told { (server now server_then : Server) (first : ℕ) (text : List ℕ) (steps : List StepOut) (old new : Standing)
        (bytes : Option (List ℕ)) (lines lines_then : ℕ) (outs outs_then : Outputs) (last : Option StepOut) (front more : List ℕ)
        → IsRecordedUnder server now first text steps old
        → (resumed : IsRecordResumed now server_then old new bytes lines outs outs_then lines_then last)
        → outs.written ≡ Some (Some front) → outs_then.written ≡ Some (Some (front ++ more))
        → IsRecordedUnder server server_then first (text ++ more) (steps ++ resumed.takes.runs.steps) new }
{
    runs_join();
}

/// What one text records is one: whoever took the events and the configurations that it says, by serving, by going on from them, or
/// both, again and again, took the same steps, each with all that it hands out in the same order and all that it records, and came to
/// states that are the same, under the same configuration (`in_force`).
pub fn records_are_one()
    ensures steps { (server now server_then : Server) (first : ℕ) (text : List ℕ) (steps others : List StepOut) (last end : Standing)
        → IsRecordedUnder server now first text steps last → IsRecordedUnder server server_then first text others end
        → AreOne steps others last.state end.state }
    ensures in_force { (server now server_then : Server) (first : ℕ) (text : List ℕ) (steps others : List StepOut) (last end : Standing)
        → IsRecordedUnder server now first text steps last → IsRecordedUnder server server_then first text others end → now ≡ server_then }
{
    runs_are_one();
    record_says_one_list();
}

/// So a replay of a record prints what was served: exactly the packets that were handed out, in their order, each at its moment, and
/// exactly the lines of the records, each step under the configuration that was in force.
pub fn replay_prints_what_was_served()
    ensures { (config : Config) (word first : ℕ) (now : Server) (text : List ℕ) (steps : List StepOut) (last : Standing) (lines : ℕ)
        (old new : Option (List ℕ))
        → IsRecordedUnder (server_with config word) now first text steps last
        → IsRecordReplay config word first (Some text) lines old new
        → Appends old new (printed steps) }
{
    next_configuration_is_one();
    next_event_is_one();
    records_are_one();
    written_event_is_recorded();
}

/// And a replay of a record that was cut anywhere has printed what was served at first, up to the last event or configuration that is
/// whole, and nothing else.
pub fn cut_replay_prints_what_was_served()
    ensures { (config : Config) (word first : ℕ) (now : Server) (bytes lost : List ℕ) (steps : List StepOut) (last : Standing) (lines : ℕ)
        (old new : Option (List ℕ))
        → IsRecordedUnder (server_with config word) now first (bytes ++ lost) steps last
        → IsRecordReplay config word first (Some bytes) lines old new
        → PrintsFront steps old new }
{
    front_is_recorded();
    records_are_one();
}

/// A record that holds no configuration, and isn't taken further: where none comes next in what is left, either, it is refused as one of
/// events alone is, by one of the refusals of an event, at a line that is counted so, and the server stands where the events led, or just
/// behind; and it is the same server.
pub fn record_of_events_is_unresumed<I: TellingReader>()
    ensures { (server server_then : Server) (old new : Standing) (longest : ℕ) (reader : I) (asks : ℕ) (bytes : Option (List ℕ))
        (outs outs_then : Outputs) (e : RecordError)
        → (refused : IsRecordUnresumed server server_then old new longest (IsSpent (I.has_failed reader) asks) bytes 0 outs outs_then e)
        → refused.segments ≡ [] → BeginsNoConfiguration longest refused.rest
        → IsUnresumed server old new (IsSpent (I.has_failed reader) asks) bytes outs outs_then e × (server_then ≡ server) }
{
    under_one_is_a_run();
}
