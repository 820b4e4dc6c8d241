ghost use Rattle.std.specs.Prelude.{◌≡◌, ◌++◌, ℕ, List, None, Option, Some};
ghost use Rattle.std.specs.Io.KnownBytes.{Appends};
ghost use Rattle.sip_config_types.specs.declared.config.Config.{Config};
ghost use Rattle.sip_event.specs.declared.event.Event.{Event};
ghost use Rattle.sip_event.specs.declared.event.StepOut.{StepOut};
ghost use Rattle.sip_replay_script.specs.Events.{SaysEvents};
ghost use Rattle.sip_replay_script.specs.Recorded.{SaysRecord};
ghost use Rattle.sip_replay_print.specs.Print.{printed};
ghost use Rattle.sip_model.specs.state.declared.proxy_state.ProxyState.{ProxyState};
ghost use Rattle.sip_model.specs.state.declared.server.Server.{Server};
ghost use Rattle.sip_model.specs.TimerOrder.{Standing, first_standing};
ghost use Rattle.sip_model.specs.Ties.{AreOne};
ghost use Rattle.sip_resume.specs.run.Runs.{IsRunOver};
ghost use Rattle.sip_replay.specs.Refusals.{StopsAtLine};
ghost use Rattle.sip_replay.specs.Replays.{IsReplay, server_with};
ghost use Rattle.sip_replay.specs.Recorded.{IsRecordedUnder, PrintsFront};
ghost use Rattle.sip_replay.specs.Scripts.{IsRecorded};

use crate::laws::script_says_one_list;
use sip_journal::segment_laws::record_says_one_list;
use sip_model::periods::under_one_is_a_run;
use sip_model::ties::runs_are_one;
use sip_replay_script::laws::{next_event_is_one, written_event_is_recorded};

/// A record that says events alone is a script: what was taken of it was taken under the server's configuration, which is in force.
pub fn record_of_events_is_a_script()
    ensures { (server now : Server) (first : ℕ) (text : List ℕ) (steps : List StepOut) (last : Standing) (events : List Event)
        → IsRecordedUnder server now first text steps last → SaysRecord events text → IsRecorded server first text steps last.state × (now ≡ server) }
{
    record_says_one_list();
    under_one_is_a_run();
    written_event_is_recorded();
}

/// What `run` makes of a list of events, where it takes them all, is what a text that says them records.
pub fn run_is_recorded()
    ensures { (server : Server) (first : ℕ) (text : List ℕ) (events : List Event) (steps : List StepOut)
        → (over : IsRunOver server first events steps None) → SaysEvents events text → IsRecorded server first text steps over.last }
{}

/// Whoever took the events of one script took the same steps, and came to states that are the same.
pub fn scripts_are_one()
    ensures { (server : Server) (first : ℕ) (text : List ℕ) (steps others : List StepOut) (last end : ProxyState)
        → IsRecorded server first text steps last → IsRecorded server first text others end
        → AreOne steps others last end }
{
    runs_are_one();
    script_says_one_list();
}

/// So a replay of a script prints what is printed of the steps that were taken of it.
pub fn replay_prints_what_was_taken()
    ensures { (config : Config) (word first : ℕ) (text : List ℕ) (steps : List StepOut) (last : ProxyState) (old new : Option (List ℕ))
        → IsRecorded (server_with config word) first text steps last → IsReplay config word first (Some text) old new
        → Appends old new (printed steps) }
{
    scripts_are_one();
}

/// And where a replay is refused at a line at which no event begins, as it is at the end of a script that was cut within one, it has
/// printed what is printed of the first of the steps, and nothing else.
pub fn cut_replay_prints_what_was_taken()
    ensures { (config : Config) (word first : ℕ) (bytes lost : List ℕ) (steps : List StepOut) (last : ProxyState) (old new : Option (List ℕ))
        (line : ℕ)
        → IsRecorded (server_with config word) first (bytes ++ lost) steps last
        → (refused : StopsAtLine (server_with config word) (first_standing first) 0 (Some bytes) old new line) → refused.comes.ahead ≡ None
        → PrintsFront steps old new }
{
    next_event_is_one();
    runs_are_one();
    script_says_one_list();
}
