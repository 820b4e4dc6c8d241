ghost use Rattle.std.specs.Prelude.{◌≡◌, ℕ, List, [], ◌∷◌, ◌++◌, None, Option};
ghost use Rattle.sip_event.specs.declared.event.Event.{Event};
ghost use Rattle.sip_event.specs.declared.event.StepOut.{StepOut};
ghost use Rattle.sip_model.specs.state.declared.proxy_state.ProxyState.{ProxyState};
ghost use Rattle.sip_model.specs.state.declared.server.Server.{Server};
ghost use Rattle.sip_model.specs.state.State.{first_state};
ghost use Rattle.sip_config_types.specs.declared.config.Config.{Config};
ghost use Rattle.sip_model.specs.Bounds.{IsBounded};
ghost use Rattle.sip_model.specs.Access.{Access};
ghost use Rattle.sip_model.specs.Run.{IsRun, Link, under};
ghost use Rattle.sip_model.specs.Periods.{IsRunUnder, Period};
ghost use Rattle.sip_model.specs.TimerOrder.{Standing, first_standing};
ghost use Rattle.sip_journal.specs.Segments.{Segment};
ghost use Rattle.sip_resume.specs.Outputs.{Outputs};
ghost use Rattle.sip_resume.specs.Resumes.{EndsHere, IsOneRun, IsResumed};
ghost use Rattle.sip_resume.specs.Whole.{IsOneRunUnder, IsRecordResumed, TakesWhole};

use sip_model::bounds::every_history_is_bounded;
use sip_model::laws::every_run_has_access;
use sip_model::periods::{runs_under_are_one, under_one_is_a_run};
use sip_model::runs::runs_join;

/// A run before a restart and the run behind it are one run over all events: a server that was brought to where a record leads
/// (`resume_record`), and goes on from there (`serve`), did nothing that one which never ended couldn't have done. Each valid new request
/// outside a dialog is sent, before and behind, to exactly the unexpired bindings or the configured hop that the first matching rule
/// gives its proven user; bindings change or are listed exactly as an allowed REGISTER says; every policy denial is a 403 whose
/// Warning names that rule; all else sent belongs to an open request or a known dialog, whichever side of the restart opened it
/// (`access`).
pub fn restart_is_one_run()
    ensures { (server : Server) (first : ℕ) (state last : ProxyState) (events more : List Event) (until : Option ℕ)
        (steps further : List StepOut) (history later : List Link)
        → IsRun server (first_state first) events None steps history state → IsRun server state more until further later last
        → IsOneRun server first events more until steps further history later last }
{
    every_run_has_access();
    every_history_is_bounded();
    runs_join();
}

/// The same where configurations came into force between two events, and where another one does behind the restart: a run under
/// configurations, from the start, and one behind it under any configuration, are one run under them all. Each of its steps is lawful
/// by all that went before it, under the configuration that was in force then.
pub fn restart_under_is_one_run()
    ensures { (server : Server) (first : ℕ) (periods : List Period) (config : Config) (state last : ProxyState) (more : List Event)
        (until : Option ℕ) (steps further : List StepOut) (history later : List Link)
        → IsRunUnder server (first_state first) periods None steps history state → IsRun (under server config) state more until further later last
        → IsOneRunUnder server first (periods ++ record { config = config; events = more } ∷ []) until (steps ++ further) (later ++ history) last }
{
    runs_under_are_one();
    under_one_is_a_run();
    every_history_is_bounded();
}

/// A record that holds no configuration, and was cut in none, is one of events alone: the server is the same, and the events led there.
pub fn record_of_events_is_resumed()
    ensures { (server server_then : Server) (old new : Standing) (bytes : Option (List ℕ)) (outs outs_then : Outputs)
        (lines : ℕ) (last : Option StepOut)
        → (resumed : IsRecordResumed server server_then old new bytes 0 outs outs_then lines last) → resumed.segments ≡ []
        → EndsHere resumed.further → IsResumed server old new bytes outs.written outs_then.written lines last × (server_then ≡ server) }
{
    under_one_is_a_run();
}

/// Over every record that is taken, and over one that isn't as far as it was, each step is lawful by all that went before it, under the
/// configuration that was in force then; and what is sent and kept is bounded.
pub fn every_record_is_lawful()
    ensures { (server server_then : Server) (first : ℕ) (new : Standing) (events : List Event) (segments : List Segment)
        → (takes : TakesWhole server server_then (first_standing first) new events segments)
        → Access server takes.runs.history × IsBounded server takes.runs.history }
{
    runs_under_are_one();
    every_history_is_bounded();
}
