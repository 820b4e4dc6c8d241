ghost use Rattle.std.specs.Prelude.{◌≡◌, ◌++◌, ℕ, List, reverse, Option};
ghost use Rattle.sip_event.specs.declared.event.Event.{Event};
ghost use Rattle.sip_event.specs.declared.event.StepOut.{StepOut};
ghost use Rattle.sip_model.specs.state.declared.proxy_state.ProxyState.{ProxyState};
ghost use Rattle.sip_model.specs.state.declared.server.Server.{Server};
ghost use Rattle.sip_model.specs.Run.{IsRun, Link, events_of, steps_of};
ghost use Rattle.sip_model.specs.TimerOrder.{Standing, first_standing};
ghost use Rattle.sip_journal.specs.Segments.{SaysWhole};
ghost use Rattle.sip_listener.specs.Heard.{Heard, Tells, adds, events_heard, heard_of, outs_heard};
ghost use Rattle.sip_retell.specs.Items.{Item, SaysItems, events_before, segments_of};
ghost use Rattle.sip_retell.specs.Retells.{GoesThrough, IsLawfulRun, IsTakenWhole};

use sip_model::runs::runs_join;
use sip_resume::laws::every_record_is_lawful;

/// What is told of a run is the run: a listener that keeps all that it is told keeps each step of the history, in their order, and nothing
/// else; these have the events of the run, none left out and none added, and what its steps put out.
pub fn what_is_told_is_the_run()
    ensures kept { (old new : List Heard) (history : List Link) → Tells adds old new history → new ≡ old ++ heard_of history }
    ensures events { (history : List Link) → events_heard (heard_of history) ≡ reverse (events_of history) }
    ensures outs { (history : List Link) → outs_heard (heard_of history) ≡ reverse (steps_of history) }
    ensures run { (server : Server) (first last : ProxyState) (events : List Event) (until : Option ℕ) (steps : List StepOut) (history : List Link)
        → (is_run : IsRun server first events until steps history last) → (events_heard (heard_of history) ≡ events) × (outs_heard (heard_of history) ≡ steps) }
{}

/// A record that is told item by item is told as `sip_resume` takes it: what it says are the events of which it doesn't hold the
/// configuration, and then each configuration with the events behind it; the server takes them in the same run.
pub fn what_is_told_is_taken()
    ensures says { (items : List Item) (text : List ℕ) → SaysItems items text → SaysWhole (events_before items) (segments_of items) text }
    ensures taken { (server server_then : Server) (old new : Standing) (items : List Item) (history : List Link)
        → GoesThrough server server_then old new items history
        → IsTakenWhole server server_then old new (events_before items) (segments_of items) history }
{
    runs_join();
}

/// From a start on, each step that is told is lawful by all that went before it, under the configuration that was in force then; and what
/// is sent and kept is bounded.
pub fn what_is_told_is_lawful()
    ensures { (server server_then : Server) (first : ℕ) (new : Standing) (items : List Item) (history : List Link)
        → GoesThrough server server_then (first_standing first) new items history → IsLawfulRun server history }
{
    what_is_told_is_taken();
    every_record_is_lawful();
}
