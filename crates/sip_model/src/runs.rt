ghost use Rattle.std.specs.Prelude.{ℕ, ◌<◌, ◌≤◌, ◌+◌, ◌⊎◌, List, ◌++◌, length, Option};
ghost use Rattle.sip_event.specs.declared.event.Event.{Event};
ghost use Rattle.sip_event.specs.declared.event.StepOut.{StepOut};
ghost use Rattle.sip_event.specs.declared.packet.Ticket.{Ticket};
ghost use Rattle.model_steps.specs.state.declared.server.Server.{Server};
ghost use Rattle.model_steps.specs.state.declared.proxy_state.ProxyState.{ProxyState};
ghost use Rattle.model_steps.specs.state.State.{first_state};
ghost use Rattle.sip_model.specs.Ends.{sends_left, steps_left};
ghost use Rattle.model_steps.specs.Step.{IsDeadline, IsFault, IsResend};
ghost use Rattle.sip_model.specs.Run.{Link, IsChain, IsRun, HasRun, first_moment};

/// Two runs, one behind the other, are one: the first stops where the second goes on, and what had passed
/// before the first event of the second counts as its.
pub fn runs_join()
    ensures { (server : Server) (first middle last : ProxyState) (events more : List Event) (until : Option ℕ)
        (steps further : List StepOut) (history later : List Link)
        → IsRun server first events (first_moment more until) steps history middle → IsRun server middle more until further later last
        → IsRun server first (events ++ more) until (steps ++ further) (later ++ history) last }
{}

/// Every list of events has a run, and every run goes on: wherever a history from a first state leads to, each
/// further list of events has a run from there. Time always passes, since what is due by a moment ends: each
/// deadline leaves fewer that may still pass, and what goes again waits at least a millisecond for the next time.
pub fn every_list_has_a_run()
    ensures whole { (server : Server) (first : ℕ) (events : List Event) (until : Option ℕ) → HasRun server (first_state first) events until }
    ensures further { (server : Server) (first : ℕ) (history : List Link) (state : ProxyState) (events : List Event) (until : Option ℕ)
        → IsChain server (first_state first) history state → HasRun server state events until }
{}

/// What is due by a moment ends: each step in which a deadline passes or something goes again by then leaves fewer such
/// steps, by the argument of `every_list_has_a_run`.
pub fn what_is_due_ends()
    ensures { (server : Server) (first : ℕ) (history : List Link) (old new : ProxyState) (at : ℕ) (out : StepOut)
        → IsChain server (first_state first) history old
        → IsDeadline server old at out new ⊎ IsResend server old at out new → steps_left at new < steps_left at old }
{}

/// Sends that fail end: each packet that the fault of one hands out leaves one fewer that faults can hand out. And a fault
/// at the state's moment leaves no more steps of what is due.
pub fn failed_sends_end()
    ensures packets { (server : Server) (first : ℕ) (history : List Link) (old new : ProxyState) (at : ℕ) (ticket : Ticket) (out : StepOut)
        → IsChain server (first_state first) history old
        → IsFault server old at ticket out new → length out.packets + sends_left new ≤ sends_left old }
    ensures steps { (server : Server) (first : ℕ) (history : List Link) (old new : ProxyState) (ticket : Ticket) (out : StepOut) (at : ℕ)
        → IsChain server (first_state first) history old
        → IsFault server old old.moment ticket out new → steps_left at new ≤ steps_left at old }
{}
