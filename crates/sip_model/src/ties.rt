ghost use Rattle.std.specs.Prelude.{◌≡◌, ℕ, List, None};
ghost use Rattle.sip_event.specs.declared.event.Event.{Event};
ghost use Rattle.sip_event.specs.declared.event.StepOut.{StepOut};
ghost use Rattle.sip_event.specs.declared.packet.Ticket.{Ticket};
ghost use Rattle.model_steps.specs.state.declared.server.Server.{Server};
ghost use Rattle.model_steps.specs.state.declared.proxy_state.ProxyState.{ProxyState};
ghost use Rattle.model_steps.specs.state.State.{first_state};
ghost use Rattle.model_steps.specs.state.SameState.{SameState};
ghost use Rattle.model_steps.specs.Step.{IsFault, NoneAgainBy, NoneBy, moment_of};
ghost use Rattle.sip_model.specs.Run.{Link, IsChain, IsRun, steps_of};
ghost use Rattle.sip_model.specs.Periods.{Period, IsRunUnder};
ghost use Rattle.model_transactions.specs.Queue.{Entry};
ghost use Rattle.sip_model.specs.Ties.{AreOne, AreOrderly, ArePrompt, configurations_of, labels_of};

use crate::histories::{
    dialogs_after_same, moment_rises, steps_same, steps_stand_at_their_moments,
};
use crate::order::{numbers_rise, requests_can_end};
use crate::parts::steps_have_parts;
use crate::timer_order::open_requests_are_branched;
use sip_dialog::laws::same_dialogs;
use sip_location::laws::same_bindings;
use sip_state::laws::same_states;

/// Two runs over the same events, from states that are the same, to which steps of the model led, and in which the same timers stand,
/// take the same steps and come to states that are the same. A step is all that it hands out, in its order, and all that it records. In
/// both time passes only where something that is due happens, which is of the first timer that stands, and all that is due by the
/// moment of an event happens before it. The same is said of two runs over the same periods, each under its configuration (`periods`).
pub fn runs_are_one()
    ensures events { (server : Server) (first : ℕ) (past : List Link) (queue : List Entry) (start other_start last end : ProxyState)
        (events : List Event) (steps others : List StepOut) (history its : List Link)
        → IsChain server (first_state first) past start → SameState start other_start
        → IsRun server start events None steps history last → IsRun server other_start events None others its end
        → AreOrderly server queue history → AreOrderly server queue its → AreOne steps others last end }
    ensures periods { (server : Server) (first : ℕ) (past : List Link) (queue : List Entry) (start other_start last end : ProxyState)
        (periods : List Period) (steps others : List StepOut) (history its : List Link)
        → IsChain server (first_state first) past start → SameState start other_start
        → IsRunUnder server start periods None steps history last → IsRunUnder server other_start periods None others its end
        → AreOrderly server queue history → AreOrderly server queue its → AreOne steps others last end }
{
    same_bindings();
    same_dialogs();
    same_states();
    dialogs_after_same();
    moment_rises();
    steps_same();
    steps_stand_at_their_moments();
    numbers_rise();
    open_requests_are_branched();
    requests_can_end();
    steps_have_parts();
}

/// The events that are taken, what happens in between of what is due, and the configuration that is in force in each step decide
/// everything, each in its order: two prompt histories from states that are the same, to which steps of the model led, whose steps are
/// taken for the same under the same configurations, took the same steps, each with all that it hands out in the same order and all
/// that it records, and came to states that are the same.
pub fn order_decides()
    ensures { (server : Server) (first : ℕ) (past : List Link) (start other_start last end : ProxyState) (history its : List Link)
        → IsChain server (first_state first) past start → SameState start other_start
        → IsChain server start history last → IsChain server other_start its end
        → (prompt : ArePrompt server history) → (other_prompt : ArePrompt server its)
        → configurations_of history ≡ configurations_of its
        → labels_of server history prompt ≡ labels_of server its other_prompt → AreOne (steps_of history) (steps_of its) last end }
{
    same_bindings();
    same_dialogs();
    same_states();
    dialogs_after_same();
    moment_rises();
    steps_same();
    steps_stand_at_their_moments();
    numbers_rise();
    open_requests_are_branched();
    requests_can_end();
    steps_have_parts();
}

/// A fault that comes once nothing is due leaves nothing due: what it sets off is later.
pub fn fault_leaves_nothing_due()
    ensures { (server : Server) (first : ℕ) (history : List Link) (old new : ProxyState) (at : ℕ) (ticket : Ticket) (out : StepOut)
        → IsChain server (first_state first) history old → IsFault server old at ticket out new
        → NoneBy (moment_of old at) old.requests → NoneAgainBy (moment_of old at) old.requests
        → NoneBy new.moment new.requests × NoneAgainBy new.moment new.requests }
{}
