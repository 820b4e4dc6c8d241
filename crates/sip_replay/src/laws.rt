ghost use Rattle.std.specs.Prelude.{◌≡◌, ◌++◌, ℕ, List, Option};
ghost use Rattle.sip_event.specs.declared.event.Event.{Event};
ghost use Rattle.sip_event.specs.declared.event.StepOut.{StepOut};
ghost use Rattle.sip_config_types.specs.declared.config.Config.{Config};
ghost use Rattle.sip_model.specs.Access.{Access};
ghost use Rattle.sip_model.specs.Bounds.{IsBounded};
ghost use Rattle.sip_model.specs.TimerOrder.{first_standing};
ghost use Rattle.sip_replay.specs.Refusals.{ComesTo};
ghost use Rattle.sip_replay.specs.Replays.{server_with, IsReplay};
ghost use Rattle.sip_replay_script.specs.Events.{IsNoEvent, SaysEvents};

use sip_model::bounds::every_history_is_bounded;
use sip_model::laws::every_run_has_access;
use sip_replay_script::laws::{event_is_no_refusal, next_event_is_one};

/// Over every replay, each step is lawful by its history: each valid new request outside a dialog is sent to
/// exactly the unexpired bindings or the configured hop that the first matching rule gives its proven user;
/// bindings change or are listed exactly as an allowed REGISTER says; every policy denial is a 403 whose Warning
/// names that rule; all else sent belongs to an open request or known dialog. So is each step of a replay that is refused,
/// as far as it came.
pub fn every_replay_has_access()
    ensures whole { (config : Config) (word first : ℕ) (script old new : Option (List ℕ)) → (replay : IsReplay config word first script old new)
        → Access (server_with config word) replay.history }
    ensures refused { (config : Config) (word first : ℕ) (script : Option (List ℕ)) (steps : List StepOut)
        → (comes : ComesTo (server_with config word) (first_standing first) script steps) → Access (server_with config word) comes.history }
{
    every_run_has_access();
}

/// Over every replay what is sent and kept is bounded: of each request at most one final answer goes to its caller, or several
/// 2xx of an INVITE; nothing goes out more often than RFC 3261 lets it; and each request is closed in time. So it is over a
/// replay that is refused, as far as it came.
pub fn every_replay_is_bounded()
    ensures whole { (config : Config) (word first : ℕ) (script old new : Option (List ℕ)) → (replay : IsReplay config word first script old new)
        → IsBounded (server_with config word) replay.history }
    ensures refused { (config : Config) (word first : ℕ) (script : Option (List ℕ)) (steps : List StepOut)
        → (comes : ComesTo (server_with config word) (first_standing first) script steps) → IsBounded (server_with config word) comes.history }
{
    every_history_is_bounded();
}

/// A script says one list of events at most, so that a replay of it is a run over that list and no other. Where a
/// script is refused behind some events, it says none as a whole.
pub fn script_says_one_list()
    ensures one { (events others : List Event) (text : List ℕ) → SaysEvents events text → SaysEvents others text → events ≡ others }
    ensures refused { (events others : List Event) (text rest : List ℕ) → SaysEvents events text → IsNoEvent rest
        → SaysEvents others (text ++ rest) → ⊥ }
{
    next_event_is_one();
    event_is_no_refusal();
}
