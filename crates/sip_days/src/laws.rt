ghost use Rattle.std.specs.Prelude.{◌≡◌, ◌≢◌, ◌≤◌, ◌++◌, [], ◌∷◌, ℕ, true, List, filter, map, count_by};
ghost use Rattle.std.specs.List.{AllByRecursion};
ghost use Rattle.sip_uri.specs.declared.aor.Aor.{Aor};
ghost use Rattle.sip_location.specs.Binding.{live};
ghost use Rattle.sip_model.specs.state.declared.server.Server.{Server};
ghost use Rattle.sip_model.specs.state.declared.proxy_state.ProxyState.{ProxyState};
ghost use Rattle.sip_model.specs.state.State.{first_state};
ghost use Rattle.sip_model.specs.Run.{IsChain, Link};
ghost use Rattle.sip_model.specs.Access.{Access};
ghost use Rattle.sip_listener.specs.Heard.{Heard, Tells, heard_of};
ghost use Rattle.sip_days.specs.declared.call.Call.{Call};
ghost use Rattle.sip_days.specs.Calls.{calls_of, decisions_of, is_invite};
ghost use Rattle.sip_days.specs.Days.{asked_in};
ghost use Rattle.sip_days.specs.Hearing.{adds_calls, calls_with};
ghost use Rattle.sip_days.specs.declared.registered.Registered.{Registered};
ghost use Rattle.sip_days.specs.Phones.{adds_phones, is_of, phones_of, phones_with};
ghost use Rattle.sip_days.specs.WhoRegistered.{WasRegistered, is_among};

use sip_location::laws::other_addresses_are_untouched;
use sip_model::histories::{moment_rises, records_are_of_verdicts};

/// Each INVITE that a day records has exactly one call, in their order, and that call has its record: who was proven, what was asked
/// for, and by which rule it was decided.
pub fn each_invite_is_a_call()
    ensures { (day : List Heard) → map (λ (call : Call). call.decision) (calls_of day) ≡ decisions_of day }
{}

/// In a lawful history these are the INVITEs of which policy was asked: each that is valid, new and outside a dialog, and no other.
pub fn calls_are_what_policy_decided()
    ensures { (server : Server) (history : List Link) → Access server history
        → decisions_of (heard_of history) ≡ filter is_invite (asked_in server history) }
{}

/// One more step tells of each call what the definition of the longer day says; so a listener that began with no call has the calls of
/// all that it was told.
pub fn calls_grow_by_a_step()
    ensures more { (day : List Heard) (step : Heard) → calls_of (day ++ step ∷ []) ≡ calls_with step.config.offset step.event step.out (calls_of day) }
    ensures told { (calls : List Call) (history : List Link) → Tells adds_calls [] calls history → calls ≡ calls_of (heard_of history) }
{}

/// One more step tells of the addresses what the definition of the longer day says; so a listener that began with none has the addresses of
/// all that it was told.
pub fn phones_grow_by_a_step()
    ensures more { (day : List Heard) (step : Heard)
        → phones_of (day ++ step ∷ []) ≡ phones_with step.config.offset step.event step.out.records (phones_of day) }
    ensures told { (rows : List Registered) (history : List Link) → Tells adds_phones [] rows history → rows ≡ phones_of (heard_of history) }
{}

/// No registered phone is left out: each address of record with a binding that lives in the state behind a history, then or later, is among
/// the addresses of what is told of it (RFC 3261 10.3).
pub fn each_binding_has_its_phone()
    ensures { (server : Server) (first : ℕ) (history : List Link) (last : ProxyState) → IsChain server (first_state first) history last
        → (aor : Aor) (at : ℕ) → last.moment ≤ at → live aor at last.bindings ≢ [] → is_among aor (phones_of (heard_of history)) ≡ true }
{
    other_addresses_are_untouched();
    moment_rises();
    records_are_of_verdicts();
}

/// And none else is: each was registered in a step of a lawful history, by a REGISTER with a Contact that a rule let through and of which
/// bindings were made, for that address, at that moment, from there.
pub fn each_phone_was_registered()
    ensures { (server : Server) (history : List Link) → Access server history
        → AllByRecursion (WasRegistered server history) (phones_of (heard_of history)) }
{}

/// None is there twice, so that each binding is shown once.
pub fn each_phone_is_there_once()
    ensures { (day : List Heard) (aor : Aor) → count_by (is_of aor) (phones_of day) ≤ 1 }
{}
