//! The laws of states that are the same ahead: they are answered the same whatever is asked of them, and go on in the same way.
ghost use Rattle.std.specs.Prelude.{◌≡◌, ◌≤◌, ℕ, List, filter, find, Option};
ghost use Rattle.sip_digest.specs.Credential.{Credential};
ghost use Rattle.sip_digest.specs.Nonces.{is_live, worth_of};
ghost use Rattle.sip_dialog.specs.declared.dialog.DialogId.{DialogId};
ghost use Rattle.sip_dialog.specs.Dialogs.{is_in_dialog};
ghost use Rattle.sip_event.specs.declared.event.Event.{Event};
ghost use Rattle.sip_event.specs.declared.event.StepOut.{StepOut};
ghost use Rattle.sip_location.specs.Binding.{live};
ghost use Rattle.sip_model.specs.Periods.{IsRunUnder, Period};
ghost use Rattle.sip_model.specs.Run.{IsChain, IsRun, Link};
ghost use Rattle.model_steps.specs.state.SameState.{SameState};
ghost use Rattle.model_steps.specs.state.State.{first_state, has_key};
ghost use Rattle.model_steps.specs.state.declared.proxy_state.ProxyState.{ProxyState};
ghost use Rattle.model_steps.specs.state.declared.server.Server.{Server};
ghost use Rattle.model_steps.specs.Step.{Act, IsStep};
ghost use Rattle.sip_transaction_table.specs.declared.key.TransactionKey.{TransactionKey};
ghost use Rattle.sip_uri.specs.declared.addr.Addr.{Addr};
ghost use Rattle.sip_uri.specs.declared.aor.Aor.{Aor};
ghost use Rattle.sip_model.specs.SameAhead.{SameAhead};
ghost use Rattle.sip_model.specs.GoingOn.{IsOneBehind, RunsFrom, RunsUnderFrom, StepsFrom};

use crate::bounds::every_history_is_bounded;
use crate::histories::{moment_rises, steps_stand_at_their_moments};
use crate::laws::every_history_has_access;
use crate::periods::{histories_are_under_each, runs_under_are_one};
use sip_dialog::laws::{in_dialog_same, learning_keeps_sameness, same_dialogs};

/// Each state is the same ahead as itself; two are in either order, and through a third; and where they are the same but for the order of
/// what they hold, they are the same ahead.
pub fn same_is_equivalence()
    ensures itself { (state : ProxyState) → SameAhead state state }
    ensures turned { (left right : ProxyState) → SameAhead left right → SameAhead right left }
    ensures joined { (left middle right : ProxyState) → SameAhead left middle → SameAhead middle right → SameAhead left right }
    ensures of_same { (left right : ProxyState) → SameState left right → SameAhead left right }
{}

/// States that are the same ahead have, at their moment, the same live bindings of each address of record, in the same order; the same
/// nonces that live, with their counts, so that each credential is worth the same; the same requests in dialogs; the same open request
/// of each key; and the same next number (RFC 3261 10.3, 12.2.2, 17.2.3; RFC 2617 3.2.2).
pub fn what_is_asked_is_the_same()
    ensures bindings { (left right : ProxyState) (aor : Aor) → SameAhead left right → live aor left.moment left.bindings
        ≡ live aor right.moment right.bindings }
    ensures nonces { (left right : ProxyState) → SameAhead left right → filter (is_live left.moment) left.nonces
        ≡ filter (is_live right.moment) right.nonces }
    ensures credentials { (left right : ProxyState) (a1 : List ℕ) (c : Credential) → SameAhead left right
        → worth_of left.nonces a1 c left.moment ≡ worth_of right.nonces a1 c right.moment }
    ensures dialogs { (left right : ProxyState) (id : DialogId) (address : Addr) → SameAhead left right
        → is_in_dialog left.moment left.dialogs id address ≡ is_in_dialog right.moment right.dialogs id address }
    ensures requests { (left right : ProxyState) (key : TransactionKey) → SameAhead left right → find (has_key key) left.requests
        ≡ find (has_key key) right.requests }
    ensures next { (left right : ProxyState) → SameAhead left right → left.next ≡ right.next }
{
    in_dialog_same();
}

/// What is a step from a state, and doesn't go back behind its moment, is one from each that is the same ahead: the same moment, packets
/// and records; and it leads to states that are the same ahead.
pub fn steps_same()
    ensures { (server : Server) (left right : ProxyState) (act : Act) (out : StepOut) (new : ProxyState) → SameAhead left right
        → left.moment ≤ out.at
        → IsStep server left act out new → StepsFrom server right act out new }
{
    in_dialog_same();
    learning_keeps_sameness();
    same_dialogs();
    crate::histories::steps_same();
}

/// Where a history leads to a state, and another state is the same ahead, each run behind it is one behind that, step by step with the
/// same moments, packets and records, for the same events; so is each run over periods. And where a history leads to that one, these
/// steps are one history with it: each of them is lawful by all that went before there, whatever went before here, and the whole is
/// bounded.
pub fn runs_same()
    ensures run { (server : Server) (first : ℕ) (past : List Link) (left right : ProxyState) (events : List Event) (until : Option ℕ)
        (steps : List StepOut) (history : List Link) (last : ProxyState)
        → IsChain server (first_state first) past left → SameAhead left right → IsRun server left events until steps history last
        → RunsFrom server right events until steps last }
    ensures under { (server : Server) (first : ℕ) (past : List Link) (left right : ProxyState) (periods : List Period) (until : Option ℕ)
        (steps : List StepOut) (history : List Link) (last : ProxyState)
        → IsChain server (first_state first) past left → SameAhead left right → IsRunUnder server left periods until steps history last
        → RunsUnderFrom server right periods until steps last }
    ensures one { (server : Server) (first : ℕ) (past : List Link) (left : ProxyState) (whole_first : ℕ) (whole : List Link)
        (right : ProxyState) (periods : List Period) (until : Option ℕ) (steps : List StepOut) (history : List Link) (last : ProxyState)
        → IsChain server (first_state first) past left → IsChain server (first_state whole_first) whole right → SameAhead left right
        → IsRunUnder server left periods until steps history last
        → IsOneBehind server whole_first whole right periods until steps }
{
    steps_same();
    moment_rises();
    steps_stand_at_their_moments();
    histories_are_under_each();
    runs_under_are_one();
    every_history_has_access();
    every_history_is_bounded();
}
