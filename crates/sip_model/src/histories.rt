//! Laws of every history: states that are the same take the same steps, and where nonces, records and dialogs come from.
ghost use Rattle.std.specs.Prelude.{◌≡◌, ◌≤◌, ℕ, List, [], ◌∷◌, Some, false};
ghost use Rattle.sip_digest.specs.Credential.{Credential};
ghost use Rattle.sip_auth.specs.Proof.{Right};
ghost use Rattle.std.specs.List.{AllByRecursion};
ghost use Rattle.sip_uri.specs.declared.aor.Aor.{Aor};
ghost use Rattle.sip_location.specs.declared.binding.Binding.{Binding};
ghost use Rattle.sip_location.specs.Sameness.{SameBindings};
ghost use Rattle.sip_dialog.specs.declared.dialog.Dialog.{Dialog};
ghost use Rattle.sip_dialog.specs.Sameness.{SameDialogs};
ghost use Rattle.model_steps.specs.state.declared.server.Server.{Server};
ghost use Rattle.model_steps.specs.state.declared.proxy_state.ProxyState.{ProxyState};
ghost use Rattle.model_steps.specs.state.State.{first_state};
ghost use Rattle.model_steps.specs.state.SameState.{SameState};
ghost use Rattle.model_steps.specs.state.Arrival.{Arrival};
ghost use Rattle.model_steps.specs.verdict_model.declared.question.Question.{Question};
ghost use Rattle.model_steps.specs.verdict_model.Verdict.{Bound, Register};
ghost use Rattle.sip_model.specs.Listed.{IsListed};
ghost use Rattle.model_steps.specs.SameEffect.{SameEffect};
ghost use Rattle.model_steps.specs.context_model.Branches.{Change};
ghost use Rattle.model_steps.specs.context_model.Sending.{answer_packet, made_answer};
ghost use Rattle.sip_message_form.specs.declared.message.Message.{Message};
ghost use Rattle.sip_message_form.specs.Text.{text_of};
ghost use Rattle.model_steps.specs.Effect.{contact_fields, datagram_effect, dialogs_after, effect_of};
ghost use Rattle.sip_event.specs.declared.event.StepOut.{StepOut};
ghost use Rattle.model_steps.specs.Step.{Act, IsStep};
ghost use Rattle.sip_model.specs.Run.{Link, IsChain, under};
ghost use Rattle.sip_model.specs.Histories.{Judged, judged_at, asked_in, WasChallenged, nonces_after, records_at, history_dialogs};
ghost use Rattle.sip_model.specs.Histories.{issues_of, right_counts, AreFalling};

/// Rows that say the same list the same bindings in a 200 (RFC 3261 10.3 step 8).
pub fn contact_fields_same()
    ensures { (now : ℕ) (aor : Aor) (left right : List Binding) → SameBindings now left right → contact_fields now aor left
        ≡ contact_fields now aor right }
{}

/// A REGISTER that was let through and bound is answered by a 200, and each Contact of that is a binding of its address
/// that lives, with the seconds that it has left (RFC 3261 10.3 step 8).
pub fn listed_are_live()
    ensures sends { (server : Server) (a : Arrival) (m : Message) (q : Question) (id : ℕ) (rows : List Binding) (state : ProxyState)
        → (effect_of server a m (Register q id (Bound rows)) state).originals
        ≡ answer_packet false a.number m a.from (text_of (made_answer server a.number m a.from 200 (contact_fields a.now q.target rows))) ∷ [] }
    ensures live { (now : ℕ) (aor : Aor) (rows : List Binding) → AllByRecursion (IsListed now aor rows) (contact_fields now aor rows) }
{}

/// Dialogs that are the same stay so after a change of an open request.
pub fn dialogs_after_same()
    ensures { (server : Server) (now : ℕ) (change : Change) (left right : List Dialog) → SameDialogs now left right
        → SameDialogs now (dialogs_after server now change left) (dialogs_after server now change right) }
{}

/// What a datagram does is the same in states that are the same, where it comes at their moment or later: the
/// same packets and records, and states that are the same after it.
pub fn effects_same()
    ensures { (server : Server) (left right : ProxyState) (a : Arrival) (bytes : List ℕ) → SameState left right → left.moment ≤ a.now
        → SameEffect (datagram_effect server left a bytes) (datagram_effect server right a bytes) }
{}

/// What is a step from a state, and doesn't go back behind its moment, is one from each state that is the same: a
/// body may keep rows and dialogs in whatever order, and need not drop what has expired.
pub fn steps_same()
    ensures { (server : Server) (left right : ProxyState) (act : Act) (out : StepOut) (new : ProxyState) → SameState left right → left.moment ≤ out.at
        → IsStep server left act out new → IsStep server right act out new }
{}

/// A step leaves the moment at which it stands.
pub fn steps_stand_at_their_moments()
    ensures { (server : Server) (old new : ProxyState) (act : Act) (out : StepOut) → IsStep server old act out new → new.moment ≡ out.at }
{}

/// No step of a history goes back behind the moment of the state that it begins in.
pub fn moment_rises()
    ensures { (server : Server) (first : ℕ) (link : Link) (history : List Link) (last : ProxyState)
        → IsChain server (first_state first) (link ∷ history) last → link.before.moment ≤ last.moment }
{}

/// The nonces after a history are what its challenges issued and its right credentials used, and nothing
/// else (RFC 2617 3.2.1, 3.2.2).
pub fn nonces_are_issued_and_used()
    ensures { (server : Server) (first : ℕ) (history : List Link) (last : ProxyState)
        → IsChain server (first_state first) history last → last.nonces ≡ nonces_after server history }
{}

/// Each step records one line for a request that policy was asked about, with what became of it, and
/// nothing for all else.
pub fn records_are_of_verdicts()
    ensures { (server : Server) (first : ProxyState) (history : List Link) (last : ProxyState)
        → IsChain server first history last → AllByRecursion (λ (link : Link). link.out.records ≡ records_at (under server link.config) link.before link.act) history }
{}

/// The known dialogs after a history are what its messages that were sent on made known, told, renewed and
/// ended (RFC 3261 12).
pub fn dialogs_are_taught()
    ensures { (server : Server) (first : ℕ) (history : List Link) (last : ProxyState) (chain : IsChain server (first_state first) history last)
        → SameDialogs last.moment last.dialogs (history_dialogs server (first_state first) history last chain) }
{}

/// Whoever is proven was challenged before: the nonce of each right credential that policy was asked about was
/// issued by a challenge of the history before it, less than the life of a nonce ago (RFC 2617 3.2.1, 3.3).
pub fn right_was_challenged()
    ensures { (server : Server) (first : ℕ) (link : Link) (history : List Link) (last : ProxyState)
        → IsChain server (first_state first) (link ∷ history) last
        → (j : Judged) (q : Question) (name : List ℕ) (c : Credential) → judged_at (under server link.config) link.before link.act ≡ Some j → asked_in j.verdict
        ≡ Some q → q.proof ≡ Right name c
        → WasChallenged server history j.arrival.now c.nonce }
{}

/// No credential counts twice: over each history in which the nonce of a word is issued once at most, the
/// counts with which right credentials use it rise, each above all before it (RFC 2617 3.2.2).
pub fn no_credential_counts_twice()
    ensures { (server : Server) (first word : ℕ) (history : List Link) (last : ProxyState)
        → IsChain server (first_state first) history last → issues_of server word history ≤ 1 → AreFalling (right_counts server word history) }
{}
