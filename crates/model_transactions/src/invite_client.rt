//! That a branch of an INVITE fits the client transaction of RFC 3261 17.1.1 and RFC 6026 7.2 at every event.
ghost use Rattle.std.specs.Prelude.{◌≡◌, ◌≤◌, ◌<◌, ◌+◌, ◌==◌, ◌&&◌, ℕ, not, map, true, false, if◌then◌else◌, [], ◌∷◌, Some, None};
ghost use Rattle.std.specs.List.{list_any, list_all};
ghost use Rattle.sip_message_fields.specs.declared.field_name.FieldName.TheVariants as Name;
ghost use Rattle.sip_message_fields.specs.Values.{first_value};
ghost use Rattle.sip_message_form.specs.declared.message.Message.{Message};
ghost use Rattle.sip_timers.specs.Machine.{IsOneOf};
ghost use Rattle.sip_timers.specs.declared.letter.Letter.{Letter};
ghost use Rattle.sip_timers.specs.declared.letter.Letter.TheVariants as By;
ghost use Rattle.sip_transactions.specs.ClientAction.{acks_again};
ghost use Rattle.sip_transactions.specs.ClientInvite.{client_invite, start, invite_machine, runs};
ghost use Rattle.sip_transactions.specs.declared.client_actions.ClientAction.TheVariants.{Send, SendAgain, Up, Start};
ghost use Rattle.sip_transactions.specs.declared.client_actions.Report.TheVariants.{Timeout, Unavailable};
ghost use Rattle.sip_transactions.specs.declared.client_invite.ClientInvite.{ClientInvite};
ghost use Rattle.sip_transactions.specs.declared.client_invite.ClientInviteInput.TheVariants.{Received, Fired, Fault, GivenUp};
ghost use Rattle.sip_context_branches.specs.state.declared.server.Server.{Server};
ghost use Rattle.sip_context_branches.specs.state.State.{first_resend, is_invite, is_answering, is_final, is_provisional, is_success};
ghost use Rattle.sip_context_branches.specs.state.declared.branch.Branch.{Branch};
ghost use Rattle.sip_context_branches.specs.state.declared.branch.Phase.{Phase};
ghost use Rattle.sip_context_branches.specs.state.declared.branch.Phase.TheVariants.{Unheard, Heard, Cancelled, Done, Ended};
ghost use Rattle.sip_context_branches.specs.state.declared.open_request.OpenRequest.{OpenRequest};
ghost use Rattle.sip_context_branches.specs.state.declared.resend.Resend.{Resend};
ghost use Rattle.sip_context_branches.specs.context_model.Sending.{ack_packets};
ghost use Rattle.sip_context_branches.specs.context_model.Branches.{invite_heard, acks_of, further, relayed_from, relayed_provisional};
ghost use Rattle.sip_context_branches.specs.context_model.Branches.{relayed_success, is_unheard};
ghost use Rattle.sip_context_branches.specs.context_model.Retransmission.{goes_again, acked_again, branch_next, resend_after};
ghost use Rattle.model_transactions.specs.Steps.{Steps};
ghost use Rattle.model_transactions.specs.InviteClient.{RunsInviteClient, invite_timers, call_timers, heard_actions, final_actions};
ghost use Rattle.model_transactions.specs.InviteClient.{further_actions, hands_up, acknowledges};

/// An INVITE that is sent to a target at a moment (RFC 3261 16.6, 17.1.1.2).
pub fn begins()
    ensures { (now : ℕ) → Steps invite_machine now start (RunsInviteClient (Unheard (now + 32000)) (first_resend now))
        (Send ∷ Start By.A 500 ∷ Start By.B 32000 ∷ []) [] (invite_timers (Unheard (now + 32000)) (first_resend now)) }
{}

/// A response: a provisional one, the first final one, and a further final one, of 100 to 699 (RFC 3261 17.1.1.2,
/// RFC 6026 7.2).
pub fn hears()
    ensures provisional { (now status : ℕ) (phase : Phase) (again : Resend) (state : ClientInvite) → RunsInviteClient phase again state
        → 100 ≤ status → is_provisional status ≡ true
        → Steps invite_machine now (client_invite state (Received status)) (RunsInviteClient (invite_heard now status phase) again)
        (heard_actions phase)
        (invite_timers phase again) (invite_timers (invite_heard now status phase) again) }
    ensures first { (now status : ℕ) (phase : Phase) (again : Resend) (state : ClientInvite) → RunsInviteClient phase again state → status
        < 700 → is_provisional status ≡ false → is_final phase ≡ false
        → Steps invite_machine now (client_invite state (Received status)) (RunsInviteClient (Done (now + 32000) status) again) (final_actions status)
        (invite_timers phase again) (invite_timers (Done (now + 32000) status) again) }
    ensures further { (now status : ℕ) (phase : Phase) (again : Resend) (state : ClientInvite) → RunsInviteClient phase again state → status
        < 700 → is_provisional status ≡ false → is_final phase ≡ true
        → Steps invite_machine now (client_invite state (Received status)) (RunsInviteClient phase again) (further_actions phase status)
        (invite_timers phase again) (invite_timers phase again) }
{}

/// Timer A: the INVITE goes again, and next after twice the wait, at most 32,000 ms (RFC 3261 17.1.1.2).
pub fn sends_again()
    ensures { (until : ℕ) (again : Resend) (state : ClientInvite) → RunsInviteClient (Unheard until) again state
        → Steps invite_machine again.due (client_invite state (Fired By.A)) (RunsInviteClient (Unheard until) (resend_after 32000 again))
        (SendAgain ∷ Start By.A (resend_after 32000 again).wait ∷ []) ((By.B, until) ∷ [])
        (invite_timers (Unheard until) (resend_after 32000 again)) }
{}

/// The transaction ends: by Timer B without a response; as the core gives up an INVITE that was sent CANCEL; by
/// Timer M or D behind a final response; by a fault while no response came. A later fault changes nothing
/// (RFC 3261 17.1.1.2, 9.1, 16.9; RFC 6026 7.2).
pub fn ends()
    ensures unanswered { (now until : ℕ) (again : Resend) (state : ClientInvite) → RunsInviteClient (Unheard until) again state
        → Steps invite_machine now (client_invite state (Fired By.B)) (RunsInviteClient Ended again) (Up Timeout ∷ [])
        (invite_timers (Unheard until) again) [] }
    ensures given_up { (now until : ℕ) (again : Resend) (state : ClientInvite) → RunsInviteClient (Cancelled until) again state
        → Steps invite_machine now (client_invite state GivenUp) (RunsInviteClient Ended again) [] (invite_timers (Cancelled until) again) [] }
    ensures over { (now until status : ℕ) (again : Resend) (state : ClientInvite) → RunsInviteClient (Done until status) again state
        → Steps invite_machine now (client_invite state (Fired (if is_success status then By.M else By.D))) (RunsInviteClient Ended again)
        [] (invite_timers (Done until status) again) [] }
    ensures unsent { (now until : ℕ) (again : Resend) (state : ClientInvite) → RunsInviteClient (Unheard until) again state
        → Steps invite_machine now (client_invite state Fault) (RunsInviteClient Ended again) (Up Unavailable ∷ [])
        (invite_timers (Unheard until) again) [] }
    ensures late_fault { (now : ℕ) (phase : Phase) (again : Resend) (state : ClientInvite) → RunsInviteClient phase again state
        → is_unheard phase ≡ false
        → Steps invite_machine now (client_invite state Fault) (RunsInviteClient phase again) [] (invite_timers phase again)
        (invite_timers phase again) }
{}

/// A branch that is sent its CANCEL, when it was heard, goes on in the same state; its transaction has no timer,
/// before or after (RFC 3261 9.1). The proxy's own timer stays at a 100, and Timer C is set anew by 101 to 199,
/// until there is a final response or a CANCEL (RFC 3261 16.7 step 2).
pub fn waits()
    ensures cancelled { (until later : ℕ) (again : Resend) (state : ClientInvite) → RunsInviteClient (Heard until) again state
        → RunsInviteClient (Cancelled later) again state }
    ensures quiet { (until later : ℕ) (again : Resend) → (invite_timers (Heard until) again ≡ []) × (invite_timers (Cancelled later) again ≡ []) }
    ensures trying { (now : ℕ) (phase : Phase) → call_timers (invite_heard now 100 phase) ≡ call_timers phase }
    ensures ringing { (now status until : ℕ) → (status == 100) ≡ false
        → (call_timers (invite_heard now status (Unheard until)) ≡ (By.C, now + 185000) ∷ [])
        × (call_timers (invite_heard now status (Heard until)) ≡ (By.C, now + 185000) ∷ []) }
    ensures cancelling { (now status until : ℕ) → call_timers (invite_heard now status (Cancelled until)) ≡ (By.Cancelled, until) ∷ [] }
{}

/// The timers of a branch are those that run in the state.
pub fn has_timers()
    ensures run { (phase : Phase) (again : Resend) (state : ClientInvite) → RunsInviteClient phase again state
        → list_all (λ (t : Letter × ℕ). runs state t.0) (invite_timers phase again) ≡ true }
    ensures all { (phase : Phase) (again : Resend) (state : ClientInvite) (letter : Letter) → RunsInviteClient phase again state
        → runs state letter ≡ true → IsOneOf (map (λ (t : Letter × ℕ). t.0) (invite_timers phase again)) letter }
{}

/// A phase has one state.
pub fn is_one()
    ensures { (phase : Phase) (again : Resend) (state other : ClientInvite) → RunsInviteClient phase again state
        → RunsInviteClient phase again other → state ≡ other }
{}

/// What an event sends and hands up is what the actions say: the INVITE goes again while Timer A runs; the first
/// 300 to 699 gets its ACK and a further one the same again; a provisional response, and a further 2xx, goes on to
/// the caller only where the transaction hands it up (RFC 3261 16.7, 17.1.1.2; RFC 6026 7.2).
pub fn is_carried_out()
    ensures again { (r : OpenRequest) (b : Branch) (state : ClientInvite) → (is_invite r && not b.is_cancel) ≡ true
        → RunsInviteClient b.phase b.again state → goes_again r b ≡ runs state By.A }
    ensures next { (r : OpenRequest) (b : Branch) → (is_invite r && not b.is_cancel) ≡ true → branch_next r b ≡ resend_after 32000 b.again }
    ensures acks { (server : Server) (r : OpenRequest) (b : Branch) (status : ℕ) (m : Message) → is_invite r ≡ true
        → acks_of server r b status m ≡ (if list_any acknowledges (final_actions status)
        then ack_packets server false r b (first_value Name.To m.fields) else []) }
    ensures acks_repeated { (server : Server) (r : OpenRequest) (b : Branch) (status : ℕ) (state : ClientInvite)
        → (is_invite r && not b.is_cancel) ≡ true → RunsInviteClient b.phase b.again state
        → acked_again server r b status ≡ (if list_any acks_again (further_actions b.phase status)
        then ack_packets server true r b b.final_to else []) }
    ensures provisional { (r : OpenRequest) (b : Branch) (status : ℕ) (m : Message)
        → relayed_provisional r b status m ≡ (if list_any hands_up (heard_actions b.phase) && not (status == 100) && is_answering r.side
        then Some (relayed_from b status m) else None) }
    ensures success { (r : OpenRequest) (b : Branch) (status : ℕ) (m : Message) → is_invite r ≡ true
        → further r b b.phase status m ≡ (if list_any hands_up (further_actions b.phase status) then relayed_success r b status m else None) }
{}
