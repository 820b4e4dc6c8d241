//! That the answering side of an INVITE fits the server transaction of RFC 3261 17.2.1 and RFC 6026 7.1 at every event.
ghost use Rattle.std.specs.Prelude.{◌≡◌, ◌≤◌, ◌<◌, ℕ, map, true, false, [], ◌∷◌, Option, None};
ghost use Rattle.std.specs.List.{list_all};
ghost use Rattle.sip_timers.specs.Machine.{IsOneOf};
ghost use Rattle.sip_timers.specs.declared.letter.Letter.{Letter};
ghost use Rattle.sip_timers.specs.declared.letter.Letter.TheVariants as By;
ghost use Rattle.sip_transactions.specs.ServerAction.{copy_actions};
ghost use Rattle.sip_transactions.specs.ServerInvite.{server_invite, invite_machine, runs, answers_copy};
ghost use Rattle.sip_transactions.specs.declared.server_actions.ServerAction.TheVariants.{Send, SendAgain, Start};
ghost use Rattle.sip_transactions.specs.declared.server_invite.ServerInvite.{ServerInvite};
ghost use Rattle.sip_transactions.specs.declared.server_invite.ServerInvite.TheVariants.{Proceeding};
ghost use Rattle.sip_transactions.specs.declared.server_invite.ServerInviteInput.TheVariants.{Invite, Ack, Answer, Fired};
ghost use Rattle.sip_context_branches.specs.state.State.{is_invite, is_answering, is_success};
ghost use Rattle.sip_context_branches.specs.state.declared.open_request.LastAnswer.{LastAnswer};
ghost use Rattle.sip_context_branches.specs.state.declared.open_request.OpenRequest.{OpenRequest};
ghost use Rattle.sip_context_branches.specs.state.declared.open_request.Side.{Side};
ghost use Rattle.sip_context_branches.specs.state.declared.open_request.Side.TheVariants.{Answering, Closing, Acknowledged, Closed};
ghost use Rattle.sip_context_branches.specs.state.declared.open_request.Upward.{Upward};
ghost use Rattle.sip_context_branches.specs.state.declared.resend.Resend.{Resend};
ghost use Rattle.sip_context_branches.specs.context_model.Branches.{answered, acknowledged, is_accepted, was_refused};
ghost use Rattle.sip_context_branches.specs.context_model.Retransmission.{answers_again, answer_next, insists, resend_after};
ghost use Rattle.model_transactions.specs.Steps.{Steps};
ghost use Rattle.model_transactions.specs.InviteServer.{RunsInviteServer, invite_side_timers, answer_actions, ack_actions, repeated};

/// An INVITE that has just come: it has no answer and no timer (RFC 3261 17.2.1).
pub fn begins()
    ensures fits { (again : Resend) → RunsInviteServer Answering None again (Proceeding false) }
    ensures quiet { (again : Resend) → invite_side_timers Answering None again ≡ [] }
{}

/// An answer of 100 to 699 goes to the caller, while there is no final one; and a further 2xx once one was accepted
/// (RFC 3261 17.2.1, RFC 6026 7.1).
pub fn answers()
    ensures first { (now : ℕ) (r : OpenRequest) (u : Upward) (state : ServerInvite) → RunsInviteServer r.side r.answer r.again state → 100
        ≤ u.status → u.status < 700 → is_answering r.side ≡ true
        → Steps invite_machine now (server_invite state (Answer u.status))
        (RunsInviteServer (answered now u r).side (answered now u r).answer (answered now u r).again) (answer_actions r.side u.status)
        (invite_side_timers r.side r.answer r.again) (invite_side_timers (answered now u r).side (answered now u r).answer (answered now u r).again) }
    ensures further { (now : ℕ) (r : OpenRequest) (u : Upward) (state : ServerInvite) → RunsInviteServer r.side r.answer r.again state
        → is_accepted r ≡ true → is_success u.status ≡ true
        → Steps invite_machine now (server_invite state (Answer u.status))
        (RunsInviteServer (answered now u r).side (answered now u r).answer (answered now u r).again) (Send ∷ [])
        (invite_side_timers r.side r.answer r.again) (invite_side_timers (answered now u r).side (answered now u r).answer (answered now u r).again) }
{}

/// An ACK: that of a 300 to 699 ends the sending and sets Timer I; any other changes nothing (RFC 3261 17.2.1,
/// RFC 6026 7.1).
pub fn is_acknowledged()
    ensures { (now : ℕ) (r : OpenRequest) (state : ServerInvite) → RunsInviteServer r.side r.answer r.again state → is_invite r ≡ true
        → Steps invite_machine now (server_invite state Ack)
        (RunsInviteServer (acknowledged now r).side (acknowledged now r).answer (acknowledged now r).again) (ack_actions r.side r.answer)
        (invite_side_timers r.side r.answer r.again) (invite_side_timers (acknowledged now r).side (acknowledged now r).answer
        (acknowledged now r).again) }
{}

/// Timer G: the 300 to 699 goes again, and next after twice the wait, at most 4,000 ms (RFC 3261 17.2.1).
pub fn sends_again()
    ensures { (until : ℕ) (answer : Option LastAnswer) (again : Resend) (state : ServerInvite)
        → RunsInviteServer (Closing until) answer again state → was_refused answer ≡ true
        → Steps invite_machine again.due (server_invite state (Fired By.G)) (RunsInviteServer (Closing until) answer (resend_after 4000 again))
        (SendAgain ∷ Start By.G (resend_after 4000 again).wait ∷ []) ((By.H, until) ∷ [])
        (invite_side_timers (Closing until) answer (resend_after 4000 again)) }
{}

/// A copy of the INVITE changes nothing (RFC 3261 17.2.1).
pub fn hears_copy()
    ensures { (now : ℕ) (side : Side) (answer : Option LastAnswer) (again : Resend) (state : ServerInvite) → RunsInviteServer side answer again state
        → Steps invite_machine now (server_invite state Invite) (RunsInviteServer side answer again) (copy_actions (answers_copy state))
        (invite_side_timers side answer again) (invite_side_timers side answer again) }
{}

/// The transaction ends: by Timer H without an ACK, by Timer L behind a 2xx, by Timer I behind the ACK (RFC 3261
/// 17.2.1, RFC 6026 7.1).
pub fn ends()
    ensures refused { (now until : ℕ) (answer : Option LastAnswer) (again : Resend) (state : ServerInvite)
        → RunsInviteServer (Closing until) answer again state → was_refused answer ≡ true
        → Steps invite_machine now (server_invite state (Fired By.H)) (RunsInviteServer Closed answer again) []
        (invite_side_timers (Closing until) answer again) [] }
    ensures accepted { (now until : ℕ) (answer : Option LastAnswer) (again : Resend) (state : ServerInvite)
        → RunsInviteServer (Closing until) answer again state → was_refused answer ≡ false
        → Steps invite_machine now (server_invite state (Fired By.L)) (RunsInviteServer Closed answer again) []
        (invite_side_timers (Closing until) answer again) [] }
    ensures acknowledged { (now until : ℕ) (answer : Option LastAnswer) (again : Resend) (state : ServerInvite)
        → RunsInviteServer (Acknowledged until) answer again state
        → Steps invite_machine now (server_invite state (Fired By.I)) (RunsInviteServer Closed answer again) []
        (invite_side_timers (Acknowledged until) answer again) [] }
{}

/// The timers of the answering side are those that run in the state.
pub fn has_timers()
    ensures run { (side : Side) (answer : Option LastAnswer) (again : Resend) (state : ServerInvite) → RunsInviteServer side answer again state
        → list_all (λ (t : Letter × ℕ). runs state t.0) (invite_side_timers side answer again) ≡ true }
    ensures all { (side : Side) (answer : Option LastAnswer) (again : Resend) (state : ServerInvite) (letter : Letter)
        → RunsInviteServer side answer again state → runs state letter ≡ true
        → IsOneOf (map (λ (t : Letter × ℕ). t.0) (invite_side_timers side answer again)) letter }
{}

/// The answering side has one state.
pub fn is_one()
    ensures { (side : Side) (answer : Option LastAnswer) (again : Resend) (state other : ServerInvite)
        → RunsInviteServer side answer again state → RunsInviteServer side answer again other → state ≡ other }
{}

/// What is sent again is what the actions say: the last answer goes by itself while Timer G runs, and to a copy
/// where the state says so (RFC 3261 17.2.1, RFC 6026 7.1).
pub fn is_carried_out()
    ensures again { (r : OpenRequest) (state : ServerInvite) → is_invite r ≡ true → RunsInviteServer r.side r.answer r.again state
        → insists r ≡ runs state By.G }
    ensures next { (r : OpenRequest) → answer_next r ≡ resend_after 4000 r.again }
    ensures copied { (r : OpenRequest) (state : ServerInvite) → is_invite r ≡ true → RunsInviteServer r.side r.answer r.again state
        → answers_again r r.answer ≡ repeated (answers_copy state) r r.answer }
{}
