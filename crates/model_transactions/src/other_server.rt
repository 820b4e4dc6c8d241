ghost use Rattle.std.specs.Prelude.{◌≡◌, ◌≤◌, ◌<◌, ℕ, map, true, false, [], Option, None};
ghost use Rattle.std.specs.List.{list_all};
ghost use Rattle.sip_timers.specs.Machine.{IsOneOf};
ghost use Rattle.sip_timers.specs.declared.letter.Letter.{Letter};
ghost use Rattle.sip_timers.specs.declared.letter.Letter.TheVariants as By;
ghost use Rattle.sip_transactions.specs.ServerAction.{copy_actions};
ghost use Rattle.sip_transactions.specs.ServerOther.{server_other, other_machine, runs, answers_copy};
ghost use Rattle.sip_transactions.specs.declared.server_other.ServerOther.{ServerOther};
ghost use Rattle.sip_transactions.specs.declared.server_other.ServerOther.TheVariants.{Trying};
ghost use Rattle.sip_transactions.specs.declared.server_other.ServerOtherInput.TheVariants.{Request, Answer, Fired};
ghost use Rattle.sip_context_branches.specs.state.State.{is_invite, is_answering};
ghost use Rattle.sip_context_branches.specs.state.declared.open_request.LastAnswer.{LastAnswer};
ghost use Rattle.sip_context_branches.specs.state.declared.open_request.OpenRequest.{OpenRequest};
ghost use Rattle.sip_context_branches.specs.state.declared.open_request.Side.{Side};
ghost use Rattle.sip_context_branches.specs.state.declared.open_request.Side.TheVariants.{Answering, Closing, Closed};
ghost use Rattle.sip_context_branches.specs.state.declared.open_request.Upward.{Upward};
ghost use Rattle.sip_context_branches.specs.context_model.Branches.{answered, acknowledged};
ghost use Rattle.sip_context_branches.specs.context_model.Retransmission.{answers_again, insists};
ghost use Rattle.model_transactions.specs.Steps.{Steps};
ghost use Rattle.model_transactions.specs.InviteServer.{repeated};
ghost use Rattle.model_transactions.specs.OtherServer.{RunsOtherServer, other_side_timers, answer_actions};

/// A request that has just come: it has no answer and no timer (RFC 3261 17.2.2).
pub fn begins()
    ensures fits { RunsOtherServer Answering None Trying }
    ensures quiet { other_side_timers Answering ≡ [] }
{}

/// An answer of 101 to 699 goes to the caller, while there is no final one (RFC 3261 17.2.2).
pub fn answers()
    ensures { (now : ℕ) (r : OpenRequest) (u : Upward) (state : ServerOther) → RunsOtherServer r.side r.answer state → 101 ≤ u.status
        → u.status < 700 → is_answering r.side ≡ true
        → Steps other_machine now (server_other state (Answer u.status)) (RunsOtherServer (answered now u r).side (answered now u r).answer)
        (answer_actions u.status)
        (other_side_timers r.side) (other_side_timers (answered now u r).side) }
{}

/// A copy of the request changes nothing (RFC 3261 17.2.2).
pub fn hears_copy()
    ensures { (now : ℕ) (side : Side) (answer : Option LastAnswer) (state : ServerOther) → RunsOtherServer side answer state
        → Steps other_machine now (server_other state Request) (RunsOtherServer side answer) (copy_actions (answers_copy state))
        (other_side_timers side) (other_side_timers side) }
{}

/// The transaction ends by Timer J (RFC 3261 17.2.2).
pub fn ends()
    ensures { (now until : ℕ) (answer : Option LastAnswer) (state : ServerOther) → RunsOtherServer (Closing until) answer state
        → Steps other_machine now (server_other state (Fired By.J)) (RunsOtherServer Closed answer) [] (other_side_timers (Closing until)) [] }
{}

/// The timers of the answering side are those that run in the state.
pub fn has_timers()
    ensures run { (side : Side) (answer : Option LastAnswer) (state : ServerOther) → RunsOtherServer side answer state
        → list_all (λ (t : Letter × ℕ). runs state t.0) (other_side_timers side) ≡ true }
    ensures all { (side : Side) (answer : Option LastAnswer) (state : ServerOther) (letter : Letter) → RunsOtherServer side answer state
        → runs state letter ≡ true
        → IsOneOf (map (λ (t : Letter × ℕ). t.0) (other_side_timers side)) letter }
{}

/// The answering side has one state.
pub fn is_one()
    ensures { (side : Side) (answer : Option LastAnswer) (state other : ServerOther) → RunsOtherServer side answer state
        → RunsOtherServer side answer other → state ≡ other }
{}

/// What is sent again is what the actions say: the last answer goes to a copy where the state says so, and never by
/// itself; an ACK changes nothing (RFC 3261 17.2.2).
pub fn is_carried_out()
    ensures quiet { (r : OpenRequest) → is_invite r ≡ false → insists r ≡ false }
    ensures acknowledged { (now : ℕ) (r : OpenRequest) → is_invite r ≡ false → acknowledged now r ≡ r }
    ensures copied { (r : OpenRequest) (state : ServerOther) → is_invite r ≡ false → RunsOtherServer r.side r.answer state
        → answers_again r r.answer ≡ repeated (answers_copy state) r r.answer }
{}
