//! Laws of every run on open requests: their numbers and keys, what is due when, what goes again, and that each ends.
ghost use Rattle.std.specs.Prelude.{◌≡◌, ◌≤◌, ◌+◌, ◌^◌, ℕ, true, false, List, [], ◌∷◌, length, Contains};
ghost use Rattle.sip_event.specs.declared.packet.Packet.{Packet};
ghost use Rattle.sip_model.specs.Lives.{first_sending, sent_first};
ghost use Rattle.std.specs.List.{AllByRecursion};
ghost use Rattle.sip_uri.specs.declared.aor.Aor.{Aor};
ghost use Rattle.sip_location.specs.Binding.{live};
ghost use Rattle.model_steps.specs.context_model.FoundBranch.{found_branch};
ghost use Rattle.model_steps.specs.context_model.BranchById.{branch_by_id, HasNumbers};
ghost use Rattle.model_steps.specs.state.declared.server.Server.{Server};
ghost use Rattle.model_steps.specs.state.declared.branch.Branch.{Branch};
ghost use Rattle.model_steps.specs.state.declared.open_request.OpenRequest.{OpenRequest};
ghost use Rattle.model_steps.specs.state.declared.proxy_state.ProxyState.{ProxyState};
ghost use Rattle.model_steps.specs.state.State.{first_state, is_answering};
ghost use Rattle.model_steps.specs.context_model.Branches.{Change, all_final};
ghost use Rattle.model_steps.specs.context_model.Retransmission.{IsRetransmission};
ghost use Rattle.sip_event.specs.declared.event.StepOut.{StepOut};
ghost use Rattle.model_steps.specs.Step.{Act, IsStep, NoneBefore, NoneAgainBefore, IsOverdue, retransmissions};
ghost use Rattle.sip_model.specs.Run.{Link, IsChain};
ghost use Rattle.sip_model.specs.Order.{KeysDiffer, AreNumbered, AreRising, HasFired, IsChangeOf, AddsSuccessesAlone, AnswersOnce};
ghost use Rattle.sip_model.specs.Order.{AreOneAnswer, CanEnd, deadlines_left, finals_to, history_finals};

/// No key is that of two open requests, whatever happened before: a copy of a request is taken for the
/// one that it copies.
pub fn keys_are_open_once()
    ensures { (server : Server) (first : ℕ) (history : List Link) (last : ProxyState)
        → IsChain server (first_state first) history last → KeysDiffer last.requests }
{}

/// No number is that of two open requests, and each is below the number of the next datagram.
pub fn numbers_differ()
    ensures { (server : Server) (first : ℕ) (history : List Link) (last : ProxyState)
        → IsChain server (first_state first) history last → AreNumbered last.next last.requests }
{}

/// Open requests stand in rising order of their numbers, so that one is found by its number without comparing
/// them all.
pub fn numbers_rise()
    ensures { (server : Server) (first : ℕ) (history : List Link) (last : ProxyState)
        → IsChain server (first_state first) history last → AreRising last.requests }
{}

/// No address of record has more than 16 live bindings, in no state of a run.
pub fn at_most_sixteen_bindings()
    ensures { (server : Server) (first : ℕ) (history : List Link) (last : ProxyState)
        → IsChain server (first_state first) history last → (aor : Aor) → length (live aor last.moment last.bindings) ≤ 16 }
{}

/// A request is sent to at most 16 targets: no branch of an open request has a number above 16.
pub fn at_most_sixteen_branches()
    ensures { (server : Server) (first : ℕ) (history : List Link) (last : ProxyState) → IsChain server (first_state first) history last
        → AllByRecursion (λ (r : OpenRequest). AllByRecursion (λ (b : Branch). b.number ≤ 16) r.branches) last.requests }
{}

/// The numbers of open requests and of their branches are in the ranges of their types, while the number of
/// the next datagram is: a request has at most 16 targets, and its branches have their numbers.
pub fn numbers_fit()
    ensures { (server : Server) (first : ℕ) (history : List Link) (last : ProxyState)
        → IsChain server (first_state first) history last → last.next ≤ 2 ^ 64 → AllByRecursion HasNumbers last.requests }
{}

/// So over every run the branch that a response is to is found by the two numbers in its text: the search
/// through all open requests finds no other (RFC 3261 17.1.3).
pub fn branches_are_found_by_numbers()
    ensures { (server : Server) (first : ℕ) (history : List Link) (last : ProxyState)
        → IsChain server (first_state first) history last → last.next ≤ 2 ^ 64
        → (text method : List ℕ) → found_branch server text method last.requests ≡ branch_by_id server text method last.requests }
{}

/// No deadline of an open request stands before the moment of its state, and nothing of one is to go again
/// before it; once a datagram was taken, or time passed up to a moment, nothing is due at it either: what
/// had to fire has fired, what was to go again went, and what was armed since is later.
pub fn no_deadline_passed()
    ensures none_before { (server : Server) (first : ℕ) (history : List Link) (last : ProxyState)
        → IsChain server (first_state first) history last → NoneBefore last.moment last.requests }
    ensures none_again { (server : Server) (first : ℕ) (history : List Link) (last : ProxyState)
        → IsChain server (first_state first) history last → NoneAgainBefore last.moment last.requests }
    ensures has_fired { (server : Server) (first : ℕ) (history : List Link) (last : ProxyState)
        → IsChain server (first_state first) history last
        → AllByRecursion (λ (link : Link). HasFired link.act link.after) history }
{}

/// Each packet that goes again in a step is what may be sent again of a request that was open before it: its
/// last answer while that side is answering or closing, but no 2xx to an INVITE; the request of an INVITE's
/// branch that is unheard, or of another one's that has no final answer; a CANCEL without one; or the ACK of
/// a final answer that is no 2xx.
pub fn repeats_are_of_open_requests()
    ensures { (server : Server) (old : ProxyState) (act : Act) (out : StepOut) (new : ProxyState)
        → IsStep server old act out new → AllByRecursion (IsRetransmission server old.requests) (retransmissions out.packets) }
{}

/// Whatever goes again went before: the same bytes to the same address for the same ticket were sent as an
/// original in the history before the step; an ACK that goes again, too.
pub fn what_goes_again_went_before()
    ensures { (server : Server) (first : ℕ) (link : Link) (history : List Link) (last : ProxyState)
        → IsChain server (first_state first) (link ∷ history) last
        → AllByRecursion (λ (p : Packet). Contains (sent_first history) (first_sending p)) (retransmissions link.out.packets) }
{}

/// Of each request at most one final answer goes up in a whole history, or several 2xx to an INVITE. A
/// change of an open request that has had its final answer sends nothing final but further 2xx to an INVITE
/// whose last answer was a 2xx; a change of one that hasn't sends at most one, with which it has.
pub fn one_final_answer()
    ensures whole { (server : Server) (first : ℕ) (history : List Link) (last : ProxyState)
        (chain : IsChain server (first_state first) history last) (number : ℕ)
        → AreOneAnswer (finals_to number (history_finals server (first_state first) history last chain)) }
    ensures later { (server : Server) (now : ℕ) (r : OpenRequest) (change : Change)
        → IsChangeOf server now r change → is_answering r.side ≡ false → AddsSuccessesAlone r change }
    ensures first { (server : Server) (now : ℕ) (r : OpenRequest) (change : Change)
        → IsChangeOf server now r change → is_answering r.side ≡ true → AnswersOnce change }
{}

/// Each open request can end by the passing of time alone: one of its deadlines stands, and each that
/// passes leaves fewer that may still pass. While it owes its final answer it waits for a branch.
pub fn requests_can_end()
    ensures has_deadline { (server : Server) (first : ℕ) (history : List Link) (last : ProxyState)
        → IsChain server (first_state first) history last → AllByRecursion CanEnd last.requests }
    ensures fewer_left { (server : Server) (due : ℕ) (r : OpenRequest) (change : Change)
        → IsOverdue server due r change → deadlines_left change.request + 1 ≤ deadlines_left r }
    ensures waits { (server : Server) (first : ℕ) (history : List Link) (last : ProxyState)
        → IsChain server (first_state first) history last
        → AllByRecursion (λ (r : OpenRequest). is_answering r.side ≡ true → all_final r ≡ false) last.requests }
{}

/// Once a request had its final answer, the final answers of its branches are kept no longer: nothing that
/// could still be sent or asked is made of them.
pub fn answered_keeps_no_finals()
    ensures { (server : Server) (first : ℕ) (history : List Link) (last : ProxyState)
        → IsChain server (first_state first) history last
        → AllByRecursion (λ (r : OpenRequest). is_answering r.side ≡ false → r.finals ≡ []) last.requests }
{}
