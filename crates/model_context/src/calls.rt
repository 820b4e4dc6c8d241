//! Worked examples of events of an open request, as contracts that compute: responses, CANCELs, ACKs, faults, and the timers that they set.
ghost use Rattle.std.specs.Prelude.{◌≡◌, [], ◌∷◌, nat_lt, true, false};
ghost use Rattle.sip_state.specs.declared.branch.Phase.TheVariants.{Unheard, Heard, Cancelled, Done, Ended};
ghost use Rattle.sip_state.specs.declared.open_request.Side.TheVariants.{Answering, Closing, Acknowledged, Closed};
ghost use Rattle.sip_state.specs.State.{has_left};
ghost use Rattle.model_context.specs.Branches.{acknowledged, cancelled, side_overdue};
ghost use Rattle.model_context.specs.Calls;

/// A 100 from a branch goes nowhere. It ends the wait for a first response, of 32,000 ms, and not Timer C,
/// of 185,000 ms, which runs since the INVITE was sent at 62,000, or since a ringing that came before. The
/// deadline of another request stays.
pub fn trying()
    ensures nothing { Calls.statuses (Calls.hearing 62100 Calls.one_target Calls.first_branch 100) ≡ [] }
    ensures heard { Calls.phases (Calls.hearing 62100 Calls.one_target Calls.first_branch 100).request ≡ Heard 247000 ∷ [] }
    ensures rang { Calls.phases (Calls.hearing 64000 Calls.one_rings Calls.first_ringing 100).request ≡ Heard 248000 ∷ [] }
    ensures other { Calls.phases (Calls.hearing 6000 Calls.one_message Calls.message_branch 100).request ≡ Heard 37000 ∷ [] }
{}

/// Two 180s from a branch go to the caller, at 63,000 and 64,000, and each sets Timer C anew. After a final
/// answer of the branch or of the request, a 180 goes nowhere. The deadline of another request stays.
pub fn ringing()
    ensures first { Calls.statuses (Calls.hearing 63000 Calls.one_target Calls.first_branch 180) ≡ 180 ∷ [] }
    ensures first_heard { Calls.phases (Calls.hearing 63000 Calls.one_target Calls.first_branch 180).request ≡ Heard 248000 ∷ [] }
    ensures second { Calls.statuses (Calls.hearing 64000 Calls.one_rings Calls.first_ringing 180) ≡ 180 ∷ [] }
    ensures second_heard { Calls.phases (Calls.hearing 64000 Calls.one_rings Calls.first_ringing 180).request ≡ Heard 249000 ∷ [] }
    ensures after_branch { Calls.statuses (Calls.hearing 64000
        (Calls.call_to (Calls.branch_at 1 5082 (Done 95000 486) ∷ Calls.second_ringing ∷ [])) (Calls.branch_at 1 5082 (Done 95000 486)) 180) ≡ [] }
    ensures after_final { Calls.statuses (Calls.hearing 64000
        (Calls.replied_with 200 (Closing 95000) (Calls.call_to (Calls.branch_at 1 5082 (Done 95000 200) ∷ Calls.second_ringing ∷ [])))
        Calls.second_ringing 180) ≡ [] }
    ensures other { Calls.phases (Calls.hearing 6000 Calls.one_message Calls.message_branch 180).request ≡ Heard 37000 ∷ [] }
{}

/// A branch that answered 486 or 200 to an INVITE at 63,000 takes more answers for 32,000 ms (Timers D and
/// M), to a MESSAGE for 5,000 ms (Timer K). The answering side, once its final answer went, stands for
/// 32,000 ms (Timers H, L and J).
pub fn lingering()
    ensures refused { Calls.phases (Calls.hearing 63000 Calls.one_target Calls.first_branch 486).request ≡ Done 95000 486 ∷ [] }
    ensures accepted { Calls.phases (Calls.hearing 63000 Calls.one_target Calls.first_branch 200).request ≡ Done 95000 200 ∷ [] }
    ensures other { Calls.phases (Calls.hearing 6000 Calls.one_message Calls.message_branch 200).request ≡ Done 11000 200 ∷ [] }
    ensures refused_side { (Calls.hearing 63000 Calls.one_target Calls.first_branch 486).request.side ≡ Closing 95000 }
    ensures accepted_side { (Calls.hearing 63000 Calls.one_target Calls.first_branch 200).request.side ≡ Closing 95000 }
    ensures other_side { (Calls.hearing 6000 Calls.one_message Calls.message_branch 200).request.side ≡ Closing 38000 }
{}

/// The ACK of a 486 at 63,200 leaves the answering side acknowledged for 5,000 ms (Timer I), and a second
/// one changes nothing. The ACK of a 200 changes nothing.
pub fn acknowledgement()
    ensures refused { (acknowledged 63200 (Calls.replied_with 486 (Closing 95000) (Calls.call_to []))).side ≡ Acknowledged 68200 }
    ensures again { (acknowledged 64000 (Calls.replied_with 486 (Acknowledged 68200) (Calls.call_to []))).side ≡ Acknowledged 68200 }
    ensures accepted { acknowledged 63200 (Calls.replied_with 200 (Closing 95000) (Calls.call_to []))
        ≡ Calls.replied_with 200 (Closing 95000) (Calls.call_to []) }
{}

/// A final answer of an INVITE that is no 2xx gets its ACK from this server, at the branch that gave it; a
/// 2xx gets none, nor does any answer to a MESSAGE.
pub fn own_acks()
    ensures refused { Calls.ports (Calls.hearing 63000 Calls.second_rings Calls.second_ringing 486).acks ≡ 5083 ∷ [] }
    ensures accepted { Calls.ports (Calls.hearing 63000 Calls.one_target Calls.first_branch 200).acks ≡ [] }
    ensures other { Calls.ports (Calls.hearing 6000 Calls.one_message Calls.message_branch 486).acks ≡ [] }
{}

/// Two branches. While the second waits, the 486 of the first doesn't go up. When the second has answered
/// 404, the earlier 486 goes up; when it has declined, the 603 does; when it gave nothing in 32,000 ms, the
/// 408 doesn't outrank the 486.
pub fn best_answer()
    ensures waits { Calls.statuses (Calls.hearing 63000 Calls.two_targets Calls.first_branch 486) ≡ [] }
    ensures still_answering { (Calls.hearing 63000 Calls.two_targets Calls.first_branch 486).request.side ≡ Answering }
    ensures earlier { Calls.statuses (Calls.hearing 63100 (Calls.hearing 63000 Calls.two_targets Calls.first_branch 486).request
        Calls.second_branch 404) ≡ 486 ∷ [] }
    ensures decline { Calls.statuses (Calls.hearing 63100 (Calls.hearing 63000 Calls.two_targets Calls.first_branch 486).request
        Calls.second_branch 603) ≡ 603 ∷ [] }
    ensures silent { Calls.statuses (Calls.passing 94000 (Calls.hearing 63000 Calls.two_targets Calls.first_branch 486).request
        Calls.second_branch) ≡ 486 ∷ [] }
{}

/// Two branches ring and both answer 200: both go up while the server transaction lives. After it ended at
/// 95,000, or to a MESSAGE after its first 200, a further one goes nowhere.
pub fn further_success()
    ensures lives { Calls.statuses
        (Calls.hearing 63300 (Calls.replied_with 200 (Closing 95000)
        (Calls.call_to (Calls.branch_at 1 5082 (Done 95000 200) ∷ Calls.branch_at 2 5083 (Cancelled 95000) ∷ [])))
        (Calls.branch_at 2 5083 (Cancelled 95000)) 200) ≡ 200 ∷ [] }
    ensures same_branch { Calls.statuses (Calls.hearing 63300
        (Calls.replied_with 200 (Closing 95000) (Calls.call_to (Calls.branch_at 1 5082 (Done 95000 200) ∷ [])))
        (Calls.branch_at 1 5082 (Done 95000 200)) 200) ≡ 200 ∷ [] }
    ensures ended { Calls.statuses
        (Calls.hearing 95100 (Calls.replied_with 200 Closed (Calls.call_to (Calls.branch_at 1 5082 Ended ∷ Calls.second_ringing ∷ [])))
        Calls.second_ringing 200) ≡ [] }
    ensures branch_ended { Calls.statuses (Calls.hearing 94500
        (Calls.replied_with 200 (Closing 95000) (Calls.call_to (Calls.branch_at 1 5082 Ended ∷ []))) (Calls.branch_at 1 5082 Ended) 200) ≡ [] }
    ensures other { Calls.statuses
        (Calls.hearing 6100 (Calls.replied_with 200 (Closing 38000)
        (Calls.message_to (Calls.branch_at 1 5082 (Done 11000 200) ∷ Calls.branch_at 2 5083 (Unheard 37000) ∷ [])))
        (Calls.branch_at 2 5083 (Unheard 37000)) 200) ≡ [] }
{}

/// A 2xx or a 603 of an INVITE at 63,200 cancels the other branch, which rang; a 486 doesn't, nor does a
/// 200 to a MESSAGE. The branch that is cancelled has 32,000 ms more for its final answer, and its CANCEL
/// as long for its own.
pub fn search_ends()
    ensures success { Calls.ports (Calls.hearing 63200 Calls.second_rings Calls.first_branch 200).cancels ≡ 5083 ∷ [] }
    ensures phases { Calls.phases (Calls.hearing 63200 Calls.second_rings Calls.first_branch 200).request ≡ Done 95200 200 ∷ Cancelled 95200
        ∷ Unheard 95200 ∷ [] }
    ensures decline { Calls.ports (Calls.hearing 63200 Calls.second_rings Calls.first_branch 603).cancels ≡ 5083 ∷ [] }
    ensures busy { Calls.ports (Calls.hearing 63200 Calls.second_rings Calls.first_branch 486).cancels ≡ [] }
    ensures other { Calls.ports (Calls.hearing 6000 (Calls.message_to (Calls.message_branch ∷ Calls.branch_at 2 5083 (Heard 37000) ∷ []))
        Calls.message_branch 200).cancels ≡ [] }
{}

/// The caller cancels at 62,500. A branch of which nothing was heard gets no CANCEL yet: when it rings, the
/// 180 goes up and the CANCEL goes to it. One that rang gets its CANCEL at once. An INVITE with its final
/// answer isn't cancelled, nor is a MESSAGE.
pub fn cancelled_call()
    ensures unheard { Calls.ports (cancelled Calls.sample 62500 Calls.one_target).cancels ≡ [] }
    ensures marked { (cancelled Calls.sample 62500 Calls.one_target).request ≡ Calls.marked_target }
    ensures rings { Calls.statuses (Calls.hearing 63000 Calls.marked_target Calls.marked_branch 180) ≡ 180 ∷ [] }
    ensures then_cancelled { Calls.ports (Calls.hearing 63000 Calls.marked_target Calls.marked_branch 180).cancels ≡ 5082 ∷ [] }
    ensures rang { Calls.ports (cancelled Calls.sample 63500 Calls.one_rings).cancels ≡ 5082 ∷ [] }
    ensures once { Calls.ports (cancelled Calls.sample 63600
        (Calls.call_to (Calls.marked_at 1 5082 (Cancelled 95500) ∷ Calls.cancel_at 1 5082 (Unheard 95500) ∷ []))).cancels ≡ [] }
    ensures answered { Calls.ports (cancelled Calls.sample 63500 (Calls.replied_with 200 (Closing 95000) Calls.one_rings)).cancels ≡ [] }
    ensures other { Calls.ports (cancelled Calls.sample 6000 (Calls.message_to (Calls.branch_at 1 5082 (Heard 37000) ∷ []))).cancels ≡ [] }
{}

/// A branch that rang at 63,000 and does nothing more gets its CANCEL at 248,000, and counts as 487 at
/// 280,000.
pub fn timer_c()
    ensures cancelled { Calls.ports (Calls.passing 248000 Calls.one_rings Calls.first_ringing).cancels ≡ 5082 ∷ [] }
    ensures not_yet { Calls.statuses (Calls.passing 248000 Calls.one_rings Calls.first_ringing) ≡ [] }
    ensures phases { Calls.phases (Calls.passing 248000 Calls.one_rings Calls.first_ringing).request ≡ Cancelled 280000 ∷ Unheard 280000 ∷ [] }
    ensures given_up { Calls.statuses
        (Calls.passing 280000 (Calls.call_to (Calls.marked_at 1 5082 (Cancelled 280000) ∷ Calls.cancel_at 1 5082 Ended ∷ []))
        (Calls.marked_at 1 5082 (Cancelled 280000))) ≡ 487 ∷ [] }
    ensures ended { Calls.phases
        (Calls.passing 280000 (Calls.call_to (Calls.marked_at 1 5082 (Cancelled 280000) ∷ Calls.cancel_at 1 5082 Ended ∷ []))
        (Calls.marked_at 1 5082 (Cancelled 280000))).request ≡ Ended ∷ Ended ∷ [] }
{}

/// The answers to a CANCEL of this server go nowhere. Its final one ends it after 5,000 ms; without one it
/// ends with nothing.
pub fn own_cancels()
    ensures nothing { Calls.statuses (Calls.hearing 63300 (Calls.cancelled_target 95000) (Calls.cancel_at 1 5082 (Unheard 95000)) 200) ≡ [] }
    ensures phases { Calls.phases (Calls.hearing 63300 (Calls.cancelled_target 95000) (Calls.cancel_at 1 5082 (Unheard 95000)) 200).request
        ≡ Cancelled 95000 ∷ Done 68300 200 ∷ [] }
    ensures silent { Calls.statuses
        (Calls.passing 95000 (Calls.call_to (Calls.marked_at 1 5082 (Cancelled 95100) ∷ Calls.cancel_at 1 5082 (Unheard 95000) ∷ []))
        (Calls.cancel_at 1 5082 (Unheard 95000))) ≡ [] }
    ensures ends { Calls.phases
        (Calls.passing 95000 (Calls.call_to (Calls.marked_at 1 5082 (Cancelled 95100) ∷ Calls.cancel_at 1 5082 (Unheard 95000) ∷ []))
        (Calls.cancel_at 1 5082 (Unheard 95000))).request ≡ Cancelled 95100 ∷ Ended ∷ [] }
{}

/// Two branches. The packet to the first can't be sent, then the second answers 404, which goes up. Where
/// neither can be sent to, a 500 goes up.
pub fn send_faults()
    ensures one { Calls.statuses (Calls.failing 62000 Calls.two_targets Calls.first_branch) ≡ [] }
    ensures phases { Calls.phases (Calls.failing 62000 Calls.two_targets Calls.first_branch).request ≡ Ended ∷ Unheard 94000 ∷ [] }
    ensures then { Calls.statuses (Calls.hearing 63000 (Calls.failing 62000 Calls.two_targets Calls.first_branch).request
        Calls.second_branch 404) ≡ 404 ∷ [] }
    ensures both { Calls.statuses (Calls.failing 62000 (Calls.failing 62000 Calls.two_targets Calls.first_branch).request
        Calls.second_branch) ≡ 500 ∷ [] }
{}

/// A MESSAGE that was answered 200 at 6,000 has its branch until 11,000 and its answering side until
/// 38,000, when it leaves. Without an answer, 408 goes up at 37,000, and it leaves at 69,000.
pub fn message_leaves()
    ensures branch_over { (Calls.passing 11000 (Calls.replied_with 200 (Closing 38000)
        (Calls.message_to (Calls.branch_at 1 5082 (Done 11000 200) ∷ []))) (Calls.branch_at 1 5082 (Done 11000 200))).request
        ≡ Calls.replied_with 200 (Closing 38000) (Calls.message_to (Calls.branch_at 1 5082 Ended ∷ [])) }
    ensures not_yet { has_left (Calls.replied_with 200 (Closing 38000) (Calls.message_to (Calls.branch_at 1 5082 Ended ∷ []))) ≡ false }
    ensures left { has_left (side_overdue Calls.sample 38000
        (Calls.replied_with 200 (Closing 38000) (Calls.message_to (Calls.branch_at 1 5082 Ended ∷ [])))).request ≡ true }
    ensures timeout { Calls.statuses (Calls.passing 37000 Calls.one_message Calls.message_branch) ≡ 408 ∷ [] }
    ensures timeout_side { (Calls.passing 37000 Calls.one_message Calls.message_branch).request.side ≡ Closing 69000 }
    ensures timeout_left { has_left (side_overdue Calls.sample 69000
        (Calls.passing 37000 Calls.one_message Calls.message_branch).request).request ≡ true }
{}

/// An INVITE leaves when its answering side's deadline has passed and every branch and CANCEL has ended,
/// and not before.
pub fn call_leaves()
    ensures left { has_left (side_overdue Calls.sample 95000
        (Calls.replied_with 200 (Closing 95000) (Calls.call_to (Calls.branch_at 1 5082 Ended ∷ [])))).request ≡ true }
    ensures acknowledged { has_left (side_overdue Calls.sample 68200
        (Calls.replied_with 486 (Acknowledged 68200) (Calls.call_to (Calls.branch_at 1 5082 Ended ∷ [])))).request ≡ true }
    ensures branch_stands { has_left (side_overdue Calls.sample 95000 (Calls.replied_with 200 (Closing 95000)
        (Calls.call_to (Calls.branch_at 1 5082 Ended ∷ Calls.branch_at 2 5083 (Cancelled 95200) ∷ [])))).request ≡ false }
    ensures cancel_stands { has_left (side_overdue Calls.sample 95000 (Calls.replied_with 200 (Closing 95000)
        (Calls.call_to (Calls.branch_at 1 5082 Ended ∷ Calls.cancel_at 1 5082 (Done 95200 200) ∷ [])))).request ≡ false }
    ensures last_branch { has_left
        (Calls.passing 95200 (Calls.replied_with 200 Closed (Calls.call_to
        (Calls.branch_at 1 5082 Ended ∷ Calls.branch_at 2 5083 (Cancelled 95200) ∷ []))) (Calls.branch_at 2 5083 (Cancelled 95200))).request ≡ true }
{}

/// A final answer is kept while others are waited for. Once one went to the caller none is, and no bytes of a
/// 200 to an INVITE: its callee sends that again. Those of a 486 are kept, and of a 200 to a MESSAGE.
pub fn what_is_kept()
    ensures waiting { Calls.finals_kept (Calls.hearing 63000 Calls.two_targets Calls.first_branch 486).request ≡ 1 }
    ensures answered { Calls.finals_kept (Calls.hearing 63000 Calls.one_target Calls.first_branch 486).request ≡ 0 }
    ensures later { Calls.finals_kept
        (Calls.hearing 64000 (Calls.replied_with 200 (Closing 95000)
        (Calls.call_to (Calls.branch_at 1 5082 (Done 95000 200) ∷ Calls.second_ringing ∷ []))) Calls.second_ringing 486).request ≡ 0 }
    ensures accepted { Calls.bytes_kept (Calls.hearing 63000 Calls.one_target Calls.first_branch 200).request ≡ 0 }
    ensures refused { nat_lt 0 (Calls.bytes_kept (Calls.hearing 63000 Calls.one_target Calls.first_branch 486).request) ≡ true }
    ensures other { nat_lt 0 (Calls.bytes_kept (Calls.hearing 6000 Calls.one_message Calls.message_branch 200).request) ≡ true }
{}

/// A CANCEL stands right behind the branch that it cancels, so that branches stay in the order of their
/// targets.
pub fn cancel_behind_its_branch()
    ensures both { Calls.places (cancelled Calls.sample 64000 (Calls.call_to (Calls.first_ringing ∷ Calls.second_ringing ∷ []))).request
        ≡ (1, false) ∷ (1, true) ∷ (2, false) ∷ (2, true) ∷ [] }
    ensures second { Calls.places (cancelled Calls.sample 64000 Calls.second_rings).request ≡ (1, false) ∷ (2, false) ∷ (2, true) ∷ [] }
{}

/// What is heard of a branch leaves the moment at which it goes again; a CANCEL goes again 500 ms after it was
/// sent, and an answer 500 ms after it went to the caller.
pub fn next_moments()
    ensures heard { Calls.next_moments (Calls.hearing 6000 Calls.one_message Calls.message_branch 100).request ≡ 62500 ∷ [] }
    ensures cancelled { Calls.next_moments (cancelled Calls.sample 63500 Calls.one_rings).request ≡ 62500 ∷ 64000 ∷ [] }
    ensures answered { (Calls.hearing 63000 Calls.one_target Calls.first_branch 486).request.again.due ≡ 63500 }
{}
