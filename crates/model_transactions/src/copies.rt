ghost use Rattle.std.specs.Prelude.{◌≡◌, ◌≤◌, ◌<◌, ◌+◌, ℕ, true, false, Some};
ghost use Rattle.sip_context_branches.specs.state.State.{first_resend, is_answering, is_final, is_success};
ghost use Rattle.sip_context_branches.specs.state.declared.branch.Phase.{Phase};
ghost use Rattle.sip_context_branches.specs.state.declared.branch.Phase.TheVariants.{Unheard, Heard};
ghost use Rattle.sip_context_branches.specs.state.declared.open_request.LastAnswer.{LastAnswer};
ghost use Rattle.sip_context_branches.specs.state.declared.open_request.OpenRequest.{OpenRequest};
ghost use Rattle.sip_context_branches.specs.state.declared.open_request.Side.TheVariants.{Closing};
ghost use Rattle.sip_context_branches.specs.state.declared.open_request.Upward.{Upward};
ghost use Rattle.sip_context_branches.specs.state.declared.resend.Resend.{Resend};
ghost use Rattle.sip_context_branches.specs.context_model.Branches.{answered, acknowledged, other_heard, is_accepted, is_unheard, was_refused};
ghost use Rattle.sip_context_branches.specs.context_model.Retransmission.{resend_after};
ghost use Rattle.model_transactions.specs.OtherClient.{steady};
ghost use Rattle.model_transactions.specs.Copies.{IsSent, IsSteady, IsTimely, invite_copies_left, other_copies_left, answer_copies_left};

/// An INVITE that was sent n times goes next 500 * (2^n - 1) ms after its first sending (RFC 3261 17.1.1.2: Timer
/// A), and so does another request, and the final answer to an INVITE, up to the fourth sending, and 4,000 ms after
/// each further one (RFC 3261 17.1.2.2, 17.2.1: Timers E and G). By its deadline an INVITE was sent seven times, and
/// anything else eleven times.
pub fn sent_at()
    ensures first { (now : ℕ) → IsSent now 1 (first_resend now) }
    ensures invite { (first times : ℕ) (again : Resend) → IsSent first times again → times < 7 → IsSent first (times + 1) (resend_after 32000 again) }
    ensures invite_bound { (first times : ℕ) (again : Resend) → IsSent first times again → again.due ≤ first + 32000 → times ≤ 6 }
    ensures other { (first times : ℕ) (again : Resend) → IsSent first times again → times < 4 → IsSent first (times + 1) (resend_after 4000 again) }
    ensures fourth { (first : ℕ) (again : Resend) → IsSent first 4 again → IsSteady first 4 again }
    ensures further { (first times : ℕ) (again : Resend) → IsSteady first times again → IsSteady first (times + 1) (resend_after 4000 again) }
    ensures other_bound { (first times : ℕ) (again : Resend) → IsSteady first times again → again.due ≤ first + 32000 → times ≤ 10 }
{}

/// What goes again is timely from its first sending on, and stays so.
pub fn stays_timely()
    ensures first { (now : ℕ) → IsTimely (now + 32000) (first_resend now) }
    ensures again { (until most : ℕ) (again : Resend) → 4000 ≤ most → IsTimely until again → IsTimely until (resend_after most again) }
    ensures heard { (until : ℕ) (again : Resend) → IsTimely until again → IsTimely until (steady again) }
{}

/// Six copies of an INVITE may be sent, and ten of anything else.
pub fn begins_with()
    ensures invite { (now : ℕ) → invite_copies_left (Unheard (now + 32000)) (first_resend now) ≡ 6 }
    ensures other { (now : ℕ) → other_copies_left (Unheard (now + 32000)) (first_resend now) ≡ 10 }
    ensures answer { (now : ℕ) (a : LastAnswer) → was_refused (Some a) ≡ true
        → answer_copies_left (Closing (now + 32000)) (Some a) (first_resend now) ≡ 10 }
{}

/// Each copy that is sent by the deadline leaves one less.
pub fn copy_leaves_one_less()
    ensures invite { (until : ℕ) (again : Resend) → IsTimely until again → again.due ≤ until
        → invite_copies_left (Unheard until) (resend_after 32000 again) + 1 ≡ invite_copies_left (Unheard until) again }
    ensures unheard { (until : ℕ) (again : Resend) → IsTimely until again → again.due ≤ until
        → other_copies_left (Unheard until) (resend_after 4000 again) + 1 ≡ other_copies_left (Unheard until) again }
    ensures heard { (until : ℕ) (again : Resend) → IsTimely until again → again.due ≤ until → other_copies_left (Heard until) (steady again)
        + 1 ≡ other_copies_left (Heard until) again }
    ensures answer { (until : ℕ) (a : LastAnswer) (again : Resend) → was_refused (Some a) ≡ true → IsTimely until again → again.due ≤ until
        → answer_copies_left (Closing until) (Some a) (resend_after 4000 again) + 1 ≡ answer_copies_left (Closing until) (Some a) again }
{}

/// Nothing else that happens leaves more: an INVITE that was heard isn't sent again, nor is anything that has its
/// final response; a request that was heard goes again no more often; an answer begins with no more than could be
/// sent before it, and its ACK ends it.
pub fn nothing_leaves_more()
    ensures invite { (phase : Phase) (again : Resend) → is_unheard phase ≡ false → invite_copies_left phase again ≡ 0 }
    ensures heard { (phase : Phase) (again : Resend) → other_copies_left (other_heard phase) again ≤ other_copies_left phase again }
    ensures other { (phase : Phase) (again : Resend) → is_final phase ≡ true → other_copies_left phase again ≡ 0 }
    ensures answer { (now : ℕ) (r : OpenRequest) (u : Upward) → is_answering r.side ≡ true
        → answer_copies_left (answered now u r).side (answered now u r).answer (answered now u r).again ≤ answer_copies_left r.side r.answer r.again }
    ensures further { (now : ℕ) (r : OpenRequest) (u : Upward) → is_accepted r ≡ true → is_success u.status ≡ true
        → answer_copies_left (answered now u r).side (answered now u r).answer (answered now u r).again ≤ answer_copies_left r.side r.answer r.again }
    ensures ack { (now : ℕ) (r : OpenRequest) → answer_copies_left (acknowledged now r).side (acknowledged now r).answer
        (acknowledged now r).again ≤ answer_copies_left r.side r.answer r.again }
{}
