ghost use Rattle.std.specs.Prelude.{◌≡◌, ◌∷◌, [], length};
ghost use Rattle.model_context.specs.Branches.{acknowledged};
ghost use Rattle.model_context.specs.Examples;

/// An INVITE goes again after twice the wait each time, until it is heard, also while it is to be cancelled;
/// a MESSAGE after at most 4,000 ms, and after 4,000 once it was heard, which moves nothing forward; so does
/// a CANCEL, until its final answer.
pub fn requests_go_again()
    ensures invite { Examples.branch_moments 6 Examples.target_in Examples.call ≡ 500 ∷ 1500 ∷ 3500 ∷ 7500 ∷ 15500 ∷ 31500 ∷ [] }
    ensures ringing { Examples.branch_moments 2 Examples.target_in (Examples.hearing Examples.target_in 400 180 Examples.call) ≡ [] }
    ensures unheard { Examples.branch_moments 3 Examples.target_in (Examples.cancelling 100 Examples.call) ≡ 500 ∷ 1500 ∷ 3500 ∷ [] }
    ensures other { Examples.branch_moments 7 Examples.target_in Examples.note ≡ 500 ∷ 1500 ∷ 3500 ∷ 7500 ∷ 11500 ∷ 15500 ∷ 19500 ∷ [] }
    ensures heard { Examples.branch_moments 4 Examples.target_in
        (Examples.hearing Examples.target_in 700 100 (Examples.repeating Examples.target_in Examples.note)) ≡ 1500 ∷ 5500 ∷ 9500 ∷ 13500 ∷ [] }
    ensures finished { Examples.branch_moments 2 Examples.target_in (Examples.hearing Examples.target_in 700 404 Examples.note) ≡ [] }
    ensures cancel { Examples.branch_moments 6 Examples.cancel_in
        (Examples.cancelling 1000 (Examples.hearing Examples.target_in 400 180 Examples.call)) ≡ 1500 ∷ 2500 ∷ 4500 ∷ 8500 ∷ 12500 ∷ 16500 ∷ [] }
    ensures cancel_heard { Examples.branch_moments 3 Examples.cancel_in
        (Examples.hearing Examples.cancel_in 1200 100 (Examples.cancelling 1000
        (Examples.hearing Examples.target_in 400 180 Examples.call))) ≡ 1500 ∷ 5500 ∷ 9500 ∷ [] }
    ensures cancel_finished { Examples.branch_moments 2 Examples.cancel_in
        (Examples.hearing Examples.cancel_in 1200 200 (Examples.cancelling 1000 (Examples.hearing Examples.target_in 400 180 Examples.call))) ≡ [] }
{}

/// A 300 to 699 to an INVITE goes again by itself until its ACK comes, from the moment at which it went and
/// not from that of the 100; no other answer does. A copy gets the last answer, but never a 2xx to an INVITE,
/// and none after the ACK.
pub fn answers_go_again()
    ensures refused { Examples.answer_moments 6 (Examples.hearing Examples.target_in 1000 486 Examples.call) ≡ 1500 ∷ 2500 ∷ 4500 ∷ 8500
        ∷ 12500 ∷ 16500 ∷ [] }
    ensures timeout { Examples.answer_moments 3 (Examples.timing_out 32000 (Examples.trying Examples.call)) ≡ 32500 ∷ 33500 ∷ 35500 ∷ [] }
    ensures acknowledged { Examples.answer_moments 2 (acknowledged 1700 (Examples.hearing Examples.target_in 1000 486 Examples.call)) ≡ [] }
    ensures tried { Examples.answer_moments 2 (Examples.trying Examples.call) ≡ [] }
    ensures accepted { Examples.answer_moments 2 (Examples.hearing Examples.target_in 1000 200 Examples.call) ≡ [] }
    ensures other { Examples.answer_moments 2 (Examples.hearing Examples.target_in 1000 404 Examples.note) ≡ [] }
    ensures copied { Examples.copied_answers (Examples.hearing Examples.target_in 1000 486 Examples.call)
        ≡ Examples.last_answers (Examples.hearing Examples.target_in 1000 486 Examples.call) }
    ensures copied_one { length (Examples.copied_answers (Examples.hearing Examples.target_in 1000 486 Examples.call)) ≡ 1 }
    ensures copied_other { length (Examples.copied_answers (Examples.hearing Examples.target_in 1000 200 Examples.note)) ≡ 1 }
    ensures copied_accepted { Examples.copied_answers (Examples.hearing Examples.target_in 1000 200 Examples.call) ≡ [] }
    ensures copied_acknowledged { Examples.copied_answers (acknowledged 1700 (Examples.hearing Examples.target_in 1000 486 Examples.call)) ≡ [] }
{}

/// A further 300 to 699 gets the ACK of the first one again, byte for byte; a 2xx after a 300 to 699, and a
/// 300 to 699 after a 2xx, get none.
pub fn acks_go_again()
    ensures same { Examples.further_acks 486 603 ≡ Examples.first_acks 486 }
    ensures one { length (Examples.further_acks 486 603) ≡ 1 }
    ensures success_after_refusal { Examples.further_acks 486 200 ≡ [] }
    ensures refusal_after_success { Examples.further_acks 200 486 ≡ [] }
{}
