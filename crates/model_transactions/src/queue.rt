ghost use Rattle.std.specs.Prelude.{◌≡◌, false, List, [], ◌∷◌, ◌++◌};
ghost use Rattle.std.specs.List.{AllByRecursion};
ghost use Rattle.model_transactions.specs.Queue.{Entry, answer_again, has, queue_after, AreDueInOrder};

/// Two calls whose answers are to go again in one millisecond: the one that was answered first goes first, whichever came
/// first; and what one step sets for both goes first for the later one. What stands no longer leaves its place.
pub fn queue_example()
    ensures earlier_first { queue_after (queue_after [] (answer_again 1 ∷ [])) (answer_again 2 ∷ answer_again 1 ∷ []) ≡ answer_again 1 ∷ answer_again 2 ∷ [] }
    ensures later_first { queue_after (queue_after [] (answer_again 2 ∷ [])) (answer_again 2 ∷ answer_again 1 ∷ []) ≡ answer_again 2 ∷ answer_again 1 ∷ [] }
    ensures at_once { queue_after [] (answer_again 2 ∷ answer_again 1 ∷ []) ≡ answer_again 2 ∷ answer_again 1 ∷ [] }
    ensures leaves { queue_after (answer_again 1 ∷ answer_again 2 ∷ []) (answer_again 2 ∷ []) ≡ answer_again 2 ∷ [] }
{}

/// A step that opens a request, and changes another one then, leaves the queue that the definitions make of it at once.
pub fn queues_join()
    ensures { (queue opened before after : List Entry) → AreDueInOrder queue → ((e : Entry) → has e queue ≡ has e before)
        → AllByRecursion (λ (o : Entry). has o before ≡ false) opened → AllByRecursion (λ (o : Entry). has o after ≡ false) opened
        → queue_after (queue_after queue (opened ++ before)) (opened ++ after) ≡ queue_after queue (opened ++ after) }
{}
