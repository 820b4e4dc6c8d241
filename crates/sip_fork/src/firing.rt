ghost use Rattle.std.specs.Prelude.{◌≡◌, ℕ, List, Some, slice_get};
ghost use Rattle.sip_timers.specs.declared.timer.Timer.{Timer};
ghost use Rattle.sip_dialog_updates.specs.state.State.{with_one_more};
ghost use Rattle.sip_dialog_updates.specs.state.declared.open_request.OpenRequest.{OpenRequest};
ghost use Rattle.model_steps.specs.Effect.{replaced};
ghost use Rattle.sip_fork.specs.Firing.{IsQueueOf, KeepsOrder};

use sip_request::transactions_model::queue::queues_join;

/// What opens a request, and changes another one then, keeps the order in which timers fire as what does both at once.
pub fn orders_join()
    ensures { (old mid new : List Timer) (requests : List OpenRequest) (opened change r : OpenRequest) (place : ℕ) → slice_get requests place ≡ Some r
        → change.number ≡ r.number → IsQueueOf old requests → IsQueueOf mid (with_one_more opened requests)
        → IsQueueOf new (replaced change (with_one_more opened requests)) → KeepsOrder old mid (with_one_more opened requests)
        → KeepsOrder mid new (replaced change (with_one_more opened requests))
        → KeepsOrder old new (replaced change (with_one_more opened requests)) }
{
    queues_join();
}
