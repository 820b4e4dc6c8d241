ghost use Rattle.std.specs.Prelude.{◌≡◌, ◌<◌, Some, length, remove, slice_get};
ghost use Rattle.std.specs.VecDeque.{deque_capacity};

use std::collections::VecDeque;

/// Takes out what stands at a place: mostly the oldest, behind which nothing moves then.
pub(crate) fn take_out<T>(queue: &mut VecDeque<T>, place: usize) -> T
    requires { place < length queue.old.items }
    ensures old { slice_get queue.old.items place ≡ Some result }
    ensures items { queue.new.items ≡ remove queue.old.items place }
    ensures capacity { deque_capacity queue.new ≡ deque_capacity queue.old }
{
    if place == 0 {
        return queue.pop_front().unwrap();
    }
    queue.remove(place).unwrap()
}
