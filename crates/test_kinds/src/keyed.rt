ghost use Rattle.std.specs.Prelude.{◌≡◌, ◌≤◌, IfSome};
ghost use Rattle.test_kinds.specs.Keys.{times_kept, without_key};

/// The request that a timer is for, and the key by which it is cancelled.
#[derive(Clone, Copy)]
pub struct KeyedRow {
    pub request: u64,
    pub key: usize,
}

/// The key at a place.
pub(crate) fn key_at(kept: &[KeyedRow], place: usize) -> Option<usize>
    ensures { IfSome result (λ key. 1 ≤ times_kept key kept.now) }
{
    match kept.get(place) {
        Some(kept) => Some(kept.key),
        None => None,
    }
}

/// The place of a request's key.
pub(crate) fn place_of(kept: &[KeyedRow], request: u64) -> Option<usize> {
    for (place, kept) in kept.iter().enumerate() {
        if kept.request == request {
            return Some(place);
        }
    }
    None
}

/// Keeps a key no longer.
pub(crate) fn drop_key(kept: &mut Vec<KeyedRow>, key: usize)
    ensures { kept.new.items ≡ without_key key kept.old.items }
{
    kept.retain(|kept| kept.key != key);
}
