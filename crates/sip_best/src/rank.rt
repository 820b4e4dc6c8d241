ghost use Rattle.std.specs.Prelude.{◌≡◌};
ghost use Rattle.sip_best.specs.Ranks.{class_of, says_how_to_retry, says_more, outranks};

use crate::final_answer::Final;

/// The first digit of the status (RFC 3261 7.2).
fn class_of(answer: &Final) -> u16
    ensures { result ≡ class_of answer.now }
{
    answer.status / 100
}

/// Whether the status tells a client how to ask again.
fn says_how_to_retry(answer: &Final) -> bool
    ensures { result ≡ says_how_to_retry answer.now }
{
    matches!(answer.status, 401 | 407 | 415 | 420 | 484)
}

/// Whether both are 4xx, and the first alone tells a client how to ask again.
fn says_more(first: &Final, second: &Final) -> bool
    ensures { result ≡ says_more first.now second.now }
{
    class_of(first) == 4
        && class_of(second) == 4
        && says_how_to_retry(first)
        && !says_how_to_retry(second)
}

/// Whether the first answer outranks the second, whichever came first: a 6xx any other class, else a lower class a
/// higher one, and in 4xx one that tells a client how to ask again one that doesn't (RFC 3261 16.7 step 6). Takes no
/// memory.
pub fn better(first: &Final, second: &Final) -> bool
    ensures { result ≡ outranks first.now second.now }
{
    if class_of(first) == 6 {
        return class_of(second) != 6;
    }
    if class_of(second) == 6 {
        return false;
    }
    class_of(first) < class_of(second) || says_more(first, second)
}
