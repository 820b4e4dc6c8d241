//! Where a line ends.
ghost use Rattle.std.specs.Prelude.{◌≡◌, ◌+◌, ◌<◌, ℕ, [], ◌∷◌, length, slice_index, MatchOption};
ghost use Rattle.memchr.specs.Find.{OccursAt, FindsNeedle};

use memchr::memchr;

/// Where the CRLF stands that ends with the LF at a place.
#[tactic(auto, using(crate::proofs::LineEnds::stands, crate::proofs::LineEnds::no_cr))]
fn crlf_ending(bytes: &[u8], end: usize) -> Option<usize>
    requires inside { end < length bytes.now }
    requires lf { slice_index bytes.now end ≡ 10 }
    ensures { MatchOption result ((k : ℕ) → k + 1 ≡ end → ¬ OccursAt bytes.now (13 ∷ 10 ∷ []) k)
        (λ at. (at + 1 ≡ end) × OccursAt bytes.now (13 ∷ 10 ∷ []) at) }
{
    if end == 0 {
        return None;
    }
    if bytes[end - 1] == b'\r' {
        return Some(end - 1);
    }
    None
}

/// Where the first CRLF stands, which ends a line (RFC 3261 7): each LF is looked at, of which few stand without a CR before them.
#[tactic(auto, using(crate::proofs::LineEnds::none_yet, crate::proofs::LineEnds::lf_at))]
pub fn find_crlf(bytes: &[u8]) -> Option<usize>
    ensures { FindsNeedle bytes.now (13 ∷ 10 ∷ []) 0 result }
{
    let mut from = 0;
    while let Some(next) = memchr(b'\n', &bytes[from..]) {
        let end = from + next;
        if let Some(at) = crlf_ending(bytes, end) {
            return Some(at);
        }
        from = end + 1;
    }
    None
}
