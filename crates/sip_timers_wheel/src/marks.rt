ghost use Rattle.std.specs.Prelude.{◌≡◌, ◌≢◌, ◌<◌, MatchOption, ℕ};
ghost use Rattle.std.specs.Int.{bit_at};
ghost use Rattle.sip_timers_wheel.specs.Marks.{IsNextMark, HasNoMark};

/// How far the next mark of a word is, from a place on and round.
pub fn next_mark(word: u64, from: u32) -> Option<u32>
    requires { from < 64 }
    ensures { MatchOption result (HasNoMark word) (λ offset. IsNextMark word from offset) }
{
    let above = word >> from;
    if above != 0 {
        return Some(above.trailing_zeros());
    }
    if word != 0 {
        return Some(64 - from + word.trailing_zeros());
    }
    None
}

/// A word with one more mark.
pub fn with_mark(word: u64, place: u32) -> u64
    requires { place < 64 }
    ensures marked { bit_at result place ≡ 1 }
    ensures others { (other : ℕ) → other ≢ place → bit_at result other ≡ bit_at word other }
{
    word | 1 << place
}

/// A word with one mark less.
pub fn without_mark(word: u64, place: u32) -> u64
    requires { place < 64 }
    ensures unmarked { bit_at result place ≡ 0 }
    ensures others { (other : ℕ) → other < 64 → other ≢ place → bit_at result other ≡ bit_at word other }
{
    word & !(1 << place)
}
