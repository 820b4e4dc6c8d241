ghost use Rattle.std.specs.Prelude.{◌≡◌};
ghost use Rattle.sipd_expect.specs.Counts as Definitions;

/// How many lines of a log there were. Counts stay at the greatest that a `u64` holds.
#[derive(Clone, Copy)]
pub struct Counts {
    /// That are audit lines.
    pub asked: u64,
    /// Of these, that would be decided otherwise.
    pub told: u64,
    /// In which something stands, and that are no audit lines.
    pub none: u64,
}

/// One more, if one is counted.
fn one_more(count: u64, counted: bool) -> u64
    ensures { result ≡ Definitions.one_more counted count }
{
    if counted {
        count.saturating_add(1)
    } else {
        count
    }
}

impl Counts {
    /// No line yet.
    pub(crate) fn new() -> Counts
        ensures { result ≡ Definitions.no_counts }
    {
        Counts {
            asked: 0,
            told: 0,
            none: 0,
        }
    }

    /// One line more: whether it is an audit line, is told, or is none though something stands in it.
    pub(crate) fn with_line(self, entry: bool, told: bool, none: bool) -> Counts
        ensures { result ≡ Definitions.counts_with entry told none self }
    {
        Counts {
            asked: one_more(self.asked, entry),
            told: one_more(self.told, told),
            none: one_more(self.none, none),
        }
    }
}
