ghost use Rattle.std.specs.Prelude.{◌≡◌, ◌≤◌, ◌↔◌, ℕ, List, length, IsTrue};
ghost use Rattle.sip_guard.specs.Allowance.{admits, owed};
ghost use Rattle.sip_guard.specs.Courses.{moments_of, ComesFrom};
ghost use Rattle.sip_guard.specs.Rates.{used_by, handed_on, IsWithin, AllWithin, AreRising, AreApart};
ghost use Rattle.sip_guard.specs.Sources.{SourceTable, used_of};
ghost use Rattle.sip_guard.specs.declared.limit.Limit.{Limit};

/// The allowance is a rate: a datagram is handed on exactly where, from each datagram that was handed on before up to it, there are
/// no more than are allowed at once and in that time. So none are handed on beyond the rate, and all that come within it are.
pub fn allowance_is_a_rate()
    ensures exact { (limit : Limit) (moments : List ℕ) (now : ℕ) → IsTrue (admits limit (used_by limit moments) now)
        ↔ IsWithin limit (handed_on limit moments) now }
    ensures bounded { (limit : Limit) (moments : List ℕ) → AllWithin limit (handed_on limit moments) }
    ensures whole { (limit : Limit) (moments : List ℕ) → AllWithin limit moments → handed_on limit moments ≡ moments }
{}

/// A source that sends no more datagrams in all than are allowed at once is heard whole.
pub fn few_are_heard()
    ensures { (limit : Limit) (moments : List ℕ) → AreRising moments → length moments ≤ limit.burst → handed_on limit moments ≡ moments }
{}

/// A source whose datagrams come at least 1000/`per_second` milliseconds one behind the other is heard whole.
pub fn seldom_is_heard()
    ensures { (limit : Limit) (moments : List ℕ) → 1 ≤ limit.burst → AreApart limit moments → handed_on limit moments ≡ moments }
{}

/// Two numbers that are past a moment by alike, as those of sources that are idle then, are so ever after: nothing is lost
/// with a source that is idle.
pub fn idle_stays_idle()
    ensures { (limit : Limit) (used other now later : ℕ) → now ≤ later → owed limit used now ≡ owed limit other now
        → owed limit used later ≡ owed limit other later }
{}

/// What a source may send depends on nothing but what it sent itself: of a table that took any datagrams, it is admitted as if
/// there were no other source.
pub fn sources_are_apart()
    ensures { (limit : Limit) (datagrams : List (List ℕ × ℕ)) (latest : ℕ) (table : SourceTable) → ComesFrom limit datagrams latest table
        → (ip : List ℕ) (now : ℕ) → latest ≤ now → admits limit (used_of ip table) now ≡ admits limit (used_by limit (moments_of ip datagrams)) now }
{}
