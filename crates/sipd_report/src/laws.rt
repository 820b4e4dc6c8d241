ghost use Rattle.std.specs.Prelude.{◌≡◌, ◌+◌, ℕ, true, false, List, count_by};
ghost use Rattle.std.specs.List.{list_any};
ghost use Rattle.std.specs.Str.{bytes_eq};
ghost use Rattle.sipd_report.specs.Calendar.{date_of, day_number};
ghost use Rattle.sipd_report.specs.Cells.{field_text, field_of};
ghost use Rattle.sipd_report.specs.Html.{are_references, escaped, is_markup};
ghost use Rattle.sipd_report.specs.Totals.{capped, totals_of, total_for};

/// The date of a day is that day's: from 1 January of the year 1 up to 1 January 1970 there are 719,162 days.
pub fn dates_are_of_their_days()
    ensures { (days : ℕ) → day_number (date_of days) ≡ days + 719162 }
{}

/// The total of each text is how often it stands in the list.
pub fn totals_are_counts()
    ensures { (text : List ℕ) → (texts : List (List ℕ)) → total_for text (totals_of texts) ≡ capped (count_by (bytes_eq text) texts) }
{}

/// A field of CSV says the text that was written.
pub fn fields_are_read()
    ensures { (text : List ℕ) → field_of (field_text text) ≡ text }
{}

/// No byte of an escaped text can begin or end a tag or an attribute, and each `&` in it begins one of five names or numbers.
pub fn no_text_is_markup()
    ensures marks { (text : List ℕ) → list_any is_markup (escaped text) ≡ false }
    ensures references { (text : List ℕ) → are_references (escaped text) ≡ true }
{}
