ghost use Rattle.std.specs.Prelude.{◌≡◌, ℕ, List, false};
ghost use Rattle.sipd_report.specs.Cells.{field_of};
ghost use Rattle.sipd_calls.specs.Notation.{Words, cell_said, csv_value, is_formula};

use sipd_report::laws::fields_are_read;

/// What a cell of words says doesn't begin as a formula does: with `=`, `+`, `-`, `@`, a tab or CR.
pub fn no_cell_is_a_formula()
    ensures said { (text : List ℕ) → field_of (csv_value (Words text)) ≡ cell_said text }
    ensures plain { (text : List ℕ) → is_formula (cell_said text) ≡ false }
    ensures written { (text : List ℕ) → is_formula (csv_value (Words text)) ≡ false }
{
    fields_are_read();
}
