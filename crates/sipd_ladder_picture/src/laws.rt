ghost use Rattle.std.specs.Prelude.{◌≡◌, ℕ, ◌+◌, ◌++◌, true, false, List, length};
ghost use Rattle.std.specs.List.{list_all, list_any};
ghost use Rattle.sip_uri.specs.declared.addr.Addr.{Addr};
ghost use Rattle.sipd_ladder.specs.declared.rung.Rung.{Rung};
ghost use Rattle.sipd_report.specs.Html.{are_references, is_markup};
ghost use Rattle.sipd_ladder_picture.specs.Parts.{is_printable, shown};
ghost use Rattle.sipd_ladder_picture.specs.Rows.{rows_from};

use sipd_report::laws::no_text_is_markup;

/// No byte of a text, as a drawing has it, can begin or end a tag or an attribute, each `&` in it begins one of five names or numbers, and each
/// byte is printable ASCII, whatever the text is: a reader of XML takes it.
pub fn no_text_is_drawn_as_markup()
    ensures marks { (text : List ℕ) → list_any is_markup (shown text) ≡ false }
    ensures references { (text : List ℕ) → are_references (shown text) ≡ true }
    ensures printable { (text : List ℕ) → list_all is_printable (shown text) ≡ true }
{
    no_text_is_markup();
}

/// The rows of a call are those of its first rungs, and behind them those of the others, each under the ones in front of it.
pub fn rows_are_in_order()
    ensures { (first : ℕ) (places : List Addr) (row : ℕ) (rungs others : List Rung) → rows_from first places row (rungs ++ others)
        ≡ rows_from first places row rungs ++ rows_from first places (row + length rungs) others }
{}
