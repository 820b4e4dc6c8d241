ghost use Rattle.std.specs.Prelude.{◌≡◌, ◌==◌, ◌&&◌, ℕ, List, length, if◌then◌else◌};
ghost use Rattle.sip_days.specs.declared.call.Call.{Call};
ghost use Rattle.sipd_calls.specs.declared.notation.Notation.TheVariants.{Html};
ghost use Rattle.sipd_calls.specs.Notation.{html_text};
ghost use Rattle.sipd_calls.specs.Program.{call_text};
ghost use Rattle.sipd_matrix_forms.specs.Html.{text_block};
ghost use Rattle.sipd_sources.specs.declared.source.Source.{Source};
ghost use Rattle.sipd_sources.specs.Program.{source_text};
ghost use Rattle.sipd_page_sections.specs.declared.entries.Entry.{Entry};
ghost use Rattle.sipd_page_sections.specs.Log.{same_front, verdict_text};
ghost use Rattle.sipd_page_sections.specs.Sections.{denial_row, heading, value_cell};
ghost use Rattle.sipd_page_sections.specs.Tags.{tags_in};

/// A text has the tags around it, and adds none, whatever it holds: a cell of a table, a text line by line, the name of a record, what is known of
/// it, and the lines by which a log differs. So no byte of a datagram, a log or a configuration is markup.
pub fn texts_add_no_tags()
    ensures cell { (text : List ℕ) → tags_in (html_text text) ≡ 2 }
    ensures block { (text : List ℕ) → tags_in (text_block text) ≡ 2 }
    ensures name { (path : List ℕ) → tags_in (heading path) ≡ 2 }
    ensures value { (value : List ℕ) → tags_in (value_cell value) ≡ 6 }
    ensures verdict { (log lines : List (List ℕ)) → tags_in (verdict_text log lines)
        ≡ (if (same_front log lines == length log) && (same_front log lines == length lines) then 2 else 10) }
{}

/// A row has the tags of its columns, whatever was sent: that of a call, that of an address, and that of a rule.
pub fn rows_have_tags_of_their_columns()
    ensures call { (call : Call) → tags_in (call_text Html call) ≡ 24 }
    ensures source { (source : Source) → tags_in (source_text Html source) ≡ 18 }
    ensures denial { (row : Entry) → tags_in (denial_row row) ≡ 6 }
{}
