ghost use Rattle.std.specs.Prelude.{◌≡◌, ◌++◌, [], ◌∷◌, Some, true, false, codes, pos};
ghost use Rattle.sipd_calls.specs.Cells.{call_row};
ghost use Rattle.sipd_calls.specs.Choices.{is_from, is_shown};
ghost use Rattle.sipd_report.specs.Chosen.{is_of_target};
ghost use Rattle.sipd_calls.specs.Example.{anyone, carols_call};
ghost use Rattle.sipd_calls.specs.Program.{call_text};
ghost use Rattle.sipd_calls.specs.Table.{table_text};
ghost use Rattle.sipd_calls.specs.declared.notation.Notation.TheVariants.{Csv, Json, Html};
ghost use Rattle.sipd_calls.specs.Moments.{length_text, start_text, title};
ghost use Rattle.sipd_calls.specs.Notation.{html_text, json_text};

/// A call in the table and for programs, on a clock that is an hour ahead of UTC.
pub fn call_row_example()
    ensures row { call_row carols_call ≡ codes "7      01-02 01:00:00 carol    ivan          30    answered  8    0:51    caller\n" }
    ensures csv { call_text Csv carols_call
        ≡ codes "7,1970-01-02T01:00:00+01:00,carol,192.0.2.2:5060,ivan@office.example,30,answered,8000,51000,caller,x\r\n" }
    ensures json { call_text Json carols_call ≡ codes "{\"number\":7,\"start\":\"1970-01-02T01:00:00+01:00\",\"caller\":\"carol\",\"from\":\"192.0.2.2:5060\",\"called\":\"ivan@office.example\",\"rule\":\"30\",\"result\":\"answered\",\"ring_ms\":8000,\"talk_ms\":51000,\"ended_by\":\"caller\",\"call_id\":\"x\"}\n" }
    ensures html { call_text Html carols_call
        ≡ codes "<tr><td class=\"n\">7</td><td>1970-01-02T01:00:00+01:00</td><td>carol</td><td>192.0.2.2:5060</td><td>ivan@office.example</td>"
        ++ codes "<td>30</td><td>answered</td><td class=\"n\">8000</td><td class=\"n\">51000</td><td>caller</td><td>x</td></tr>\n" }
{}

/// A cell of a text that somebody chose who would have it read as markup.
pub fn cell_example()
    ensures { html_text (codes "<b title='x'>&\"</b>") ≡ codes "<td>&lt;b title=&#39;x&#39;&gt;&amp;&quot;&lt;/b&gt;</td>" }
{}

/// The table: a head in front of the first row, and what is counted behind the last.
pub fn table_example()
    ensures { table_text anyone (carols_call ∷ [])
        ≡ codes "number 1970 UTC+01:00 caller   called        rule  result    ring talk    ended\n" ++ call_row carols_call
        ++ codes "calls: 1, answered: 1, talked: 0:51\n" }
{}

/// A call is shown from the second on at which it began, and before a later one; whom it was for is said with or without the host, and where it
/// came from with or without the port.
pub fn choice_example()
    ensures since { is_shown (record anyone { since = Some 90000 }) carols_call ≡ true }
    ensures later { is_shown (record anyone { since = Some 90001 }) carols_call ≡ false }
    ensures until { is_shown (record anyone { until = Some 90000 }) carols_call ≡ false }
    ensures user { is_of_target (Some (codes "ivan")) carols_call.decision.target ≡ true }
    ensures whole { is_of_target (Some (codes "ivan@office.example")) carols_call.decision.target ≡ true }
    ensures other { is_of_target (Some (codes "iva")) carols_call.decision.target ≡ false }
    ensures ip { is_from (Some (codes "192.0.2.2")) carols_call.source ≡ true }
    ensures port { is_from (Some (codes "192.0.2.2:5060")) carols_call.source ≡ true }
    ensures elsewhere { is_from (Some (codes "192.0.2.20")) carols_call.source ≡ false }
{}

/// A moment on a clock that is an hour ahead of UTC, in a row and above a table; and lengths of time.
pub fn moment_example()
    ensures row { start_text (pos 60) 86400000 ≡ codes "01-02 01:00:00" }
    ensures title { title (pos 60) 86400000 ≡ codes "1970-01-02 01:00:00 UTC+01:00\n" }
    ensures short { length_text 301 ≡ codes "5:01" }
    ensures long { length_text 3600 ≡ codes "1:00:00" }
{}

/// A quote, a backslash, a line feed and a byte above ASCII: none of them ends a text.
pub fn escape_example()
    ensures { json_text (34 ∷ 92 ∷ 10 ∷ 233 ∷ []) ≡ codes "\"\\\"\\\\\\u000A\\u00E9\"" }
{}
