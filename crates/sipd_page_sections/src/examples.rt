//! Worked parts of a page, as contracts that compute.
ghost use Rattle.std.specs.Prelude.{◌≡◌, ◌++◌, [], ◌∷◌, Some, codes};
ghost use Rattle.sipd_page_sections.specs.Log.{log_lines, verdict_text};
ghost use Rattle.sipd_page_sections.specs.Notes.{looks, seconds_said};
ghost use Rattle.sipd_page_sections.specs.Picture.{points};

/// A log comes out of lines again, where what the server wrote on standard error is left out; and its second line is another one, and markup.
pub fn log_example()
    ensures same { verdict_text (log_lines (codes "1 a\nsipd: serving\n2 b\n")) (codes "1 a" ∷ codes "2 b" ∷ [])
        ≡ codes "<p class=\"allow\">The log comes out of the records again, byte for byte. Lines: 2</p>\n" }
    ensures other { verdict_text (log_lines (codes "1 a\n<b>")) (codes "1 a" ∷ codes "2 b" ∷ [])
        ≡ codes "<p class=\"deny\">The log does not come out of the records again. The first line that differs: 2</p>\n"
        ++ codes "<p>In the log:</p>\n<pre>&lt;b&gt;</pre>\n<p>By the records:</p>\n<pre>2 b</pre>\n" }
    ensures short { verdict_text (log_lines (codes "1 a\n")) (codes "1 a" ∷ codes "2 b" ∷ [])
        ≡ codes "<p class=\"deny\">The log does not come out of the records again. The first line that differs: 2</p>\n"
        ++ codes "<p>In the log:</p>\n<pre>(no line)</pre>\n<p>By the records:</p>\n<pre>2 b</pre>\n" }
{}

/// A binding is live for as long as its Contact says; two addresses, of which one is over after eleven minutes, looked at every five.
pub fn picture_example()
    ensures seconds { seconds_said (codes "<sip:4711@192.0.2.7:5062>;expires=3600") ≡ 3600 }
    ensures live { looks (record { key = codes "carol"; value = 660000 } ∷ record { key = codes "ivan"; value = 3600000 } ∷ []) (Some 1000) 900000
        ≡ 2 ∷ 2 ∷ 1 ∷ [] }
    ensures line { points 0 3 2 (2 ∷ 2 ∷ 1 ∷ []) ≡ codes "H40V20H340V20H640V100" }
{}
