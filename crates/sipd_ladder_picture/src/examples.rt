ghost use Rattle.std.specs.Prelude.{◌≡◌, ◌++◌, [], ◌∷◌, true, false, codes, None, Some};
ghost use Rattle.sipd_ladder_picture.specs.Parts.{shown};
ghost use Rattle.sipd_ladder_picture.specs.Picture.{line_text};
ghost use Rattle.sipd_ladder_picture.specs.Rows.{message_row, note_row};

/// An INVITE that comes from the left, and goes on to the second place on the right; a 407 that goes back, and a 200 that comes, again.
pub fn message_example()
    ensures comes { message_row 0 0 (record { place = 0; rightward = true }) false (codes "INVITE")
        ≡ codes "<g class=\"request\" transform=\"translate(0 100)\"><text x=\"8\" y=\"4\" class=\"time\">0.000 s</text>"
        ++ codes "<path d=\"M130 0H358m-8 -4l8 4l-8 4z\"/><text x=\"245\" y=\"-5\">INVITE</text></g>\n" }
    ensures goes { message_row 3 1002 (record { place = 2; rightward = true }) false (codes "INVITE")
        ≡ codes "<g class=\"request\" transform=\"translate(0 178)\"><text x=\"8\" y=\"4\" class=\"time\">1.002 s</text>"
        ++ codes "<path d=\"M360 0H818m-8 -4l8 4l-8 4z\"/><text x=\"705\" y=\"-5\">INVITE</text></g>\n" }
    ensures asks { message_row 10 2000 (record { place = 0; rightward = false }) false (codes "407 Proxy Auth Required")
        ≡ codes "<g class=\"asked\" transform=\"translate(0 360)\"><text x=\"8\" y=\"4\" class=\"time\">2.000 s</text>"
        ++ codes "<path d=\"M360 0H132m8 -4l-8 4l8 4z\"/><text x=\"245\" y=\"-5\">407 Proxy Auth Required</text></g>\n" }
    ensures again { message_row 11 12034 (record { place = 1; rightward = false }) true (codes "200 OK")
        ≡ codes "<g class=\"done\" transform=\"translate(0 386)\"><text x=\"8\" y=\"4\" class=\"time\">12.034 s</text>"
        ++ codes "<path d=\"M590 0H362m8 -4l-8 4l8 4z\"/><text x=\"475\" y=\"-5\">200 OK again</text></g>\n" }
{}

/// What was decided of whom, and a timer.
pub fn note_example()
    ensures decided { note_row 1 (Some (codes "alice")) (codes "rule 8: sent 2")
        ≡ codes "<g class=\"note done\" transform=\"translate(0 126)\"><rect x=\"210\" y=\"-14\" width=\"300\" height=\"20\" rx=\"4\"/>"
        ++ codes "<text x=\"360\" y=\"0\">rule 8: sent 2, proven: alice</text></g>\n" }
    ensures denied { note_row 1 None (codes "rule 20: deny")
        ≡ codes "<g class=\"note refused\" transform=\"translate(0 126)\"><rect x=\"210\" y=\"-14\" width=\"300\" height=\"20\" rx=\"4\"/>"
        ++ codes "<text x=\"360\" y=\"0\">rule 20: deny</text></g>\n" }
    ensures timer { note_row 5 None (codes "timer")
        ≡ codes "<g class=\"note\" transform=\"translate(0 230)\"><rect x=\"210\" y=\"-14\" width=\"300\" height=\"20\" rx=\"4\"/>"
        ++ codes "<text x=\"360\" y=\"0\">timer</text></g>\n" }
{}

/// A user at the second place on the right, whose line ends behind ten rows.
pub fn line_example()
    ensures { line_text 820 10 (codes "bob") (codes "127.0.0.1:9013")
        ≡ codes "<text x=\"820\" y=\"50\" class=\"name\">bob</text><text x=\"820\" y=\"66\" class=\"place\">127.0.0.1:9013</text>"
        ++ codes "<path class=\"line\" d=\"M820 74V360\"/>\n" }
{}

/// A name that would end its tag and begin another one, with a byte that XML doesn't take, and one that is no UTF-8.
pub fn shown_example()
    ensures { shown (codes "</text><a b='&'>\"" ++ 27 ∷ 255 ∷ []) ≡ codes "&lt;/text&gt;&lt;a b=&#39;&amp;&#39;&gt;&quot;??" }
{}
