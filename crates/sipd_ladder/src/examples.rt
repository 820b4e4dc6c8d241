ghost use Rattle.std.specs.Prelude.{◌≡◌, ◌++◌, [], ◌∷◌, replicate, true, false, codes, pos, None, Some};
ghost use Rattle.sipd_ladder.specs.Drawing.{arrow_row, bar, crossing, dashes, note_row, to_left, to_right};
ghost use Rattle.sipd_ladder.specs.Saying.{status_text};
ghost use Rattle.sipd_ladder.specs.Table.{head_row, label, title_at};

/// An INVITE that comes from the left, and goes on to the second place on the right, past the first; a 200 that comes back; an ACK again.
pub fn row_example()
    ensures comes { arrow_row 0 2 (record { place = 0; rightward = true }) (codes "INVITE")
        ≡ codes "   0.000    " ++ bar ++ dashes 10 ++ codes " INVITE " ++ dashes 10 ++ to_right ++ bar ++ replicate 29 32 ++ bar ++ codes "\n" }
    ensures goes { arrow_row 1002 3 (record { place = 2; rightward = true }) (codes "INVITE")
        ≡ codes "   1.002    " ++ bar ++ replicate 29 32 ++ bar ++ dashes 29 ++ crossing ++ dashes 10 ++ codes " INVITE " ++ dashes 10 ++ to_right ++ bar
        ++ codes "\n" }
    ensures back { arrow_row 1502 2 (record { place = 1; rightward = false }) (codes "200 OK")
        ≡ codes "   1.502    " ++ bar ++ replicate 29 32 ++ bar ++ to_left ++ dashes 9 ++ codes " 200 OK " ++ dashes 11 ++ bar ++ codes "\n" }
    ensures again { label true (codes "487 Request Terminated") ≡ codes "487 Request Termi again" }
{}

/// What was decided of whom, and a timer.
pub fn note_example()
    ensures decided { note_row 3 (Some (codes "alice")) (codes "rule 8: sent 2") ≡ replicate 12 32 ++ bar ++ codes "              proven: alice  " ++ bar
        ++ codes " rule 8: sent 2              " ++ bar ++ replicate 29 32 ++ bar ++ codes "\n" }
    ensures timer { note_row 1 None (codes "timer") ≡ replicate 12 32 ++ bar ++ replicate 29 32 ++ bar ++ codes " timer\n" }
{}

/// What stands over the lines.
pub fn head_example()
    ensures names { head_row (codes "sipd") (codes "alice" ∷ codes "bob" ∷ [])
        ≡ codes "          alice                         sipd                           bob\n" }
    ensures addresses { head_row [] (codes "127.0.0.1:9011" ∷ codes "127.0.0.1:9012" ∷ [])
        ≡ codes "     127.0.0.1:9011                                              127.0.0.1:9012\n" }
    ensures title { title_at (codes "a@b") (pos 60) 1795895352028 ≡ codes "call a@b, 2026-11-28 20:49:12.028 (UTC+01:00)\n\n" }
{}

/// A reason that would clear the screen of a terminal.
pub fn plain_reason()
    ensures { status_text 200 (27 ∷ codes "[2J" ++ 255 ∷ []) ≡ codes "200 ?[2J?" }
{}
