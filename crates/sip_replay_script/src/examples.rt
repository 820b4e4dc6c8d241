ghost use Rattle.std.specs.Prelude.{◌≡◌, [], ◌∷◌, codes, Some, None};
ghost use Rattle.sip_event.specs.declared.event.Event.TheVariants.{Datagram, Time, Fault};
ghost use Rattle.sip_replay_script.specs.Escaped.{escaped, text_bytes_of, unescaped};
ghost use Rattle.sip_replay_script.specs.EventText.{event_text};
ghost use Rattle.sip_replay_script.specs.Script.{line_of};
ghost use Rattle.sip_replay_script.specs.declared.script.EventLine.TheVariants.{Whole};

/// Lines that are events, and one that isn't: it has a leading zero.
pub fn line_of_example()
    ensures time { line_of (codes "time 5") ≡ Some (Whole (Time 5)) }
    ensures failed { line_of (codes "fault 70 3/1") ≡ Some (Whole (Fault 70 (record { datagram = 3; branch = 1 }))) }
    ensures zero { line_of (codes "time 05") ≡ None }
{}

/// The same datagram in a line `text` and in one of an older record.
pub fn datagram_line_example()
    ensures text { line_of (codes "text 5 127.0.0.1:5062 000000000000000000000000000000ff OK\\r\\n")
        ≡ Some (Whole (Datagram 5 255 (record { ip = 127 ∷ 0 ∷ 0 ∷ 1 ∷ []; port = 5062 }) (codes "OK\r\n"))) }
    ensures hex { line_of (codes "hex 5 127.0.0.1:5062 000000000000000000000000000000ff 4f4b0d0a")
        ≡ Some (Whole (Datagram 5 255 (record { ip = 127 ∷ 0 ∷ 0 ∷ 1 ∷ []; port = 5062 }) (codes "OK\r\n"))) }
{}

/// How bytes stand in a line `text`: NUL, a tab and the bytes of `é` have digits, each end of a line and each `\` has letters.
pub fn escaped_example()
    ensures line { escaped (codes "To: a, b\r\n\r\n") ≡ codes "To: a, b\\r\\n\\r\\n" }
    ensures others { escaped (0 ∷ 9 ∷ 92 ∷ 126 ∷ 127 ∷ 195 ∷ 169 ∷ []) ≡ codes "\\00\\09\\\\~\\7f\\c3\\a9" }
{}

/// What such a text says. A byte has no other text than that with which it is written: no digits where it is printable or has a
/// letter, and none in upper case; a text of no bytes, one that is cut, and one with CR or with a byte above `~` say nothing.
pub fn unescaped_example()
    ensures others { unescaped (codes "\\00\\09\\\\~\\7f\\c3\\a9") ≡ Some (0 ∷ 9 ∷ 92 ∷ 126 ∷ 127 ∷ 195 ∷ 169 ∷ []) }
    ensures printable { unescaped (codes "\\41") ≡ None }
    ensures letter { unescaped (codes "\\0d\\0a") ≡ None }
    ensures upper_case { unescaped (codes "\\C3") ≡ None }
    ensures none { text_bytes_of [] ≡ None }
    ensures cut { unescaped (codes "OK\\") ≡ None }
    ensures cut_digits { unescaped (codes "OK\\c") ≡ None }
    ensures carriage_return { unescaped (codes "OK\r") ≡ None }
    ensures above { unescaped (79 ∷ 75 ∷ 195 ∷ 169 ∷ []) ≡ None }
{}

/// What is written of a datagram, of one without bytes, of a moment and of a fault.
pub fn event_text_example()
    ensures bytes { event_text (Datagram 5 255 (record { ip = 127 ∷ 0 ∷ 0 ∷ 1 ∷ []; port = 5062 }) (codes "OK\r\n"))
        ≡ codes "text 5 127.0.0.1:5062 000000000000000000000000000000ff OK\\r\\n\n" }
    ensures none { event_text (Datagram 5 255 (record { ip = 127 ∷ 0 ∷ 0 ∷ 1 ∷ []; port = 5062 }) [])
        ≡ codes "datagram 5 127.0.0.1:5062 000000000000000000000000000000ff\n.\n" }
    ensures time { event_text (Time 1000) ≡ codes "time 1000\n" }
    ensures failed { event_text (Fault 70 (record { datagram = 3; branch = 1 })) ≡ codes "fault 70 3/1\n" }
{}
