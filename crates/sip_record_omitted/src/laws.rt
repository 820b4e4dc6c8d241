//! What an expanded text is, by other means.
ghost use Rattle.std.specs.Prelude.{◌≡◌, ◌≤◌, ◌<◌, ◌^◌, ◌++◌, ◌∷◌, [], ℕ, List, count_by, replicate, Some, None};
ghost use Rattle.std.specs.List.{flat_map, AllByRecursion};
ghost use Rattle.sip_event.specs.declared.event.Event.{Event};
ghost use Rattle.sip_replay_script.specs.Events.{ended};
ghost use Rattle.sip_replay_script.specs.Lines.{is_end};
ghost use Rattle.sip_replay_script.specs.Recorded.{SaysRecord};
ghost use Rattle.sip_replay_script.specs.Script.{line_of};
ghost use Rattle.sip_replay_script.specs.declared.script.EventLine.{EventLine};
ghost use Rattle.sip_record_omitted.specs.Omitted.{expanded, lines_for, omitted_datagram, omitted_line, omitted_of, text_for};

/// A text is expanded line by line: of lines, each with its LF, and what stands behind the last LF, each line gives its own
/// lines, and that stays. Where no line stands for others the text is itself.
pub fn text_is_expanded_by_lines()
    ensures each { (lines : List (List ℕ)) (last : List ℕ) → AllByRecursion (λ line. count_by is_end line ≡ 0) lines
        → count_by is_end last ≡ 0 → expanded (flat_map ended lines ++ last) ≡ flat_map ended (flat_map lines_for lines) ++ last }
    ensures itself { (lines : List (List ℕ)) (last : List ℕ) → AllByRecursion (λ line. count_by is_end line ≡ 0) lines
        → AllByRecursion (λ line. omitted_of line ≡ None) lines → count_by is_end last ≡ 0
        → expanded (flat_map ended lines ++ last) ≡ flat_map ended lines ++ last }
{}

/// What is written of a count is read as that count, and no other line is; it stands for so many datagrams of one byte 0, in a
/// text that a record says them with.
pub fn count_is_read()
    ensures read { (count : ℕ) → 1 ≤ count → count < 2 ^ 62 → omitted_of (omitted_line count) ≡ Some count }
    ensures written { (line : List ℕ) (count : ℕ) → omitted_of line ≡ Some count
        → (line ≡ omitted_line count) × (1 ≤ count) × (count < 2 ^ 62) }
    ensures says { (line : List ℕ) (count : ℕ) → omitted_of line ≡ Some count
        → SaysRecord (replicate count omitted_datagram) (text_for line) }
{}

/// No line that says an event stands for others. So a text that says events as a record does is itself, and a record without such
/// a line says what it said.
pub fn events_are_themselves()
    ensures line { (line : List ℕ) (said : EventLine) → line_of line ≡ Some said → omitted_of line ≡ None }
    ensures text { (events : List Event) (text : List ℕ) → SaysRecord events text → expanded text ≡ text }
    ensures behind { (events : List Event) (text more : List ℕ) → SaysRecord events text
        → expanded (text ++ more) ≡ text ++ expanded more }
{}
