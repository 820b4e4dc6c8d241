//! Worked examples, as contracts that compute.
ghost use Rattle.std.specs.Prelude.{◌≡◌, ◌++◌, [], codes, Some, None};
ghost use Rattle.sip_replay_script.specs.EventText.{event_text};
ghost use Rattle.sip_replay_script.specs.Events.{ended};
ghost use Rattle.sip_record_omitted.specs.Omitted.{expanded, left_out_line, omitted_datagram, omitted_of, omitted_text};

/// A line that stands for twelve datagrams; and lines that stand for none: with a leading zero, with no datagram, with too many,
/// with a blank behind, with the word in capitals, with more behind the word, and without a number.
pub fn lines_that_stand_for_others()
    ensures twelve { omitted_of (codes "omitted 12") ≡ Some 12 }
    ensures most { omitted_of (codes "omitted 4611686018427387903") ≡ Some 4611686018427387903 }
    ensures zero { omitted_of (codes "omitted 012") ≡ None }
    ensures none { omitted_of (codes "omitted 0") ≡ None }
    ensures many { omitted_of (codes "omitted 4611686018427387904") ≡ None }
    ensures blank { omitted_of (codes "omitted 12 ") ≡ None }
    ensures capitals { omitted_of (codes "Omitted 12") ≡ None }
    ensures longer { omitted_of (codes "omitted_ 12") ≡ None }
    ensures word { omitted_of (codes "omitted") ≡ None }
{}

/// What is written of a count, and the line of a datagram that is left out, which is what is written of that.
pub fn texts_of_left_out()
    ensures count { omitted_text 12 ≡ codes "omitted 12\n" }
    ensures datagram { event_text omitted_datagram ≡ ended left_out_line }
{}

/// In the place of a line stand as many as it says, and the lines around it stay; so does one that isn't ended.
pub fn text_with_two_left_out()
    ensures two { expanded (codes "time 5\nomitted 2\ntime 6\nomitted 3")
        ≡ codes "time 5\n" ++ ended left_out_line ++ ended left_out_line ++ codes "time 6\nomitted 3" }
    ensures nothing { expanded [] ≡ [] }
    ensures behind { expanded (codes "time 5\n\n= omitted 2\nomitted 2 2\n") ≡ codes "time 5\n\n= omitted 2\nomitted 2 2\n" }
{}
