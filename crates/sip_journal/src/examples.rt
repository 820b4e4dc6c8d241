ghost use Rattle.std.specs.Prelude.{◌≡◌, [], ◌∷◌, codes, None, Some};
ghost use Rattle.sip_journal.specs.RecordHead.{head_of, head_text, mark_in};
ghost use Rattle.sip_journal.specs.declared.record_mark.RecordMark.TheVariants.{Whole, Broken, Left};

/// The first line of a record whose configuration is an empty file (FIPS 180-4: the SHA-256 of no bytes); the marks of such a line,
/// of one whose writing failed, and of one from which another start went on; and lines that are none.
pub fn first_line_example()
    ensures text { head_text
        (record {
          mark = Whole;
          word = 255;
          first = 7;
          digest = 227 ∷ 176 ∷ 196 ∷ 66 ∷ 152 ∷ 252 ∷ 28 ∷ 20 ∷ 154 ∷ 251 ∷ 244 ∷ 200 ∷ 153 ∷ 111 ∷ 185 ∷ 36
              ∷ 39 ∷ 174 ∷ 65 ∷ 228 ∷ 100 ∷ 155 ∷ 147 ∷ 76 ∷ 164 ∷ 149 ∷ 153 ∷ 27 ∷ 120 ∷ 82 ∷ 184 ∷ 85 ∷ [];
        }) ≡ codes "record 00000000000000ff 7 e3b0c44298fc1c149afbf4c8996fb92427ae41e4649b934ca495991b7852b855\n" }
    ensures whole { mark_in (codes "record 00ff 7 e3") ≡ Some (Whole, codes "00ff 7 e3") }
    ensures broken { mark_in (codes "broken 00ff 7 e3") ≡ Some (Broken, codes "00ff 7 e3") }
    ensures left { mark_in (codes "left   00ff 7 e3") ≡ Some (Left, codes "00ff 7 e3") }
    ensures short { mark_in (codes "left 00ff 7 e3") ≡ None }
    ensures other { head_of (codes "time 5") ≡ None }
{}
