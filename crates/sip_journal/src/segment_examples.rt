ghost use Rattle.std.specs.Prelude.{◌≡◌, [], ◌∷◌, codes, Some, None};
ghost use Rattle.sip_event.specs.declared.event.Event.TheVariants.{Time};
ghost use Rattle.sip_journal.specs.Segments.{configuration_line, piece_of, SaysSegments};

/// What lines give of a configuration, whatever its bytes are; and lines that give nothing of one.
pub fn piece_example()
    ensures line { piece_of (codes "= version = 2") ≡ Some (codes "version = 2\n") }
    ensures none { piece_of (codes "= ") ≡ Some (codes "\n") }
    ensures carriage_return { piece_of (codes "= a\r") ≡ Some (codes "a\r\n") }
    ensures rest { piece_of (codes "+ = a") ≡ Some (codes "= a") }
    ensures no_blank { piece_of (codes "=a") ≡ None }
    ensures event { piece_of (codes "time 5") ≡ None }
{}

/// A record of two configurations, `abc` and no bytes, a moment under the first (FIPS 180-4: the SHA-256 of each).
pub fn segments_example()
    ensures segments { SaysSegments
        (record { configuration = codes "abc"; events = Time 5 ∷ [] } ∷ record { configuration = []; events = [] } ∷ [])
        (codes "+ abc\nconfiguration ba7816bf8f01cfea414140de5dae2223b00361a396177a9cb410ff61f20015ad\ntime 5\nconfiguration e3b0c44298fc1c149afbf4c8996fb92427ae41e4649b934ca495991b7852b855\n") }
    ensures digest { configuration_line (codes "abc") ≡ codes "configuration ba7816bf8f01cfea414140de5dae2223b00361a396177a9cb410ff61f20015ad" }
    ensures none { configuration_line [] ≡ codes "configuration e3b0c44298fc1c149afbf4c8996fb92427ae41e4649b934ca495991b7852b855" }
{}
