//! Worked examples of what changes, as contracts that compute.
ghost use Rattle.std.specs.Prelude.{◌≡◌, ◌++◌, [], codes};
ghost use Rattle.sip_policy.specs.declared.operation.Operation.{Operation};
ghost use Rattle.sip_matrix.specs.Table.{named, begins};
ghost use Rattle.sipd_matrix_changes.specs.Examples.{changed, sample_against_mufasa, sample_by_day, sample_without_alice};

/// Help is for anyone by day alone: by night who is nobody is asked for a proof, and users reach it by rule 6.
pub fn window_example()
    ensures by_night { changed sample_by_day (Operation.Send (codes "INVITE")) 0 (named (codes "help") (codes "host.com"))
        ≡ codes "0:00-8:00 4+ becomes 6? as nobody for help@host.com\n" }
    ensures by_day { changed sample_by_day (Operation.Send (codes "INVITE")) 480 (named (codes "help") (codes "host.com")) ≡ [] }
    ensures evening { changed sample_by_day (Operation.Send (codes "INVITE")) 1080 (named (codes "help") (codes "host.com"))
        ≡ codes "18:00-24:00 4+ becomes 6? as nobody for help@host.com\n" }
    ensures others { changed sample_by_day (Operation.Send (codes "INVITE")) 0 (begins (codes "9") (codes "host.com")) ≡ [] }
{}

/// Without alice nobody registers her address; she is nobody then, who is asked for a proof where she was denied.
pub fn user_example()
    ensures own { changed sample_without_alice Operation.Register 0 (named (codes "alice") (codes "host.com"))
        ≡ codes "0:00-24:00 1? becomes 0- as nobody for alice@host.com\n0:00-24:00 1+ becomes 0- as alice for their own of alice@host.com\n" }
    ensures other { changed sample_without_alice Operation.Register 0 (named (codes "Mufasa") (codes "host.com"))
        ≡ codes "0:00-24:00 0- becomes 1? as alice for Mufasa@host.com\n" }
{}

/// Calls to Mufasa are denied. He alone is of his row, and asks for no other's address there, so no line says what would become of that.
pub fn unasked_example()
    ensures { changed sample_against_mufasa (Operation.Send (codes "INVITE")) 0 (named (codes "Mufasa") (codes "host.com"))
        ≡ codes "0:00-24:00 6? becomes 3- as nobody for Mufasa@host.com\n"
        ++ codes "0:00-24:00 6+ becomes 3- as Mufasa for their own of Mufasa@host.com\n"
        ++ codes "0:00-24:00 6+ becomes 3- as alice help for Mufasa@host.com\n" }
{}
