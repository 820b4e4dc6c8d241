//! What says nothing of what comes, and what does.
ghost use Rattle.std.specs.Prelude.{[], ◌∷◌, false, true};
ghost use Rattle.sip_model.specs.SamenessExamples.{begun_by, issued_at};
ghost use Rattle.sip_model.specs.Known.{SameKnown};
ghost use Rattle.sip_model.specs.Nonces.{SameNonces};

/// A nonce that was issued 300,000 ms ago says nothing more. One of a millisecond later does, and so does how often it was used (RFC 2617
/// 3.2.1, 3.2.2).
pub fn nonces_that_are_over()
    ensures over { SameNonces 301000 (issued_at 1000 7 ∷ issued_at 9000 0 ∷ []) (issued_at 9000 0 ∷ []) }
    ensures lives { SameNonces 300999 (issued_at 1000 7 ∷ issued_at 9000 0 ∷ []) (issued_at 9000 0 ∷ []) → ⊥ }
    ensures used { SameNonces 2000 (issued_at 1000 1 ∷ []) (issued_at 1000 2 ∷ []) → ⊥ }
{}

/// Which INVITE began a call says nothing more once a 2xx confirmed that, and does before; and the call is known in both (RFC 3261 12.1,
/// 12.3).
pub fn calls_that_are_confirmed()
    ensures confirmed { SameKnown 2000 (begun_by 4 true ∷ []) (begun_by 5 true ∷ []) }
    ensures early { SameKnown 2000 (begun_by 4 false ∷ []) (begun_by 5 false ∷ []) → ⊥ }
    ensures known { SameKnown 2000 (begun_by 4 true ∷ []) [] → ⊥ }
{}
