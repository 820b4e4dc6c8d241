ghost use Rattle.std.specs.Prelude.{◌≡◌, [], ◌∷◌, Some, None};
ghost use Rattle.sip_best.specs.Best.{best_of};
ghost use Rattle.sip_best.specs.Examples.{answer, made, three_answers, challenge_up};

/// Of a 404, a 407 and a 401 the 407 goes up with the challenges of the 401, of a 486 and a 404 the 486,
/// which came first, and of a 503 and a 302 the 302 (RFC 3261 16.7 steps 6 and 7).
pub fn best_response()
    ensures challenges { best_of three_answers ≡ Some challenge_up }
    ensures arrival { best_of (answer 486 [] ∷ answer 404 [] ∷ []) ≡ Some (answer 486 []) }
    ensures lower_class { best_of (answer 503 [] ∷ answer 302 [] ∷ []) ≡ Some (answer 302 []) }
{}

/// A 6xx goes up whatever else came, and the first of several. A 503 goes up as a 500 that is made here; a
/// branch that didn't answer counts as 408, and one that was cancelled as 487.
pub fn declines_and_failures()
    ensures decline { best_of (answer 486 [] ∷ answer 603 [] ∷ answer 302 [] ∷ answer 600 [] ∷ []) ≡ Some (answer 603 []) }
    ensures unavailable { best_of (answer 503 [] ∷ []) ≡ Some (made 500) }
    ensures server_errors { best_of (made 503 ∷ answer 500 [] ∷ []) ≡ Some (made 500) }
    ensures timeout { best_of (answer 500 [] ∷ made 408 ∷ answer 404 [] ∷ []) ≡ Some (made 408) }
    ensures cancelled { best_of (made 487 ∷ answer 486 [] ∷ []) ≡ Some (made 487) }
    ensures none { best_of [] ≡ None }
{}
