ghost use Rattle.std.specs.Prelude.{◌≡◌, ◌≢◌, ◌↔◌, ℕ, true, false, not, List, ◌∷◌, Option, Some, None, find};
ghost use Rattle.std.specs.List.{list_all, list_any};
ghost use Rattle.sip_uri.specs.declared.aor.Aor.{Aor};
ghost use Rattle.sip_policy.specs.declared.decision.Decision.{Decision};
ghost use Rattle.sip_policy.specs.declared.operation.Operation.{Operation};
ghost use Rattle.sip_policy.specs.declared.user.User.{User};
ghost use Rattle.sip_policy.specs.declared.rule.Rule.{Rule};
ghost use Rattle.sip_policy.specs.Window.{is_within, holds};
ghost use Rattle.sip_policy.specs.Rule.{IsFirst, matches, applies, has_no_window, is_numbered, needs_no_proof};
ghost use Rattle.sip_policy.specs.Decision.{decision_of, decision_by, decision_with, recorded_minute};

/// The first rule that holds at the minute and matches decides: there is one wherever some rule does both.
/// Where none does, rule 0 denies, and rule 0 denies nowhere else, as long as no rule has the number 0.
pub fn first_match_decides()
    ensures first { (rules : List Rule) (users : List User) (domains : List (List ℕ))
        (proven : Option (List ℕ)) (operation : Operation) (aor : Aor) (minute : ℕ) (rule : Rule)
        → IsFirst (applies users domains proven operation aor minute) rules rule
        → decision_of rules users domains proven operation aor minute ≡ decision_by proven rule }
    ensures there_is_one { (rules : List Rule) (users : List User) (domains : List (List ℕ))
        (proven : Option (List ℕ)) (operation : Operation) (aor : Aor) (minute : ℕ)
        → list_any (applies users domains proven operation aor minute) rules ≡ true
        → (rule : Rule) × IsFirst (applies users domains proven operation aor minute) rules rule }
    ensures rule_zero { (rules : List Rule) (users : List User) (domains : List (List ℕ))
        (proven : Option (List ℕ)) (operation : Operation) (aor : Aor) (minute : ℕ)
        → list_all is_numbered rules ≡ true
        → ((decision_of rules users domains proven operation aor minute ≡ Decision.Deny 0)
        ↔ (list_any (applies users domains proven operation aor minute) rules ≡ false)) }
{}

/// A rule that doesn't hold at the minute is passed over, with a proven user and with nobody.
pub fn rule_out_of_its_window_is_passed_over()
    ensures { (rule : Rule) (rules : List Rule) (users : List User) (domains : List (List ℕ))
        (proven : Option (List ℕ)) (operation : Operation) (aor : Aor) (minute : ℕ)
        → holds minute rule.window ≡ false
        → decision_of (rule ∷ rules) users domains proven operation aor minute
        ≡ decision_of rules users domains proven operation aor minute }
{}

/// Where no rule has a window, the first that matches decides, the same at every minute, and no minute is
/// recorded.
pub fn no_window_is_always()
    ensures first_match { (rules : List Rule) (users : List User) (domains : List (List ℕ))
        (proven : Option (List ℕ)) (operation : Operation) (aor : Aor) (minute : ℕ)
        → list_all has_no_window rules ≡ true
        → decision_of rules users domains proven operation aor minute
        ≡ decision_with proven (find (matches users domains proven operation aor) rules) }
    ensures same { (rules : List Rule) (users : List User) (domains : List (List ℕ))
        (proven : Option (List ℕ)) (operation : Operation) (aor : Aor) (minute other : ℕ)
        → list_all has_no_window rules ≡ true
        → decision_of rules users domains proven operation aor minute
        ≡ decision_of rules users domains proven operation aor other }
    ensures no_minute { (rules : List Rule) (users : List User) (domains : List (List ℕ))
        (proven : Option (List ℕ)) (operation : Operation) (aor : Aor) (minute : ℕ)
        → list_all has_no_window rules ≡ true
        → recorded_minute rules users domains proven operation aor minute ≡ None }
{}

/// A window and the one from its end to its beginning part the day: each minute is in exactly one of them.
pub fn windows_part_the_day()
    ensures { (minute from until : ℕ) → from ≢ until
        → is_within minute (record { from = until; until = from })
        ≡ not (is_within minute (record { from = from; until = until })) }
{}

/// A proven user is never challenged.
pub fn proven_is_never_challenged()
    ensures { (rules : List Rule) (users : List User) (domains : List (List ℕ))
        (name : List ℕ) (operation : Operation) (aor : Aor) (minute : ℕ)
        → decision_of rules users domains (Some name) operation aor minute ≢ Decision.Challenge }
{}

/// Where nobody is proven, a rule of the list is obeyed only if it is for anyone and its target isn't
/// `self`; every other one that comes first asks for a proof.
pub fn nobody_needs_a_rule_for_anyone()
    ensures { (rules : List Rule) (users : List User) (domains : List (List ℕ))
        (operation : Operation) (aor : Aor) (minute : ℕ) (rule : Rule)
        → IsFirst (applies users domains None operation aor minute) rules rule
        → needs_no_proof rule ≡ false
        → decision_of rules users domains None operation aor minute ≡ Decision.Challenge }
{}
