//! Worked examples, as contracts that compute.
ghost use Rattle.std.specs.Prelude.{◌≡◌, ℕ, ◌∷◌, []};
ghost use Rattle.sip_compact.specs.Parts.{lines_in, IsPart};
ghost use Rattle.sip_compact.specs.declared.choice.ShorterItem.TheVariants.{Line, Omitted};

/// The first and the last of three are a part of them; in the other order they aren't, and neither is one twice.
pub fn parts_of_a_list()
    ensures some { IsPart {X = ℕ} (1 ∷ 3 ∷ []) (1 ∷ 2 ∷ 3 ∷ []) }
    ensures order { IsPart {X = ℕ} (3 ∷ 1 ∷ []) (1 ∷ 2 ∷ 3 ∷ []) → ⊥ }
    ensures twice { IsPart {X = ℕ} (3 ∷ 3 ∷ []) (1 ∷ 2 ∷ 3 ∷ []) → ⊥ }
{}

/// What is left out between two events names none.
pub fn lines_of_choices()
    ensures { lines_in (Line (record { start = 0; end = 5 }) ∷ Omitted 7 ∷ Line (record { start = 9; end = 12 }) ∷ [])
        ≡ record { start = 0; end = 5 } ∷ record { start = 9; end = 12 } ∷ [] }
{}
