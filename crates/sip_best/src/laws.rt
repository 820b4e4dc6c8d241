ghost use Rattle.std.specs.Prelude.{◌≡◌, ◌↔◌, ◌≤◌, List, ◌∷◌, length, true, Some, IsSome};
ghost use Rattle.sip_message_fields.specs.declared.field.Field.{Field};
ghost use Rattle.sip_message_form.specs.declared.message.Message.{Message};
ghost use Rattle.sip_message_form.specs.Text.{text_of};
ghost use Rattle.sip_best.specs.declared.final_answer.Final.{Final};
ghost use Rattle.sip_best.specs.Ranks.{Outranks, outranks};
ghost use Rattle.sip_best.specs.Best.{chosen_of, IsChosen, best_of, taking_along};

/// The test says exactly which of two answers outranks the other (RFC 3261 16.7 step 6).
pub fn outranks_is_a_test()
    ensures { (f g : Final) → (outranks f g ≡ true) ↔ Outranks f g }
{}

/// The chosen answer is the first of those that came that none outranks.
pub fn best_is_unbeaten()
    ensures { (finals others : List Final) (f : Final) → chosen_of finals ≡ Some (f, others) → IsChosen finals f others }
{}

/// Where an answer came, one goes up.
pub fn one_is_best()
    ensures { (first : Final) (others : List Final) → IsSome (best_of (first ∷ others)) }
{}

/// A message that fits a datagram still does with the challenges that it takes along.
pub fn fits_a_datagram()
    ensures { (m : Message) (fields : List Field) → length (text_of m) ≤ 65507 → length (text_of (taking_along m fields)) ≤ 65507 }
{}
