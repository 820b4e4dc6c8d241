ghost use Rattle.std.specs.Prelude.{◌≡◌, ◌∷◌, [], codes, length};
ghost use Rattle.sip_route.specs.Examples.{own};
ghost use Rattle.sip_edit_response.specs.Extras.{denial_warning, min_expires, unsupported_field};
ghost use Rattle.sip_edit_response.specs.ExtrasExamples;

/// A 403 that names its rule, a 420 that names two extensions, a 100, a 408, and the field of a 423.
pub fn extras_example()
    ensures denied { ExtrasExamples.answer_text ExtrasExamples.to_vault 1 403 (denial_warning own 3 ∷ []) ≡ ExtrasExamples.denied_text }
    ensures denied_length { length ExtrasExamples.denied_text ≡ 280 }
    ensures extensions { length (ExtrasExamples.answer_text ExtrasExamples.extended 3 420 (unsupported_field (codes "a, b") ∷ [])) ≡ 255 }
    ensures trying { length (ExtrasExamples.answer_text ExtrasExamples.to_help 4 100 []) ≡ 210 }
    ensures timeout { length (ExtrasExamples.answer_text ExtrasExamples.to_help 4 408 []) ≡ 242 }
    ensures too_brief { min_expires.value ≡ codes "60" }
{}
