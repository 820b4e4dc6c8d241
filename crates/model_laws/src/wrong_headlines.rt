ghost use Rattle.std.specs.Prelude.{◌∷◌, List};
ghost use Rattle.sip_model.specs.state.declared.proxy_state.ProxyState.{ProxyState};
ghost use Rattle.sip_model.specs.steps_model.Examples.{sample};
ghost use Rattle.sip_model.specs.Run.{Link};
ghost use Rattle.model_laws.specs.Headline.{Headline};
ghost use Rattle.model_laws.specs.Proven.{by_digest};
ghost use Rattle.model_laws.specs.WrongHeadlines;

/// A call goes to no other address than one that is bound, and to no binding that expired.
pub fn calls_go_to_live_bindings()
    ensures elsewhere { (after : ProxyState) (earlier : List Link) → Headline by_digest sample (WrongHeadlines.goes_elsewhere after ∷ earlier) → ⊥ }
    ensures expired { (after : ProxyState) (earlier : List Link) → Headline by_digest sample (WrongHeadlines.goes_to_expired after ∷ earlier) → ⊥ }
{}

/// A denial by rule 3 isn't one without a rule, nor one that names rule 0.
pub fn denials_name_their_rule()
    ensures none { (after : ProxyState) (earlier : List Link) → Headline by_digest sample (WrongHeadlines.denied_without_rule after ∷ earlier) → ⊥ }
    ensures another { (after : ProxyState) (earlier : List Link) → Headline by_digest sample (WrongHeadlines.denied_by_another after ∷ earlier) → ⊥ }
{}
