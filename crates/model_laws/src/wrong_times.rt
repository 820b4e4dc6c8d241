ghost use Rattle.std.specs.Prelude.{◌≡◌, List, ◌∷◌};
ghost use Rattle.sip_model.specs.state.declared.proxy_state.ProxyState.{ProxyState};
ghost use Rattle.sip_model.specs.steps_model.Examples.{sample};
ghost use Rattle.sip_model.specs.Run.{Link};
ghost use Rattle.sip_model.specs.Access.{moment_in, Access};
ghost use Rattle.model_laws.specs.WrongMoments;

/// No step says a moment that has not come, so that what is due then went now: no 408 before its deadline, and no
/// copy before its moment.
pub fn moments_come_first()
    ensures answered { (known after : ProxyState) (earlier : List Link) → moment_in earlier ≡ 62000
        → Access sample (WrongMoments.given_up_early known after ∷ earlier) → ⊥ }
    ensures copied { (known after : ProxyState) (earlier : List Link) → moment_in earlier ≡ 62000
        → Access sample (WrongMoments.copied_early known after ∷ earlier) → ⊥ }
{}
