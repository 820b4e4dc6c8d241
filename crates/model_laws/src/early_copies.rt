ghost use Rattle.std.specs.Prelude.{List, ◌∷◌};
ghost use Rattle.sip_model.specs.state.declared.proxy_state.ProxyState.{ProxyState};
ghost use Rattle.sip_model.specs.steps_model.Examples.{sample};
ghost use Rattle.sip_model.specs.Run.{Link};
ghost use Rattle.sip_model.specs.Access.{Access};
ghost use Rattle.model_laws.specs.WrongCopies;

/// An INVITE goes again at its moment, and not before.
pub fn copy_waits()
    ensures { (known after : ProxyState) (earlier : List Link) → Access sample (WrongCopies.early_copy known after ∷ earlier) → ⊥ }
{}

/// What goes again says what an open request sent.
pub fn copy_says_what_went()
    ensures { (known after : ProxyState) (earlier : List Link) → Access sample (WrongCopies.false_copy known after ∷ earlier) → ⊥ }
{}
