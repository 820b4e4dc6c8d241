ghost use Rattle.std.specs.Prelude.{◌≡◌, List, ◌∷◌, length};
ghost use Rattle.sip_model.specs.state.declared.proxy_state.ProxyState.{ProxyState};
ghost use Rattle.sip_model.specs.steps_model.Examples.{sample, vault_effect};
ghost use Rattle.sip_model.specs.Run.{Link};
ghost use Rattle.sip_model.specs.Access.{Access};
ghost use Rattle.model_laws.specs.WrongRecords;

/// A request that policy was asked about has one record, and in its own step.
pub fn request_has_one_record()
    ensures is_one { length vault_effect.records ≡ 1 }
    ensures not_two { (known after : ProxyState) (earlier : List Link) → Access sample (WrongRecords.recorded_twice known after ∷ earlier) → ⊥ }
    ensures not_later { (known after : ProxyState) (earlier : List Link) → Access sample (WrongRecords.recorded_later known after ∷ earlier) → ⊥ }
{}
