ghost use Rattle.std.specs.Prelude.{◌≡◌, [], ◌∷◌, map, Some, None, true, false, codes};
ghost use Rattle.sip_config_types.specs.declared.config.Config.{Config};
ghost use Rattle.sip_days.specs.declared.call.Call.{Call};
ghost use Rattle.sip_days.specs.declared.call_result.CallResult.TheVariants.{Answered, Busy};
ghost use Rattle.sip_days.specs.Calls.{calls_of};
ghost use Rattle.sip_days.specs.Results.{result_of, ring_of, talk_of};
ghost use Rattle.sip_days.specs.ExampleCalls.{answered_day, busy_day, bye_text, from_carol, from_ivan};
ghost use Rattle.sip_days.specs.declared.registered.Registered.{Registered};
ghost use Rattle.sip_days.specs.ExamplePhones.{registering_day};
ghost use Rattle.sip_days.specs.Phones.{phones_of};

/// A call that is answered after eight seconds, and ends with the caller's BYE, 51 seconds later; the BYE of another call doesn't end it.
pub fn answered_call()
    ensures result { (config : Config) → map result_of (calls_of (answered_day config (bye_text (from_carol (codes "x") (codes "BYE"))))) ≡ Answered ∷ [] }
    ensures rang { (config : Config) → map ring_of (calls_of (answered_day config (bye_text (from_carol (codes "x") (codes "BYE"))))) ≡ Some 8000 ∷ [] }
    ensures talked { (config : Config) → map talk_of (calls_of (answered_day config (bye_text (from_carol (codes "x") (codes "BYE"))))) ≡ Some 51000 ∷ [] }
    ensures by_caller { (config : Config) → map (λ (call : Call). call.ending) (calls_of (answered_day config (bye_text (from_carol (codes "x") (codes "BYE")))))
        ≡ Some (record { at = 60000; by_caller = true }) ∷ [] }
    ensures by_callee { (config : Config) → map (λ (call : Call). call.ending) (calls_of (answered_day config (bye_text (from_ivan (codes "x") (codes "BYE")))))
        ≡ Some (record { at = 60000; by_caller = false }) ∷ [] }
    ensures goes_on { (config : Config) → map (λ (call : Call). call.ending) (calls_of (answered_day config (bye_text (from_carol (codes "z") (codes "BYE")))))
        ≡ None ∷ [] }
{}

/// A call to one who is busy rings up to the 486.
pub fn busy_call()
    ensures result { (config : Config) → map result_of (calls_of (busy_day config)) ≡ Busy ∷ [] }
    ensures rang { (config : Config) → map ring_of (calls_of (busy_day config)) ≡ Some 2000 ∷ [] }
    ensures talked { (config : Config) → map talk_of (calls_of (busy_day config)) ≡ None ∷ [] }
{}

/// Two users register, the first one twice, and a REGISTER of a third one is denied: two addresses, the first one with its later REGISTER.
pub fn registered_twice()
    ensures { (config : Config) → map (λ (row : Registered). row.at) (phones_of (registering_day config)) ≡ 3000 ∷ 2000 ∷ [] }
{}
