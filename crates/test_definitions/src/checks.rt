ghost use Rattle.std.specs.Prelude.{◌≡◌, [], codes, false, Some, None};
ghost use Rattle.sip_route.specs.Examples.{own};
ghost use Rattle.sip_validate.specs.Refusal.{refusal_of};
ghost use Rattle.test_definitions.specs.Checks.{without_hops};

/// Methods are compared with case (RFC 3261 7.1): without hops a REGISTER is served all the same (10.3), and a request of the
/// method `register` isn't, which is another one.
#[tactic(auto, unfolding(sip_uri::specs::Reading::reading_of, sip_uri::specs::Reading::rest_of, sip_header::specs::CoreFields::core_in))]
pub fn methods()
    ensures register { refusal_of own (without_hops (codes "REGISTER")) false ≡ None }
    ensures other_case { refusal_of own (without_hops (codes "register")) false ≡ Some (483, []) }
{}
