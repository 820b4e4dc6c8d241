ghost use Rattle.std.specs.Prelude.{◌≡◌, [], ◌∷◌, codes, true, false, Some, None};
ghost use Rattle.sip_uri.specs.Examples.{user_at, with_parameter};
ghost use Rattle.sip_header.specs.FieldExamples.{uri_at};
ghost use Rattle.sip_route.specs.Way.{next_uri};
ghost use Rattle.test_definitions.specs.Places.{is_own, branch_in};

/// A Via is this server's where its sent-by is the host that it calls itself, in any case, and its port, 5060 where none is
/// written; a domain that it serves is none, nor is another server on its host (RFC 3261 16.3 step 4, 18.1.2). The branch of a
/// response is the one of such a Via alone (16.7 step 1).
pub fn vias()
    ensures own { is_own (codes "SIP/2.0/UDP SIP.host.com;branch=z9hG4bK1") ≡ Some true }
    ensures domain { is_own (codes "SIP/2.0/UDP host.com:5060;branch=z9hG4bK1") ≡ Some false }
    ensures other_port { is_own (codes "SIP/2.0/UDP sip.host.com:5070;branch=z9hG4bK1") ≡ Some false }
    ensures branch { branch_in (codes "SIP/2.0/UDP sip.host.com:5060;branch=z9hG4bK1") ≡ Some (codes "z9hG4bK1") }
    ensures branch_of_another { branch_in (codes "SIP/2.0/UDP p1.example.com:5060;branch=z9hG4bK1") ≡ None }
{}

/// A request goes to its first Route that is left, and to its Request-URI where none is (RFC 3261 16.6 step 6, 16.12.1.1).
#[tactic(auto, unfolding(sip_uri::specs::Reading::reading_of, sip_uri::specs::Reading::rest_of))]
pub fn next()
    ensures route { next_uri (record { uri = codes "sip:callee@domain.com"; routes = codes "<sip:p2.example.com;lr>" ∷ codes "<sip:p3.middle.com;lr>" ∷ [] })
        ≡ Some (with_parameter (uri_at (codes "p2.example.com") None) (record { name = codes "lr"; value = None })) }
    ensures request_uri { next_uri (record { uri = codes "sip:callee@domain.com"; routes = [] }) ≡ Some (user_at (codes "callee") (codes "domain.com")) }
{}
