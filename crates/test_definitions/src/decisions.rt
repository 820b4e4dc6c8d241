ghost use Rattle.std.specs.Prelude.{◌≡◌, [], codes, false};
ghost use Rattle.sip_uri.specs.Examples.{user_at};
ghost use Rattle.sip_hops.specs.Examples.{local};
ghost use Rattle.sip_policy.specs.declared.operation.Operation.{Operation};
ghost use Rattle.sip_policy.specs.declared.rule_verdict.RuleVerdict.{RuleVerdict};
ghost use Rattle.sip_targets.specs.declared.targets.Targets.{Targets};
ghost use Rattle.sip_edit_response.specs.Examples.{register};
ghost use Rattle.model_verdict.specs.Verdict.{Challenge, Deny, Send, message_verdict};
ghost use Rattle.model_verdict.specs.Examples;
ghost use Rattle.test_definitions.specs.Decisions.{calling, called_by_nobody, ruled, hour_ahead};

/// A call to vault is denied by rule 3, whomever its To names: policy is asked about the Request-URI (RFC 3261 16.3 to 16.5; of a
/// REGISTER alone it is asked about To, 10.3).
#[tactic(auto, unfolding(sip_uri::specs::Reading::reading_of, sip_uri::specs::Reading::rest_of, sip_header::specs::CoreFields::core_in))]
pub fn denials()
    ensures vault { Examples.verdict_on (Examples.bound_until 99000) (calling (codes "vault") (codes "vault"))
        ≡ Deny (called_by_nobody (codes "vault")) 3 }
    ensures other_to { Examples.verdict_on (Examples.bound_until 99000) (calling (codes "vault") (codes "help"))
        ≡ Deny (called_by_nobody (codes "vault")) 3 }
{}

/// A rule that sends by a hop sends the Request-URI unchanged to the address of that hop, also where the user has a binding.
#[tactic(auto, unfolding(sip_uri::specs::Reading::reading_of, sip_uri::specs::Reading::rest_of, sip_header::specs::CoreFields::core_in))]
pub fn hops()
    ensures { message_verdict (ruled (RuleVerdict.Via 0)) (Examples.bound_until 99000) (Examples.arriving_from (local 5070))
        (calling (codes "help") (codes "help")) false
        ≡ Send (called_by_nobody (codes "help")) 8 (Targets.Hop (user_at (codes "help") (codes "host.com")) (local 5090)) }
{}

/// A user who isn't configured isn't found; one who is and has no binding is unavailable.
#[tactic(auto, unfolding(sip_uri::specs::Reading::reading_of, sip_uri::specs::Reading::rest_of, sip_header::specs::CoreFields::core_in))]
pub fn users()
    ensures unknown { message_verdict (ruled RuleVerdict.Allow) (Examples.knowing [] []) (Examples.arriving_from (local 5070))
        (calling (codes "nobody") (codes "nobody")) false ≡ Send (called_by_nobody (codes "nobody")) 8 Targets.NotFound }
    ensures known { message_verdict (ruled RuleVerdict.Allow) (Examples.knowing [] []) (Examples.arriving_from (local 5070))
        (calling (codes "alice") (codes "alice")) false ≡ Send (called_by_nobody (codes "alice")) 8 Targets.Unavailable }
{}

/// The minute of the day is that of the configured time: an hour ahead of UTC it is the 61st at 64 s after midnight.
#[tactic(auto, unfolding(sip_uri::specs::Reading::reading_of, sip_uri::specs::Reading::rest_of, sip_header::specs::CoreFields::core_in))]
pub fn minutes()
    ensures at_utc { Examples.verdict_on (Examples.knowing [] []) register ≡ Challenge Examples.unproven_register }
    ensures ahead { message_verdict hour_ahead (Examples.knowing [] []) (Examples.arriving_from (local 5070)) register false
        ≡ Challenge (record Examples.unproven_register { minute = 61 }) }
{}

/// A REGISTER belongs to no dialog, also where its To has a tag (RFC 3261 10.2): policy is asked about it.
#[tactic(auto, unfolding(sip_uri::specs::Reading::reading_of, sip_uri::specs::Reading::rest_of, sip_header::specs::CoreFields::core_in))]
pub fn tagged_registers()
    ensures { Examples.verdict_on (Examples.knowing [] []) (Examples.request_with (codes "REGISTER") (codes "sip:host.com")
        Examples.invite_via (codes "<sip:Mufasa@host.com>;tag=t1") [])
        ≡ Challenge (record Examples.unproven_register { operation = Operation.List }) }
{}
