//! Worked examples of the table of checks, as contracts that compute: each row, and that the first one that applies counts.
ghost use Rattle.std.specs.Prelude.{◌≡◌, [], ◌∷◌, codes, true, false, Some, None};
ghost use Rattle.sip_message_fields.specs.declared.field_name.FieldName.TheVariants as Name;
ghost use Rattle.sip_route.specs.Examples.{own};
ghost use Rattle.sip_validate.specs.Refusal.{refusal_of, is_bad_request};
ghost use Rattle.sip_validate.specs.Examples.{field, fields_with, all_with, invite, invite_with, invite_to, register, register_with};
ghost use Rattle.sip_validate.specs.Examples.{response, long_contact, without_call_id};

/// Requests that nothing is wrong with, and one for each row: Max-Forwards 0, which a REGISTER may have; two
/// extensions; another scheme; another version; another place in Route, which can be read; a missing Call-ID; a short
/// body; a Via of this server, which one of its domain or with another port isn't.
#[tactic(auto, unfolding(sip_uri::specs::Reading::reading_of, sip_uri::specs::Reading::rest_of, sip_header::specs::CoreFields::core_in))]
pub fn validation_statuses()
    ensures served { refusal_of own (invite_with (field Name.MaxForwards (codes "70") ∷ [])) false ≡ None }
    ensures no_max_forwards { refusal_of own (invite_with []) false ≡ None }
    ensures no_hops { refusal_of own (invite_with (field Name.MaxForwards (codes "0") ∷ [])) false ≡ Some (483, []) }
    ensures no_hops_in_register { refusal_of own (register_with
        (field Name.MaxForwards (codes "0") ∷ field Name.Contact (codes "<sip:Mufasa@127.0.0.1:5062>")
        ∷ [])) false ≡ None }
    ensures extensions { refusal_of own (invite_with (field Name.ProxyRequire (codes "a") ∷ field Name.ProxyRequire (codes "b") ∷ [])) false
        ≡ Some (420, codes "a, b") }
    ensures scheme { refusal_of own (invite_to (codes "tel:+1") []) false ≡ Some (416, []) }
    ensures version { refusal_of own (invite (codes "sip:help@host.com") (codes "SIP/3.0") (all_with [])) false ≡ Some (505, []) }
    ensures own_route { refusal_of own (invite_with (field Name.Route (codes "<sip:sip.host.com:5060;lr>") ∷ [])) false ≡ None }
    ensures route { refusal_of own (invite_with (field Name.Route (codes "<sip:far.net;lr>") ∷ [])) false ≡ Some (400, []) }
    ensures route_is_readable { is_bad_request own (invite_with (field Name.Route (codes "<sip:far.net;lr>") ∷ [])) false ≡ false }
    ensures call_id { refusal_of own (invite (codes "sip:help@host.com") (codes "SIP/2.0") (without_call_id [])) false ≡ Some (400, []) }
    ensures short_body { refusal_of own (invite_with []) true ≡ Some (400, []) }
    ensures own_via { refusal_of own (invite_with (field Name.Via (codes "SIP/2.0/UDP SIP.host.com;branch=z9hG4bK1") ∷ [])) false ≡ Some (482, []) }
    ensures via_of_domain { refusal_of own (invite_with (field Name.Via (codes "SIP/2.0/UDP host.com;branch=z9hG4bK1") ∷ [])) false ≡ None }
    ensures via_of_other_port { refusal_of own (invite_with (field Name.Via (codes "SIP/2.0/UDP sip.host.com:5070;branch=z9hG4bK1") ∷ []))
        false ≡ None }
    ensures no_request { refusal_of own response false ≡ None }
{}

/// The first row counts: a bad request before another version, that before another scheme, that before Max-Forwards 0,
/// that before a loop, that before an extension, and that before another place in Route. A CANCEL is refused by the
/// first row alone.
#[tactic(auto, unfolding(sip_uri::specs::Reading::reading_of, sip_uri::specs::Reading::rest_of, sip_header::specs::CoreFields::core_in))]
pub fn first_row_counts()
    ensures bad { refusal_of own (invite (codes "tel:+1") (codes "SIP/3.0") (all_with (field Name.MaxForwards (codes "256") ∷ []))) false
        ≡ Some (400, []) }
    ensures version { refusal_of own (invite (codes "tel:+1") (codes "SIP/3.0") (all_with (field Name.MaxForwards (codes "0") ∷ []))) false
        ≡ Some (505, []) }
    ensures scheme { refusal_of own (invite_to (codes "tel:+1") (field Name.MaxForwards (codes "0") ∷ [])) false ≡ Some (416, []) }
    ensures hops { refusal_of own
        (invite_with (field Name.MaxForwards (codes "0") ∷ field Name.Via (codes "SIP/2.0/UDP sip.host.com:5060") ∷ [])) false ≡ Some (483, []) }
    ensures own_via { refusal_of own
        (invite_with (field Name.ProxyRequire (codes "a") ∷ field Name.Via (codes "SIP/2.0/UDP sip.host.com:5060") ∷ [])) false ≡ Some (482, []) }
    ensures extension { refusal_of own (invite_with (field Name.ProxyRequire (codes "a") ∷ field Name.Route (codes "<sip:far.net>") ∷ []))
        false ≡ Some (420, codes "a") }
    ensures cancel { is_bad_request own (invite (codes "tel:+1") (codes "SIP/3.0") (all_with (field Name.MaxForwards (codes "0") ∷ [])))
        false ≡ false }
    ensures bad_cancel { is_bad_request own (invite_with (field Name.MaxForwards (codes "256") ∷ [])) false ≡ true }
{}

/// What makes a bad request: a method in CSeq that isn't the request's; a second To; Max-Forwards out of range or
/// repeated; a Via, Route, Record-Route or Contact that can't be read.
#[tactic(auto, unfolding(sip_uri::specs::Reading::reading_of, sip_uri::specs::Reading::rest_of, sip_header::specs::CoreFields::core_in))]
pub fn bad_fields()
    ensures cseq_method { refusal_of own (invite (codes "sip:help@host.com") (codes "SIP/2.0")
        (fields_with (field Name.To (codes "<sip:help@host.com>") ∷ field Name.CSeq (codes "1 BYE") ∷ []))) false ≡ Some (400, []) }
    ensures cseq_number { refusal_of own (invite (codes "sip:help@host.com") (codes "SIP/2.0")
        (fields_with (field Name.To (codes "<sip:help@host.com>") ∷ field Name.CSeq (codes "2147483648 INVITE") ∷ []))) false ≡ Some (400, []) }
    ensures second_to { refusal_of own (invite_with (field Name.To (codes "<sip:help@host.com>") ∷ [])) false ≡ Some (400, []) }
    ensures many_hops { refusal_of own (invite_with (field Name.MaxForwards (codes "256") ∷ [])) false ≡ Some (400, []) }
    ensures second_max_forwards { refusal_of own (invite_with (field Name.MaxForwards (codes "70") ∷ field Name.MaxForwards (codes "70") ∷ [])) false
        ≡ Some (400, []) }
    ensures via { refusal_of own (invite_with (field Name.Via (codes "SIP/2.0/UDP") ∷ [])) false ≡ Some (400, []) }
    ensures route { refusal_of own (invite_with (field Name.Route (codes "sip:host.com") ∷ [])) false ≡ Some (400, []) }
    ensures record_route { refusal_of own (invite_with (field Name.RecordRoute (codes "sip:host.com") ∷ [])) false ≡ Some (400, []) }
    ensures contact { refusal_of own (invite_with (field Name.Contact (codes "<sip:@host>") ∷ [])) false ≡ Some (400, []) }
    ensures other_contact { refusal_of own (invite_with (field Name.Contact (codes "<tel:+1>") ∷ [])) false ≡ None }
{}

/// A Request-URI that begins with `sip:` and is none is a bad request, and one with parameters and headers isn't, but
/// with a parameter that stands twice; one of another scheme, `sips` among them, and one without a scheme, are of
/// another scheme, whatever follows.
#[tactic(auto, unfolding(sip_uri::specs::Reading::reading_of, sip_uri::specs::Reading::rest_of, sip_header::specs::CoreFields::core_in))]
pub fn request_uri_statuses()
    ensures bad { refusal_of own (invite_to (codes "SIP:@host.com") []) false ≡ Some (400, []) }
    ensures parameters { refusal_of own (invite_to (codes "sip:help@host.com;user=phone?subject=") []) false ≡ None }
    ensures repeated_parameter { refusal_of own (invite_to (codes "sip:help@host.com;lr;LR") []) false ≡ Some (400, []) }
    ensures secure { refusal_of own (invite_to (codes "sips:help@host.com") []) false ≡ Some (416, []) }
    ensures bad_secure { refusal_of own (invite_to (codes "sips:@host.com") []) false ≡ Some (416, []) }
    ensures no_scheme { refusal_of own (invite_to (codes "help") []) false ≡ Some (416, []) }
{}

/// A REGISTER needs a `sip` or `sips` URI in To and in each Contact, of at most 512 bytes, and Require counts in it,
/// and not Proxy-Require; a Route of its doesn't matter.
#[tactic(auto, unfolding(sip_uri::specs::Reading::reading_of, sip_uri::specs::Reading::rest_of, sip_header::specs::CoreFields::core_in))]
pub fn register_statuses()
    ensures to { refusal_of own (register (codes "<tel:+1>") []) false ≡ Some (400, []) }
    ensures contact { refusal_of own (register_with (field Name.Contact (codes "<tel:+1>") ∷ [])) false ≡ Some (400, []) }
    ensures star { refusal_of own (register_with (field Name.Contact (codes "*") ∷ [])) false ≡ None }
    ensures long { refusal_of own (register_with (long_contact 509 ∷ [])) false ≡ Some (400, []) }
    ensures not_too_long { refusal_of own (register_with (long_contact 508 ∷ [])) false ≡ None }
    ensures require { refusal_of own (register_with (field Name.Require (codes "path") ∷ [])) false ≡ Some (420, codes "path") }
    ensures proxy_require { refusal_of own (register_with (field Name.ProxyRequire (codes "a") ∷ [])) false ≡ None }
    ensures route { refusal_of own (register_with (field Name.Route (codes "<sip:far.net>") ∷ [])) false ≡ None }
{}

/// Outside a dialog no Route may be left but this server's own, nor but one that goes back into the Request-URI; in a
/// dialog the dialog decides. Require is no matter of a proxy.
#[tactic(auto, unfolding(sip_uri::specs::Reading::reading_of, sip_uri::specs::Reading::rest_of, sip_header::specs::CoreFields::core_in))]
pub fn route_statuses()
    ensures own_route { refusal_of own (invite_with (field Name.Route (codes "<sip:sip.host.com:5060;lr>") ∷ [])) false ≡ None }
    ensures restored { refusal_of own (invite_to (codes "sip:sip.host.com:5060;lr") (field Name.Route (codes "<sip:help@host.com>") ∷ []))
        false ≡ None }
    ensures other { refusal_of own (invite_with (field Name.Route (codes "<sip:far.net>") ∷ [])) false ≡ Some (400, []) }
    ensures own_and_other { refusal_of own (invite_with
        (field Name.Route (codes "<sip:host.com;lr>") ∷ field Name.Route (codes "<sip:far.net;lr>") ∷ []))
        false ≡ Some (400, []) }
    ensures no_bad_request { is_bad_request own (invite_with
        (field Name.Route (codes "<sip:host.com;lr>") ∷ field Name.Route (codes "<sip:far.net;lr>") ∷ []))
        false ≡ false }
    ensures in_dialog { refusal_of own (invite (codes "sip:help@host.com") (codes "SIP/2.0")
        (fields_with (field Name.To (codes "<sip:help@host.com>;tag=t1") ∷ field Name.CSeq (codes "1 INVITE")
        ∷ field Name.Route (codes "<sip:far.net>") ∷ []))) false ≡ None }
    ensures require { refusal_of own (invite_with (field Name.Require (codes "100rel") ∷ [])) false ≡ None }
{}
