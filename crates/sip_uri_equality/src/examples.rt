ghost use Rattle.std.specs.Prelude.{◌≡◌, codes, Some, true, false};
ghost use Rattle.sip_uri.specs.Examples.{bob, bob_at_5060, bob_by_udp, escaped_alice, alice, carol, carol_secured, carol_unsecured};
ghost use Rattle.sip_uri_equality.specs.Equality.{same};
ghost use Rattle.sip_uri_equality.specs.Examples.{are_equal};

/// User and password are compared with case, and a user or a password in one URI alone never matches. A host is
/// compared without case, another host is another one, and so is another port or scheme (RFC 3261 19.1.4).
#[tactic(auto, unfolding(sip_uri::specs::Reading::reading_of, sip_uri::specs::Reading::rest_of))]
pub fn users_hosts_and_ports()
    ensures user_case { are_equal (codes "SIP:ALICE@AtLanTa.CoM;Transport=udp") (codes "sip:alice@AtLanTa.CoM;Transport=UDP") ≡ Some false }
    ensures no_user { are_equal (codes "sip:atlanta.com") (codes "sip:alice@atlanta.com") ≡ Some false }
    ensures one_password { are_equal (codes "sip:alice:x@atlanta.com") (codes "sip:alice@atlanta.com") ≡ Some false }
    ensures password_case { are_equal (codes "sip:alice:x@atlanta.com") (codes "sip:alice:X@atlanta.com") ≡ Some false }
    ensures host_case { are_equal (codes "sip:alice:x@atlanta.com") (codes "sip:alice:x@AtLanTa.CoM") ≡ Some true }
    ensures host { are_equal (codes "sip:bob@phone21.boxesbybob.com") (codes "sip:bob@192.0.2.4") ≡ Some false }
    ensures port { are_equal (codes "sip:bob@biloxi.com") (codes "sip:bob@biloxi.com:6000;transport=tcp") ≡ Some false }
    ensures scheme { are_equal (codes "sip:bob@biloxi.com") (codes "sips:bob@biloxi.com") ≡ Some false }
{}

/// A parameter that only one URI has is ignored, unless it is `user`, `ttl`, `method`, `maddr` or, here,
/// `transport`, with a value or without; one that both have must agree; their order says nothing
/// (RFC 3261 19.1.4).
#[tactic(auto, unfolding(sip_uri::specs::Reading::reading_of, sip_uri::specs::Reading::rest_of))]
pub fn parameters_of_one_alone()
    ensures ignored { are_equal (codes "sip:carol@chicago.com") (codes "sip:carol@chicago.com;newparam=5") ≡ Some true }
    ensures of_each { are_equal (codes "sip:carol@chicago.com;newparam=5") (codes "sip:carol@chicago.com;security=on") ≡ Some true }
    ensures user { are_equal (codes "sip:1@h;user=phone") (codes "sip:1@h") ≡ Some false }
    ensures ttl { are_equal (codes "sip:h") (codes "sip:h;ttl=15") ≡ Some false }
    ensures method { are_equal (codes "sip:h;METHOD=INVITE") (codes "sip:h") ≡ Some false }
    ensures maddr { are_equal (codes "sip:h") (codes "sip:h;maddr=239.255.255.1") ≡ Some false }
    ensures transport { are_equal (codes "sip:h;transport") (codes "sip:h") ≡ Some false }
    ensures without_value { are_equal (codes "sip:h;lr") (codes "sip:h;lr=x") ≡ Some false }
    ensures order { are_equal (codes "sip:biloxi.com;transport=tcp;method=REGISTER?to=sip:bob%40biloxi.com")
        (codes "sip:biloxi.com;method=REGISTER;transport=tcp?to=sip:bob%40biloxi.com") ≡ Some true }
{}

/// URI headers match in any order; with another value, or in one URI alone, they don't (RFC 3261 19.1.4).
#[tactic(auto, unfolding(sip_uri::specs::Reading::reading_of, sip_uri::specs::Reading::rest_of))]
pub fn headers_in_any_order()
    ensures order { are_equal (codes "sip:alice@atlanta.com?subject=project%20x&priority=urgent")
        (codes "sip:alice@atlanta.com?priority=urgent&subject=project%20x") ≡ Some true }
    ensures value { are_equal (codes "sip:alice@atlanta.com?priority=urgent") (codes "sip:alice@atlanta.com?priority=normal") ≡ Some false }
    ensures missing { are_equal (codes "sip:carol@chicago.com") (codes "sip:carol@chicago.com?Subject=next%20meeting") ≡ Some false }
    ensures one_more { are_equal (codes "sip:carol@chicago.com?a=1&a=1") (codes "sip:carol@chicago.com?a=1") ≡ Some false }
{}

/// An escaped character is the character itself, but a reserved one isn't: `;`, `/`, `?`, `:`, `@`, `&`, `=`, `+`,
/// `$` and `,` (RFC 3261 19.1.4, 25.1). The digits of an escape have no case.
#[tactic(auto, unfolding(sip_uri::specs::Reading::reading_of, sip_uri::specs::Reading::rest_of))]
pub fn escaped_characters()
    ensures unreserved { are_equal (codes "sip:%61lice@atlanta.com") (codes "sip:alice@atlanta.com") ≡ Some true }
    ensures reserved { are_equal (codes "sip:a%3Bb@atlanta.com") (codes "sip:a;b@atlanta.com") ≡ Some false }
    ensures comma { are_equal (codes "sip:a%2Cb@atlanta.com") (codes "sip:a,b@atlanta.com") ≡ Some false }
    ensures both_escaped { are_equal (codes "sip:a%3bb@atlanta.com") (codes "sip:a%3Bb@atlanta.com") ≡ Some true }
{}

/// `sip:carol@chicago.com` equals itself with `;security=on` and with `;security=off`, and these two
/// differ.
pub fn equality_is_not_transitive()
    ensures on { same carol carol_secured ≡ true }
    ensures off { same carol carol_unsecured ≡ true }
    ensures differ { same carol_secured carol_unsecured ≡ false }
{}

/// `sip:bob@biloxi.com` equals neither `sip:bob@biloxi.com:5060` nor
/// `sip:bob@biloxi.com;transport=udp`; `sip:%61lice@atlanta.com;transport=TCP` equals
/// `sip:alice@AtLanTa.CoM;Transport=tcp` (RFC 3261 19.1.4).
pub fn uri_equality()
    ensures port { same bob bob_at_5060 ≡ false }
    ensures transport { same bob bob_by_udp ≡ false }
    ensures equal { same escaped_alice alice ≡ true }
{}
