ghost use Rattle.std.specs.Prelude.{◌≡◌, false, true, List, [], ◌∷◌, codes, Some, None};
ghost use Rattle.sip_uri.specs.declared.uri.Uri.{Uri};
ghost use Rattle.sip_uri.specs.Examples.{user_at, with_parameter};
ghost use Rattle.sip_policy.specs.declared.decision.Decision.{Decision};
ghost use Rattle.sip_hops.specs.Examples.{sample_addresses, sample_hops, local};
ghost use Rattle.sip_targets.specs.declared.targets.Targets.{Targets};
ghost use Rattle.sip_targets.specs.Target.{target_uri};
ghost use Rattle.sip_targets.specs.Targets.{targets_of};
ghost use Rattle.sip_targets.specs.Examples.{invite_targets, known_on_sample, to_911, help_contact, marked_contact};

/// Mufasa's INVITE to `sip:911@host.com` goes to the gateway at 127.0.0.1:5090 with its Request-URI
/// unchanged, whatever is registered. alice's is allowed by rule 6, and `911` is no user: 404.
pub fn gateway()
    ensures staff { (contacts : List Uri) → invite_targets (codes "Mufasa") to_911 contacts ≡ Targets.Hop to_911 (local 5090) }
    ensures alice { (contacts : List Uri) → invite_targets (codes "alice") to_911 contacts ≡ Targets.NotFound }
{}

/// alice's INVITE to `sip:Mufasa@host.com` without a live binding: 480; to `sip:none@host.com`: 404. A
/// user's name in a foreign domain is no user's address, so where a rule allows it, it is 404, too; and
/// so is a host of the own domain without a user.
pub fn no_binding_no_user()
    ensures no_binding { invite_targets (codes "alice") (user_at (codes "Mufasa") (codes "host.com")) [] ≡ Targets.Unavailable }
    ensures no_user { (contacts : List Uri) → invite_targets (codes "alice") (user_at (codes "none") (codes "host.com")) contacts ≡ Targets.NotFound }
    ensures foreign_domain { (contacts : List Uri)
        → targets_of (Decision.Allow 6) (known_on_sample (user_at (codes "Mufasa") (codes "other.net")))
        (user_at (codes "Mufasa") (codes "other.net")) contacts sample_hops sample_addresses
        ≡ Targets.NotFound }
    ensures own_domain { known_on_sample (user_at (codes "M%75fasa") (codes "HOST.com")) ≡ true }
    ensures no_user_part { known_on_sample (record to_911 { userinfo = None }) ≡ false }
{}

/// An INVITE to `sip:help@host.com` goes to each live contact, here `sip:help@127.0.0.1:5082` at
/// 127.0.0.1:5082 and `sip:help@far.net`, which has no address.
pub fn call_to_help()
    ensures { invite_targets (codes "alice") (user_at (codes "help") (codes "host.com"))
        (help_contact ∷ user_at (codes "help") (codes "far.net") ∷ [])
        ≡ Targets.Bindings (record { uri = help_contact; address = Some (local 5082) }
        ∷ record { uri = user_at (codes "help") (codes "far.net"); address = None } ∷ []) }
{}

/// `sip:help@127.0.0.1:5082;%6dethod=BYE;lr?Subject=x` as a contact gives the target URI
/// `sip:help@127.0.0.1:5082;lr`.
pub fn target_of_a_contact()
    ensures { target_uri marked_contact ≡ with_parameter help_contact (record { name = codes "lr"; value = None }) }
{}
