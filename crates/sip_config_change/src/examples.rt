ghost use Rattle.std.specs.Prelude.{◌≡◌, [], ◌∷◌, codes, Some, None};
ghost use Rattle.sip_config_types.specs.Sample.{sample};
ghost use Rattle.sip_config_change.specs.declared.key.FrameKey.TheVariants as Key;
ghost use Rattle.sip_config_change.specs.Examples.{other_policy, at, in_realm};
ghost use Rattle.sip_config_change.specs.Frame.{frame_key_of};

/// Users, rules, hops, addresses, the offset and the port that is bound may change.
pub fn policy_example()
    ensures { frame_key_of sample other_policy ≡ None }
{}

/// Each key of the frame. A letter in the other case is another host, domain or realm, and so are two domains in another order.
pub fn key_example()
    ensures host { frame_key_of sample (at (record sample.own { host = codes "SIP.host.com" })) ≡ Some Key.Host }
    ensures port { frame_key_of sample (at (record sample.own { port = 5061 })) ≡ Some Key.Port }
    ensures address { frame_key_of sample (at (record sample.own { ip = 127 ∷ 0 ∷ 0 ∷ 2 ∷ [] })) ≡ Some Key.Address }
    ensures domain { frame_key_of sample (at (record sample.own { domains = codes "Host.com" ∷ [] })) ≡ Some Key.Domains }
    ensures more_domains { frame_key_of sample (at (record sample.own { domains = codes "host.com" ∷ codes "far.net" ∷ [] })) ≡ Some Key.Domains }
    ensures order { frame_key_of (at (record sample.own { domains = codes "host.com" ∷ codes "far.net" ∷ [] }))
        (at (record sample.own { domains = codes "far.net" ∷ codes "host.com" ∷ [] })) ≡ Some Key.Domains }
    ensures realm { frame_key_of sample (in_realm (codes "TestRealm@host.com")) ≡ Some Key.Realm }
{}

/// Where several differ, the first of them is given.
pub fn first_key_example()
    ensures { frame_key_of (in_realm (codes "office")) (at (record sample.own { port = 5061; ip = 127 ∷ 0 ∷ 0 ∷ 2 ∷ [] })) ≡ Some Key.Port }
{}
