ghost use Rattle.std.specs.Prelude.{◌≡◌, [], ◌∷◌, codes, Some, None};
ghost use Rattle.sip_uri.specs.declared.scheme.Scheme.{Scheme};
ghost use Rattle.sip_uri.specs.Examples.{user_at, with_parameter, valued};
ghost use Rattle.sip_uri.specs.Addresses.{ip_of};
ghost use Rattle.sip_hops.specs.HostAddress.{address_of};
ghost use Rattle.sip_hops.specs.Hop.{hop_of};
ghost use Rattle.sip_hops.specs.Examples.{sample_addresses, sample_hops, pc, by_number, at_port, local};

/// `sip:x@PC.host.com` goes to 127.0.0.1:5091, also with `:5060` and `:05060`; with `:5070` it has no
/// address, as `sips:x@PC.host.com` and a host that isn't in the table. `sip:x@127.0.0.1` goes to
/// port 5060 there, with a port to that port; `127.0.0.01` and `127.0.0.256` are names.
pub fn hop_address()
    ensures in_table { address_of sample_addresses pc ≡ Some (local 5091) }
    ensures default_port { address_of sample_addresses (at_port pc (codes "5060")) ≡ Some (local 5091) }
    ensures leading_zero { address_of sample_addresses (at_port pc (codes "05060")) ≡ Some (local 5091) }
    ensures other_port { address_of sample_addresses (at_port pc (codes "5070")) ≡ None }
    ensures sips { address_of sample_addresses (record pc { scheme = Scheme.Sips }) ≡ None }
    ensures unknown { address_of sample_addresses (user_at (codes "x") (codes "far.net")) ≡ None }
    ensures dotted { address_of sample_addresses by_number ≡ Some (local 5060) }
    ensures dotted_port { address_of sample_addresses (at_port by_number (codes "5082")) ≡ Some (local 5082) }
    ensures no_number { ip_of (codes "127.0.0.01") ≡ None }
    ensures too_large { ip_of (codes "127.0.0.256") ≡ None }
    ensures zeros { ip_of (codes "0.10.0.255") ≡ Some (0 ∷ 10 ∷ 0 ∷ 255 ∷ []) }
    ensures three { ip_of (codes "127.0.1") ≡ None }
    ensures five { ip_of (codes "127.0.0.1.") ≡ None }
{}

/// A `maddr`, and a `transport` other than udp or without a value, leave a URI without an address, also
/// where the name has escapes; `transport=udp` in any case doesn't, nor do other parameters.
pub fn parameters_of_an_address()
    ensures maddr { address_of sample_addresses (with_parameter pc (valued (codes "maddr") (codes "127.0.0.1"))) ≡ None }
    ensures tcp { address_of sample_addresses (with_parameter pc (valued (codes "transport") (codes "tcp"))) ≡ None }
    ensures escaped { address_of sample_addresses (with_parameter pc (valued (codes "%74ransport") (codes "tcp"))) ≡ None }
    ensures no_value { address_of sample_addresses (with_parameter pc (record { name = codes "transport"; value = None })) ≡ None }
    ensures udp { address_of sample_addresses (with_parameter pc (valued (codes "Transport") (codes "UDP"))) ≡ Some (local 5091) }
    ensures lr { address_of sample_addresses (with_parameter pc (record { name = codes "lr"; value = None })) ≡ Some (local 5091) }
{}

/// The sample's hop, `gw`, is at 127.0.0.1:5090, and there is no second. Of two, each is at its own place.
pub fn hop_at_a_place()
    ensures gw { hop_of sample_hops 0 ≡ Some (local 5090) }
    ensures no_second { hop_of sample_hops 1 ≡ None }
    ensures second { hop_of (record { name = codes "pbx"; address = local 5092 } ∷ sample_hops) 1 ≡ Some (local 5090) }
{}
