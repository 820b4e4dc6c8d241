ghost use Rattle.std.specs.Prelude.{◌≡◌, [], ◌∷◌, Some, None, codes};
ghost use Rattle.sip_uri.specs.Addresses;

/// The text of 127.0.0.1.
pub fn ip_text_example()
    ensures { Addresses.ip_text (127 ∷ 0 ∷ 0 ∷ 1 ∷ []) ≡ codes "127.0.0.1" }
{}

/// An address with its port; neither leading zeros nor a number above 255 or a port 0 are read.
pub fn addr_example()
    ensures read { Addresses.addr_of (codes "127.0.0.1:5062") ≡ Some (record { ip = 127 ∷ 0 ∷ 0 ∷ 1 ∷ []; port = 5062 }) }
    ensures zero_in_front { Addresses.addr_of (codes "127.0.0.01:5062") ≡ None }
    ensures too_large { Addresses.addr_of (codes "127.0.0.256:5062") ≡ None }
    ensures no_port { Addresses.addr_of (codes "127.0.0.1:0") ≡ None }
    ensures five { Addresses.addr_of (codes "127.0.0.1.2:5062") ≡ None }
{}
