ghost use Rattle.std.specs.Prelude.{◌≡◌, [], codes, Some, None};
ghost use Rattle.sip_header.specs.Examples.{register_with};
ghost use Rattle.sip_transaction_table.specs.Key.{key_of};
ghost use Rattle.sip_transaction_table.specs.Examples.{request_by};

/// The key of a REGISTER.
pub fn key_example()
    ensures { key_of (register_with [])
        ≡ Some (record { branch = codes "z9hG4bKreg1"; host = codes "127.0.0.1"; port = 5062; method = codes "REGISTER" }) }
{}

/// The key of an ACK is its INVITE's; a sent-by without a port counts as 5060, and its host as in lower case, while a
/// branch is taken byte by byte; without the magic cookie there is no key (RFC 3261 8.1.1.7, 17.2.3).
pub fn key_parts()
    ensures invite { key_of (request_by (codes "INVITE") (codes "SIP/2.0/UDP pc.host.com:5070;branch=z9hG4bKinv1"))
        ≡ Some (record { branch = codes "z9hG4bKinv1"; host = codes "pc.host.com"; port = 5070; method = codes "INVITE" }) }
    ensures ack { key_of (request_by (codes "ACK") (codes "SIP/2.0/UDP pc.host.com:5070;branch=z9hG4bKinv1"))
        ≡ Some (record { branch = codes "z9hG4bKinv1"; host = codes "pc.host.com"; port = 5070; method = codes "INVITE" }) }
    ensures cancel { key_of (request_by (codes "CANCEL") (codes "SIP/2.0/UDP pc.host.com:5070;branch=z9hG4bKinv1"))
        ≡ Some (record { branch = codes "z9hG4bKinv1"; host = codes "pc.host.com"; port = 5070; method = codes "CANCEL" }) }
    ensures no_port { key_of (request_by (codes "INVITE") (codes "SIP/2.0/UDP pc.host.com;branch=z9hG4bKinv1"))
        ≡ Some (record { branch = codes "z9hG4bKinv1"; host = codes "pc.host.com"; port = 5060; method = codes "INVITE" }) }
    ensures host_case { key_of (request_by (codes "INVITE") (codes "SIP/2.0/UDP PC.Host.COM;branch=z9hG4bKINV1"))
        ≡ Some (record { branch = codes "z9hG4bKINV1"; host = codes "pc.host.com"; port = 5060; method = codes "INVITE" }) }
    ensures no_cookie { key_of (request_by (codes "INVITE") (codes "SIP/2.0/UDP pc.host.com;branch=z9hg4bkinv1")) ≡ None }
{}
