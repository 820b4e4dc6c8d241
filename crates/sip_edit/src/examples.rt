ghost use Rattle.std.specs.Prelude.{◌≡◌, codes};
ghost use Rattle.sip_edit.specs.Examples;
ghost use Rattle.sip_edit.specs.ReceivedRequest.{response_address};
ghost use Rattle.sip_edit.specs.TopVia.{received_via};

/// A Via with `rport` whose sent-by is a name.
pub fn rport_example()
    ensures { received_via (codes "SIP/2.0/UDP pc.host.com:5070;branch=z9hG4bKinv1;rport") Examples.client
        ≡ codes "SIP/2.0/UDP pc.host.com:5070;branch=z9hG4bKinv1;rport=5070;received=127.0.0.1" }
{}

/// A Via that came with another address in `received`, and whose sent-by is the source. What stands in
/// quotes stays.
pub fn received_example()
    ensures { received_via (codes "SIP/2.0/UDP 127.0.0.1; Received = 10.0.0.1 ;branch=z9;x=\";received=1\"") Examples.client
        ≡ codes "SIP/2.0/UDP 127.0.0.1;branch=z9;x=\";received=1\"" }
{}

/// Where the answers to requests from 127.0.0.1:5070 go: with an `rport`, with a port in sent-by, and with
/// neither.
pub fn address_example()
    ensures rport { response_address (Examples.with_via (codes "SIP/2.0/UDP pc.host.com:5062;rport")) Examples.client ≡ Examples.client }
    ensures sent_by { response_address (Examples.with_via (codes "SIP/2.0/UDP pc.host.com:5062")) Examples.client
        ≡ record Examples.client { port = 5062 } }
    ensures default { response_address (Examples.with_via (codes "SIP/2.0/UDP pc.host.com")) Examples.client
        ≡ record Examples.client { port = 5060 } }
{}
