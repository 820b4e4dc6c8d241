ghost use Rattle.std.specs.Prelude.{◌≡◌, [], ◌∷◌, codes, true, false};
ghost use Rattle.sip_message_fields.specs.declared.field_name.FieldName.TheVariants as Name;
ghost use Rattle.sip_header.specs.FieldExamples.{fields_of};
ghost use Rattle.sip_edit.specs.Examples.{client};
ghost use Rattle.sip_edit.specs.TopVia.{received_via};
ghost use Rattle.test_definitions.specs.Edits.{biloxi, acks_routes, cancels_routes, first_values};

/// The source's address is told where the sent-by has another host (the example of RFC 3261 18.2.1), and wherever the client
/// asks for its port, also where the sent-by has that address (RFC 3581 4); an `rport` that has a value gets the source's port.
pub fn sources()
    ensures other_host { received_via (codes "SIP/2.0/UDP bobspc.biloxi.com:5060") biloxi ≡ codes "SIP/2.0/UDP bobspc.biloxi.com:5060;received=192.0.2.4" }
    ensures own_host { received_via (codes "SIP/2.0/UDP 192.0.2.4:5060") biloxi ≡ codes "SIP/2.0/UDP 192.0.2.4:5060" }
    ensures asked { received_via (codes "SIP/2.0/UDP 127.0.0.1:5070;branch=z9hG4bKa1;rport") client
        ≡ codes "SIP/2.0/UDP 127.0.0.1:5070;branch=z9hG4bKa1;rport=5070;received=127.0.0.1" }
    ensures with_value { received_via (codes "SIP/2.0/UDP 127.0.0.1:5070;rport=9") client
        ≡ codes "SIP/2.0/UDP 127.0.0.1:5070;rport=5070;received=127.0.0.1" }
{}

/// The ACK of a final answer, and the CANCEL, have the Routes of their request (RFC 3261 17.1.1.3, 9.1).
pub fn routes()
    ensures ack { acks_routes (codes "<sip:far.net;lr>" ∷ codes "<sip:p2.example.com;lr>" ∷ [])
        ≡ fields_of Name.Route (codes "<sip:far.net;lr>" ∷ codes "<sip:p2.example.com;lr>" ∷ []) }
    ensures cancel { cancels_routes (codes "<sip:far.net;lr>" ∷ codes "<sip:p2.example.com;lr>" ∷ [])
        ≡ fields_of Name.Route (codes "<sip:far.net;lr>" ∷ codes "<sip:p2.example.com;lr>" ∷ []) }
{}

/// This server's Record-Route stands in front of what goes to each target of a request that begins a dialog (RFC 3261 16.6 step
/// 4), and not in that of another one.
pub fn record_routes()
    ensures recorded { first_values true ≡ codes "<sip:sip.host.com:5060;lr>" ∷ [] }
    ensures not_recorded { first_values false ≡ codes "SIP/2.0/UDP pc.host.com:5070;branch=z9hG4bKinv1;rport" ∷ [] }
{}
