ghost use Rattle.std.specs.Prelude.{◌≡◌, [], ◌∷◌, codes, true, false, Some, None};
ghost use Rattle.sip_uri.specs.Uri.{text_of};
ghost use Rattle.sip_header.specs.FieldExamples.{uri_at};
ghost use Rattle.sip_route.specs.Own.{is_own_host_port, record_route_uri};
ghost use Rattle.sip_route.specs.Way.{is_record_route, way_of};
ghost use Rattle.sip_route.specs.Examples.{own, invite_by};

/// The host of this server and its domain in any case, and its address; a port by its number; `sips`. Another port
/// or another host is none of its places.
pub fn own_host_port_example()
    ensures host { is_own_host_port own (uri_at (codes "SIP.Host.com") None) ≡ true }
    ensures domain { is_own_host_port own (uri_at (codes "Host.com") (Some (codes "05060"))) ≡ true }
    ensures address { is_own_host_port own (uri_at (codes "127.0.0.1") None) ≡ true }
    ensures other_port { is_own_host_port own (uri_at (codes "host.com") (Some (codes "5070"))) ≡ false }
    ensures other_host { is_own_host_port own (uri_at (codes "pc.host.com") None) ≡ false }
{}

/// The URI that this server puts into Record-Route; without `lr`, and with `lr` and no port, it's another.
pub fn record_route_example()
    ensures text { text_of (record_route_uri own) ≡ codes "sip:sip.host.com:5060;lr" }
    ensures own { is_record_route own (record_route_uri own) ≡ true }
    ensures escaped { is_record_route own (record (record_route_uri own) { parameters = record { name = codes "%6CR"; value = None } ∷ [] }) ≡ true }
    ensures no_lr { is_record_route own (record (record_route_uri own) { parameters = [] }) ≡ false }
    ensures no_port { is_record_route own (record (record_route_uri own) { port = None }) ≡ false }
{}

/// A first Route that names this server is taken off, and a second one isn't; one behind another place stays, and so does one of
/// another scheme.
#[tactic(auto, unfolding(sip_uri::specs::Reading::reading_of, sip_uri::specs::Reading::rest_of))]
pub fn way_example()
    ensures first { way_of own (invite_by (codes "sip:a@far.net") (codes "<sips:x@host.com>" ∷ codes "<sip:sip.host.com:5060>" ∷ []))
        ≡ record { uri = codes "sip:a@far.net"; routes = codes "<sip:sip.host.com:5060>" ∷ [] } }
    ensures behind { way_of own (invite_by (codes "sip:a@far.net") (codes "<sip:far.net>" ∷ codes "<sip:host.com>" ∷ []))
        ≡ record { uri = codes "sip:a@far.net"; routes = codes "<sip:far.net>" ∷ codes "<sip:host.com>" ∷ [] } }
    ensures other_scheme { way_of own (invite_by (codes "tel:+1") (codes "<x:host.com>" ∷ []))
        ≡ record { uri = codes "tel:+1"; routes = codes "<x:host.com>" ∷ [] } }
{}

/// Where a strict router put this server's own Record-Route into the Request-URI, the last Route comes back there, with its scheme in
/// lower case; then a first
/// Route of this server is taken off. Without a Route the Request-URI stays, and so it does without `lr`. This server's own Record-
/// Route is taken off Route.
#[tactic(auto, unfolding(sip_uri::specs::Reading::reading_of, sip_uri::specs::Reading::rest_of))]
pub fn restored_example()
    ensures last { way_of own (invite_by (codes "sip:sip.host.com:5060;lr")
        (codes "<sip:far.net;lr>" ∷ codes "\"B\" <SIP:b@far.net;user=phone>" ∷ []))
        ≡ record { uri = codes "sip:b@far.net;user=phone"; routes = codes "<sip:far.net;lr>" ∷ [] } }
    ensures only { way_of own (invite_by (codes "sip:sip.host.com:5060;lr") (codes "<sip:help@host.com>" ∷ []))
        ≡ record { uri = codes "sip:help@host.com"; routes = [] } }
    ensures own_and_last { way_of own (invite_by (codes "sip:sip.host.com:5060;lr")
        (codes "<sip:host.com;lr>" ∷ codes "<sip:a@far.net>" ∷ [])) ≡ record { uri = codes "sip:a@far.net"; routes = [] } }
    ensures no_route { way_of own (invite_by (codes "sip:sip.host.com:5060;lr") []) ≡ record { uri = codes "sip:sip.host.com:5060;lr"; routes = [] } }
    ensures no_lr { way_of own (invite_by (codes "sip:sip.host.com:5060") (codes "<sip:a@far.net>" ∷ []))
        ≡ record { uri = codes "sip:sip.host.com:5060"; routes = codes "<sip:a@far.net>" ∷ [] } }
    ensures own_route { way_of own (invite_by (codes "sip:a@far.net") (codes "<sip:sip.host.com:5060;lr>" ∷ codes "<sip:far.net;lr>" ∷ []))
        ≡ record { uri = codes "sip:a@far.net"; routes = codes "<sip:far.net;lr>" ∷ [] } }
{}
