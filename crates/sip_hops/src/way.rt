ghost use Rattle.std.specs.Prelude.{◌≡◌};
ghost use Rattle.std.specs.List.{list_any};
ghost use Rattle.sip_hops.specs.HostAddress as Definitions;

use sip_text::Bytes;
use sip_uri::{Scheme, Uri, UriParameter, port_value};
use sip_uri_equality::says_same_no_case;

/// Whether a transport is udp, in any case, escapes resolved. One without a value is not.
fn is_udp(value: &Option<Bytes>) -> bool
    ensures { result ≡ Definitions.is_udp value.now }
{
    match value {
        Some(value) => says_same_no_case(value.as_slice(), b"udp"),
        None => false,
    }
}

/// Whether a parameter asks for another way than UDP to the host: `maddr`, or a `transport` other than udp
/// (RFC 3261 19.1.1).
fn leads_elsewhere(parameter: &UriParameter) -> bool
    ensures { result ≡ Definitions.leads_elsewhere parameter.now }
{
    let name = parameter.name.as_slice();
    if says_same_no_case(name, b"maddr") {
        return true;
    }
    says_same_no_case(name, b"transport") && !is_udp(&parameter.value)
}

fn some_leads_elsewhere(parameters: &[UriParameter]) -> bool
    ensures { result ≡ list_any Definitions.leads_elsewhere parameters.now }
{
    parameters
        .iter()
        .any(|parameter| leads_elsewhere(parameter))
}

/// Whether a URI may have an address: it is a `sip` one, and asks for no other way than UDP to its host. Takes no memory.
pub fn is_by_udp(uri: &Uri) -> bool
    ensures { result ≡ Definitions.is_by_udp uri.now }
{
    uri.scheme == Scheme::Sip && !some_leads_elsewhere(uri.parameters.as_slice())
}

/// The number of a port, 5060 where none is written (RFC 3261 19.1.2). Takes no memory.
pub fn port_or_default(port: &Option<Bytes>) -> Option<u16>
    ensures { result ≡ Definitions.port_or_default port.now }
{
    match port {
        Some(digits) => port_value(digits.as_slice()),
        None => Some(5060),
    }
}
