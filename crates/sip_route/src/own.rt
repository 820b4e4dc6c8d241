//! What of a message names this server: a host, a URI (RFC 3261 16.4, 16.12), a Via (16.3 step 4); and what it puts into Record-Route.
ghost use Rattle.std.specs.Prelude.{◌≡◌, ◌&&◌, ◌==◌, IfOk, [], ◌∷◌, codes, decimal, None};
ghost use Rattle.std.specs.List.{list_any};
ghost use Rattle.std.specs.Option.{unwrap_or};
ghost use Rattle.std.specs.Str.{bytes_eq};
ghost use Rattle.sip_text.specs.Words.{is_same_text};
ghost use Rattle.sip_uri.specs.Addresses.{ip_text};

use sip_header::Via;
use sip_text::{Bytes, Items, same_no_case};
use sip_uri::{Scheme, Uri, UriParameter, ip_of};
use std::alloc::{AllocError, Global};

/// Where this server is: what it calls itself in Via and Record-Route, the domains that it serves, and the address
/// at which it serves them.
#[derive(Clone, Drop)]
pub struct Own {
    /// A host name.
    pub host: Bytes,
    pub port: u16,
    /// Host names, in the order of the configuration.
    pub domains: Items<Bytes>,
    /// The IPv4 address.
    pub ip: [u8; 4],
}

/// Whether a text is the address of four numbers in dotted form.
#[tactic(auto, using(crate::proofs::Address::is_text, crate::proofs::Address::no_text))]
fn is_dotted(text: &[u8], first: u8, second: u8, third: u8, fourth: u8) -> bool
    ensures { result ≡ bytes_eq (ip_text (first ∷ second ∷ third ∷ fourth ∷ [])) text.now }
{
    match ip_of(text) {
        Some(written) => written == [first, second, third, fourth],
        None => false,
    }
}

/// Whether a text is an address in dotted form, without a leading zero in any of its numbers. Takes no memory.
pub fn is_address(ip: [u8; 4], text: &[u8]) -> bool
    ensures { result ≡ bytes_eq (ip_text ip) text.now }
{
    is_dotted(text, ip[0], ip[1], ip[2], ip[3])
}

/// Whether a host is one of some domains, in any case.
fn is_one_of(domains: &[Bytes], host: &[u8]) -> bool
    ensures { result ≡ list_any (λ domain. is_same_text domain host.now) domains.now }
{
    domains
        .iter()
        .any(|domain| same_no_case(domain.as_slice(), host))
}

/// The parameter `lr`, alone (RFC 3261 19.1.1). `AllocError` is the only refusal.
pub fn loose_routing(alloc: Global) -> Result<Items<UriParameter>, AllocError>
    ensures { IfOk result (λ parameters. parameters ≡ record { name = codes "lr"; value = None } ∷ []) }
{
    let mut parameters = Items::new(alloc);
    let name = Bytes::copy(alloc, b"lr")?;
    parameters.push(UriParameter { name, value: None })?;
    Ok(parameters)
}

/// A number in decimal.
fn digits(alloc: Global, number: u16) -> Result<Bytes, AllocError>
    ensures { IfOk result (λ text. text ≡ decimal number) }
{
    let mut text = Bytes::new(alloc);
    text.push_decimal(u64::from(number))?;
    Ok(text)
}

impl Own {
    ghost use Rattle.sip_route.specs.Own.{is_own_host, is_own_host_port, is_own_via, record_route_uri};

    /// Whether a host is the one that this server calls itself or a domain that it serves, in any case, or its
    /// address in dotted form. Takes no memory.
    pub fn is_own_host(&self, host: &[u8]) -> bool
        ensures { result ≡ is_own_host self.now host.now }
    {
        same_no_case(self.host.as_slice(), host)
            || is_one_of(self.domains.as_slice(), host)
            || is_address(self.ip, host)
    }

    /// Whether a URI names this server (RFC 3261 16.4, 16.12): its host is an own one, and its port, 5060 where none
    /// is written, is the port. Takes no memory.
    pub fn is_own_host_port(&self, uri: &Uri) -> bool
        ensures { result ≡ is_own_host_port self.now uri.now }
    {
        self.is_own_at(uri.host.as_slice(), uri.port_number())
    }

    /// Whether a host and the number of a port, 5060 where none is written, are this server's.
    pub(crate) fn is_own_at(&self, host: &[u8], port: Option<u16>) -> bool
        ensures { result ≡ (is_own_host self.now host.now && unwrap_or port 5060 == self.now.port) }
    {
        self.is_own_host(host) && port.unwrap_or(5060) == self.port
    }

    /// Whether a Via is this server's: its sent-by is the host that it calls itself, in any case, and its port, 5060
    /// where none is written (RFC 3261 16.3 step 4, 18.1.2). Takes no memory.
    pub fn is_own_via(&self, via: &Via<'_>) -> bool
        ensures { result ≡ is_own_via self.now via.now }
    {
        same_no_case(self.host.as_slice(), via.host.as_slice())
            && via.port.unwrap_or(5060) == self.port
    }

    /// The URI that this server puts into Record-Route, `sip:HOST:PORT;lr` (RFC 3261 16.6 step 4). `AllocError` is
    /// the only refusal.
    pub fn record_route_uri(&self, alloc: Global) -> Result<Uri, AllocError>
        ensures { IfOk result (λ uri. uri ≡ record_route_uri self.now) }
    {
        let host = self.host.clone()?;
        let port = digits(alloc, self.port)?;
        let parameters = loose_routing(alloc)?;
        Ok(Uri {
            scheme: Scheme::Sip,
            userinfo: None,
            host,
            port: Some(port),
            parameters,
            headers: Items::new(alloc),
        })
    }
}
