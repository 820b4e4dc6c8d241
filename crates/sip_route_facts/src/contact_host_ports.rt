ghost use Rattle.std.specs.Prelude.{◌≡◌, ◌||◌, IfOk};
ghost use Rattle.sip_message_fields.specs.FieldName.{is_same_name};
ghost use Rattle.sip_message_fields.specs.declared.field_name.FieldName.TheVariants as Name;
ghost use Rattle.sip_route_facts.specs.ContactHostPorts as Spec;

use crate::route_facts::HostPort;
use sip_dialog::item_in;
use sip_header::{AnyUri, placed_host_port};
use sip_hops::{is_by_udp, port_or_default};
use sip_message_fields::{FieldName, ViewField};
use sip_text::{Bytes, Items};
use sip_uri::Uri;
use std::alloc::{AllocError, Global};

/// Where a URI leads that may have an address (RFC 3261 19.1.1).
fn host_port_by_udp(alloc: Global, uri: &Uri) -> Result<Option<HostPort>, AllocError>
    ensures { IfOk result (λ host_port. host_port ≡ Spec.host_port_by_udp uri.now) }
{
    if !is_by_udp(uri) {
        return Ok(None);
    }
    let Some(port) = port_or_default(&uri.port) else {
        return Ok(None);
    };
    Ok(Some(HostPort {
        host: Bytes::copy(alloc, uri.host.as_slice())?,
        port,
    }))
}

/// The same of a URI of any scheme.
fn host_port_by(alloc: Global, uri: &AnyUri<'_>) -> Result<Option<HostPort>, AllocError>
    ensures { IfOk result (λ host_port. host_port ≡ Spec.host_port_by uri.now) }
{
    match uri {
        AnyUri::Sip(uri) => host_port_by_udp(alloc, uri),
        AnyUri::Other(_) => Ok(None),
    }
}

/// Whether a field is a Contact or a Record-Route.
fn gives_host_port(field: &ViewField<'_>) -> bool
    ensures { result ≡ (is_same_name field.now.name Name.Contact || is_same_name field.now.name Name.RecordRoute) }
{
    let name = field.name();
    name.is_same(&FieldName::Contact) || name.is_same(&FieldName::RecordRoute)
}

/// The same, of which a URI is made. It stands apart, so that no room is made for a URI where none is read.
#[inline(never)]
fn parsed_host_port(alloc: Global, field: &ViewField<'_>) -> Result<Option<HostPort>, AllocError>
    ensures { IfOk result (λ host_port. host_port ≡ Spec.host_port_in field.now) }
{
    match item_in(alloc, field)? {
        Some(item) => host_port_by(alloc, &item.uri),
        None => Ok(None),
    }
}

/// Where a Contact or a Record-Route leads, if it is one whose URI may have an address.
#[tactic(auto, using(crate::proofs::PlainPlaces::host_port_is, crate::proofs::PlainPlaces::no_host_port))]
fn host_port_in(alloc: Global, field: &ViewField<'_>) -> Result<Option<HostPort>, AllocError>
    ensures { IfOk result (λ host_port. host_port ≡ Spec.host_port_in field.now) }
{
    if !gives_host_port(field) {
        return Ok(None);
    }
    if let Some((host, port)) = placed_host_port(field.value().as_slice()) {
        return Ok(Some(HostPort {
            host: Bytes::copy(alloc, host)?,
            port: port.unwrap_or(5060),
        }));
    }
    parsed_host_port(alloc, field)
}

/// Where Contact and Record-Route of some fields lead, in their order, each whose URI may have an address (RFC 3261 12.1.1).
/// `AllocError` is the only refusal.
pub fn host_ports_in(alloc: Global, fields: &[ViewField<'_>]) -> Result<Items<HostPort>, AllocError>
    ensures { IfOk result (λ host_ports. host_ports ≡ Spec.host_ports_in fields.now) }
{
    let mut host_ports = Items::new(alloc);
    for field in fields {
        if let Some(host_port) = host_port_in(alloc, field)? {
            host_ports.push(host_port)?;
        }
    }
    Ok(host_ports)
}
