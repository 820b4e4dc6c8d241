//! The top Via of a request with its source (RFC 3261 18.2.1; RFC 3581 4): what becomes of `received` and `rport`.
//! Where the responses go by it is in `received_request`.
ghost use Rattle.std.specs.Prelude.{◌≡◌, ◌++◌, ◌||◌, not, false, length, decimal, codes, is_some, IfOk, IfSome, OnOk, Some};
ghost use Rattle.std.specs.Str.{bytes_eq};
ghost use Rattle.sip_text.specs.Cuts.{parts_at};
ghost use Rattle.sip_text.specs.Lists.{trimmed};
ghost use Rattle.sip_route.specs.header.Parameters.{parameter_of};
ghost use Rattle.sip_route.specs.header.Via.{via_of};
ghost use Rattle.sip_uri.specs.Addresses.{ip_text};
ghost use Rattle.sip_uri.specs.declared.addr.Addr.{Addr};
ghost use Rattle.sip_edit.specs.ReceivedRequest.{address_by, at_port};
ghost use Rattle.sip_edit.specs.TopVia;

use crate::received_request::{asks_for_port, port_asked};
use sip_route::header::{Via, one_before_rport, parameter_of};
use sip_route::is_address;
use sip_text::{Buffer, Bytes, first_part, same_bytes, same_no_case, without_blanks};
use sip_uri::Addr;
use std::alloc::{AllocError, Global};

/// The most bytes that a Via gets from its source: the port of an `rport`, and a `received`.
const SOURCE_BYTES: usize = 31;

/// In longer values no parameter is looked up: they are cut at once.
const USUAL_LENGTH: usize = 256;

/// How many bytes stand before the first `=`.
fn length_before_equals(piece: &[u8]) -> usize
    ensures { result ≡ length (TopVia.before_equals piece.now) }
{
    piece.iter().take_while(|byte| **byte != b'=').count()
}

/// What stands before the first `=`.
#[tactic(auto, using(crate::proofs::Edits::front_is))]
fn before_equals(piece: &[u8]) -> &[u8]
    ensures { result.now ≡ TopVia.before_equals piece.now }
{
    let (front, _) = piece.split_at(length_before_equals(piece));
    front
}

/// The name of a parameter.
fn parameter_name(piece: &[u8]) -> &[u8]
    ensures { result.now ≡ trimmed (TopVia.before_equals piece.now) }
{
    without_blanks(before_equals(piece))
}

/// Adds a parameter of this name as it is written in the Via of a request that was received. Whether it is `rport` is known.
fn put_edited(
    out: &mut Buffer,
    port: u16,
    name: &[u8],
    piece: &[u8],
    is_port: bool,
) -> Result<(), AllocError>
    requires name { name.now ≡ trimmed (TopVia.before_equals piece.now) }
    requires port { is_port ≡ TopVia.is_parameter (codes "rport") piece.now }
    ensures { OnOk result (out.new ≡ out.old ++ TopVia.edited port piece.now) }
{
    if same_no_case(name, b"received") {
        return Ok(());
    }
    if is_port {
        out.extend(b";rport=")?;
        return out.push_decimal(u64::from(port));
    }
    out.extend(b";")?;
    out.extend(piece)
}

/// Adds a `.` and a number in decimal.
fn put_part(out: &mut Buffer, part: u8) -> Result<(), AllocError>
    ensures { OnOk result (out.new ≡ out.old ++ codes "." ++ decimal part) }
{
    out.extend(b".")?;
    out.push_decimal(u64::from(part))
}

/// Adds a `received` with this address.
fn put_received(out: &mut Buffer, ip: [u8; 4]) -> Result<(), AllocError>
    ensures { OnOk result (out.new ≡ out.old ++ codes ";received=" ++ ip_text ip) }
{
    out.extend(b";received=")?;
    out.push_decimal(u64::from(ip[0]))?;
    put_part(out, ip[1])?;
    put_part(out, ip[2])?;
    put_part(out, ip[3])
}

/// Whether the source's address is wanted: where the client asks for its port, or its sent-by has another host.
#[tactic(auto, using(crate::proofs::Unedited::wanted))]
fn is_wanted(host: &[u8], ip: [u8; 4], asks: bool) -> bool
    ensures { result ≡ (asks || not (bytes_eq host.now (ip_text ip))) }
{
    asks || !is_address(ip, host)
}

/// Adds the source's address, if it is wanted.
fn put_source(out: &mut Buffer, host: &[u8], from: Addr, asks: bool) -> Result<(), AllocError>
    ensures { OnOk result (out.new ≡ out.old ++ TopVia.source_of host.now from asks) }
{
    if !is_wanted(host, from.ip, asks) {
        return Ok(());
    }
    put_received(out, from.ip)
}

/// The value of a Via whose sent-by has this host, with its source.
fn with_source(alloc: Global, value: &[u8], host: &[u8], from: Addr) -> Result<Bytes, AllocError>
    ensures { IfOk result (λ edited. edited ≡ TopVia.with_source host.now from (parts_at 59 value.now)) }
{
    let (sent_by, mut rest) = first_part(value, b';');
    let mut out = Buffer::with_room(alloc, value.len().saturating_add(SOURCE_BYTES))?;
    out.extend(sent_by)?;
    let mut asks = false;
    while let Some(text) = rest {
        let (piece, behind) = first_part(text, b';');
        let name = parameter_name(piece);
        let is_port = same_no_case(name, b"rport");
        if is_port {
            asks = true;
        }
        put_edited(&mut out, from.port, name, piece, is_port)?;
        rest = behind;
    }
    put_source(&mut out, host, from, asks)?;
    Ok(out.into_bytes())
}

/// A Via's value, all of whose parameters stay, with its source's address where its sent-by has another.
fn with_address(alloc: Global, value: &[u8], host: &[u8], from: Addr) -> Result<Bytes, AllocError>
    ensures { IfOk result (λ edited. edited ≡ value.now ++ TopVia.source_of host.now from false) }
{
    let mut out = Buffer::with_room(alloc, value.len().saturating_add(SOURCE_BYTES))?;
    out.extend(value)?;
    put_source(&mut out, host, from, false)?;
    Ok(out.into_bytes())
}

/// Whether a Via has a parameter that doesn't go on as it stands, where it is known whether it asks for its port.
fn is_edited(via: &Via<'_>, asks: bool) -> bool
    requires { asks ≡ is_some (parameter_of (codes "rport") via.now.parameters) }
    ensures { result ≡ (is_some (parameter_of (codes "rport") via.now.parameters) || is_some (parameter_of (codes "received") via.now.parameters)) }
{
    asks || parameter_of(&via.parameters, b"received").is_some()
}

/// What stands before `;rport` at the end of a value.
fn before_rport(value: &[u8]) -> Option<&[u8]>
    ensures { IfSome result (λ front. value.now ≡ front.now ++ codes ";rport") }
{
    let at = value.len().checked_sub(b";rport".len())?;
    let (front, end) = value.split_at(at);
    if same_bytes(end, b";rport") {
        Some(front)
    } else {
        None
    }
}

/// What stands before `;rport` in a Via's value, where that ends with it, and where one parameter stands before it that goes on
/// as it is. None says nothing.
fn before_last<'v>(via: &Via<'_>, value: &'v [u8]) -> Option<&'v [u8]>
    requires { via_of value.now ≡ Some via.now }
    ensures { IfSome result (λ front. TopVia.IsBeforePort value.now front.now) }
{
    let first = one_before_rport(&via.parameters)?;
    let before = first.name.as_slice();
    if same_no_case(before, b"rport") {
        return None;
    }
    if same_no_case(before, b"received") {
        return None;
    }
    let front = before_rport(value)?;
    Some(front)
}

/// A Via's value that ends with an `rport`, of which this stands before it, with its source's port and address.
fn with_port(alloc: Global, front: &[u8], from: Addr) -> Result<Bytes, AllocError>
    ensures { IfOk result (λ edited. edited ≡ front.now ++ codes ";rport=" ++ decimal from.port ++ (codes ";received=" ++ ip_text from.ip)) }
{
    let room = front.len().saturating_add(b";rport".len());
    let mut out = Buffer::with_room(alloc, room.saturating_add(SOURCE_BYTES))?;
    out.extend(front)?;
    out.extend(b";rport=")?;
    out.push_decimal(u64::from(from.port))?;
    put_received(&mut out, from.ip)?;
    Ok(out.into_bytes())
}

/// The value of a Via that asks for its port, with its source: as most write it, `rport` stands last, and isn't looked for.
#[tactic(auto, using(crate::proofs::AskedLast::with_port, crate::proofs::Unedited::read))]
fn with_asked(alloc: Global, via: &Via<'_>, value: &[u8], from: Addr) -> Result<Bytes, AllocError>
    requires via { via_of value.now ≡ Some via.now }
    ensures { IfOk result (λ edited. edited ≡ TopVia.received_via value.now from) }
{
    match before_last(via, value) {
        Some(front) => with_port(alloc, front, from),
        None => with_source(alloc, value, via.host.as_slice(), from),
    }
}

/// What the top Via of a request becomes that came from an address, of which it is known whether it asks for its port. One that
/// has neither an `rport` nor a `received`, as most have none, isn't cut.
#[tactic(auto, using(crate::proofs::Unedited::stays, crate::proofs::Unedited::read))]
fn edited_value(
    alloc: Global,
    via: &Via<'_>,
    value: &[u8],
    from: Addr,
    asks: bool,
) -> Result<Bytes, AllocError>
    requires via { via_of value.now ≡ Some via.now }
    requires asks { asks ≡ is_some (parameter_of (codes "rport") via.now.parameters) }
    ensures { IfOk result (λ edited. edited ≡ TopVia.received_via value.now from) }
{
    if asks {
        return with_asked(alloc, via, value, from);
    }
    let host = via.host.as_slice();
    if USUAL_LENGTH < value.len() {
        return with_source(alloc, value, host, from);
    }
    if is_edited(via, asks) {
        return with_source(alloc, value, host, from);
    }
    with_address(alloc, value, host, from)
}

/// The value of the top Via of a request as it came from an address, by what it says: a `received` that came is
/// removed, an `rport` gets the source's port, and `received` with the source's address goes last where there was
/// an `rport`, or where the sent-by is another host. All other text stays (RFC 3261 18.2.1; RFC 3581 4). `AllocError` is the
/// only refusal.
pub fn received_via_of(
    alloc: Global,
    via: &Via<'_>,
    value: &[u8],
    from: Addr,
) -> Result<Bytes, AllocError>
    requires { via_of value.now ≡ Some via.now }
    ensures { IfOk result (λ edited. edited ≡ TopVia.received_via value.now from) }
{
    edited_value(alloc, via, value, from, asks_for_port(via))
}

/// What `received_via_of` gives, and the port to which the responses go, none where it is the source's (RFC 3261 18.2.2; RFC 3581
/// 4): an `rport` is looked for once. `AllocError` is the only refusal.
pub fn received_top(
    alloc: Global,
    via: &Via<'_>,
    value: &[u8],
    from: Addr,
) -> Result<(Bytes, Option<u16>), AllocError>
    requires { via_of value.now ≡ Some via.now }
    ensures value { IfOk result (λ top. top.0 ≡ TopVia.received_via value.now from) }
    ensures port { IfOk result (λ top. (source : Addr) → at_port top.1 source ≡ address_by (Some via.now) source) }
{
    let asks = asks_for_port(via);
    let value = edited_value(alloc, via, value, from, asks)?;
    Ok((value, port_asked(via, asks)))
}
