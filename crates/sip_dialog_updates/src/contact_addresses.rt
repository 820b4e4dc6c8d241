//! The addresses that Contact and Record-Route of a message give (RFC 3261 12.1.1, 12.2), of a view and of a message that is kept.
//! Of a request that is kept, `sip_state` gives them.
ghost use Rattle.std.specs.Prelude.{◌≡◌, ◌++◌, ◌||◌, false, IfOk, OnOk};
ghost use Rattle.sip_message_fields.specs.FieldName.{is_same_name};
ghost use Rattle.sip_message_fields.specs.KeptField.{field_kept, IsStored};
ghost use Rattle.sip_message_fields.specs.declared.field_name.FieldName.TheVariants as Name;
ghost use Rattle.sip_hops.specs.HostAddress.{address_of};
ghost use Rattle.sip_dialog.specs.Addresses as Given;

use sip_dialog::item_in;
use sip_header::{AnyUri, placed_host_port};
use sip_hops::Hops;
use sip_message_fields::{FieldName, KeptField, KnownName, Value, ViewField, ViewName};
use sip_message_form::{Kept, View};
use sip_text::Items;
use sip_uri::Addr;
use std::alloc::{AllocError, Global};

/// The address of a SIP URI; another has none.
fn address_by(hops: &Hops, uri: &AnyUri<'_>) -> Option<Addr>
    ensures { result ≡ Given.address_by (address_of hops.now.addresses) uri.now }
{
    match uri {
        AnyUri::Sip(uri) => hops.address_of(uri),
        AnyUri::Other(_) => None,
    }
}

/// Whether a field is a Contact or a Record-Route.
fn gives_address(field: &ViewField<'_>) -> bool
    ensures { result ≡ (is_same_name field.now.name Name.Contact || is_same_name field.now.name Name.RecordRoute) }
{
    let name = field.name();
    name.is_same(&FieldName::Contact) || name.is_same(&FieldName::RecordRoute)
}

/// The address that a Contact or a Record-Route gives. It stands apart, so that no room is made for a URI where none is
/// read.
#[inline(never)]
fn parsed_address(
    alloc: Global,
    hops: &Hops,
    field: &ViewField<'_>,
) -> Result<Option<Addr>, AllocError>
    ensures { IfOk result (λ address. address ≡ Given.address_in (address_of hops.now.addresses) field.now) }
{
    match item_in(alloc, field)? {
        Some(item) => Ok(address_by(hops, &item.uri)),
        None => Ok(None),
    }
}

/// The address that a Contact or a Record-Route gives: no URI is made of one as most are written.
#[inline(always)]
#[tactic(auto, using(crate::proofs::PlainAddresses::address_is, crate::proofs::PlainAddresses::no_address))]
fn address_in(alloc: Global, hops: &Hops, field: &ViewField<'_>) -> Result<Option<Addr>, AllocError>
    ensures { IfOk result (λ address. address ≡ Given.address_in (address_of hops.now.addresses) field.now) }
{
    if !gives_address(field) {
        return Ok(None);
    }
    if let Some((host, port)) = placed_host_port(field.value().as_slice()) {
        return Ok(hops.address_at(host, port.unwrap_or(5060)));
    }
    parsed_address(alloc, hops, field)
}

/// Adds the addresses that some fields give.
fn put_addresses(
    alloc: Global,
    hops: &Hops,
    out: &mut Items<Addr>,
    fields: &[ViewField<'_>],
) -> Result<(), AllocError>
    ensures { OnOk result (out.new ≡ out.old ++ Given.addresses_in (address_of hops.now.addresses) fields.now) }
{
    for field in fields {
        if let Some(address) = address_in(alloc, hops, field)? {
            out.push(address)?;
        }
    }
    Ok(())
}

/// Whether an unknown name is as long as that of a Contact or of a Record-Route, so that it may be either.
#[inline(always)]
#[tactic(auto, using(crate::proofs::OtherLengths::never_given))]
fn may_be_spelled(written: &[u8]) -> bool
    ensures { result ≡ false → (is_same_name (Name.Other written.now) Name.Contact || is_same_name (Name.Other written.now) Name.RecordRoute) ≡ false }
{
    let length = written.len();
    if length == 7 {
        return true;
    }
    length == 12
}

/// Whether a field that is kept so in a store may be a Contact or a Record-Route: none of the other names that this project knows is,
/// and no name of another length.
#[inline(always)]
fn may_give(store: &[u8], kept: &KeptField) -> bool
    requires { IsStored store.now kept.now }
    ensures { result ≡ false → (is_same_name (field_kept store.now kept.now).name Name.Contact
        || is_same_name (field_kept store.now kept.now).name Name.RecordRoute) ≡ false }
{
    match kept.known {
        Some(known) => {
            known.is_same(KnownName::Contact) || known.is_same(KnownName::RecordRoute)
        }
        None => may_be_spelled(kept.spelling.of(store)),
    }
}

/// The field that is kept so in a store, of which no byte is copied.
fn field_in<'k>(store: &'k [u8], kept: &KeptField) -> ViewField<'k>
    requires { IsStored store.now kept.now }
    ensures { result ≡ field_kept store.now kept.now }
{
    let name = match kept.known {
        Some(known) => ViewName::of_name(known),
        None => ViewName::of_other(kept.spelling.of(store)),
    };
    ViewField::new(name, Value::of_part(kept.value.of(store)))
}

/// The address that a field gives which is kept so in a store and may give one. It stands apart, so that no room is made
/// for the view of another.
#[inline(never)]
fn given_address(
    alloc: Global,
    hops: &Hops,
    store: &[u8],
    kept: &KeptField,
) -> Result<Option<Addr>, AllocError>
    requires { IsStored store.now kept.now }
    ensures { IfOk result (λ address. address ≡ Given.address_in (address_of hops.now.addresses) (field_kept store.now kept.now)) }
{
    let field = field_in(store, kept);
    address_in(alloc, hops, &field)
}

/// The address that a field which is kept so in a store gives.
#[inline(always)]
#[tactic(auto, using(crate::proofs::PlainAddresses::no_address))]
fn kept_address(
    alloc: Global,
    hops: &Hops,
    store: &[u8],
    kept: &KeptField,
) -> Result<Option<Addr>, AllocError>
    requires { IsStored store.now kept.now }
    ensures { IfOk result (λ address. address ≡ Given.address_in (address_of hops.now.addresses) (field_kept store.now kept.now)) }
{
    if !may_give(store, kept) {
        return Ok(None);
    }
    given_address(alloc, hops, store, kept)
}

/// Adds the addresses that a kept message gives. Of its fields only those are viewed that may give one.
pub(crate) fn put_kept(
    alloc: Global,
    hops: &Hops,
    out: &mut Items<Addr>,
    message: &Kept,
) -> Result<(), AllocError>
    ensures { OnOk result (out.new ≡ out.old ++ Given.addresses_in (address_of hops.now.addresses) message.now.fields) }
{
    let (store, list) = message.places();
    for kept in list {
        if let Some(address) = kept_address(alloc, hops, store, kept)? {
            out.push(address)?;
        }
    }
    Ok(())
}

/// The addresses that a message gives, as kept.
pub(crate) fn given_by(
    alloc: Global,
    hops: &Hops,
    message: &Kept,
) -> Result<Items<Addr>, AllocError>
    ensures { IfOk result (λ addresses. addresses ≡ Given.addresses_in (address_of hops.now.addresses) message.now.fields) }
{
    let mut addresses = Items::new(alloc);
    put_kept(alloc, hops, &mut addresses, message)?;
    Ok(addresses)
}

/// The addresses that Contact and Record-Route of a message give by this table, in the order of its fields (RFC 3261
/// 12.1.1, 12.2). `AllocError` is the only refusal.
pub fn addresses_of(
    alloc: Global,
    hops: &Hops,
    message: &View<'_>,
) -> Result<Items<Addr>, AllocError>
    ensures { IfOk result (λ addresses. addresses ≡ Given.addresses_in (address_of hops.now.addresses) message.now.fields) }
{
    let mut addresses = Items::new(alloc);
    put_addresses(alloc, hops, &mut addresses, message.fields().as_slice())?;
    Ok(addresses)
}
