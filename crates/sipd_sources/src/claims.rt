//! What a request claims by its credentials, and whether an answer says that their nonce alone was wrong.
ghost use Rattle.std.specs.Prelude.{◌≡◌, ◌≢◌, nat_eq, codes, IfOk, OnOk, option_map};
ghost use Rattle.std.specs.List.{ends_with, list_any};
ghost use Rattle.sip_message_fields.specs.Values.{values_of};
ghost use Rattle.sip_message_form.specs.ViewStart.{start_seen};
ghost use Rattle.sip_message_form.specs.declared.error.ReadError.TheVariants.{NoMemory};
ghost use Rattle.sip_header_credentials.specs.Credentials as Said;
ghost use Rattle.sip_auth.specs.Proof.{credentials_field};
ghost use Rattle.sip_days.specs.Calls.{said};
ghost use Rattle.sipd_sources.specs.Claims as Definitions;

use sip_event::Packet;
use sip_header_credentials::{Credentials, credentials_of};
use sip_message::{FieldName, Value, View, ViewError, ViewField, ViewRefusal, ViewStart, view};
use sip_text::{Bytes, same_bytes};
use std::alloc::{AllocError, Global};

/// Bytes say no whole message; want of memory alone is a refusal.
fn unread(error: &ViewError<'_>) -> Result<(), AllocError>
    ensures { OnOk result (error.now ≢ NoMemory) }
{
    match error.refusal() {
        ViewRefusal::NoMemory => Err(AllocError),
        ViewRefusal::ShortBody(_)
        | ViewRefusal::NotSip
        | ViewRefusal::BadField
        | ViewRefusal::TooLong
        | ViewRefusal::TooManyFields => Ok(()),
    }
}

/// The message that bytes say, if they say a whole one.
pub fn message_in<'a>(alloc: Global, bytes: &'a [u8]) -> Result<Option<View<'a>>, AllocError>
    ensures { IfOk result (λ message. message ≡ said bytes.now) }
{
    match view(alloc, bytes) {
        Ok(message) => Ok(Some(message)),
        Err(error) => {
            unread(&error)?;
            Ok(None)
        }
    }
}

/// The field for credentials of requests of a method (RFC 3261 22.2, 22.3).
fn field_for(method: &[u8]) -> FieldName
    ensures { result ≡ credentials_field method.now }
{
    if same_bytes(method, b"REGISTER") {
        FieldName::Authorization
    } else {
        FieldName::ProxyAuthorization
    }
}

fn is_realm(realm: &[u8], named: &Option<Value<'_>>) -> bool
    ensures { result ≡ Said.is_realm realm.now named.now }
{
    match named {
        Some(named) => same_bytes(named.as_slice(), realm),
        None => false,
    }
}

/// A copy of a user's name, if there is one.
fn name_of(alloc: Global, name: &Option<Value<'_>>) -> Result<Option<Bytes>, AllocError>
    ensures { IfOk result (λ copy. copy ≡ name.now) }
{
    match name {
        Some(name) => Ok(Some(Bytes::copy(alloc, name.as_slice())?)),
        None => Ok(None),
    }
}

/// The name that credentials have, if they are for a realm.
fn claimed(
    alloc: Global,
    realm: &[u8],
    credentials: &Credentials<'_>,
) -> Result<Option<Option<Bytes>>, AllocError>
    ensures { IfOk result (λ given. given ≡ Definitions.claimed realm.now credentials.now) }
{
    if !is_realm(realm, &credentials.realm) {
        return Ok(None);
    }
    Ok(Some(name_of(alloc, &credentials.username)?))
}

/// The same of the credentials that a value says, if it says some.
fn given_by(alloc: Global, realm: &[u8], value: &[u8]) -> Result<Option<Option<Bytes>>, AllocError>
    ensures { IfOk result (λ given. given ≡ Definitions.given_by realm.now value.now) }
{
    match credentials_of(alloc, value)? {
        Some(credentials) => claimed(alloc, realm, &credentials),
        None => Ok(None),
    }
}

/// The name that the first credentials for a realm have which fields of a name say, if there are some.
fn given_among(
    alloc: Global,
    realm: &[u8],
    name: &FieldName,
    fields: &[ViewField<'_>],
) -> Result<Option<Option<Bytes>>, AllocError>
    ensures { IfOk result (λ given. given ≡ Definitions.given_among realm.now (values_of name.now fields.now)) }
{
    for field in fields {
        if field.name().is_same(name) {
            let given = given_by(alloc, realm, field.value().as_slice())?;
            if given.is_some() {
                return Ok(given);
            }
        }
    }
    Ok(None)
}

/// The same of the fields for credentials of a request.
fn given_with(
    alloc: Global,
    realm: &[u8],
    message: &View<'_>,
) -> Result<Option<Option<Bytes>>, AllocError>
    ensures { IfOk result (λ given. given ≡ Definitions.given_with realm.now message.now.fields message.now.start) }
{
    match message.start() {
        ViewStart::Request { method, .. } => {
            let name = field_for(method);
            given_among(alloc, realm, &name, message.fields().as_slice())
        }
        ViewStart::Status { .. } => Ok(None),
    }
}

/// Whether bytes say a request with credentials for a realm; and the user's name that these have, if they have one.
pub(crate) fn given_in(
    alloc: Global,
    realm: &[u8],
    bytes: &[u8],
) -> Result<Option<Option<Bytes>>, AllocError>
    ensures { IfOk result (λ given. given ≡ Definitions.given_in realm.now bytes.now) }
{
    match message_in(alloc, bytes)? {
        Some(message) => given_with(alloc, realm, &message),
        None => Ok(None),
    }
}

/// Whether a field is a challenge which says that the nonce alone was wrong.
fn is_stale(field: &ViewField<'_>) -> bool
    ensures { result ≡ Definitions.is_stale field.now }
{
    if field.name().is_same(&FieldName::WwwAuthenticate) {
        return field.value().as_slice().ends_with(b", stale=true");
    }
    if field.name().is_same(&FieldName::ProxyAuthenticate) {
        return field.value().as_slice().ends_with(b", stale=true");
    }
    false
}

fn any_stale(fields: &[ViewField<'_>]) -> bool
    ensures { result ≡ list_any Definitions.is_stale fields.now }
{
    for field in fields {
        if is_stale(field) {
            return true;
        }
    }
    false
}

/// Whether bytes say an answer with such a field.
fn says_stale(alloc: Global, bytes: &[u8]) -> Result<bool, AllocError>
    ensures { IfOk result (λ is. is ≡ Definitions.says_stale bytes.now) }
{
    match message_in(alloc, bytes)? {
        Some(message) => Ok(any_stale(message.fields().as_slice())),
        None => Ok(false),
    }
}

/// Whether an answer among packets says that the nonce alone was wrong (RFC 2617 3.2.1, stale).
pub(crate) fn answers_stale(alloc: Global, packets: &[Packet]) -> Result<bool, AllocError>
    ensures { IfOk result (λ is. is ≡ Definitions.answers_stale packets.now) }
{
    for packet in packets {
        if says_stale(alloc, packet.bytes.as_slice())? {
            return Ok(true);
        }
    }
    Ok(false)
}
