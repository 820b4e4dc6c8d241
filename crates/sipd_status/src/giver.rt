//! Whose password a request gives.
ghost use Rattle.std.specs.Prelude.{◌≡◌, ◌≢◌, IfOk, OnOk};
ghost use Rattle.std.specs.Result.{result_ok};
ghost use Rattle.sip_message.specs.Reading.{reading_of};
ghost use Rattle.sip_message_fields.specs.Values.{values_of};
ghost use Rattle.sip_message_form.specs.declared.error.ReadError.TheVariants.{NoMemory};
ghost use Rattle.sipd_status.specs.GivenName as Definitions;

use sip_header_credentials::{Credentials, credentials_of};
use sip_message::view;
use sip_message_fields::{FieldName, ViewField};
use sip_message_form::{View, ViewError, ViewRefusal};
use sip_text::Bytes;
use std::alloc::{AllocError, Global};

/// A copy of the name that credentials have.
fn name_in(
    alloc: Global,
    credentials: &Option<Credentials<'_>>,
) -> Result<Option<Bytes>, AllocError>
    ensures { IfOk result (λ name. name ≡ Definitions.name_in credentials.now) }
{
    let Some(credentials) = credentials else {
        return Ok(None);
    };
    match &credentials.username {
        Some(name) => Ok(Some(Bytes::copy(alloc, name.as_slice())?)),
        None => Ok(None),
    }
}

/// The name that the value of a field gives.
fn name_of(alloc: Global, value: &[u8]) -> Result<Option<Bytes>, AllocError>
    ensures { IfOk result (λ name. name ≡ Definitions.name_of value.now) }
{
    let credentials = credentials_of(alloc, value)?;
    name_in(alloc, &credentials)
}

/// The first name that the fields of a name give.
fn first_name(
    alloc: Global,
    name: &FieldName,
    fields: &[ViewField<'_>],
) -> Result<Option<Bytes>, AllocError>
    ensures { IfOk result (λ found. found ≡ Definitions.first_name (values_of name.now fields.now)) }
{
    for field in fields {
        if field.name().is_same(name) {
            let found = name_of(alloc, field.value().as_slice())?;
            if found.is_some() {
                return Ok(found);
            }
        }
    }
    Ok(None)
}

/// The name that fields give: in Authorization, or else in Proxy-Authorization.
fn name_among(alloc: Global, fields: &[ViewField<'_>]) -> Result<Option<Bytes>, AllocError>
    ensures { IfOk result (λ found. found ≡ Definitions.name_among fields.now) }
{
    let found = first_name(alloc, &FieldName::Authorization, fields)?;
    if found.is_some() {
        return Ok(found);
    }
    first_name(alloc, &FieldName::ProxyAuthorization, fields)
}

/// Bytes say no whole message; want of memory alone is a refusal.
fn unread(error: &ViewError<'_>) -> Result<(), AllocError>
    ensures { OnOk result (error.now ≢ NoMemory) }
{
    match error.refusal() {
        ViewRefusal::NoMemory => Err(AllocError),
        ViewRefusal::ShortBody(_)
        | ViewRefusal::NotSip
        | ViewRefusal::BadField
        | ViewRefusal::TooLong
        | ViewRefusal::TooManyFields => Ok(()),
    }
}

/// The message that bytes say, if they say a whole one.
fn message_in<'a>(alloc: Global, bytes: &'a [u8]) -> Result<Option<View<'a>>, AllocError>
    ensures { IfOk result (λ message. message ≡ result_ok (reading_of bytes.now)) }
{
    match view(alloc, bytes) {
        Ok(message) => Ok(Some(message)),
        Err(error) => {
            unread(&error)?;
            Ok(None)
        }
    }
}

/// The name of a user that a datagram's credentials have: the first well-formed Digest credentials with a name, in Authorization, or else in
/// Proxy-Authorization (RFC 3261 22). `AllocError` is the only refusal.
pub fn given_name(alloc: Global, bytes: &[u8]) -> Result<Option<Bytes>, AllocError>
    ensures { IfOk result (λ found. found ≡ Definitions.given_name bytes.now) }
{
    match message_in(alloc, bytes)? {
        Some(message) => name_among(alloc, message.fields().as_slice()),
        None => Ok(None),
    }
}
