ghost use Rattle.std.specs.Prelude.{◌≡◌, IfOk};
ghost use Rattle.sip_message_fields.specs.Values.{values_of};
ghost use Rattle.sip_header_credentials.specs.Credentials as Said;
ghost use Rattle.sip_auth.specs.Proof.{for_realm, first_for_realm, credentials_field};

use sip_header_credentials::{Credentials, credentials_of};
use sip_message_fields::{FieldName, Value, ViewField};
use sip_text::same_bytes;
use std::alloc::{AllocError, Global};

/// The field for credentials of requests of a method (RFC 3261 22.2, 22.3).
pub(crate) fn credentials_field(method: &[u8]) -> FieldName
    ensures { result ≡ credentials_field method.now }
{
    if same_bytes(method, b"REGISTER") {
        FieldName::Authorization
    } else {
        FieldName::ProxyAuthorization
    }
}

fn is_realm(realm: &[u8], said: &Option<Value<'_>>) -> bool
    ensures { result ≡ Said.is_realm realm.now said.now }
{
    match said {
        Some(said) => same_bytes(said.as_slice(), realm),
        None => false,
    }
}

/// The Digest credentials that a value has for a realm.
fn for_realm<'v>(
    alloc: Global,
    realm: &[u8],
    value: &'v [u8],
) -> Result<Option<Credentials<'v>>, AllocError>
    ensures { IfOk result (λ found. found ≡ for_realm realm.now (Said.credentials_of value.now)) }
{
    let Some(credentials) = credentials_of(alloc, value)? else {
        return Ok(None);
    };
    if !is_realm(realm, &credentials.realm) {
        return Ok(None);
    }
    Ok(Some(credentials))
}

/// The first Digest credentials for a realm that fields of a name have; what isn't well-formed is passed over.
pub(crate) fn first_for_realm<'v>(
    alloc: Global,
    realm: &[u8],
    name: &FieldName,
    fields: &'v [ViewField<'_>],
) -> Result<Option<Credentials<'v>>, AllocError>
    ensures { IfOk result (λ found. found ≡ first_for_realm realm.now (values_of name.now fields.now)) }
{
    for field in fields {
        if field.name().is_same(name) {
            let found = for_realm(alloc, realm, field.value().as_slice())?;
            if found.is_some() {
                return Ok(found);
            }
        }
    }
    Ok(None)
}
