ghost use Rattle.std.specs.Prelude.{◌≡◌, IfOk};
ghost use Rattle.sip_dialog.specs.Addresses as Given;

use sip_header::{NameAddr, name_addr_of, route_of};
use sip_message_fields::{FieldName, ViewField};
use std::alloc::{AllocError, Global};

/// What a Contact or a Record-Route says: an address that its dialog learns, if it has one (RFC 3261 12.1). No other field
/// says one. `AllocError` is the only refusal.
pub fn item_in<'v>(
    alloc: Global,
    field: &'v ViewField<'_>,
) -> Result<Option<NameAddr<'v>>, AllocError>
    ensures { IfOk result (λ item. item ≡ Given.item_in field.now) }
{
    if field.name().is_same(&FieldName::Contact) {
        return name_addr_of(alloc, field.value().as_slice());
    }
    if field.name().is_same(&FieldName::RecordRoute) {
        return route_of(alloc, field.value().as_slice());
    }
    Ok(None)
}
