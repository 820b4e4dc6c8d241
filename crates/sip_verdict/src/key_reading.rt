ghost use Rattle.std.specs.Prelude.{◌≡◌, IfOk, IfSome, Some, option_map};
ghost use Rattle.std.specs.Option.{option_and_then};
ghost use Rattle.sip_edit.specs.ReceivedRequest.{top_via};
ghost use Rattle.sip_message_fields.specs.declared.field_name.FieldName.TheVariants as Name;
ghost use Rattle.sip_message_fields.specs.Values.{first_value};
ghost use Rattle.sip_header.specs.Via.{via_of};
ghost use Rattle.sip_transaction_table.specs.Key as Keys;

use sip_header::{Via, via_of};
use sip_message_fields::FieldName;
use sip_message_form::View;
use sip_transaction_table::TransactionKey;
use std::alloc::{AllocError, Global};

/// The Via on top of a message, if there is one that can be read (RFC 3261 20.42).
fn top_via<'v>(alloc: Global, message: &'v View<'_>) -> Result<Option<Via<'v>>, AllocError>
    ensures { IfOk result (λ via. via ≡ option_and_then via_of (first_value Name.Via message.now.fields)) }
{
    match message.fields().first(&FieldName::Via) {
        Some(value) => via_of(alloc, value),
        None => Ok(None),
    }
}

/// The Via on top of a request of a method, and the key that it gives, if it can be read and gives one.
pub(crate) fn keyed_via<'v>(
    alloc: Global,
    message: &'v View<'_>,
    method: &[u8],
) -> Result<Option<(Via<'v>, TransactionKey)>, AllocError>
    ensures key { IfOk result (λ found. option_map (λ x. x.1) found
        ≡ option_and_then (λ value. option_and_then (Keys.via_key method.now) (via_of value)) (first_value Name.Via message.now.fields)) }
    ensures via { IfOk result (λ found. IfSome found (λ x. top_via message.now ≡ Some x.0)) }
{
    let Some(via) = top_via(alloc, message)? else {
        return Ok(None);
    };
    match TransactionKey::of_request(alloc, method, &via)? {
        Some(key) => Ok(Some((via, key))),
        None => Ok(None),
    }
}
