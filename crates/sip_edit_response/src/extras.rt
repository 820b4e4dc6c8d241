ghost use Rattle.std.specs.Prelude.{◌≡◌, IfOk};
ghost use Rattle.sip_edit_response.specs.Extras as Definitions;

use sip_message_fields::{Field, FieldName};
use sip_route::Own;
use sip_text::Buffer;
use std::alloc::{AllocError, Global};

/// The most bytes of that Warning besides this server's host.
const REST_OF_WARNING: usize = 29;

/// The Warning of a 403, which names the rule that denies (RFC 3261 20.43, in this project's profile). `AllocError` is
/// the only refusal.
pub fn denial_warning(alloc: Global, own: &Own, rule: u32) -> Result<Field, AllocError>
    ensures { IfOk result (λ field. field ≡ Definitions.denial_warning own.now rule) }
{
    let host = own.host.as_slice();
    let mut value = Buffer::with_room(alloc, host.len().saturating_add(REST_OF_WARNING))?;
    value.extend(b"399 ")?;
    value.extend(host)?;
    value.extend(b" \"policy rule ")?;
    value.push_decimal(u64::from(rule))?;
    value.extend(b"\"")?;
    Ok(Field {
        name: FieldName::Warning,
        value: value.into_bytes(),
    })
}

/// The Min-Expires of a 423: the shortest interval in seconds (RFC 3261 10.3 step 7, 20.23). `AllocError` is the only
/// refusal.
pub fn min_expires(alloc: Global) -> Result<Field, AllocError>
    ensures { IfOk result (λ field. field ≡ Definitions.min_expires) }
{
    Field::new(alloc, FieldName::MinExpires, b"60")
}

/// The Unsupported of a 420: the extensions that a request needs and that aren't known (RFC 3261 8.2.2.3, 20.40).
/// `AllocError` is the only refusal.
pub fn unsupported_field(alloc: Global, items: &[u8]) -> Result<Field, AllocError>
    ensures { IfOk result (λ field. field ≡ Definitions.unsupported_field items.now) }
{
    Field::new(alloc, FieldName::Unsupported, items)
}
