ghost use Rattle.std.specs.Prelude.{◌≡◌, IfOk};
ghost use Rattle.sip_edit_response.specs.Contacts;

use sip_text::{Buffer, Bytes};
use std::alloc::{AllocError, Global};

/// The most bytes of a Contact that lists a binding besides its URI.
const REST_OF_CONTACT: usize = 31;

/// The value of Contact that lists a binding of a URI, given as its text, with the whole seconds that it
/// has left (RFC 3261 10.3 step 8). `AllocError` is the only refusal.
pub fn contact_value(alloc: Global, uri: &[u8], seconds: u64) -> Result<Bytes, AllocError>
    ensures { IfOk result (λ value. value ≡ Contacts.contact_value uri.now seconds) }
{
    let mut value = Buffer::with_room(alloc, uri.len().saturating_add(REST_OF_CONTACT))?;
    value.extend(b"<")?;
    value.extend(uri)?;
    value.extend(b">;expires=")?;
    value.push_decimal(seconds)?;
    Ok(value.into_bytes())
}
