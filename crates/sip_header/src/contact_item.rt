ghost use Rattle.std.specs.Prelude.{◌≡◌, IfOk};
ghost use Rattle.sip_header.specs.ContactItem.{contact_of};

use crate::name_addr::{NameAddr, name_addr_of};
use std::alloc::{AllocError, Global};

/// An item of Contact (RFC 3261 20.10).
pub enum ContactItem<'a> {
    /// `*`, which stands for every contact of an address of record.
    Star,
    Address(NameAddr<'a>),
}

/// Written out, so that it is proved once and not wherever an item is dropped.
impl<'a> Drop for ContactItem<'a> {
    fn drop(self) {
        match self {
            ContactItem::Star => {}
            ContactItem::Address(_) => {}
        }
    }
}

/// What an item of Contact says: just `*`, or an address (RFC 3261 20.10). None where it is malformed, as `*` with
/// parameters is. `AllocError` is the only refusal.
pub fn contact_of(alloc: Global, value: &[u8]) -> Result<Option<ContactItem<'_>>, AllocError>
    ensures { IfOk result (λ item. item ≡ contact_of value.now) }
{
    if value == b"*".as_slice() {
        return Ok(Some(ContactItem::Star));
    }
    match name_addr_of(alloc, value)? {
        Some(address) => Ok(Some(ContactItem::Address(address))),
        None => Ok(None),
    }
}
