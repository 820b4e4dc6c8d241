ghost use Rattle.std.specs.Prelude.{◌≡◌, ◌∷◌, ◌++◌, [], map, IfOk, OnOk};
ghost use Rattle.std.specs.List.{filter_map};
ghost use Rattle.sip_header.specs.ContactItem.{contact_of};
ghost use Rattle.sip_location.specs.ReadContacts.{AreValidContacts};

use sip_header::{ContactItem, contact_of};
use sip_text::Items;
use std::alloc::{AllocError, Global};
use std::marker::Model;

/// What values of Contact say, in their order (RFC 3261 20.10).
#[derive(Drop)]
pub struct Contacts<'a> {
    items: Items<ContactItem<'a>>,
}

impl<'a> Model for Contacts<'a> {
    ghost use Rattle.std.specs.Prelude.{List};
    ghost use Rattle.sip_header.specs.declared.contact_item.ContactItem.{ContactItem};
    ghost use Rattle.sip_location.specs.ReadContacts.{AreValidContacts};

    ghost Value = { List ContactItem };

    ghost view = { λ c. c.items };

    ghost invariant = { λ c. AreValidContacts c.items };
}

/// Adds what a value of Contact says, if it can be read.
fn put_contact<'v>(
    alloc: Global,
    items: &mut Items<ContactItem<'v>>,
    value: &'v [u8],
) -> Result<(), AllocError>
    ensures { OnOk result (items.new ≡ items.old ++ filter_map contact_of (value.now ∷ [])) }
{
    match contact_of(alloc, value)? {
        Some(item) => items.push(item),
        None => Ok(()),
    }
}

fn read_items<'v>(alloc: Global, values: &[&'v [u8]]) -> Result<Items<ContactItem<'v>>, AllocError>
    ensures { IfOk result (λ items. items ≡ filter_map contact_of (map (λ value. value.now) values.now)) }
{
    let mut items = Items::new(alloc);
    for value in values {
        put_contact(alloc, &mut items, value)?;
    }
    Ok(items)
}

impl<'a> Contacts<'a> {
    /// What some values of Contact say, without those that can't be read. `AllocError` is the only refusal.
    pub fn read(alloc: Global, values: &[&'a [u8]]) -> Result<Self, AllocError>
        ensures { IfOk result (λ contacts. contacts ≡ filter_map contact_of (map (λ value. value.now) values.now)) }
    {
        let items = read_items(alloc, values)?;
        Ok(Contacts { items })
    }

    /// The items, whose URIs are of the grammar (RFC 3261 19.1.1).
    pub fn as_slice(&self) -> &[ContactItem<'a>]
        ensures items { result.now ≡ self.now }
        ensures valid { AreValidContacts result.now }
    {
        self.items.as_slice()
    }
}
