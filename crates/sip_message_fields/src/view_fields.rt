//! The fields of a view: looked up, counted, added and edited by name, without a byte copied. `Fields` has bytes of its own.
ghost use Rattle.std.specs.Prelude.{◌≡◌, [], ◌∷◌, ◌++◌, true, IfOk, OnOk, OnErr, None, length, map, option_map};
ghost use Rattle.sip_message_fields.specs.Lines.{line_of};

use crate::known_names::KnownName;
use crate::name_ends::{ANYWHERE, NAMES, note, place_of};
use crate::value::Value;
use crate::view_edits::{put_all, put_named, with_first};
use crate::view_field::ViewField;
use crate::view_lookups::{count_of, fields_of, first_of, values_in, views_of};
use crate::view_name::ViewName;
use crate::{FieldName, Fields};
use std::alloc::{AllocError, Global};
use std::marker::Model;

/// The fields of a view, in their order, seen as the list of them.
#[derive(Drop)]
pub struct ViewFields<'a> {
    list: Vec<ViewField<'a>>,
    /// Told as each field is added: how many of the first fields hold all that have a known name.
    ends: [u8; NAMES],
}

impl<'a> Model for ViewFields<'a> {
    ghost use Rattle.std.specs.Prelude.{List};
    ghost use Rattle.sip_message_fields.specs.declared.field.Field.{Field};
    ghost use Rattle.sip_message_fields.specs.NameEnds.{AreEnds};

    ghost Value = { List Field };

    ghost view = { λ f. f.list.items };

    ghost invariant = { λ f. AreEnds f.ends f.list.items };
}

/// Written out, so that a copy is known to be equal.
impl<'a> Clone for ViewFields<'a> {
    ghost is_clone = { λ fields copy. copy ≡ fields };

    fn clone(&self) -> Result<ViewFields<'a>, AllocError> {
        Ok(ViewFields {
            list: self.list.clone()?,
            ends: self.ends,
        })
    }
}

impl<'a> ViewFields<'a> {
    ghost use Rattle.sip_message_fields.specs.Named.{first_named, first_of, all_named};
    ghost use Rattle.sip_message_fields.specs.Values;
    ghost use Rattle.sip_message_fields.specs.Values.{values_of, first_value};

    /// No fields, and room for so many.
    #[tactic(auto, using(crate::proofs::NameEnds::none_yet))]
    pub fn with_room(alloc: Global, room: usize) -> Result<Self, AllocError>
        ensures { IfOk result (λ views. views ≡ []) }
    {
        Ok(ViewFields {
            list: Vec::with_capacity(alloc, room)?,
            ends: [0; NAMES],
        })
    }

    /// Fields that were made, of which no byte is copied.
    pub fn of_fields(alloc: Global, fields: &'a Fields) -> Result<Self, AllocError>
        ensures { IfOk result (λ views. views ≡ fields.now) }
    {
        views_of(alloc, fields.as_slice())
    }

    /// Adds a field at the end. At an error the fields are as before.
    #[inline]
    pub fn push(&mut self, field: ViewField<'a>) -> Result<(), AllocError>
        ensures ok { OnOk result (self.new ≡ self.old ++ field.entry ∷ []) }
        ensures err { OnErr result (self.new ≡ self.old) }
    {
        if self.list.len() == self.list.capacity() {
            self.list.reserve(1)?;
        }
        let count = self.list.len();
        note(&mut self.ends, field.name(), count);
        self.list.push_reserved(field);
        Ok(())
    }

    /// Adds the field of this name with this value, whose line stands so in what was read, at the end. At an error the fields
    /// are as before. It is made where it is kept, once there is room.
    #[inline(always)]
    pub fn push_line(
        &mut self,
        name: ViewName<'a>,
        value: &'a [u8],
        line: &'a [u8],
    ) -> Result<(), AllocError>
        requires { line.now ≡ line_of (record { name = name; value = value.now }) }
        ensures ok { OnOk result (self.new ≡ self.old ++ record { name = name.entry; value = value.now } ∷ []) }
        ensures err { OnErr result (self.new ≡ self.old) }
    {
        if self.list.len() == self.list.capacity() {
            self.list.reserve(1)?;
        }
        let count = self.list.len();
        note(&mut self.ends, &name, count);
        self.list
            .push_reserved(ViewField::of_line(name, value, line));
        Ok(())
    }

    /// Adds the field of this name with this value, a part of what was read, at the end. At an error the fields are as before.
    /// It is made where it is kept, once there is room.
    #[inline(always)]
    pub fn push_part(&mut self, name: ViewName<'a>, value: &'a [u8]) -> Result<(), AllocError>
        ensures ok { OnOk result (self.new ≡ self.old ++ record { name = name.entry; value = value.now } ∷ []) }
        ensures err { OnErr result (self.new ≡ self.old) }
    {
        if self.list.len() == self.list.capacity() {
            self.list.reserve(1)?;
        }
        let count = self.list.len();
        note(&mut self.ends, &name, count);
        self.list
            .push_reserved(ViewField::new(name, Value::of_part(value)));
        Ok(())
    }

    /// Adds the first of some fields that has a name, if there is one, at the end. No byte is copied.
    pub fn push_first(
        &mut self,
        name: &FieldName,
        fields: &'a ViewFields<'_>,
    ) -> Result<(), AllocError>
        ensures { OnOk result (self.new ≡ self.old ++ first_of name.now fields.now) }
    {
        let Some(field) = fields.first_field(name) else {
            return Ok(());
        };
        self.push(field.lent()?)
    }

    /// Adds fields that were made, of which no byte is copied.
    pub fn extend(&mut self, fields: &'a Fields) -> Result<(), AllocError>
        ensures { OnOk result (self.new ≡ self.old ++ fields.now) }
    {
        put_all(self, fields.as_slice())
    }

    /// Adds those of other fields that have a name, of which no byte is copied.
    pub fn extend_named(
        &mut self,
        name: &FieldName,
        others: &'a ViewFields<'_>,
    ) -> Result<(), AllocError>
        ensures { OnOk result (self.new ≡ self.old ++ all_named name.now others.now) }
    {
        put_named(self, others.up_to_last(name), name)
    }

    /// The fields, the first of a name with another value. No byte is copied.
    pub fn with_first<'v>(
        &'v self,
        alloc: Global,
        name: &FieldName,
        value: &'v [u8],
    ) -> Result<ViewFields<'v>, AllocError>
        ensures { IfOk result (λ edited. edited ≡ Values.with_first name.now value.now self.now) }
    {
        with_first(alloc, self.as_slice(), name, value)
    }

    /// The fields, in their order.
    #[inline]
    pub fn as_slice(&self) -> &[ViewField<'a>]
        ensures { result.now ≡ self.now }
    {
        self.list.as_slice()
    }

    /// Fields from the front on among which all stand that have a name: none where it was told that no field has it. Takes no memory.
    #[inline]
    #[tactic(auto, using(crate::proofs::NameEnds::up_to_end, crate::proofs::NameEnds::first_by_all))]
    pub fn up_to_last(&self, name: &FieldName) -> &[ViewField<'a>]
        ensures all { all_named name.now result.now ≡ all_named name.now self.now }
        ensures first { first_named name.now result.now ≡ first_named name.now self.now }
    {
        let fields = self.list.as_slice();
        let Some(known) = KnownName::of(name) else {
            return fields;
        };
        let end = self.ends[place_of(known)];
        if end == ANYWHERE {
            return fields;
        }
        let end = usize::from(end);
        if end >= fields.len() {
            return fields;
        }
        &fields[..end]
    }

    /// Only where no field has a name, as was told when each was added. Takes no memory.
    #[inline(always)]
    #[tactic(auto, using(crate::proofs::NameEnds::none_at_all))]
    fn lacks(&self, name: &FieldName) -> bool
        ensures { result ≡ true → first_named name.now self.now ≡ None }
    {
        match KnownName::of(name) {
            Some(known) => self.ends[place_of(known)] == 0,
            None => false,
        }
    }

    /// The first field of a name.
    pub fn first_field(&self, name: &FieldName) -> Option<&ViewField<'a>>
        ensures { option_map (λ field. field.now) result ≡ first_named name.now self.now }
    {
        if self.lacks(name) {
            return None;
        }
        first_of(self.list.as_slice(), name)
    }

    /// The value of the first field of a name.
    pub fn first(&self, name: &FieldName) -> Option<&[u8]>
        ensures { option_map (λ value. value.now) result ≡ first_value name.now self.now }
    {
        let field = self.first_field(name)?;
        Some(field.value().as_slice())
    }

    /// The values of the fields of a name, in their order.
    pub fn values(&self, alloc: Global, name: &FieldName) -> Result<Vec<&[u8]>, AllocError>
        ensures { IfOk result (λ values. map (λ value. value.now) values.items ≡ values_of name.now self.now) }
    {
        values_in(alloc, self.up_to_last(name), name)
    }

    /// How many fields have a name.
    #[tactic(auto, using(crate::proofs::Counting::count_values))]
    pub fn count(&self, name: &FieldName) -> usize
        ensures { result ≡ length (values_of name.now self.now) }
    {
        count_of(self.up_to_last(name), name)
    }

    /// The fields, which own their bytes.
    pub fn to_fields(&self, alloc: Global) -> Result<Fields, AllocError>
        ensures { IfOk result (λ fields. fields ≡ self.now) }
    {
        fields_of(alloc, self.list.as_slice())
    }

    /// The fields as a list, which they give up.
    pub fn into_list(self) -> Vec<ViewField<'a>>
        ensures { result.items ≡ self.entry }
    {
        let ViewFields { list, ends: _ } = self;
        list
    }
}
