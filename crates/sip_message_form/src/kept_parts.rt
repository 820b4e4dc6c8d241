//! The form in which an open request keeps its request (`Heard` of `sip_state`): its fields are looked up and put where they stand.
//! An answer is kept by its written form (`Kept`).
ghost use Rattle.std.specs.Prelude.{◌≡◌, true, ◌++◌, IfOk, OnOk, option_map};
ghost use Rattle.std.specs.List.{flat_map};
ghost use Rattle.sip_message_fields.specs.Named.{all_named, first_named, first_of};
ghost use Rattle.sip_message_fields.specs.Values;
ghost use Rattle.sip_message_form.specs.Text.{field_text};
ghost use Rattle.sip_message_form.specs.ViewStart.{start_seen};

use crate::kept_fields::{field_in, first_in, put_kept, put_with_first};
use crate::kept_start::{KeptStart, put_start, start_in};
use crate::message_view::View;
use crate::view_start::ViewStart;
use crate::view_writing::put_lines;
use sip_message_fields::text::{Buffer, Span, same_bytes};
use sip_message_fields::{
    FieldName, KeptField, ViewField, ViewFields, fields_in, fields_in_with_first, lines_at, put,
    same_fields,
};
use std::alloc::{AllocError, Global};
use std::marker::Model;

/// A message that is kept by its parts alone, seen as that message. They stand once, in one store, the lines of its fields one
/// behind the other, which are copied as a whole where they came so, and spans name its first line, its fields and its body.
#[derive(Drop)]
pub struct KeptParts {
    store: Buffer,
    start: KeptStart,
    list: Vec<KeptField>,
    body: Span,
}

impl Model for KeptParts {
    ghost use Rattle.sip_message_form.specs.declared.message.Message.{Message};
    ghost use Rattle.sip_message_form.specs.Kept.{message_kept, ArePartsStored};

    ghost Value = { Message };

    ghost view = { λ k. message_kept k.store k.start k.list.items k.body };

    ghost invariant = { λ k. ArePartsStored k.store k.start k.list.items k.body };
}

impl KeptParts {
    /// The message of a view, in two pieces of memory: its bytes, and the spans of its fields. `AllocError` is the
    /// only refusal.
    pub fn of(alloc: Global, view: &View<'_>) -> Result<Self, AllocError>
        ensures { IfOk result (λ kept. kept ≡ view.now) }
    {
        let mut store = Buffer::with_room(alloc, view.written_length())?;
        let start = put_start(&mut store, view.start())?;
        let body = put(&mut store, view.body())?;
        let fields = view.fields().as_slice();
        let lines = lines_at(alloc, fields, store.as_slice().len())?;
        put_lines(&mut store, fields, view.lines())?;
        Ok(KeptParts {
            store,
            start,
            list: lines.list,
            body,
        })
    }

    /// Its first line, of which no byte is copied. Takes no memory.
    pub fn start(&self) -> ViewStart<'_>
        ensures { start_seen result ≡ self.now.start }
    {
        start_in(self.store.as_slice(), self.start)
    }

    /// Views of its fields, of which no byte is copied. `AllocError` is the only refusal.
    pub fn fields<'k>(&'k self, alloc: Global) -> Result<ViewFields<'k>, AllocError>
        ensures { IfOk result (λ fields. fields ≡ self.now.fields) }
    {
        fields_in(alloc, self.store.as_slice(), self.list.as_slice())
    }

    /// The first field of a name, of which no byte is copied. Takes no memory.
    pub fn first_field(&self, name: &FieldName) -> Option<ViewField<'_>>
        ensures { result ≡ first_named name.now self.now.fields }
    {
        let store = self.store.as_slice();
        match first_in(store, self.list.as_slice(), name) {
            Some(kept) => Some(field_in(store, kept)),
            None => None,
        }
    }

    /// The value of the first field of a name, of which no byte is copied. Takes no memory.
    pub fn first(&self, name: &FieldName) -> Option<&[u8]>
        ensures { option_map (λ value. value.now) result ≡ Values.first_value name.now self.now.fields }
    {
        let store = self.store.as_slice();
        match first_in(store, self.list.as_slice(), name) {
            Some(kept) => Some(kept.value.of(store)),
            None => None,
        }
    }

    /// Puts the first field of a name with its CRLF, if there is one. `AllocError` is the only refusal.
    pub fn put_first(&self, out: &mut Buffer, name: &FieldName) -> Result<(), AllocError>
        ensures { OnOk result (out.new ≡ out.old ++ flat_map field_text (first_of name.now self.now.fields)) }
    {
        let store = self.store.as_slice();
        match first_in(store, self.list.as_slice(), name) {
            Some(kept) => put_kept(out, store, kept),
            None => Ok(()),
        }
    }

    /// Puts each field of a name with its CRLF, the first of them with another value. `AllocError` is the only refusal.
    pub fn put_named_with_first(
        &self,
        out: &mut Buffer,
        name: &FieldName,
        value: &[u8],
    ) -> Result<(), AllocError>
        ensures { OnOk result (out.new ≡ out.old
            ++ flat_map field_text (all_named name.now (Values.with_first name.now value.now self.now.fields))) }
    {
        put_with_first(
            out,
            self.store.as_slice(),
            self.list.as_slice(),
            name,
            value,
        )
    }

    /// A view of the message, of which no byte is copied. `AllocError` is the only refusal.
    pub fn view<'k>(&'k self, alloc: Global) -> Result<View<'k>, AllocError>
        ensures { IfOk result (λ view. view ≡ self.now) }
    {
        let store = self.store.as_slice();
        let fields = fields_in(alloc, store, self.list.as_slice())?;
        Ok(View::new(start_in(store, self.start), fields, self.body.of(store)))
    }

    /// A view of the message, the first field of a name with another value. No byte is copied. `AllocError` is the only
    /// refusal.
    pub fn view_with_first<'k>(
        &'k self,
        alloc: Global,
        name: &FieldName,
        value: &'k [u8],
    ) -> Result<View<'k>, AllocError>
        ensures { IfOk result (λ view. view ≡ record self.now { fields = Values.with_first name.now value.now self.now.fields }) }
    {
        let store = self.store.as_slice();
        let fields = fields_in_with_first(alloc, store, self.list.as_slice(), name, value)?;
        Ok(View::new(start_in(store, self.start), fields, self.body.of(store)))
    }

    /// Only where another says the same; so it does where both are kept in the same bytes. Takes no memory, and costs by the
    /// bytes.
    pub fn is_same(&self, other: &KeptParts) -> bool
        ensures { result ≡ true → self.now ≡ other.now }
    {
        if !self.start.is_same(&other.start) {
            return false;
        }
        if !self.body.is_same(other.body) {
            return false;
        }
        let list = self.list.as_slice();
        if !same_fields(list, other.list.as_slice()) {
            return false;
        }
        let store = self.store.as_slice();
        same_bytes(store, other.store.as_slice())
    }
}
