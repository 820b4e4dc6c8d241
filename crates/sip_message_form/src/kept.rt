//! A message kept by its written form, which goes out as it stands: so are kept the answers that came or were made here.
//! The request of an open request is kept in fewer bytes (`KeptParts`).
ghost use Rattle.std.specs.Prelude.{◌≡◌, true, IfOk, All, drop, map};
ghost use Rattle.sip_message_fields.specs.Values;
ghost use Rattle.sip_message_fields.specs.KeptField.{field_kept, IsStored};
ghost use Rattle.sip_message_form.specs.Text.{text_of, AreLinesOf};
ghost use Rattle.sip_message_form.specs.ViewStart.{start_seen};

use crate::kept_start::{KeptStart, start_in};
use crate::kept_text::{put_body_text, put_start_line};
use crate::lengths::rest_length;
use crate::message_view::View;
use crate::view_length::first_line_length;
use crate::view_start::ViewStart;
use crate::view_writing::put_lines;
use sip_message_fields::text::{Buffer, Span, same_bytes};
use sip_message_fields::{
    FieldName, KeptField, ViewField, ViewFields, fields_in, fields_in_with_first, lines_at,
    same_fields,
};
use std::alloc::{AllocError, Global};
use std::marker::Model;

/// A message that is kept beyond its datagram, seen as that message: its written form stands in one store, and spans name
/// its first line, its fields and its body in it.
pub struct Kept {
    store: Buffer,
    start: KeptStart,
    list: Vec<KeptField>,
    body: Span,
}

/// Written out, so that it is proved once and not wherever one is dropped.
impl Drop for Kept {
    fn drop(self) {
        let Kept {
            store: _,
            start: _,
            list: _,
            body: _,
        } = self;
    }
}

impl Model for Kept {
    ghost use Rattle.sip_message_form.specs.declared.message.Message.{Message};
    ghost use Rattle.sip_message_form.specs.Kept.{message_kept, IsMessageStored};

    ghost Value = { Message };

    ghost view = { λ k. message_kept k.store k.start k.list.items k.body };

    ghost invariant = { λ k. IsMessageStored k.store k.start k.list.items k.body };
}

/// The message of a first line, fields and a body, which is written once.
fn written(
    alloc: Global,
    start: &ViewStart<'_>,
    fields: &[ViewField<'_>],
    known_lines: Option<&[u8]>,
    body: &[u8],
) -> Result<Kept, AllocError>
    requires { AreLinesOf known_lines fields.now }
    ensures { IfOk result (λ kept. kept ≡ record { start = start_seen start.now; fields = fields.now; body = body.now }) }
{
    let lines = lines_at(alloc, fields, first_line_length(start)?)?;
    let room = lines.end.saturating_add(rest_length(body.len()));
    let mut store = Buffer::with_room(alloc, room)?;
    let first_line = put_start_line(&mut store, start)?;
    put_lines(&mut store, fields, known_lines)?;
    let span = put_body_text(&mut store, body)?;
    Ok(Kept {
        store,
        start: first_line,
        list: lines.list,
        body: span,
    })
}

impl Kept {
    /// The message of a view, in two pieces of memory: its written form, and the spans of its fields. `AllocError` is the
    /// only refusal.
    pub fn of(alloc: Global, view: &View<'_>) -> Result<Self, AllocError>
        ensures { IfOk result (λ kept. kept ≡ view.now) }
    {
        let fields = view.fields().as_slice();
        written(alloc, view.start(), fields, view.lines(), view.body())
    }

    /// The message of a view without its first field. `AllocError` is the only refusal.
    pub fn without_first(alloc: Global, view: &View<'_>) -> Result<Self, AllocError>
        ensures { IfOk result (λ kept. kept ≡ record view.now { fields = drop 1 view.now.fields }) }
    {
        let fields = view.fields().as_slice();
        match fields.split_first() {
            Some((_, others)) => {
                let lines = view.lines_behind_first();
                written(alloc, view.start(), others, lines, view.body())
            }
            None => written(alloc, view.start(), fields, None, view.body()),
        }
    }

    /// Its written form, of which no byte is copied. Takes no memory.
    pub fn text(&self) -> &[u8]
        ensures { result.now ≡ text_of self.now }
    {
        self.store.as_slice()
    }

    /// The store, and the fields as spans in it: what each span names is a spelling or a value.
    pub fn places(&self) -> (&[u8], &[KeptField])
        ensures fields { map (field_kept result.0.now) result.1.now ≡ self.now.fields }
        ensures within { All (IsStored result.0.now) result.1.now }
    {
        (self.store.as_slice(), self.list.as_slice())
    }

    /// Its first line, of which no byte is copied. Takes no memory.
    pub fn start(&self) -> ViewStart<'_>
        ensures { start_seen result ≡ self.now.start }
    {
        start_in(self.store.as_slice(), self.start)
    }

    /// Views of its fields, of which no byte is copied. `AllocError` is the only refusal.
    pub fn fields<'k>(&'k self, alloc: Global) -> Result<ViewFields<'k>, AllocError>
        ensures { IfOk result (λ fields. fields ≡ self.now.fields) }
    {
        fields_in(alloc, self.store.as_slice(), self.list.as_slice())
    }

    /// A view of the message, of which no byte is copied. `AllocError` is the only refusal.
    pub fn view<'k>(&'k self, alloc: Global) -> Result<View<'k>, AllocError>
        ensures { IfOk result (λ view. view ≡ self.now) }
    {
        let store = self.store.as_slice();
        let fields = fields_in(alloc, store, self.list.as_slice())?;
        Ok(View::new(start_in(store, self.start), fields, self.body.of(store)))
    }

    /// A view of the message, the first field of a name with another value. No byte is copied. `AllocError` is the only
    /// refusal.
    pub fn view_with_first<'k>(
        &'k self,
        alloc: Global,
        name: &FieldName,
        value: &'k [u8],
    ) -> Result<View<'k>, AllocError>
        ensures { IfOk result (λ view. view ≡ record self.now { fields = Values.with_first name.now value.now self.now.fields }) }
    {
        let store = self.store.as_slice();
        let fields = fields_in_with_first(alloc, store, self.list.as_slice(), name, value)?;
        Ok(View::new(start_in(store, self.start), fields, self.body.of(store)))
    }

    /// Only where another says the same; so it does where both are kept in the same bytes. Takes no memory, and costs by the
    /// bytes.
    pub fn is_same(&self, other: &Kept) -> bool
        ensures { result ≡ true → self.now ≡ other.now }
    {
        if !self.start.is_same(&other.start) {
            return false;
        }
        if !self.body.is_same(other.body) {
            return false;
        }
        let list = self.list.as_slice();
        if !same_fields(list, other.list.as_slice()) {
            return false;
        }
        let store = self.store.as_slice();
        same_bytes(store, other.store.as_slice())
    }
}
