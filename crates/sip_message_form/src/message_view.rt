//! The form in which messages are read and edited: views, lent by a datagram, by a message that was made, or by another view.
ghost use Rattle.std.specs.Prelude.{◌≡◌, ◌≤◌, ◌∷◌, ◌++◌, IfOk, OnOk, List, drop, length};
ghost use Rattle.std.specs.List.{flat_map};
ghost use Rattle.sip_message_fields.specs.declared.field.Field.{Field};
ghost use Rattle.sip_message_form.specs.Text.{field_text, AreLinesOf};
ghost use Rattle.sip_message_form.specs.ViewStart.{start_seen};

use crate::message::Message;
use crate::view_start::ViewStart;
use crate::view_writing::put_lines;
use sip_message_fields::text::{Buffer, Bytes};
use sip_message_fields::{ViewField, ViewFields};
use std::alloc::{AllocError, Global};
use std::marker::Model;

/// A message as parts of a datagram or of another message, seen as that message. Where the lines of its fields stand in what was
/// read as they are written, one behind the other, it has these, too: they are counted and copied as a whole.
pub struct View<'a> {
    start: ViewStart<'a>,
    fields: ViewFields<'a>,
    lines: Option<&'a [u8]>,
    body: &'a [u8],
}

/// Written out, so that it is proved once and not wherever a view is dropped.
impl<'a> Drop for View<'a> {
    fn drop(self) {
        let View {
            start: _,
            fields: _,
            lines: _,
            body: _,
        } = self;
    }
}

impl<'a> Model for View<'a> {
    ghost use Rattle.sip_message_form.specs.declared.message.Message.{Message};
    ghost use Rattle.sip_message_form.specs.ViewStart.{start_seen};
    ghost use Rattle.sip_message_form.specs.Text.{AreLinesOf};

    ghost Value = { Message };

    ghost view = { λ v. record { start = start_seen v.start; fields = v.fields; body = v.body.now } };

    ghost invariant = { λ v. AreLinesOf v.lines v.fields };
}

/// The lines of the fields behind the first one, where those of all are known.
fn lines_behind<'a>(first: &ViewField<'_>, lines: Option<&'a [u8]>) -> Option<&'a [u8]>
    ensures { (others : List Field) → AreLinesOf lines.entry (first.now ∷ others) → AreLinesOf result others }
{
    let lines = lines?;
    let line = first.line()?;
    if line.len() > lines.len() {
        return None;
    }
    Some(&lines[line.len()..])
}

/// The lines of the fields behind some first ones, where those of all are known.
fn lines_behind_all<'a>(skipped: &[ViewField<'_>], lines: Option<&'a [u8]>) -> Option<&'a [u8]>
    ensures { (others : List Field) → AreLinesOf lines.entry (skipped.now ++ others) → AreLinesOf result others }
{
    let mut lines = lines;
    for field in skipped {
        lines = lines_behind(field, lines);
    }
    lines
}

impl<'a> View<'a> {
    /// The message of a first line, fields and a body.
    pub fn new(start: ViewStart<'a>, fields: ViewFields<'a>, body: &'a [u8]) -> Self
        ensures { result ≡ record { start = start_seen start.entry; fields = fields.entry; body = body.now } }
    {
        View {
            start,
            fields,
            lines: None,
            body,
        }
    }

    /// The message of a first line, fields, their lines, where these stand in what was read as they are written, one behind the
    /// other, and a body.
    pub fn of_lines(
        start: ViewStart<'a>,
        fields: ViewFields<'a>,
        lines: Option<&'a [u8]>,
        body: &'a [u8],
    ) -> Self
        requires { AreLinesOf lines fields }
        ensures { result ≡ record { start = start_seen start.entry; fields = fields.entry; body = body.now } }
    {
        View {
            start,
            fields,
            lines,
            body,
        }
    }

    /// Its first line.
    pub fn start(&self) -> &ViewStart<'a>
        ensures { start_seen result.now ≡ self.now.start }
    {
        &self.start
    }

    /// Its fields.
    pub fn fields(&self) -> &ViewFields<'a>
        ensures { result.now ≡ self.now.fields }
    {
        &self.fields
    }

    /// The lines of its fields, where they stand in what was read as they are written, one behind the other.
    #[inline]
    pub(crate) fn lines(&self) -> Option<&[u8]>
        ensures { AreLinesOf result self.now.fields }
    {
        self.lines
    }

    /// The lines of its fields behind the first one, where those of all are known.
    pub(crate) fn lines_behind_first(&self) -> Option<&[u8]>
        ensures { AreLinesOf result (drop 1 self.now.fields) }
    {
        match self.fields.as_slice().split_first() {
            Some((first, _others)) => lines_behind(first, self.lines),
            None => None,
        }
    }

    /// Puts each field behind some first ones with its CRLF, all at once where their lines stand one behind the other. `AllocError` is
    /// the only refusal.
    pub fn put_fields_behind(&self, out: &mut Buffer, skipped: usize) -> Result<(), AllocError>
        requires { skipped ≤ length self.now.fields }
        ensures { OnOk result (out.new ≡ out.old ++ flat_map field_text (drop skipped self.now.fields)) }
    {
        let (first, others) = self.fields.as_slice().split_at(skipped);
        let lines = lines_behind_all(first, self.lines);
        put_lines(out, others, lines)
    }

    /// Its body.
    pub fn body(&self) -> &'a [u8]
        ensures { result.now ≡ self.now.body }
    {
        self.body
    }

    /// The message with other fields. No byte is copied.
    pub fn with_fields<'v>(&'v self, fields: ViewFields<'v>) -> View<'v>
        ensures { result ≡ record self.now { fields = fields.entry } }
    {
        View::new(self.start.lent(), fields, self.body)
    }

    /// The message, which owns its bytes. `AllocError` is the only refusal.
    pub fn to_message(&self, alloc: Global) -> Result<Message, AllocError>
        ensures { IfOk result (λ message. message ≡ self.now) }
    {
        let start = self.start.to_start(alloc)?;
        let fields = self.fields.to_fields(alloc)?;
        let body = Bytes::copy(alloc, self.body)?;
        Ok(Message {
            start,
            fields,
            body,
        })
    }
}

impl Message {
    /// A view of the message, of which no byte is copied. `AllocError` is the only refusal.
    pub fn view<'a>(&'a self, alloc: Global) -> Result<View<'a>, AllocError>
        ensures { IfOk result (λ view. view ≡ self.now) }
    {
        let fields = ViewFields::of_fields(alloc, &self.fields)?;
        Ok(View::new(
            ViewStart::of_start(&self.start),
            fields,
            self.body.as_slice(),
        ))
    }
}
