ghost use Rattle.std.specs.Prelude.{◌≡◌, ◌≢◌, IfOk, Err};
ghost use Rattle.sip_message_form.specs.declared.error.ReadError.TheVariants.{NoMemory};
ghost use Rattle.sip_message_form.specs.ViewStart.{start_seen};
ghost use Rattle.sip_message.specs.Reading.{reading_of};
ghost use Rattle.model_verdict.specs.Verdict.{message_in};

use sip_message::view;
use sip_message_fields::{ViewField, ViewFields};
use sip_message_form::{View, ViewError, ViewRefusal, ViewStart};
use std::alloc::{AllocError, Global};

/// The same first line, of which no byte of the datagram is copied.
fn start_again<'a>(start: &ViewStart<'a>) -> Result<ViewStart<'a>, AllocError>
    ensures { IfOk result (λ again. start_seen again ≡ start_seen start.now) }
{
    match start {
        ViewStart::Request {
            method,
            uri,
            version,
        } => Ok(ViewStart::Request {
            method,
            uri,
            version: version.clone()?,
        }),
        ViewStart::Status { code, reason } => Ok(ViewStart::Status {
            code: *code,
            reason,
        }),
    }
}

/// The same field, of which no byte of the datagram is copied.
fn field_again<'a>(field: &ViewField<'a>) -> Result<ViewField<'a>, AllocError>
    ensures { IfOk result (λ again. again ≡ field.now) }
{
    let name = field.name().clone()?;
    let value = field.value().clone()?;
    Ok(ViewField::new(name, value))
}

/// The same fields, of which no byte of the datagram is copied.
fn fields_again<'a>(alloc: Global, fields: &[ViewField<'a>]) -> Result<ViewFields<'a>, AllocError>
    ensures { IfOk result (λ again. again ≡ fields.now) }
{
    let mut again = ViewFields::with_room(alloc, fields.len())?;
    for field in fields {
        again.push(field_again(field)?)?;
    }
    Ok(again)
}

/// The same view, of which no byte of the datagram is copied.
fn view_again<'a>(alloc: Global, view: &View<'a>) -> Result<View<'a>, AllocError>
    ensures { IfOk result (λ again. again ≡ view.now) }
{
    let start = start_again(view.start())?;
    let fields = fields_again(alloc, view.fields().as_slice())?;
    Ok(View::new(start, fields, view.body()))
}

/// The view of a refusal, if it is one of a short body.
fn short_view<'a>(
    alloc: Global,
    error: &ViewError<'a>,
) -> Result<Option<(View<'a>, bool)>, AllocError>
    ensures said { IfOk result (λ said. said ≡ message_in (Err error.now)) }
    ensures memory { IfOk result (λ said. error.now ≢ NoMemory) }
{
    match error.refusal() {
        ViewRefusal::ShortBody(view) => Ok(Some((view_again(alloc, view)?, true))),
        ViewRefusal::NoMemory => Err(AllocError),
        ViewRefusal::NotSip
        | ViewRefusal::BadField
        | ViewRefusal::TooLong
        | ViewRefusal::TooManyFields => Ok(None),
    }
}

/// The message that a datagram says, if it says one, as parts of the datagram, and whether fewer bytes of its body came
/// than its length says (RFC 3261 7, 18.3). Bytes that say none, a malformed field, and what is over a limit are None.
/// `AllocError` is the only refusal.
pub fn read_datagram<'a>(
    alloc: Global,
    bytes: &'a [u8],
) -> Result<Option<(View<'a>, bool)>, AllocError>
    ensures { IfOk result (λ said. said ≡ message_in (reading_of bytes.now)) }
{
    match view(alloc, bytes) {
        Ok(view) => Ok(Some((view, false))),
        Err(error) => short_view(alloc, &error),
    }
}
