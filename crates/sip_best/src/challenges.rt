//! The challenges of all other 401 and 407, put behind the fields of the best answer (RFC 3261 16.7 step 7), while a datagram has room.
ghost use Rattle.std.specs.Prelude.{◌≡◌, length, filter, min, ◌-◌, ◌^◌, IfOk};
ghost use Rattle.std.specs.List.{flat_map};
ghost use Rattle.sip_message_form.specs.Text.{field_text, text_of};
ghost use Rattle.sip_best.specs.Best.{is_challenge_status, is_challenge_field, challenges_of, taking_along};

use crate::final_answer::Final;
use sip_message_fields::{FieldName, ViewField, ViewFields};
use sip_message_form::Kept;
use std::alloc::{AllocError, Global};

/// The greatest number of bytes that a datagram holds.
const LONGEST_DATAGRAM: usize = 65_507;

/// Whether a status challenges (RFC 3261 21.4.2, 21.4.8).
pub(crate) fn is_challenge_status(status: u16) -> bool
    ensures { result ≡ is_challenge_status status }
{
    status == 401 || status == 407
}

/// Whether a field is a challenge (RFC 3261 20.44, 20.27).
fn is_challenge(field: &ViewField<'_>) -> bool
    ensures { result ≡ is_challenge_field field.now }
{
    field.name().is_same(&FieldName::WwwAuthenticate)
        || field.name().is_same(&FieldName::ProxyAuthenticate)
}

/// The challenges among some fields.
fn challenges_among<'a>(
    alloc: Global,
    fields: Vec<ViewField<'a>>,
) -> Result<Vec<ViewField<'a>>, AllocError>
    ensures { IfOk result (λ found. found.items ≡ filter is_challenge_field fields.entry.items) }
{
    let mut found = Vec::new(alloc);
    for field in fields {
        if is_challenge(&field) {
            found.push(field)?;
        }
    }
    Ok(found)
}

/// The challenges of an answer, if it is a 401 or 407 that came.
fn challenges_of<'a>(alloc: Global, answer: &'a Final) -> Result<Vec<ViewField<'a>>, AllocError>
    ensures { IfOk result (λ found. found.items ≡ challenges_of answer.now) }
{
    if !is_challenge_status(answer.status) {
        return Ok(Vec::new(alloc));
    }
    match &answer.message {
        Some(message) => {
            let fields = message.get().fields(alloc)?;
            challenges_among(alloc, fields.into_list())
        }
        None => Ok(Vec::new(alloc)),
    }
}

/// The challenges of some answers, in order of arrival. No byte is copied.
pub(crate) fn challenges_in<'a>(
    alloc: Global,
    answers: &'a [Final],
) -> Result<Vec<ViewField<'a>>, AllocError>
    ensures { IfOk result (λ found. found.items ≡ flat_map challenges_of answers.now) }
{
    let mut found = Vec::new(alloc);
    for answer in answers {
        let mut challenges = challenges_of(alloc, answer)?;
        found.append(&mut challenges)?;
    }
    Ok(found)
}

/// The length of a field with its CRLF, or the greatest `usize` where it is longer.
fn line_length(field: &ViewField<'_>) -> usize
    ensures { result ≡ min (length (field_text field.now)) (2 ^ 64 - 1) }
{
    field
        .name()
        .spelling()
        .len()
        .saturating_add(field.value().as_slice().len())
        .saturating_add(b": \r\n".len())
}

/// How many more bytes fit a datagram with a message.
fn room_behind(alloc: Global, message: &Kept) -> Result<usize, AllocError>
    ensures { IfOk result (λ room. room ≡ 65507 - length (text_of message.now)) }
{
    let view = message.view(alloc)?;
    Ok(LONGEST_DATAGRAM.saturating_sub(view.written_length()))
}

/// The fields of a message with further ones behind the last one, while its text fits a datagram: the first that doesn't
/// fit and all behind it are left out. No byte is copied.
pub(crate) fn fields_along<'v>(
    alloc: Global,
    message: &'v Kept,
    challenges: &'v [ViewField<'_>],
) -> Result<ViewFields<'v>, AllocError>
    ensures { IfOk result (λ fields. record message.now { fields = fields } ≡ taking_along message.now challenges.now) }
{
    let mut fields = message.fields(alloc)?;
    let mut room = room_behind(alloc, message)?;
    for challenge in challenges {
        let length = line_length(challenge);
        if length > room {
            return Ok(fields);
        }
        room -= length;
        fields.push(challenge.lent()?)?;
    }
    Ok(fields)
}
