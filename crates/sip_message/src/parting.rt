ghost use Rattle.std.specs.Prelude.{IfOk};
ghost use Rattle.sip_message.specs.Parts.{parts_seen, ArePartsOf};
ghost use Rattle.sip_message.specs.Reading.{Gives, content_of, parts_of};

use crate::body::{body_part, is_cut_short};
use crate::content::{Content, content_of_head};
use crate::datagram_parts::DatagramParts;
use crate::lines::{first_line, without_blank_lines};
use crate::start_line::start_of_line;
use sip_message_form::{ViewError, ViewRefusal};
use std::alloc::Global;

/// The parts of bytes that aren't too many.
#[tactic(auto, unfolding(crate::specs::Reading::content_of))]
fn parts_of_datagram<'a>(alloc: Global, bytes: &'a [u8]) -> Result<DatagramParts<'a>, ViewError<'a>>
    ensures parts { Gives parts_seen result (content_of bytes.now) }
    ensures cut { IfOk result (λ parts. ArePartsOf bytes.entry parts) }
{
    let Some((line, head)) = first_line(without_blank_lines(bytes)) else {
        return Err(ViewError::new(ViewRefusal::NotSip));
    };
    let start = start_of_line(alloc, line)?;
    let (Content { fields, length }, rest) = content_of_head(alloc, head)?;
    Ok(DatagramParts {
        start,
        fields,
        body: body_part(length, rest),
        is_short: is_cut_short(length, rest),
    })
}

/// The parts of a datagram (RFC 3261 7), before the limits of a message: where no line of a field has a fold, its
/// value is the slice of the datagram that it is. The refusals, in their order: `TooLong` (more than 65,507 bytes),
/// `NotSip`, `BadField`; `NoMemory` at any point.
#[tactic(auto, unfolding(crate::specs::Reading::parts_of))]
pub fn parts<'a>(alloc: Global, bytes: &'a [u8]) -> Result<DatagramParts<'a>, ViewError<'a>>
    // What the bytes say, or the first refusal, unless memory runs out.
    ensures exact { Gives parts_seen result (parts_of bytes.now) }
    // Where it stands: not bytes that are the same, but the same memory.
    ensures slices { IfOk result (λ parts. ArePartsOf bytes.entry parts) }
{
    if bytes.len() > 65_507 {
        return Err(ViewError::new(ViewRefusal::TooLong));
    }
    parts_of_datagram(alloc, bytes)
}
