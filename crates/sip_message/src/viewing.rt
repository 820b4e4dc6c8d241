ghost use Rattle.std.specs.Prelude.{◌≡◌, ◌⊎◌, IfOk, IfErr, Some, Ok};
ghost use Rattle.sip_message.specs.Says.{Says, IsWithinLimits};
ghost use Rattle.sip_message.specs.Reading.{Gives, limited, datagram_of, reading_of, fault_of};
ghost use Rattle.sip_message_form.specs.declared.message.Message.{Message};
ghost use Rattle.sip_message_form.specs.declared.error.ReadError.TheVariants.{NoMemory};

use crate::body::{body_part, is_cut_short};
use crate::filling::{Filling, filling_of_head};
use crate::lines::{first_line, without_blank_lines};
use crate::start_line::start_of_line;
use sip_message_form::{View, ViewError, ViewRefusal};
use std::alloc::Global;

/// The view, if it is within the limits and its body is whole.
fn within_limits<'a>(short: bool, view: View<'a>) -> Result<View<'a>, ViewError<'a>>
    ensures { Gives (λ m. m) result (limited short view.entry) }
{
    if view.fields().as_slice().len() > 256 {
        return Err(ViewError::new(ViewRefusal::TooManyFields));
    }
    if view.written_length() > 49_152 {
        return Err(ViewError::new(ViewRefusal::TooLong));
    }
    if short {
        return Err(ViewError::new(ViewRefusal::ShortBody(view)));
    }
    Ok(view)
}

/// The view of bytes that aren't too many.
#[tactic(auto, unfolding(crate::specs::Reading::datagram_of))]
fn view_of_datagram<'a>(alloc: Global, bytes: &'a [u8]) -> Result<View<'a>, ViewError<'a>>
    ensures { Gives (λ m. m) result (datagram_of bytes.now) }
{
    let Some((line, head)) = first_line(without_blank_lines(bytes)) else {
        return Err(ViewError::new(ViewRefusal::NotSip));
    };
    let start = start_of_line(alloc, line)?;
    let (filling, rest) = filling_of_head(alloc, head)?;
    let Filling {
        fields,
        length,
        lines,
    } = filling;
    let view = View::of_lines(start, fields, lines, body_part(length, rest));
    within_limits(is_cut_short(length, rest), view)
}

/// The view of bytes.
#[tactic(auto, unfolding(crate::specs::Reading::reading_of))]
fn view_bytes<'a>(alloc: Global, bytes: &'a [u8]) -> Result<View<'a>, ViewError<'a>>
    ensures { Gives (λ m. m) result (reading_of bytes.now) }
{
    if bytes.len() > 65_507 {
        return Err(ViewError::new(ViewRefusal::TooLong));
    }
    view_of_datagram(alloc, bytes)
}

/// The message that a datagram says (RFC 3261 7), as parts of the datagram. The refusals are those of `read`, in the
/// same order.
pub fn view<'a>(alloc: Global, bytes: &'a [u8]) -> Result<View<'a>, ViewError<'a>>
    // The message or the first refusal, unless memory runs out.
    ensures exact { Gives (λ m. m) result (reading_of bytes.now) }
    // What is viewed is said.
    ensures said { IfOk result (λ m. Says bytes.now m × IsWithinLimits bytes.now m) }
    // What is said within the limits is viewed, unless memory runs out.
    ensures only { (m : Message) → Says bytes.now m → IsWithinLimits bytes.now m → Gives (λ m. m) result (Ok m) }
    // A refusal other than for memory is the first that applies.
    ensures refused { IfErr result (λ e. (e ≡ NoMemory) ⊎ (fault_of bytes.now ≡ Some e)) }
{
    view_bytes(alloc, bytes)
}
