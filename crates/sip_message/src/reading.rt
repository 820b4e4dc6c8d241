ghost use Rattle.std.specs.Prelude.{◌≡◌, ◌⊎◌, IfOk, IfErr, Some, Ok};
ghost use Rattle.sip_message.specs.Says.{Says, IsWithinLimits};
ghost use Rattle.sip_message.specs.Reading.{Gives, reading_of, fault_of};
ghost use Rattle.sip_message_form.specs.declared.error.ReadError.TheVariants.{NoMemory};

use crate::viewing::view;
use sip_message_form::{Message, ReadError};
use std::alloc::Global;

/// The message of bytes.
fn read_bytes(alloc: Global, bytes: &[u8]) -> Result<Message, ReadError>
    ensures { Gives (λ m. m) result (reading_of bytes.now) }
{
    match view(alloc, bytes) {
        Ok(view) => Ok(view.to_message(alloc)?),
        Err(error) => Err(error.to_read_error(alloc)),
    }
}

/// The message that a datagram says (RFC 3261 7). The refusals, in the order in which they are looked for:
/// `TooLong` (more than 65,507 bytes), `NotSip`, `BadField`, `TooManyFields`, `TooLong` (a written form of more
/// than 49,152 bytes), `ShortBody`; `NoMemory` at any point.
pub fn read(alloc: Global, bytes: &[u8]) -> Result<Message, ReadError>
    // The message or the first refusal, unless memory runs out.
    ensures exact { Gives (λ m. m) result (reading_of bytes.now) }
    // What is read is said.
    ensures said { IfOk result (λ m. Says bytes.now m × IsWithinLimits bytes.now m) }
    // What is said within the limits is read, unless memory runs out.
    ensures only { (m : Message) → Says bytes.now m → IsWithinLimits bytes.now m → Gives (λ m. m) result (Ok m) }
    // A refusal other than for memory is the first that applies.
    ensures refused { IfErr result (λ e. (e ≡ NoMemory) ⊎ (fault_of bytes.now ≡ Some e)) }
{
    read_bytes(alloc, bytes)
}
