//! The steps of a script as `sipd replay` takes them, with the sample configuration. A step that is refused for want of
//! memory must leave the moment, what is due and the bindings as they were; it is taken once more then. The marks say
//! when a step begins and when it has ended, so that `tests/refuse_each.sh` can refuse what a step asks for and nothing
//! else.

mod script;
mod standing;
mod take;

use crate::fault::Fault;
pub(crate) use script::event_of;
pub use script::play;
pub(crate) use standing::aor_of;
use std::alloc::Global;
pub(crate) use take::step;

/// What is printed of the steps of a script, none of which is refused.
fn printed(alloc: Global, script: &[u8]) -> Result<Vec<u8>, Fault> {
    let mut input = script;
    let mut output = Vec::new(alloc);
    let mut marks = Vec::new(alloc);
    play(alloc, &mut input, &mut output, &mut marks)?;
    Ok(output)
}

/// Whether the steps of a script, none of which is refused, print what is wanted.
pub fn prints(alloc: Global, script: &[u8], wanted: &[u8]) -> bool {
    match printed(alloc, script) {
        Ok(output) => output.as_slice() == wanted,
        Err(_) => false,
    }
}
