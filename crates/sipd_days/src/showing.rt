//! Calls as text.
ghost use Rattle.std.specs.Prelude.{◌≡◌, IfOk};
ghost use Rattle.sipd_days.specs.Days.{shown_text};

use sip_days::Call;
use sip_text::Bytes;
use sipd_calls::{CallFilter, Notation, objects_text, table_text};
use std::alloc::{AllocError, Global};

/// The calls that are shown, as a form has them.
pub(crate) fn text_of(
    alloc: Global,
    form: Option<Notation>,
    choice: &CallFilter<'_>,
    calls: &[Call],
) -> Result<Bytes, AllocError>
    ensures { IfOk result (λ text. text ≡ shown_text form choice.now calls.now) }
{
    match form {
        None => table_text(alloc, choice, calls),
        Some(notation) => objects_text(alloc, notation, choice, calls),
    }
}
