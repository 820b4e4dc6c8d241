ghost use Rattle.std.specs.Prelude.{◌≡◌, IfOk};
ghost use Rattle.std.specs.Option.{option_copied};
ghost use Rattle.sip_config_values.specs.Grammar as Grammars;
ghost use Rattle.sipd_ask.specs.Refusals.{Reads};
ghost use Rattle.sipd_ask.specs.Question as Definitions;

use crate::error::QuestionError;
use crate::fronts::front_before;
use crate::methods::has_small_letter;
use sip_policy::{Operation, Users};
use sip_text::{Bytes, is_token, same_bytes};
use std::alloc::{AllocError, Global};

/// Whether a text is a method of requests that are sent on.
fn is_sent_method(text: &[u8]) -> bool
    ensures { result ≡ Grammars.is_sent_method text.now }
{
    is_token(text)
        && !same_bytes(text, b"REGISTER")
        && !same_bytes(text, b"ACK")
        && !same_bytes(text, b"CANCEL")
}

/// That a request of a method is sent on.
fn method_asked(alloc: Global, method: &[u8]) -> Result<Operation, QuestionError>
    ensures { Reads (λ operation. operation) result (Definitions.method_asked method.now) }
{
    if has_small_letter(method) {
        return Err(QuestionError::SmallLetter);
    }
    Ok(Operation::Send(Bytes::copy(alloc, method)?))
}

/// What a word asks for: `register`, `list`, or a method of requests that are sent on. Refuses BadMethod or SmallLetter; NoMemory may
/// come in place of any answer.
pub fn operation_asked(alloc: Global, word: &[u8]) -> Result<Operation, QuestionError>
    ensures { Reads (λ operation. operation) result (Definitions.operation_asked word.now) }
{
    if same_bytes(word, b"register") {
        return Ok(Operation::Register);
    }
    if same_bytes(word, b"list") {
        return Ok(Operation::List);
    }
    if is_sent_method(word) {
        return method_asked(alloc, word);
    }
    Err(QuestionError::BadMethod)
}

/// Whether a user, if one is named, is configured.
pub(crate) fn is_configured(users: &Users, user: Option<&[u8]>) -> bool
    ensures { result ≡ Definitions.is_configured users.now (option_copied user.entry) }
{
    match user {
        Some(name) => users.has_name(name),
        None => true,
    }
}

/// Whether a text has an `@` before any `:`, as `USER@HOST` has and no URI.
fn is_address(text: &[u8]) -> bool
    ensures { result ≡ Definitions.is_address text.now }
{
    front_before(text, b':').iter().any(|byte| *byte == b'@')
}

/// The text of the URI that a target means.
pub(crate) fn uri_text(alloc: Global, target: &[u8]) -> Result<Bytes, AllocError>
    ensures { IfOk result (λ text. text ≡ Definitions.uri_text target.now) }
{
    if is_address(target) {
        Bytes::joined(alloc, b"sip:", target)
    } else {
        Bytes::copy(alloc, target)
    }
}
