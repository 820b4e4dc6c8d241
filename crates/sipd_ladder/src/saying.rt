//! What a datagram of a call says, and what was decided of it, in a word or two.
ghost use Rattle.std.specs.Prelude.{◌≡◌, ◌≢◌, ◌++◌, map, Err, IfOk, OnOk};
ghost use Rattle.std.specs.Option.{option_and_then};
ghost use Rattle.std.specs.Result.{result_ok};
ghost use Rattle.sip_header.specs.CoreFields as Cores;
ghost use Rattle.sip_message_form.specs.ViewStart.{start_seen};
ghost use Rattle.sip_message_form.specs.declared.error.ReadError.TheVariants.{NoMemory};
ghost use Rattle.sipd_ladder.specs.Saying as Definitions;

use sip_audit::AuditOutcome;
use sip_header::{CoreFields, HeaderError, core_of};
use sip_message::{View, ViewError, ViewRefusal, ViewStart, view};
use sip_text::{Bytes, same_bytes};
use std::alloc::{AllocError, Global};

/// Adds the method, unless it is INVITE.
fn push_method_note(out: &mut Bytes, method: &[u8]) -> Result<(), AllocError>
    ensures { OnOk result (out.new ≡ out.old ++ Definitions.method_note method.now) }
{
    if same_bytes(method, b"INVITE") {
        return Ok(());
    }
    out.extend(b" (")?;
    out.extend(method)?;
    out.push(b')')
}

/// A byte as a terminal gets it: printable ASCII as it is, any other as a question mark, so that no phone steers a terminal.
fn plain(byte: u8) -> u8
    ensures { result ≡ Definitions.plain byte }
{
    if byte > 31 && byte < 127 { byte } else { b'?' }
}

/// Adds a text so. `AllocError` is the only refusal.
pub fn push_plain(out: &mut Bytes, text: &[u8]) -> Result<(), AllocError>
    ensures { OnOk result (out.new ≡ out.old ++ map Definitions.plain text.now) }
{
    for byte in text {
        out.push(plain(*byte))?;
    }
    Ok(())
}

/// The reason of a 407 is shortened.
fn short_reason(reason: &[u8]) -> &[u8]
    ensures { result.now ≡ Definitions.short_reason reason.now }
{
    if same_bytes(reason, b"Proxy Authentication Required") {
        b"Proxy Auth Required"
    } else {
        reason
    }
}

/// Adds a status and its reason.
fn push_status(out: &mut Bytes, code: u16, reason: &[u8]) -> Result<(), AllocError>
    ensures { OnOk result (out.new ≡ out.old ++ Definitions.status_text code reason.now) }
{
    out.push_decimal(u64::from(code))?;
    out.push(b' ')?;
    push_plain(out, short_reason(reason))
}

/// Adds the word of a start line, whose CSeq has that method.
fn push_word(out: &mut Bytes, start: &ViewStart<'_>, method: &[u8]) -> Result<(), AllocError>
    ensures { OnOk result (out.new ≡ out.old ++ Definitions.word_of (start_seen start.now) method.now) }
{
    match start {
        ViewStart::Request { method, .. } => out.extend(method),
        ViewStart::Status { code, reason } => {
            push_status(out, *code, reason)?;
            push_method_note(out, method)
        }
    }
}

/// The word of a message, if it is of a call.
fn word_if(
    alloc: Global,
    call_id: &[u8],
    message: &View<'_>,
    core: &CoreFields<'_>,
) -> Result<Option<Bytes>, AllocError>
    ensures { IfOk result (λ word. word ≡ Definitions.word_if call_id.now message.now core.now) }
{
    if !same_bytes(core.call_id.as_slice(), call_id) {
        return Ok(None);
    }
    let mut word = Bytes::new(alloc);
    push_word(&mut word, message.start(), core.cseq.method.as_slice())?;
    Ok(Some(word))
}

/// The core fields of a message, if each stands there once and can be read.
fn core_read<'v>(alloc: Global, message: &'v View<'_>) -> Result<Option<CoreFields<'v>>, AllocError>
    ensures { IfOk result (λ core. core ≡ result_ok (Cores.core_of message.now)) }
{
    match core_of(alloc, message) {
        Ok(core) => Ok(Some(core)),
        Err(HeaderError::NoMemory) => Err(AllocError),
        Err(_) => Ok(None),
    }
}

fn word_said(alloc: Global, call_id: &[u8], message: &View<'_>) -> Result<Option<Bytes>, AllocError>
    ensures { IfOk result (λ word. word ≡ Definitions.word_said call_id.now message.now) }
{
    match core_read(alloc, message)? {
        Some(core) => word_if(alloc, call_id, message, &core),
        None => Ok(None),
    }
}

/// What a message says of a call of whose body not all came; nothing, where bytes are refused otherwise. Want of memory alone is a refusal.
fn word_of_short(
    alloc: Global,
    call_id: &[u8],
    error: &ViewError<'_>,
) -> Result<Option<Bytes>, AllocError>
    ensures said { IfOk result (λ word. word ≡ option_and_then (Definitions.word_said call_id.now) (Definitions.message_in (Err error.now))) }
    ensures memory { OnOk result (error.now ≢ NoMemory) }
{
    match error.refusal() {
        ViewRefusal::ShortBody(message) => word_said(alloc, call_id, message),
        ViewRefusal::NoMemory => Err(AllocError),
        ViewRefusal::NotSip
        | ViewRefusal::BadField
        | ViewRefusal::TooLong
        | ViewRefusal::TooManyFields => Ok(None),
    }
}

/// What bytes say of a call, if they say a message of it, whether its body is whole or not.
pub(crate) fn word_in(
    alloc: Global,
    call_id: &[u8],
    bytes: &[u8],
) -> Result<Option<Bytes>, AllocError>
    ensures { IfOk result (λ word. word ≡ Definitions.word_in call_id.now bytes.now) }
{
    match view(alloc, bytes) {
        Ok(message) => word_said(alloc, call_id, &message),
        Err(error) => word_of_short(alloc, call_id, &error),
    }
}

/// Adds a rule's number, with the minute of the day where it has a window, and what follows it.
fn push_rule(out: &mut Bytes, rule: u32, minute: Option<u16>) -> Result<(), AllocError>
    ensures { OnOk result (out.new ≡ out.old ++ Definitions.ruled_text rule minute) }
{
    out.extend(b"rule ")?;
    out.push_decimal(u64::from(rule))?;
    if let Some(minute) = minute {
        out.push(b'@')?;
        out.push_decimal(u64::from(minute))?;
    }
    out.extend(b": ")
}

/// Adds what became of a request.
fn push_outcome(
    out: &mut Bytes,
    outcome: AuditOutcome,
    minute: Option<u16>,
) -> Result<(), AllocError>
    ensures { OnOk result (out.new ≡ out.old ++ Definitions.decided_text outcome minute) }
{
    match outcome {
        AuditOutcome::Challenge { status } => {
            out.extend(b"challenge ")?;
            out.push_decimal(u64::from(status))
        }
        AuditOutcome::Deny { rule } => {
            push_rule(out, rule, minute)?;
            out.extend(b"deny")
        }
        AuditOutcome::Sent { rule, targets } => {
            push_rule(out, rule, minute)?;
            out.extend(b"sent ")?;
            out.push_decimal(u64::from(targets))
        }
        AuditOutcome::Answer { rule, status } => {
            push_rule(out, rule, minute)?;
            out.extend(b"answer ")?;
            out.push_decimal(u64::from(status))
        }
    }
}

/// What was decided of a request.
pub(crate) fn decided_text(
    alloc: Global,
    outcome: AuditOutcome,
    minute: Option<u16>,
) -> Result<Bytes, AllocError>
    ensures { IfOk result (λ text. text ≡ Definitions.decided_text outcome minute) }
{
    let mut text = Bytes::new(alloc);
    push_outcome(&mut text, outcome, minute)?;
    Ok(text)
}
