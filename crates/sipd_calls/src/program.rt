//! Calls for programs: a line of CSV or an object of JSON for each, or a row of HTML for a page.
ghost use Rattle.std.specs.Prelude.{◌≡◌, ◌++◌, Some, IfOk, OnOk};
ghost use Rattle.sipd_calls.specs.Choices.{if_shown};
ghost use Rattle.sipd_calls.specs.Notation as Written;
ghost use Rattle.sipd_calls.specs.Program as Definitions;

use crate::choice::CallFilter;
use crate::notation::{Notation, Value, push_end, push_first, push_further};
use crate::words::{push_came_of, push_iso, ruled_text, side_text};
use sip_days::{Call, Ending};
use sip_text::Bytes;
use sip_uri::{Addr, addr_text};
use sipd_report::put_target;
use std::alloc::{AllocError, Global};

/// Words that may not be there.
pub fn words_of(text: &Option<Bytes>) -> Value<'_>
    ensures { Written.seen result ≡ Definitions.words_said text.now }
{
    match text {
        Some(text) => Value::Words(text.as_slice()),
        None => Value::Nothing,
    }
}

/// A number that may not be there.
fn number_of(number: Option<u64>) -> Value<'static>
    ensures { Written.seen result ≡ Definitions.number_said number }
{
    match number {
        Some(number) => Value::Number(number),
        None => Value::Nothing,
    }
}

/// Who ended a call.
fn ended_of(ending: &Option<Ending>) -> Value<'static>
    ensures { Written.seen result ≡ Definitions.ended_said ending.now }
{
    match ending {
        Some(ending) => Value::Words(side_text(ending.by_caller)),
        None => Value::Nothing,
    }
}

/// Adds when a call began.
fn push_start(
    alloc: Global,
    out: &mut Bytes,
    notation: Notation,
    call: &Call,
) -> Result<(), AllocError>
    ensures { OnOk result (out.new ≡ out.old ++ Definitions.start_member notation call.now) }
{
    let mut start = Bytes::new(alloc);
    push_iso(&mut start, call)?;
    push_further(out, notation, b"start", &Value::Words(start.as_slice()))
}

/// Adds where something came from, where that is known.
fn push_place(
    alloc: Global,
    out: &mut Bytes,
    notation: Notation,
    source: Addr,
) -> Result<(), AllocError>
    ensures { OnOk result (out.new ≡ out.old ++ Definitions.source_member notation (Some source)) }
{
    let text = addr_text(alloc, source)?;
    push_further(out, notation, b"from", &Value::Words(text.as_slice()))
}

/// Adds where something came from, as the member `from`. `AllocError` is the only refusal.
pub fn push_source(
    alloc: Global,
    out: &mut Bytes,
    notation: Notation,
    source: Option<Addr>,
) -> Result<(), AllocError>
    ensures { OnOk result (out.new ≡ out.old ++ Definitions.source_member notation source) }
{
    match source {
        Some(source) => push_place(alloc, out, notation, source),
        None => push_further(out, notation, b"from", &Value::Nothing),
    }
}

/// Adds what was asked for.
fn push_asked(
    alloc: Global,
    out: &mut Bytes,
    notation: Notation,
    call: &Call,
) -> Result<(), AllocError>
    ensures { OnOk result (out.new ≡ out.old ++ Definitions.asked_text notation call.now) }
{
    push_first(
        out,
        notation,
        b"number",
        &Value::Number(call.decision.number),
    )?;
    push_start(alloc, out, notation, call)?;
    push_further(out, notation, b"caller", &words_of(&call.decision.who))?;
    push_source(alloc, out, notation, call.source)
}

/// Adds who was called, as the member `called`. `AllocError` is the only refusal.
pub fn push_called(
    alloc: Global,
    out: &mut Bytes,
    notation: Notation,
    call: &Call,
) -> Result<(), AllocError>
    ensures { OnOk result (out.new ≡ out.old ++ Definitions.called_member notation call.now) }
{
    let mut called = Bytes::new(alloc);
    put_target(&mut called, &call.decision.target)?;
    push_further(out, notation, b"called", &Value::Words(called.as_slice()))
}

/// Adds the result.
fn push_came(
    alloc: Global,
    out: &mut Bytes,
    notation: Notation,
    call: &Call,
) -> Result<(), AllocError>
    ensures { OnOk result (out.new ≡ out.old ++ Definitions.result_member notation call.now) }
{
    let mut came = Bytes::new(alloc);
    push_came_of(&mut came, call)?;
    push_further(out, notation, b"result", &Value::Words(came.as_slice()))
}

/// Adds who was called, by which rule, and the result.
fn push_decided(
    alloc: Global,
    out: &mut Bytes,
    notation: Notation,
    call: &Call,
) -> Result<(), AllocError>
    ensures { OnOk result (out.new ≡ out.old ++ Definitions.came_text notation call.now) }
{
    let rule = ruled_text(alloc, call.decision.outcome, call.decision.minute)?;
    push_called(alloc, out, notation, call)?;
    push_further(out, notation, b"rule", &words_of(&rule))?;
    push_came(alloc, out, notation, call)
}

/// Adds how long it lasted, who ended it, and its Call-ID.
fn push_lasted(out: &mut Bytes, notation: Notation, call: &Call) -> Result<(), AllocError>
    ensures { OnOk result (out.new ≡ out.old ++ Definitions.lasted_text notation call.now) }
{
    push_further(out, notation, b"ring_ms", &number_of(call.ring()))?;
    push_further(out, notation, b"talk_ms", &number_of(call.talk()))?;
    push_further(out, notation, b"ended_by", &ended_of(&call.ending))?;
    push_further(out, notation, b"call_id", &words_of(&call.call_id))
}

/// Adds a call.
fn push_call(
    alloc: Global,
    out: &mut Bytes,
    notation: Notation,
    call: &Call,
) -> Result<(), AllocError>
    ensures { OnOk result (out.new ≡ out.old ++ Definitions.call_text notation call.now) }
{
    push_asked(alloc, out, notation, call)?;
    push_decided(alloc, out, notation, call)?;
    push_lasted(out, notation, call)?;
    push_end(out, notation)
}

/// Adds a call, if it is shown.
fn push_shown(
    alloc: Global,
    out: &mut Bytes,
    notation: Notation,
    choice: &CallFilter<'_>,
    call: &Call,
) -> Result<(), AllocError>
    ensures { OnOk result (out.new ≡ out.old ++ if_shown choice.now call.now (Definitions.call_text notation call.now)) }
{
    let shown = choice.shows(alloc, call)?;
    if shown {
        return push_call(alloc, out, notation, call);
    }
    Ok(())
}

/// What such a text begins with: the names of the columns, in CSV and in HTML.
pub fn names_text(notation: Notation) -> &'static [u8]
    ensures { result.now ≡ Definitions.names_text notation }
{
    match notation {
        Notation::Csv => {
            b"number,start,caller,from,called,rule,result,ring_ms,talk_ms,ended_by,call_id\r\n"
        }
        Notation::Json => b"",
        Notation::Html =>
            b"<tr><th>number</th><th>start</th><th>caller</th><th>from</th><th>called</th><th>rule</th><th>result</th><th>ring, ms</th><th>talk, ms</th><th>ended by</th><th>Call-ID</th></tr>\n",
    }
}

/// The calls that are shown, in their order, each as programs get it. `AllocError` is the only refusal.
pub fn objects_text(
    alloc: Global,
    notation: Notation,
    choice: &CallFilter<'_>,
    calls: &[Call],
) -> Result<Bytes, AllocError>
    ensures { IfOk result (λ text. text ≡ Definitions.objects_text notation choice.now calls.now) }
{
    let mut out = Bytes::new(alloc);
    for call in calls {
        push_shown(alloc, &mut out, notation, choice, call)?;
    }
    Ok(out)
}
