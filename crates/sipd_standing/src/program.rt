//! Calls that ring or are talked, for programs: a line of CSV or an object of JSON for each, or a row of HTML for a page.
ghost use Rattle.std.specs.Prelude.{◌≡◌, ◌++◌, OnOk};
ghost use Rattle.sipd_calls.specs.Moments.{iso_text};
ghost use Rattle.sipd_standing.specs.Program as Definitions;

use sip_days::Call;
use sip_text::Bytes;
use sipd_calls::{
    Notation, Value, push_called, push_end, push_first, push_further, push_iso_at, push_source,
    ruled_text, words_of,
};
use std::alloc::{AllocError, Global};

/// The names of the columns, in CSV and in HTML.
pub(crate) fn columns(notation: Notation) -> &'static [u8]
    ensures { result.now ≡ Definitions.columns notation }
{
    match notation {
        Notation::Csv => b"number,since,caller,from,called,rule,state,for_ms,call_id\r\n",
        Notation::Json => b"",
        Notation::Html =>
            b"<tr><th>number</th><th>since</th><th>caller</th><th>from</th><th>called</th><th>rule</th><th>state</th><th>for, ms</th><th>Call-ID</th></tr>\n",
    }
}

/// Adds a moment on a call's clock.
fn push_moment(text: &mut Bytes, call: &Call, at: u64) -> Result<(), AllocError>
    ensures { OnOk result (text.new ≡ text.old ++ iso_text call.now.offset at) }
{
    push_iso_at(text, call.offset, at)
}

/// Adds since when a call has stood so.
fn push_since(
    alloc: Global,
    out: &mut Bytes,
    notation: Notation,
    call: &Call,
    since: u64,
) -> Result<(), AllocError>
    ensures { OnOk result (out.new ≡ out.old ++ Definitions.since_member notation call.now since) }
{
    let mut moment = Bytes::new(alloc);
    push_moment(&mut moment, call, since)?;
    push_further(out, notation, b"since", &Value::Words(moment.as_slice()))
}

/// Adds whom a call is from and to, and by which rule.
fn push_sides(
    alloc: Global,
    out: &mut Bytes,
    notation: Notation,
    call: &Call,
) -> Result<(), AllocError>
    ensures { OnOk result (out.new ≡ out.old ++ Definitions.sides_text notation call.now) }
{
    let rule = ruled_text(alloc, call.decision.outcome, call.decision.minute)?;
    push_further(out, notation, b"caller", &words_of(&call.decision.who))?;
    push_source(alloc, out, notation, call.source)?;
    push_called(alloc, out, notation, call)?;
    push_further(out, notation, b"rule", &words_of(&rule))
}

/// Adds which call it is, since when it has stood so, and its sides.
fn push_front(
    alloc: Global,
    out: &mut Bytes,
    notation: Notation,
    call: &Call,
    since: u64,
) -> Result<(), AllocError>
    ensures { OnOk result (out.new ≡ out.old ++ Definitions.front_text notation call.now since) }
{
    push_first(
        out,
        notation,
        b"number",
        &Value::Number(call.decision.number),
    )?;
    push_since(alloc, out, notation, call, since)?;
    push_sides(alloc, out, notation, call)
}

/// Adds how it stands at a moment, for how long, and its Call-ID.
fn push_back(
    out: &mut Bytes,
    notation: Notation,
    at: u64,
    call: &Call,
    word: &[u8],
    since: u64,
) -> Result<(), AllocError>
    ensures { OnOk result (out.new ≡ out.old ++ Definitions.back_text notation at call.now word.now since) }
{
    push_further(out, notation, b"state", &Value::Words(word))?;
    push_further(
        out,
        notation,
        b"for_ms",
        &Value::Number(at.saturating_sub(since)),
    )?;
    push_further(out, notation, b"call_id", &words_of(&call.call_id))?;
    push_end(out, notation)
}

/// Adds a call that has stood so since a moment.
pub(crate) fn push_object(
    alloc: Global,
    out: &mut Bytes,
    notation: Notation,
    at: u64,
    call: &Call,
    word: &[u8],
    since: u64,
) -> Result<(), AllocError>
    ensures { OnOk result (out.new ≡ out.old ++ Definitions.object_text notation at call.now word.now since) }
{
    push_front(alloc, out, notation, call, since)?;
    push_back(out, notation, at, call, word, since)
}
