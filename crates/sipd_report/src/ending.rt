ghost use Rattle.std.specs.Prelude.{◌≡◌, ◌++◌, IfOk, OnOk};
ghost use Rattle.sipd_report.specs.Report as Definitions;

use crate::query::Form;
use crate::tally::Tally;
use crate::totals::{Totals, push_total};
use sip_text::Bytes;
use std::alloc::{AllocError, Global};

/// Adds a title, behind an empty line.
fn push_title(text: &mut Bytes, title: &[u8]) -> Result<(), AllocError>
    ensures { OnOk result (text.new ≡ text.old ++ Definitions.title_text title.now) }
{
    text.push(b'\n')?;
    text.extend(title)?;
    text.push(b'\n')
}

/// Adds totals under a title, in order.
fn push_totals(
    alloc: Global,
    text: &mut Bytes,
    title: &[u8],
    totals: &Totals,
) -> Result<(), AllocError>
    ensures { OnOk result (text.new ≡ text.old ++ Definitions.totals_text title.now totals.now) }
{
    push_title(text, title)?;
    totals.push_lines(alloc, text)
}

/// Adds how many lines there are.
fn push_counts(text: &mut Bytes, tally: &Tally) -> Result<(), AllocError>
    ensures { OnOk result (text.new ≡ text.old ++ Definitions.counts_text tally.now) }
{
    push_title(text, b"lines")?;
    push_total(text, b"in all", tally.filled)?;
    push_total(text, b"in the table", tally.asked)?;
    push_total(text, b"challenges, left out", tally.left_out)?;
    push_total(text, b"no audit lines", tally.none)
}

/// What stands behind the rows.
pub(crate) fn ending_text(alloc: Global, form: Form, tally: &Tally) -> Result<Bytes, AllocError>
    ensures { IfOk result (λ text. text ≡ Definitions.ending_text form tally.now) }
{
    let mut text = Bytes::new(alloc);
    match form {
        Form::Table => {
            push_totals(alloc, &mut text, b"by user", &tally.users)?;
            push_totals(alloc, &mut text, b"by rule", &tally.rules)?;
            push_totals(alloc, &mut text, b"by outcome", &tally.outcomes)?;
            push_counts(&mut text, tally)?;
            text.extend(tally.shown.as_slice())?;
        }
        Form::Csv => {}
    }
    Ok(text)
}
