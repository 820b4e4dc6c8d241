//! The table, and what programs get.
ghost use Rattle.std.specs.Prelude.{◌≡◌, ◌++◌, Some, IfOk, OnOk};
ghost use Rattle.std.specs.List.{flat_map};
ghost use Rattle.sipd_calls.specs.Moments.{start_text, title};
ghost use Rattle.sipd_standing.specs.Standing as Definitions;

use crate::program::{columns, push_object};
use crate::standing::{Standing, standing_of};
use sip_audit::who_word;
use sip_config_types::Config;
use sip_days::Call;
use sip_text::Bytes;
use sipd_calls::{
    Notation, push_cell, push_length, push_number, push_ruled, push_start_at, push_title,
    seconds_of,
};
use sipd_report::push_user;
use std::alloc::{AllocError, Global};

/// Adds the names of the columns.
fn push_names(out: &mut Bytes) -> Result<(), AllocError>
    ensures { OnOk result (out.new ≡ out.old ++ Definitions.names) }
{
    out.extend(b"number since          caller       called               rule  state   for\n")
}

/// Adds a moment on a call's clock.
fn push_moment(text: &mut Bytes, call: &Call, at: u64) -> Result<(), AllocError>
    ensures { OnOk result (text.new ≡ text.old ++ start_text call.now.offset at) }
{
    push_start_at(text, call.offset, at)
}

/// Adds since when a call has stood so.
fn push_since(alloc: Global, out: &mut Bytes, call: &Call, since: u64) -> Result<(), AllocError>
    ensures { OnOk result (out.new ≡ out.old ++ Definitions.since_cell call.now since) }
{
    let mut cell = Bytes::new(alloc);
    push_moment(&mut cell, call, since)?;
    push_cell(out, 14, cell.as_slice())
}

fn push_called(alloc: Global, out: &mut Bytes, call: &Call) -> Result<(), AllocError>
    ensures { OnOk result (out.new ≡ out.old ++ Definitions.called_cell call.now) }
{
    let mut cell = Bytes::new(alloc);
    push_user(&mut cell, call.decision.target.user.as_slice())?;
    push_cell(out, 20, cell.as_slice())
}

/// Adds whom a call is from and to, and by which rule.
fn push_sides(alloc: Global, out: &mut Bytes, call: &Call) -> Result<(), AllocError>
    ensures { OnOk result (out.new ≡ out.old ++ Definitions.side_cells call.now) }
{
    push_cell(out, 12, who_word(&call.decision.who))?;
    push_called(alloc, out, call)?;
    push_ruled(alloc, out, call)
}

/// Adds for how long a call has stood so, and the row's end.
fn push_for(out: &mut Bytes, milliseconds: u64) -> Result<(), AllocError>
    ensures { OnOk result (out.new ≡ out.old ++ Definitions.for_cell milliseconds) }
{
    push_length(out, seconds_of(milliseconds))?;
    out.push(b'\n')
}

/// Adds the row of a call that stands so since a moment.
fn push_row(
    alloc: Global,
    out: &mut Bytes,
    at: u64,
    call: &Call,
    word: &[u8],
    since: u64,
) -> Result<(), AllocError>
    ensures { OnOk result (out.new ≡ out.old ++ Definitions.standing_row at call.now word.now since) }
{
    push_number(alloc, out, call.decision.number)?;
    push_since(alloc, out, call, since)?;
    push_sides(alloc, out, call)?;
    push_cell(out, 7, word)?;
    push_for(out, at.saturating_sub(since))
}

/// The same, for programs where a notation is given.
fn push_in(
    alloc: Global,
    out: &mut Bytes,
    form: Option<Notation>,
    at: u64,
    call: &Call,
    word: &[u8],
    since: u64,
) -> Result<(), AllocError>
    ensures { OnOk result (out.new ≡ out.old ++ Definitions.row_in form at call.now word.now since) }
{
    match form {
        None => push_row(alloc, out, at, call, word, since),
        Some(notation) => push_object(alloc, out, notation, at, call, word, since),
    }
}

/// Adds a call that stands so.
fn push_standing(
    alloc: Global,
    out: &mut Bytes,
    form: Option<Notation>,
    at: u64,
    call: &Call,
    standing: Standing,
) -> Result<(), AllocError>
    ensures { OnOk result (out.new ≡ out.old ++ Definitions.row_if form at call.now (Some standing)) }
{
    match standing {
        Standing::Rings { since } => push_in(alloc, out, form, at, call, b"rings", since),
        Standing::Talked { since } => push_in(alloc, out, form, at, call, b"talks", since),
    }
}

/// Adds a call, if it isn't over.
fn push_if_standing(
    alloc: Global,
    out: &mut Bytes,
    form: Option<Notation>,
    at: u64,
    call: &Call,
) -> Result<(), AllocError>
    ensures { OnOk result (out.new ≡ out.old ++ Definitions.if_standing form at call.now) }
{
    match standing_of(call) {
        Some(standing) => push_standing(alloc, out, form, at, call, standing),
        None => Ok(()),
    }
}

fn push_all(
    alloc: Global,
    out: &mut Bytes,
    form: Option<Notation>,
    at: u64,
    calls: &[Call],
) -> Result<(), AllocError>
    ensures { OnOk result (out.new ≡ out.old ++ flat_map (Definitions.if_standing form at) calls.now) }
{
    for call in calls {
        push_if_standing(alloc, out, form, at, call)?;
    }
    Ok(())
}

/// Adds the moment that the table is of, on the office's clock.
fn push_above(out: &mut Bytes, config: &Config, at: u64) -> Result<(), AllocError>
    ensures { OnOk result (out.new ≡ out.old ++ title config.now.offset at) }
{
    push_title(out, config.offset, at)
}

/// Adds what stands above the rows.
fn push_head(
    out: &mut Bytes,
    form: Option<Notation>,
    config: &Config,
    at: u64,
) -> Result<(), AllocError>
    ensures { OnOk result (out.new ≡ out.old ++ Definitions.head_in form config.now.offset at) }
{
    match form {
        None => {
            push_above(out, config, at)?;
            push_names(out)
        }
        Some(notation) => out.extend(columns(notation)),
    }
}

/// The calls that ring or are talked at a moment, in the order of their INVITEs: their table, with the office's clock by a configuration in its
/// head, or what programs get of them, where a notation is given. `AllocError` is the only refusal.
pub fn standing_text(
    alloc: Global,
    form: Option<Notation>,
    config: &Config,
    at: u64,
    calls: &[Call],
) -> Result<Bytes, AllocError>
    ensures { IfOk result (λ text. text ≡ Definitions.standing_text form config.now.offset at calls.now) }
{
    let mut out = Bytes::new(alloc);
    push_head(&mut out, form, config, at)?;
    push_all(alloc, &mut out, form, at, calls)?;
    Ok(out)
}

/// Adds a count behind its name, and what stands behind it.
fn push_count(out: &mut Bytes, name: &[u8], count: u64, rest: &[u8]) -> Result<(), AllocError>
    ensures { OnOk result (out.new ≡ out.old ++ Definitions.count_text name.now count rest.now) }
{
    out.extend(name)?;
    out.push_decimal(count)?;
    out.extend(rest)
}

/// How many requests are open, and how many dialogs stand, of how many that may be.
fn full_text(alloc: Global, requests: u64, dialogs: u64) -> Result<Bytes, AllocError>
    ensures { IfOk result (λ text. text ≡ Definitions.full_text requests dialogs) }
{
    let mut out = Bytes::new(alloc);
    push_count(&mut out, b"open requests: ", requests, b" of 1024; ")?;
    push_count(&mut out, b"dialogs: ", dialogs, b" of 4096\n")?;
    Ok(out)
}

/// The same, a line behind the table; programs get rows alone.
pub fn tables_text(
    alloc: Global,
    form: Option<Notation>,
    requests: usize,
    dialogs: usize,
) -> Result<Bytes, AllocError>
    ensures { IfOk result (λ text. text ≡ Definitions.tables_text form requests dialogs) }
{
    match form {
        None => full_text(alloc, requests as u64, dialogs as u64),
        Some(_) => Ok(Bytes::new(alloc)),
    }
}
