//! The table, and what programs get.
ghost use Rattle.std.specs.Prelude.{◌≡◌, ◌++◌, nat_lt, OnOk, IfOk};
ghost use Rattle.std.specs.List.{flat_map};
ghost use Rattle.sipd_calls.specs.Moments.{title};
ghost use Rattle.sipd_standing.specs.PhoneTable as Definitions;

use crate::phone_cells::{push_names, push_row};
use crate::phone_program::{columns, push_object};
use sip_config_types::Config;
use sip_days::Registered;
use sip_location::{BindingRef, LiveBindings};
use sip_policy::Rules;
use sip_run::engine::Engine;
use sip_text::Bytes;
use sip_timers::Timers;
use sipd_calls::{Notation, push_title};
use std::alloc::{AllocError, Global};

/// Whether a binding is live at a moment.
fn is_live(at: u64, binding: &BindingRef<'_>) -> bool
    ensures { result ≡ nat_lt at binding.now.expires_at }
{
    at < binding.expires_at()
}

/// Adds a binding, in a row of the table or for programs.
fn push_binding(
    alloc: Global,
    out: &mut Bytes,
    form: Option<Notation>,
    at: u64,
    row: &Registered,
    binding: &BindingRef<'_>,
) -> Result<(), AllocError>
    ensures { OnOk result (out.new ≡ out.old ++ Definitions.row_in form at row.now binding.now) }
{
    match form {
        None => push_row(alloc, out, at, row, binding),
        Some(notation) => push_object(alloc, out, notation, at, row, binding),
    }
}

/// The same, if the binding is live at the moment.
fn push_if_live(
    alloc: Global,
    out: &mut Bytes,
    form: Option<Notation>,
    at: u64,
    row: &Registered,
    binding: &BindingRef<'_>,
) -> Result<(), AllocError>
    ensures { OnOk result (out.new ≡ out.old ++ Definitions.if_live form at row.now binding.now) }
{
    let live = is_live(at, binding);
    if live {
        return push_binding(alloc, out, form, at, row, binding);
    }
    Ok(())
}

/// Adds those of an address.
fn push_bindings(
    alloc: Global,
    out: &mut Bytes,
    form: Option<Notation>,
    at: u64,
    row: &Registered,
    bindings: LiveBindings<'_>,
) -> Result<(), AllocError>
    ensures { OnOk result (out.new ≡ out.old ++ flat_map (Definitions.if_live form at row.now) bindings.entry) }
{
    let mut left = bindings;
    while let Some(binding) = left.next() {
        push_if_live(alloc, out, form, at, row, &binding)?;
    }
    Ok(())
}

/// Adds those of an address of the server.
fn push_phone<T: Timers, R: Rules>(
    alloc: Global,
    out: &mut Bytes,
    form: Option<Notation>,
    engine: &Engine<T, R>,
    at: u64,
    row: &Registered,
) -> Result<(), AllocError>
    ensures { OnOk result (out.new ≡ out.old ++ Definitions.rows_of form engine.now.state at row.now) }
{
    push_bindings(alloc, out, form, at, row, engine.bindings(&row.aor))
}

fn push_rows<T: Timers, R: Rules>(
    alloc: Global,
    out: &mut Bytes,
    form: Option<Notation>,
    engine: &Engine<T, R>,
    at: u64,
    rows: &[Registered],
) -> Result<(), AllocError>
    ensures { OnOk result (out.new ≡ out.old ++ flat_map (Definitions.rows_of form engine.now.state at) rows.now) }
{
    for row in rows {
        push_phone(alloc, out, form, engine, at, row)?;
    }
    Ok(())
}

/// Adds the moment that the table is of, on the office's clock.
fn push_above(out: &mut Bytes, config: &Config, at: u64) -> Result<(), AllocError>
    ensures { OnOk result (out.new ≡ out.old ++ title config.now.offset at) }
{
    push_title(out, config.offset, at)
}

/// Adds what stands above the rows.
fn push_head(
    out: &mut Bytes,
    form: Option<Notation>,
    config: &Config,
    at: u64,
) -> Result<(), AllocError>
    ensures { OnOk result (out.new ≡ out.old ++ Definitions.head_in form config.now.offset at) }
{
    match form {
        None => {
            push_above(out, config, at)?;
            push_names(out)
        }
        Some(notation) => out.extend(columns(notation)),
    }
}

/// Who is registered with a server at a moment that isn't before its last one: the bindings of these addresses that are live then, in their
/// order, on the office's clock, as a table, or for programs where a notation is given. `AllocError` is the only refusal.
pub fn phones_text<T: Timers, R: Rules>(
    alloc: Global,
    form: Option<Notation>,
    engine: &Engine<T, R>,
    at: u64,
    rows: &[Registered],
) -> Result<Bytes, AllocError>
    ensures { IfOk result (λ text. text ≡ Definitions.phones_text form engine.now.server engine.now.state at rows.now) }
{
    let mut out = Bytes::new(alloc);
    push_head(&mut out, form, engine.config(), at)?;
    push_rows(alloc, &mut out, form, engine, at, rows)?;
    Ok(out)
}
