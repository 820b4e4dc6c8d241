//! The text of a server's numbers (Prometheus' text format, version 0.0.4).
ghost use Rattle.std.specs.Prelude.{◌≡◌, ◌++◌, IfOk, OnOk};
ghost use Rattle.sipd_status.specs.Numbers as Definitions;

use crate::tally::Decisions;
use sip_text::Bytes;
use std::alloc::{AllocError, Global};

/// How a server is.
#[derive(Clone, Copy)]
pub struct StatusNumbers {
    pub decisions: Decisions,
    /// How many requests gave credentials and proved nobody.
    pub wrong: u64,
    /// How many datagrams weren't heard.
    pub unheard: u64,
    /// How many requests are open.
    pub open_requests: u64,
    /// How many dialogs stand in the table of them.
    pub dialogs: u64,
    /// How many bytes the record has, where there is one.
    pub record_bytes: Option<u64>,
    /// How many bytes of memory are the process's, where that is known.
    pub memory_bytes: Option<u64>,
}

/// Adds what stands in front of a number: what it says, and whether it counts up.
fn push_head(out: &mut Bytes, name: &[u8], kind: &[u8], help: &[u8]) -> Result<(), AllocError>
    ensures { OnOk result (out.new ≡ out.old ++ Definitions.head name.now kind.now help.now) }
{
    out.extend(b"# HELP ")?;
    out.extend(name)?;
    out.extend(b" ")?;
    out.extend(help)?;
    out.extend(b"\n# TYPE ")?;
    out.extend(name)?;
    out.extend(b" ")?;
    out.extend(kind)?;
    out.extend(b"\n")
}

/// Adds a number behind its name.
fn push_sample(out: &mut Bytes, name: &[u8], number: u64) -> Result<(), AllocError>
    ensures { OnOk result (out.new ≡ out.old ++ Definitions.sample name.now number) }
{
    out.extend(name)?;
    out.extend(b" ")?;
    out.push_decimal(number)?;
    out.extend(b"\n")
}

/// Adds a number that stands alone.
fn push_number(
    out: &mut Bytes,
    name: &[u8],
    kind: &[u8],
    help: &[u8],
    number: u64,
) -> Result<(), AllocError>
    ensures { OnOk result (out.new ≡ out.old ++ Definitions.number_text name.now kind.now help.now number) }
{
    push_head(out, name, kind, help)?;
    push_sample(out, name, number)
}

/// The same, where the number is known.
fn push_known(
    out: &mut Bytes,
    name: &[u8],
    help: &[u8],
    number: Option<u64>,
) -> Result<(), AllocError>
    ensures { OnOk result (out.new ≡ out.old ++ Definitions.known_text name.now help.now number) }
{
    match number {
        Some(number) => push_number(out, name, b"gauge", help, number),
        None => Ok(()),
    }
}

/// How many requests were decided, by what became of them.
fn decisions_text(alloc: Global, decisions: &Decisions) -> Result<Bytes, AllocError>
    ensures { IfOk result (λ text. text ≡ Definitions.decisions_text decisions.now) }
{
    let mut out = Bytes::new(alloc);
    push_head(
        &mut out,
        b"sipd_decisions_total",
        b"counter",
        b"Requests that were decided since the start, by what became of them.",
    )?;
    push_sample(
        &mut out,
        b"sipd_decisions_total{outcome=\"challenge\"}",
        decisions.challenged,
    )?;
    push_sample(
        &mut out,
        b"sipd_decisions_total{outcome=\"deny\"}",
        decisions.denied,
    )?;
    push_sample(
        &mut out,
        b"sipd_decisions_total{outcome=\"sent\"}",
        decisions.sent,
    )?;
    push_sample(
        &mut out,
        b"sipd_decisions_total{outcome=\"answer\"}",
        decisions.answered,
    )?;
    Ok(out)
}

/// What was turned away.
fn turned_away_text(alloc: Global, numbers: &StatusNumbers) -> Result<Bytes, AllocError>
    ensures { IfOk result (λ text. text ≡ Definitions.turned_away_text numbers.now) }
{
    let mut out = Bytes::new(alloc);
    push_number(
        &mut out,
        b"sipd_wrong_credentials_total",
        b"counter",
        b"Requests since the start whose credentials proved nobody.",
        numbers.wrong,
    )?;
    push_number(
        &mut out,
        b"sipd_unheard_datagrams_total",
        b"counter",
        b"Datagrams since the start beyond what is heard of their source.",
        numbers.unheard,
    )?;
    Ok(out)
}

/// How full the tables are.
fn tables_text(alloc: Global, numbers: &StatusNumbers) -> Result<Bytes, AllocError>
    ensures { IfOk result (λ text. text ≡ Definitions.tables_text numbers.now) }
{
    let mut out = Bytes::new(alloc);
    push_number(
        &mut out,
        b"sipd_open_requests",
        b"gauge",
        b"Requests that are open, of 1024 that may be.",
        numbers.open_requests,
    )?;
    push_number(
        &mut out,
        b"sipd_dialogs",
        b"gauge",
        b"Dialogs that stand, of 4096 that may.",
        numbers.dialogs,
    )?;
    Ok(out)
}

/// Adds what is held.
fn push_held(out: &mut Bytes, numbers: &StatusNumbers) -> Result<(), AllocError>
    ensures { OnOk result (out.new ≡ out.old ++ Definitions.held_text numbers.now) }
{
    push_known(
        out,
        b"sipd_record_bytes",
        b"Bytes of the record that is written.",
        numbers.record_bytes,
    )?;
    push_known(
        out,
        b"sipd_memory_bytes",
        b"Bytes of memory that the process has.",
        numbers.memory_bytes,
    )
}

/// The text of a server's numbers, each with what it says. `AllocError` is the only refusal.
pub fn status_text(alloc: Global, numbers: &StatusNumbers) -> Result<Bytes, AllocError>
    ensures { IfOk result (λ text. text ≡ Definitions.status_text numbers.now) }
{
    let mut out = decisions_text(alloc, &numbers.decisions)?;
    let turned_away = turned_away_text(alloc, numbers)?;
    out.extend(turned_away.as_slice())?;
    let tables = tables_text(alloc, numbers)?;
    out.extend(tables.as_slice())?;
    push_held(&mut out, numbers)?;
    Ok(out)
}
