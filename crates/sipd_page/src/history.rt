//! What is kept of records while they are told as one history.
ghost use Rattle.std.specs.Prelude.{◌≡◌, fold, [], IfOk, OnOk};
ghost use Rattle.sipd_calls.specs.Program.{objects_text as rows_text};
ghost use Rattle.sipd_calls.specs.declared.notation.Notation.TheVariants.{Html};
ghost use Rattle.sipd_page.specs.History as Definitions;

use sip_audit::{Record, line_of};
use sip_config_types::Config;
use sip_days::{Call, Calls};
use sip_event::{Event, StepOut};
use sip_listener::Listener;
use sip_replay_script::PrintStop;
use sip_text::{Bytes, Items};
use sipd_calls::{CallFilter, Notation, objects_text};
use std::alloc::{AllocError, Global};

/// The lines of the log of records, and their calls, as far as they were told.
pub(crate) struct History {
    pub alloc: Global,
    pub lines: Items<Bytes>,
    pub calls: Calls,
}

/// Written out, so that it is proved once and not wherever one is dropped.
impl Drop for History {
    fn drop(self) {
        let History {
            alloc: _,
            lines: _,
            calls: _,
        } = self;
    }
}

impl History {
    /// Nothing yet. Takes no memory.
    pub(crate) fn new(alloc: Global) -> Self
        ensures { Definitions.IsUntold result }
    {
        History {
            alloc,
            lines: Items::new(alloc),
            calls: Calls::new(alloc),
        }
    }
}

/// Adds the line of a record.
fn push_line(alloc: Global, lines: &mut Items<Bytes>, record: &Record) -> Result<(), AllocError>
    ensures { OnOk result (lines.new ≡ Definitions.with_line lines.old «record».now) }
{
    match line_of(alloc, record) {
        Ok(line) => lines.push(line),
        Err(_) => Err(AllocError),
    }
}

#[tactic(auto, using(std::proofs::lemmas::List::at_drop_more, std::proofs::lemmas::List::drop_all))]
fn push_lines(alloc: Global, lines: &mut Items<Bytes>, records: &[Record]) -> Result<(), AllocError>
    ensures { OnOk result (lines.new ≡ fold Definitions.with_line lines.old records.now) }
{
    for decision in records {
        push_line(alloc, lines, decision)?;
    }
    Ok(())
}

/// The same of what a step puts out.
fn push_lines_of(alloc: Global, lines: &mut Items<Bytes>, out: &StepOut) -> Result<(), AllocError>
    ensures { OnOk result (lines.new ≡ fold Definitions.with_line lines.old out.now.records) }
{
    push_lines(alloc, lines, out.records.as_slice())
}

impl Listener for History {
    ghost use Rattle.std.specs.Prelude.{⊤};
    ghost use Rattle.sipd_page.specs.History.{HearsHistory};

    ghost hears = { HearsHistory };

    ghost refuses = { λ _ _ _. ⊤ };

    ghost gave_up = { λ _. ⊥ };

    fn hear(
        &mut self,
        config: &Config,
        event: Option<Event>,
        out: StepOut,
    ) -> Result<(), PrintStop> {
        match push_lines_of(self.alloc, &mut self.lines, &out) {
            Ok(()) => self.calls.hear(config, event, out),
            Err(_) => Err(PrintStop::NoMemory),
        }
    }
}

/// Each call but those that were asked for a credential.
fn every_call() -> CallFilter<'static>
    ensures { result ≡ Definitions.every_call }
{
    CallFilter {
        since: None,
        until: None,
        user: None,
        target: None,
        from: None,
        challenged: false,
    }
}

/// The rows of calls.
pub(crate) fn rows_of(alloc: Global, calls: &[Call]) -> Result<Bytes, AllocError>
    ensures { IfOk result (λ rows. rows ≡ rows_text Html Definitions.every_call calls.now) }
{
    objects_text(alloc, Notation::Html, &every_call(), calls)
}
