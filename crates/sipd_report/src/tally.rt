//! What a report counts, line by line: users, rules, outcomes, and the lines that are no audit lines. `ending` writes it.
ghost use Rattle.std.specs.Prelude.{◌≡◌, ◌++◌, map, OnOk};
ghost use Rattle.sipd_report.specs.Report.{numbered_text, shown_byte};
ghost use Rattle.sipd_report.specs.Entries;
ghost use Rattle.sipd_report.specs.Rows;
ghost use Rattle.sipd_report.specs.Steps as Definitions;
ghost use Rattle.sipd_report.specs.Totals.{one_more};

use crate::entry::is_servers_own;
use crate::query::ruling_of;
use crate::row::{put_outcome_kind, put_ruling};
use crate::totals::Totals;
use sip_audit::{AuditOutcome, Record, who_word};
use sip_text::Bytes;
use std::alloc::{AllocError, Global};

/// How many lines are shown that are no audit lines.
const SHOWN: u64 = 20;

/// How many bytes are shown of each.
const SHOWN_BYTES: usize = 120;

/// What is counted of the lines of an input. No count goes beyond the greatest that it holds.
pub(crate) struct Tally {
    pub users: Totals,
    pub rules: Totals,
    pub outcomes: Totals,
    /// All lines.
    pub lines: u64,
    /// Those in which something stands.
    pub filled: u64,
    /// Those whose record is asked for.
    pub asked: u64,
    /// Those whose record is left out, since no challenge is asked for.
    pub left_out: u64,
    /// Those that are no audit lines.
    pub none: u64,
    /// The first of these, as they are shown.
    pub shown: Bytes,
}

/// Written out, so that it is proved once and not wherever one is dropped.
impl Drop for Tally {
    fn drop(self) {
        let Tally {
            users: _,
            rules: _,
            outcomes: _,
            lines: _,
            filled: _,
            asked: _,
            left_out: _,
            none: _,
            shown: _,
        } = self;
    }
}

impl Tally {
    /// Nothing counted yet.
    pub(crate) fn new(alloc: Global) -> Tally
        ensures { result ≡ Definitions.no_tally }
    {
        Tally {
            users: Totals::new(alloc),
            rules: Totals::new(alloc),
            outcomes: Totals::new(alloc),
            lines: 0,
            filled: 0,
            asked: 0,
            left_out: 0,
            none: 0,
            shown: Bytes::new(alloc),
        }
    }

    /// One line more.
    pub(crate) fn add_line(&mut self)
        ensures { self.new ≡ Definitions.with_line self.old }
    {
        self.lines = self.lines.saturating_add(1);
    }

    /// Something stands in it.
    pub(crate) fn add_filled(&mut self)
        ensures { self.new ≡ Definitions.with_filled self.old }
    {
        self.filled = self.filled.saturating_add(1);
    }

    /// Its record is left out.
    pub(crate) fn add_left_out(&mut self)
        ensures { self.new ≡ Definitions.with_left_out self.old }
    {
        self.left_out = self.left_out.saturating_add(1);
    }

    /// It is foreign.
    fn add_no_entry(&mut self, line: &[u8]) -> Result<(), AllocError>
        ensures { OnOk result (self.new ≡ Definitions.with_no_entry line.now self.old) }
    {
        if self.none < SHOWN {
            push_no_entry(&mut self.shown, self.lines, line)?;
        }
        self.none = self.none.saturating_add(1);
        Ok(())
    }

    /// It tells no record.
    pub(crate) fn add_untold(&mut self, line: &[u8]) -> Result<(), AllocError>
        ensures { OnOk result (self.new ≡ Definitions.with_untold line.now self.old) }
    {
        if is_servers_own(line) {
            return Ok(());
        }
        self.add_no_entry(line)
    }

    /// Its record is asked for.
    pub(crate) fn add_record(&mut self, alloc: Global, record: &Record) -> Result<(), AllocError>
        ensures { OnOk result (self.new ≡ Definitions.with_record «record».now self.old) }
    {
        self.users.add(alloc, who_word(&record.who))?;
        add_ruling(alloc, &mut self.rules, record.outcome)?;
        add_outcome(alloc, &mut self.outcomes, record.outcome)?;
        self.asked = self.asked.saturating_add(1);
        Ok(())
    }
}

/// One more of the rule that decided.
fn add_ruling(alloc: Global, rules: &mut Totals, outcome: AuditOutcome) -> Result<(), AllocError>
    ensures { OnOk result (rules.new ≡ one_more rules.old (Rows.ruling_text (Entries.ruling_of outcome))) }
{
    let mut text = Bytes::new(alloc);
    put_ruling(&mut text, ruling_of(outcome))?;
    rules.add(alloc, text.as_slice())
}

/// One more of what became of a request.
fn add_outcome(
    alloc: Global,
    outcomes: &mut Totals,
    outcome: AuditOutcome,
) -> Result<(), AllocError>
    ensures { OnOk result (outcomes.new ≡ one_more outcomes.old (Rows.outcome_kind outcome)) }
{
    let mut text = Bytes::new(alloc);
    put_outcome_kind(&mut text, outcome)?;
    outcomes.add(alloc, text.as_slice())
}

/// Adds a line that is no audit line as it is shown.
fn push_no_entry(text: &mut Bytes, number: u64, line: &[u8]) -> Result<(), AllocError>
    ensures { OnOk result (text.new ≡ text.old ++ numbered_text number line.now) }
{
    text.extend(b"line ")?;
    text.push_decimal(number)?;
    text.extend(b": ")?;
    push_shown(text, &line[..line.len().min(SHOWN_BYTES)])?;
    text.push(b'\n')
}

/// Adds bytes, with a point for each that doesn't print.
fn push_shown(text: &mut Bytes, bytes: &[u8]) -> Result<(), AllocError>
    ensures { OnOk result (text.new ≡ text.old ++ map shown_byte bytes.now) }
{
    for byte in bytes {
        text.push(shown(*byte))?;
    }
    Ok(())
}

fn shown(byte: u8) -> u8
    ensures { result ≡ shown_byte byte }
{
    if byte >= b' ' && byte < 127 {
        byte
    } else {
        b'.'
    }
}
