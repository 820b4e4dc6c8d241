//! A line of the log that would be decided otherwise, with what would be decided.
ghost use Rattle.std.specs.Prelude.{◌≡◌, ◌++◌, codes, IfOk, OnOk, option_and_then};
ghost use Rattle.std.specs.Option.{option_copied};
ghost use Rattle.sipd_ask.specs.Show.{clock_text};
ghost use Rattle.sipd_expect.specs.LogTelling as Definitions;

use crate::asking::{asker_of, is_same, operation_of};
use sip_audit::Record;
use sip_config_types::Config;
use sip_policy::{Decision, Operation, Rule, minute_of, ruling_by};
use sip_text::Bytes;
use sip_uri::Aor;
use sipd_ask::{Destination, destination_of, hop_at, put_clock, put_hop, put_verdict, rule_for};
use std::alloc::{AllocError, Global};

/// Adds where a request goes.
fn put_there(
    alloc: Global,
    text: &mut Bytes,
    config: &Config,
    destination: Destination,
) -> Result<(), AllocError>
    ensures { OnOk result (text.new ≡ text.old ++ Definitions.there_text config.now destination) }
{
    match destination {
        Destination::Nowhere => Ok(()),
        Destination::Registrar => text.extend(b"to the registrar"),
        Destination::Bindings => text.extend(b"to the bindings"),
        Destination::Hop(place) => put_hop(alloc, text, hop_at(config.hops.as_slice(), place)),
        Destination::NotFound => text.extend(b"404, no user of an own domain"),
    }
}

/// Adds a decision by a rule.
fn put_words(
    alloc: Global,
    text: &mut Bytes,
    config: &Config,
    operation: &Operation,
    aor: &Aor,
    rule: Option<&Rule>,
    decision: Decision,
) -> Result<(), AllocError>
    ensures { OnOk result (text.new ≡ text.old ++ Definitions.words_by config.now operation.now aor.now (option_copied rule.entry) decision) }
{
    put_verdict(text, operation, rule, decision)?;
    let destination = destination_of(config, operation, aor, decision);
    put_there(alloc, text, config, destination)
}

/// A line, and behind it the minute.
fn begun_text(alloc: Global, line: &[u8], minute: u16) -> Result<Bytes, AllocError>
    ensures { IfOk result (λ text. text ≡ line.now ++ codes " -> at " ++ clock_text minute ++ codes ", ") }
{
    let mut text = Bytes::copy(alloc, line)?;
    text.extend(b" -> at ")?;
    put_clock(&mut text, minute)?;
    text.extend(b", ")?;
    Ok(text)
}

/// What is told of an audit line, if it would be decided otherwise.
fn told_for(
    alloc: Global,
    config: &Config,
    line: &[u8],
    logged: &Record,
) -> Result<Option<Bytes>, AllocError>
    ensures { IfOk result (λ told. told ≡ Definitions.told_for config.now line.now logged.now) }
{
    let operation = operation_of(alloc, logged)?;
    let asker = asker_of(&config.users, &logged.who);
    let minute = minute_of(logged.at, config.offset);
    let rule = rule_for(config, asker, &operation, &logged.target, minute);
    let decision = ruling_by(rule, asker, minute).decision;
    let destination = destination_of(config, &operation, &logged.target, decision);
    if is_same(logged.outcome, decision, destination) {
        return Ok(None);
    }
    let mut text = begun_text(alloc, line, minute)?;
    put_words(
        alloc,
        &mut text,
        config,
        &operation,
        &logged.target,
        rule,
        decision,
    )?;
    text.push(b'\n')?;
    Ok(Some(text))
}

/// What is told of a line with this record, if it has one, and would be decided otherwise.
pub(crate) fn told_by(
    alloc: Global,
    config: &Config,
    line: &[u8],
    entry: &Option<Record>,
) -> Result<Option<Bytes>, AllocError>
    ensures { IfOk result (λ told. told ≡ option_and_then (Definitions.told_for config.now line.now) entry.now) }
{
    match entry {
        Some(logged) => told_for(alloc, config, line, logged),
        None => Ok(None),
    }
}
