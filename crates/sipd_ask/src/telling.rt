//! The line of a decision: the rule, its verdict, and where the request goes. What is decided is said in `deciding`.
ghost use Rattle.std.specs.Prelude.{◌≡◌, ◌++◌, IfOk, OnOk};
ghost use Rattle.std.specs.List.{slice_get};
ghost use Rattle.std.specs.Option.{option_copied};
ghost use Rattle.sip_uri.specs.Addresses;
ghost use Rattle.sip_policy.specs.declared.decision.Decision.{Decision};
ghost use Rattle.sipd_ask.specs.Decide as Definitions;

use crate::destination::{Destination, destination_of};
use sip_config_types::Config;
use sip_hops::Hop;
use sip_policy::{Decision, Operation, Rule};
use sip_text::Bytes;
use sip_uri::{Addr, Aor, addr_text};
use std::alloc::{AllocError, Global};

/// Adds a number, and what stands before and behind it. `AllocError` is the only refusal.
pub fn put_number(
    text: &mut Bytes,
    before: &[u8],
    number: u64,
    behind: &[u8],
) -> Result<(), AllocError>
    ensures { OnOk result (text.new ≡ text.old ++ Definitions.numbered before.now number behind.now) }
{
    text.extend(before)?;
    text.push_decimal(number)?;
    text.extend(behind)
}

/// A challenge with its status.
fn challenge_words(operation: &Operation) -> &'static [u8]
    ensures { result.now ≡ Definitions.challenge_text operation.now }
{
    match operation {
        Operation::Register => b"challenged, 401: rule ",
        Operation::List => b"challenged, 401: rule ",
        Operation::Send(_) => b"challenged, 407: rule ",
    }
}

fn number_of(rule: Option<&Rule>) -> u32
    ensures { result ≡ Definitions.number_of (option_copied rule.entry) }
{
    match rule {
        Some(rule) => rule.id,
        None => 0,
    }
}

fn put_challenge(
    text: &mut Bytes,
    operation: &Operation,
    rule: Option<&Rule>,
) -> Result<(), AllocError>
    ensures { OnOk result (text.new ≡ text.old ++ Definitions.verdict_text operation.now (option_copied rule.entry) Decision.Challenge) }
{
    put_number(
        text,
        challenge_words(operation),
        u64::from(number_of(rule)),
        b" may match once the caller has proved who he is",
    )
}

#[tactic(auto, using(crate::proofs::Words::by_none, crate::proofs::Words::by_rule))]
fn put_denial(text: &mut Bytes, id: u32) -> Result<(), AllocError>
    ensures { OnOk result (text.new ≡ text.old ++ Definitions.denial_text id) }
{
    if id == 0 {
        text.extend(b"no rule matches: denied, 403, rule 0")
    } else {
        put_number(text, b"rule ", u64::from(id), b" denies: 403")
    }
}

/// Adds what a rule says; a challenge names the rule that asks for proof. `AllocError` is the only refusal.
pub fn put_verdict(
    text: &mut Bytes,
    operation: &Operation,
    rule: Option<&Rule>,
    decision: Decision,
) -> Result<(), AllocError>
    ensures { OnOk result (text.new ≡ text.old ++ Definitions.verdict_text operation.now (option_copied rule.entry) decision) }
{
    match decision {
        Decision::Allow(id) => put_number(text, b"rule ", u64::from(id), b" allows: "),
        Decision::Via(id, _) => put_number(text, b"rule ", u64::from(id), b" allows: "),
        Decision::Deny(id) => put_denial(text, id),
        Decision::Challenge => put_challenge(text, operation, rule),
    }
}

/// Adds an address of record behind a text.
fn put_aor(text: &mut Bytes, before: &[u8], aor: &Aor) -> Result<(), AllocError>
    ensures { OnOk result (text.new ≡ text.old ++ (before.now ++ Definitions.aor_text aor.now)) }
{
    text.extend(before)?;
    text.extend(aor.user.as_slice())?;
    text.push(b'@')?;
    text.extend(aor.host.as_slice())
}

/// Adds an address with its port. `AllocError` is the only refusal.
pub fn put_address(alloc: Global, text: &mut Bytes, address: Addr) -> Result<(), AllocError>
    ensures { OnOk result (text.new ≡ text.old ++ Addresses.addr_text address) }
{
    text.extend(addr_text(alloc, address)?.as_slice())
}

/// Adds that it goes to a hop, or that there is none. `AllocError` is the only refusal.
pub fn put_hop(alloc: Global, text: &mut Bytes, hop: Option<&Hop>) -> Result<(), AllocError>
    ensures { OnOk result (text.new ≡ text.old ++ Definitions.hop_text (option_copied hop.entry)) }
{
    let Some(hop) = hop else {
        return text.extend(b"404, no such hop");
    };
    text.extend(b"to the hop ")?;
    text.extend(hop.name.as_slice())?;
    text.extend(b", ")?;
    put_address(alloc, text, hop.address)
}

/// The hop at a place of a list, counted from 0. Takes no memory.
pub fn hop_at(hops: &[Hop], place: usize) -> Option<&Hop>
    ensures { option_copied result ≡ slice_get hops.now place }
{
    hops.get(place)
}

fn put_destination(
    alloc: Global,
    text: &mut Bytes,
    config: &Config,
    aor: &Aor,
    destination: Destination,
) -> Result<(), AllocError>
    ensures { OnOk result (text.new ≡ text.old ++ Definitions.destination_text config.now aor.now destination) }
{
    match destination {
        Destination::Nowhere => Ok(()),
        Destination::Registrar => put_aor(text, b"to the registrar, for ", aor),
        Destination::Bindings => put_aor(text, b"to the bindings of ", aor),
        Destination::Hop(place) => put_hop(alloc, text, hop_at(config.hops.as_slice(), place)),
        Destination::NotFound => put_aor(text, b"404, no user of an own domain: ", aor),
    }
}

/// A decision by a rule, as a line: the rule, its verdict, and where the request goes.
pub(crate) fn line_by(
    alloc: Global,
    config: &Config,
    operation: &Operation,
    aor: &Aor,
    rule: Option<&Rule>,
    decision: Decision,
) -> Result<Bytes, AllocError>
    ensures { IfOk result (λ line. line ≡ Definitions.line_by config.now operation.now aor.now (option_copied rule.entry) decision) }
{
    let mut line = Bytes::new(alloc);
    put_verdict(&mut line, operation, rule, decision)?;
    let destination = destination_of(config, operation, aor, decision);
    put_destination(alloc, &mut line, config, aor, destination)?;
    line.push(b'\n')?;
    Ok(line)
}
