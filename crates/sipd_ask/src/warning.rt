//! What a configuration may say and seldom means, a line for each thing. None of it refuses a file.
ghost use Rattle.std.specs.Prelude.{◌≡◌, ◌++◌, is_some, IfOk, OnOk};
ghost use Rattle.std.specs.List.{flat_map, list_all, list_any};
ghost use Rattle.sip_text.specs.Words.{is_same_text};
ghost use Rattle.sipd_ask.specs.Decide.{numbered};
ghost use Rattle.sipd_ask.specs.Warnings as Definitions;

use crate::methods::has_small_letter;
use crate::telling::put_number;
use sip_config_types::Config;
use sip_hops::HostAddress;
use sip_policy::{OperationPattern, Rule, RuleVerdict, TargetPattern, User, Users, is_own_domain};
use sip_text::{Bytes, same_bytes, same_no_case};
use sip_uri::ip_of;
use std::alloc::{AllocError, Global};

/// Adds a number between two texts, unless something holds.
fn warn_numbered(
    text: &mut Bytes,
    holds: bool,
    before: &[u8],
    number: u32,
    behind: &[u8],
) -> Result<(), AllocError>
    ensures { OnOk result (text.new ≡ text.old ++ Definitions.unless holds (numbered before.now number behind.now)) }
{
    if holds {
        Ok(())
    } else {
        put_number(text, before, u64::from(number), behind)
    }
}

/// Adds a text, unless something holds.
fn warn(text: &mut Bytes, holds: bool, words: &[u8]) -> Result<(), AllocError>
    ensures { OnOk result (text.new ≡ text.old ++ Definitions.unless holds words.now) }
{
    if holds { Ok(()) } else { text.extend(words) }
}

fn warn_domain(
    text: &mut Bytes,
    domains: &[Bytes],
    id: u32,
    domain: &[u8],
) -> Result<(), AllocError>
    ensures { OnOk result (text.new ≡ text.old ++ Definitions.warning_of domains.now id domain.now) }
{
    warn_numbered(
        text,
        is_own_domain(domains, domain),
        b"warning: rule ",
        id,
        b" is for a domain that isn't own\n",
    )
}

fn warn_target(text: &mut Bytes, domains: &[Bytes], rule: &Rule) -> Result<(), AllocError>
    ensures { OnOk result (text.new ≡ text.old ++ Definitions.domain_warning domains.now rule.now.id (Definitions.domain_named rule.now.target)) }
{
    match &rule.target {
        TargetPattern::Exact { user: _, domain } => {
            warn_domain(text, domains, rule.id, domain.as_slice())
        }
        TargetPattern::Prefix { prefix: _, domain } => {
            warn_domain(text, domains, rule.id, domain.as_slice())
        }
        TargetPattern::SelfTarget => Ok(()),
        TargetPattern::Any => Ok(()),
    }
}

fn warn_method(text: &mut Bytes, id: u32, method: &[u8]) -> Result<(), AllocError>
    ensures { OnOk result (text.new ≡ text.old ++ Definitions.small_letter_warning id method.now) }
{
    warn_numbered(
        text,
        !has_small_letter(method),
        b"warning: rule ",
        id,
        b" is for a method that isn't in capitals, as no phone sends it\n",
    )
}

fn warn_operation(text: &mut Bytes, id: u32, operation: &OperationPattern) -> Result<(), AllocError>
    ensures { OnOk result (text.new ≡ text.old ++ Definitions.method_warning id operation.now) }
{
    match operation {
        OperationPattern::Send(method) => warn_method(text, id, method.as_slice()),
        OperationPattern::Register => Ok(()),
        OperationPattern::List => Ok(()),
        OperationPattern::SendAny => Ok(()),
    }
}

fn warn_rule(text: &mut Bytes, domains: &[Bytes], rule: &Rule) -> Result<(), AllocError>
    ensures { OnOk result (text.new ≡ text.old ++ Definitions.rule_warnings domains.now rule.now) }
{
    warn_target(text, domains, rule)?;
    warn_operation(text, rule.id, &rule.operation)
}

fn warn_rules(text: &mut Bytes, domains: &[Bytes], rules: &[Rule]) -> Result<(), AllocError>
    ensures { OnOk result (text.new ≡ text.old ++ flat_map (Definitions.rule_warnings domains.now) rules.now) }
{
    for rule in rules {
        warn_rule(text, domains, rule)?;
    }
    Ok(())
}

fn lets_register(rule: &Rule) -> bool
    ensures { result ≡ Definitions.lets_register rule.now }
{
    matches!(rule.operation, OperationPattern::Register)
        && matches!(rule.verdict, RuleVerdict::Allow)
}

fn some_lets_register(rules: &[Rule]) -> bool
    ensures { result ≡ list_any Definitions.lets_register rules.now }
{
    rules.iter().any(|rule| lets_register(rule))
}

fn warn_register(text: &mut Bytes, rules: &[Rule]) -> Result<(), AllocError>
    ensures { OnOk result (text.new ≡ text.old ++ Definitions.register_warning rules.now) }
{
    let holds = some_lets_register(rules);
    warn(text, holds, b"warning: no rule lets anybody register\n")
}

fn all_have_sha256(users: &[User]) -> bool
    ensures { result ≡ list_all (λ user. is_some user.a1_sha256) users.now }
{
    users.iter().all(|user| user.a1_sha256.is_some())
}

fn have_same_digests(users: &Users) -> bool
    ensures { result ≡ Definitions.have_same_digests users.now }
{
    if users.any_has_sha256() {
        all_have_sha256(users.as_slice())
    } else {
        true
    }
}

fn warn_digests(text: &mut Bytes, users: &Users) -> Result<(), AllocError>
    ensures { OnOk result (text.new ≡ text.old ++ Definitions.digest_warning users.now) }
{
    let words =
        b"warning: some users have a1_sha256 and others don't, and every phone is offered both digests\n";
    warn(text, have_same_digests(users), words)
}

/// That some users of a configuration have an `a1_sha256` and others don't, as a line; empty where all have one, or none.
/// `AllocError` is the only refusal.
pub fn digest_warning(alloc: Global, config: &Config) -> Result<Bytes, AllocError>
    ensures { IfOk result (λ text. text ≡ Definitions.digest_warning config.now.users) }
{
    let mut text = Bytes::new(alloc);
    warn_digests(&mut text, &config.users)?;
    Ok(text)
}

fn warn_port(text: &mut Bytes, port: u16, bound: u16) -> Result<(), AllocError>
    ensures { OnOk result (text.new ≡ text.old ++ Definitions.port_warning port bound) }
{
    let words = b"warning: port isn't the port of address\n";
    warn(text, port == bound, words)
}

/// Whether some row of the address table is for a host, compared without case.
fn has_row(rows: &[HostAddress], host: &[u8]) -> bool
    ensures { result ≡ list_any (λ row. is_same_text row.host host.now) rows.now }
{
    rows.iter()
        .any(|row| same_no_case(row.host.as_slice(), host))
}

fn has_address(rows: &[HostAddress], host: &[u8]) -> bool
    ensures { result ≡ Definitions.has_address rows.now host.now }
{
    ip_of(host).is_some() || has_row(rows, host)
}

fn warn_host(text: &mut Bytes, rows: &[HostAddress], host: &[u8]) -> Result<(), AllocError>
    ensures { OnOk result (text.new ≡ text.old ++ Definitions.host_warning rows.now host.now) }
{
    let words =
        b"warning: host is no IPv4 address and has no host_address: phones need DNS for it\n";
    warn(text, has_address(rows, host), words)
}

fn warn_any_address(text: &mut Bytes, host: &[u8]) -> Result<(), AllocError>
    ensures { OnOk result (text.new ≡ text.old ++ Definitions.any_address_warning host.now) }
{
    let holds = !same_bytes(host, b"0.0.0.0");
    warn(
        text,
        holds,
        b"warning: host is 0.0.0.0, where no phone can send to\n",
    )
}

/// Adds what is seldom meant of where the server is.
fn warn_place(text: &mut Bytes, config: &Config) -> Result<(), AllocError>
    ensures { OnOk result (text.new ≡ text.old ++ Definitions.place_warnings config.now) }
{
    let host = config.own.host.as_slice();
    warn_port(text, config.own.port, config.bound_port)?;
    warn_host(text, config.addresses.as_slice(), host)?;
    warn_any_address(text, host)
}

/// Adds a line for each thing that a configuration may say and seldom means.
pub(crate) fn put_warnings(text: &mut Bytes, config: &Config) -> Result<(), AllocError>
    ensures { OnOk result (text.new ≡ text.old ++ Definitions.warnings config.now) }
{
    let rules = config.rules.as_slice();
    warn_rules(text, config.own.domains.as_slice(), rules)?;
    warn_register(text, rules)?;
    warn_digests(text, &config.users)?;
    warn_place(text, config)
}
