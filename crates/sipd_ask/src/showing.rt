//! A configuration as it was understood, line by line, for `check --show`; and the text of a rule, for whoever names one.
ghost use Rattle.std.specs.Prelude.{◌≡◌, ◌++◌, codes, decimal, IfOk, OnOk};
ghost use Rattle.std.specs.List.{flat_map};
ghost use Rattle.std.specs.Option.{option_copied};
ghost use Rattle.sip_uri.specs.Addresses;
ghost use Rattle.sipd_ask.specs.Show as Definitions;

use crate::telling::{hop_at, put_address, put_number};
use crate::warning::put_warnings;
use sip_config_types::Config;
use sip_hops::{Hop, HostAddress};
use sip_policy::{OperationPattern, Rule, RuleVerdict, TargetPattern, User, Who, Window};
use sip_text::Bytes;
use sip_uri::Addr;
use std::alloc::{AllocError, Global};

/// The length of the longest key, `host_address`.
const LONGEST_KEY: usize = 12;

/// As many blanks.
const BLANKS: &[u8] = b"            ";

/// The blanks by which so many bytes are fewer than those of the longest key.
#[tactic(auto, using(crate::proofs::Columns::none_left))]
fn blanks_behind(length: usize) -> &'static [u8]
    ensures { result.now ≡ Definitions.blanks_behind length }
{
    if length >= LONGEST_KEY {
        return b"";
    }
    let (_, rest) = BLANKS.split_at(length);
    rest
}

/// Adds a key, with the blanks up to its value.
#[tactic(auto, unfolding(crate::specs::Show::key_column))]
fn put_key(text: &mut Bytes, key: &[u8]) -> Result<(), AllocError>
    ensures { OnOk result (text.new ≡ text.old ++ Definitions.key_column key.now) }
{
    text.extend(key)?;
    text.extend(blanks_behind(key.len()))?;
    text.extend(b" ")
}

/// Adds a key in its column, and a value.
fn put_value(text: &mut Bytes, key: &[u8], value: &[u8]) -> Result<(), AllocError>
    ensures { OnOk result (text.new ≡ text.old ++ Definitions.key_column key.now ++ value.now) }
{
    put_key(text, key)?;
    text.extend(value)
}

/// Adds both as a line.
fn put_line(text: &mut Bytes, key: &[u8], value: &[u8]) -> Result<(), AllocError>
    ensures { OnOk result (text.new ≡ text.old ++ Definitions.line_of key.now value.now) }
{
    put_value(text, key, value)?;
    text.push(b'\n')
}

/// Adds two texts.
fn put_both(text: &mut Bytes, first: &[u8], second: &[u8]) -> Result<(), AllocError>
    ensures { OnOk result (text.new ≡ text.old ++ first.now ++ second.now) }
{
    text.extend(first)?;
    text.extend(second)
}

/// Adds a whole number in decimal. `AllocError` is the only refusal.
pub fn put_signed(text: &mut Bytes, number: i16) -> Result<(), AllocError>
    ensures { OnOk result (text.new ≡ text.old ++ Definitions.signed number) }
{
    if number < 0 {
        text.push(b'-')?;
    }
    text.push_decimal(u64::from(number.unsigned_abs()))
}

/// Adds a minute of the day. `AllocError` is the only refusal.
pub fn put_clock(text: &mut Bytes, minute: u16) -> Result<(), AllocError>
    ensures { OnOk result (text.new ≡ text.old ++ Definitions.clock_text minute) }
{
    put_number(text, b"", u64::from(minute / 60), b":")?;
    text.push_decimal(u64::from(minute % 60 / 10))?;
    text.push_decimal(u64::from(minute % 10))
}

fn put_groups(text: &mut Bytes, groups: &[Bytes]) -> Result<(), AllocError>
    ensures { OnOk result (text.new ≡ text.old ++ flat_map (λ group. codes ", group " ++ group) groups.now) }
{
    for group in groups {
        put_both(text, b", group ", group.as_slice())?;
    }
    Ok(())
}

/// Adds a user with the groups, and without the digests.
fn put_user(text: &mut Bytes, user: &User) -> Result<(), AllocError>
    ensures { OnOk result (text.new ≡ text.old ++ Definitions.user_line user.now) }
{
    put_value(text, b"user", user.name.as_slice())?;
    put_groups(text, user.groups.as_slice())?;
    text.push(b'\n')
}

fn put_users(text: &mut Bytes, users: &[User]) -> Result<(), AllocError>
    ensures { OnOk result (text.new ≡ text.old ++ flat_map Definitions.user_line users.now) }
{
    for user in users {
        put_user(text, user)?;
    }
    Ok(())
}

fn put_domain(text: &mut Bytes, domain: &[u8]) -> Result<(), AllocError>
    ensures { OnOk result (text.new ≡ text.old ++ Definitions.domain_line domain.now) }
{
    put_line(text, b"domain", domain)
}

fn put_domains(text: &mut Bytes, domains: &[Bytes]) -> Result<(), AllocError>
    ensures { OnOk result (text.new ≡ text.old ++ flat_map Definitions.domain_line domains.now) }
{
    for domain in domains {
        put_domain(text, domain.as_slice())?;
    }
    Ok(())
}

fn put_hop(alloc: Global, text: &mut Bytes, hop: &Hop) -> Result<(), AllocError>
    ensures { OnOk result (text.new ≡ text.old ++ Definitions.hop_line hop.now) }
{
    put_value(text, b"hop", hop.name.as_slice())?;
    text.extend(b" at ")?;
    put_address(alloc, text, hop.address)?;
    text.push(b'\n')
}

fn put_hops(alloc: Global, text: &mut Bytes, hops: &[Hop]) -> Result<(), AllocError>
    ensures { OnOk result (text.new ≡ text.old ++ flat_map Definitions.hop_line hops.now) }
{
    for hop in hops {
        put_hop(alloc, text, hop)?;
    }
    Ok(())
}

#[tactic(auto, unfolding(crate::specs::Show::row_line))]
fn put_row(alloc: Global, text: &mut Bytes, row: &HostAddress) -> Result<(), AllocError>
    ensures { OnOk result (text.new ≡ text.old ++ Definitions.row_line row.now) }
{
    put_value(text, b"host_address", row.host.as_slice())?;
    put_number(text, b":", u64::from(row.port), b" at ")?;
    put_address(alloc, text, row.address)?;
    text.push(b'\n')
}

fn put_rows(alloc: Global, text: &mut Bytes, rows: &[HostAddress]) -> Result<(), AllocError>
    ensures { OnOk result (text.new ≡ text.old ++ flat_map Definitions.row_line rows.now) }
{
    for row in rows {
        put_row(alloc, text, row)?;
    }
    Ok(())
}

fn put_who(text: &mut Bytes, who: &Who) -> Result<(), AllocError>
    ensures { OnOk result (text.new ≡ text.old ++ Definitions.who_text who.now) }
{
    match who {
        Who::Anyone => text.extend(b"anyone"),
        Who::Proven => text.extend(b"proven"),
        Who::User(name) => put_both(text, b"user ", name.as_slice()),
        Who::Group(name) => put_both(text, b"group ", name.as_slice()),
    }
}

fn put_operation(text: &mut Bytes, operation: &OperationPattern) -> Result<(), AllocError>
    ensures { OnOk result (text.new ≡ text.old ++ Definitions.operation_text operation.now) }
{
    match operation {
        OperationPattern::Register => text.extend(b"register"),
        OperationPattern::List => text.extend(b"list"),
        OperationPattern::Send(method) => put_both(text, b"send ", method.as_slice()),
        OperationPattern::SendAny => text.extend(b"send *"),
    }
}

fn put_prefix(text: &mut Bytes, prefix: &[u8], domain: &[u8]) -> Result<(), AllocError>
    ensures { OnOk result (text.new ≡ text.old ++ Definitions.prefix_text prefix.now domain.now) }
{
    if prefix.is_empty() {
        return put_both(text, b"@", domain);
    }
    put_both(text, prefix, b"*@")?;
    text.extend(domain)
}

fn put_exact(text: &mut Bytes, user: &[u8], domain: &[u8]) -> Result<(), AllocError>
    ensures { OnOk result (text.new ≡ text.old ++ (user.now ++ codes "@" ++ domain.now)) }
{
    put_both(text, user, b"@")?;
    text.extend(domain)
}

fn put_target(text: &mut Bytes, target: &TargetPattern) -> Result<(), AllocError>
    ensures { OnOk result (text.new ≡ text.old ++ Definitions.target_text target.now) }
{
    match target {
        TargetPattern::Exact { user, domain } => {
            put_exact(text, user.as_slice(), domain.as_slice())
        }
        TargetPattern::Prefix { prefix, domain } => {
            put_prefix(text, prefix.as_slice(), domain.as_slice())
        }
        TargetPattern::SelfTarget => text.extend(b"self"),
        TargetPattern::Any => text.extend(b"*"),
    }
}

/// Adds who may do what, and for whom.
fn put_patterns(text: &mut Bytes, rule: &Rule) -> Result<(), AllocError>
    ensures { OnOk result (text.new ≡ text.old ++ Definitions.patterns_text rule.now) }
{
    put_who(text, &rule.who)?;
    text.extend(b", ")?;
    put_operation(text, &rule.operation)?;
    text.extend(b", ")?;
    put_target(text, &rule.target)
}

/// Adds the minutes between which a rule holds.
fn put_window(text: &mut Bytes, window: Option<Window>) -> Result<(), AllocError>
    ensures { OnOk result (text.new ≡ text.old ++ Definitions.window_text window) }
{
    let Some(window) = window else {
        return Ok(());
    };
    text.extend(b", from ")?;
    put_clock(text, window.from)?;
    text.extend(b" until ")?;
    put_clock(text, window.until)
}

/// The name of a hop.
fn hop_name(hop: Option<&Hop>) -> &[u8]
    ensures { result.now ≡ Definitions.hop_name (option_copied hop.entry) }
{
    match hop {
        Some(hop) => hop.name.as_slice(),
        None => b"",
    }
}

fn put_verdict(text: &mut Bytes, hops: &[Hop], verdict: RuleVerdict) -> Result<(), AllocError>
    ensures { OnOk result (text.new ≡ text.old ++ Definitions.verdict_text hops.now verdict) }
{
    match verdict {
        RuleVerdict::Allow => text.extend(b"allow"),
        RuleVerdict::Deny => text.extend(b"deny"),
        RuleVerdict::Via(place) => put_both(text, b"via ", hop_name(hop_at(hops, place))),
    }
}

/// Adds when a rule decides, unless one before it does.
fn put_conditions(text: &mut Bytes, rule: &Rule) -> Result<(), AllocError>
    ensures { OnOk result (text.new ≡ text.old ++ Definitions.conditions_text rule.now) }
{
    put_patterns(text, rule)?;
    put_window(text, rule.window)
}

/// Adds when a rule decides, and how.
pub(crate) fn put_rule_text(text: &mut Bytes, hops: &[Hop], rule: &Rule) -> Result<(), AllocError>
    ensures { OnOk result (text.new ≡ text.old ++ Definitions.rule_text hops.now rule.now) }
{
    put_conditions(text, rule)?;
    text.extend(b": ")?;
    put_verdict(text, hops, rule.verdict)
}

/// What a rule says, without its number: who, what, for whom, when, and what happens. `AllocError` is the only refusal.
pub fn rule_text(alloc: Global, hops: &[Hop], rule: &Rule) -> Result<Bytes, AllocError>
    ensures { IfOk result (λ text. text ≡ Definitions.rule_text hops.now rule.now) }
{
    let mut text = Bytes::new(alloc);
    put_rule_text(&mut text, hops, rule)?;
    Ok(text)
}

/// For which requests a rule is: who, what and for whom. `AllocError` is the only refusal.
pub fn patterns_text(alloc: Global, rule: &Rule) -> Result<Bytes, AllocError>
    ensures { IfOk result (λ text. text ≡ Definitions.patterns_text rule.now) }
{
    let mut text = Bytes::new(alloc);
    put_patterns(&mut text, rule)?;
    Ok(text)
}

/// Adds the key of a rule, with its number, in its column.
fn put_rule_key(alloc: Global, text: &mut Bytes, id: u32) -> Result<(), AllocError>
    ensures { OnOk result (text.new ≡ text.old ++ Definitions.key_column (Definitions.rule_key id)) }
{
    let mut key = Bytes::new(alloc);
    put_number(&mut key, b"rule ", u64::from(id), b":")?;
    put_key(text, key.as_slice())
}

fn put_rule(alloc: Global, text: &mut Bytes, hops: &[Hop], rule: &Rule) -> Result<(), AllocError>
    ensures { OnOk result (text.new ≡ text.old ++ Definitions.rule_line hops.now rule.now) }
{
    put_rule_key(alloc, text, rule.id)?;
    put_rule_text(text, hops, rule)?;
    text.push(b'\n')
}

fn put_rules(
    alloc: Global,
    text: &mut Bytes,
    hops: &[Hop],
    rules: &[Rule],
) -> Result<(), AllocError>
    ensures { OnOk result (text.new ≡ text.old ++ flat_map (Definitions.rule_line hops.now) rules.now) }
{
    for rule in rules {
        put_rule(alloc, text, hops, rule)?;
    }
    Ok(())
}

fn put_port(text: &mut Bytes, port: u16) -> Result<(), AllocError>
    ensures { OnOk result (text.new ≡ text.old ++ Definitions.line_of (codes "port") (decimal port)) }
{
    put_key(text, b"port")?;
    text.push_decimal(u64::from(port))?;
    text.push(b'\n')
}

fn put_own_address(alloc: Global, text: &mut Bytes, address: Addr) -> Result<(), AllocError>
    ensures { OnOk result (text.new ≡ text.old ++ Definitions.line_of (codes "address") (Addresses.addr_text address)) }
{
    put_key(text, b"address")?;
    put_address(alloc, text, address)?;
    text.push(b'\n')
}

fn put_offset(text: &mut Bytes, offset: i16) -> Result<(), AllocError>
    ensures { OnOk result (text.new ≡ text.old ++ Definitions.line_of (codes "offset") (Definitions.signed offset)) }
{
    put_key(text, b"offset")?;
    put_signed(text, offset)?;
    text.push(b'\n')
}

/// Adds where the server is, and its address with the port that it binds.
fn put_place(alloc: Global, text: &mut Bytes, config: &Config) -> Result<(), AllocError>
    ensures { OnOk result (text.new ≡ text.old ++ Definitions.own_lines config.now) }
{
    put_line(text, b"host", config.own.host.as_slice())?;
    put_port(text, config.own.port)?;
    let address = Addr {
        ip: config.own.ip,
        port: config.bound_port,
    };
    put_own_address(alloc, text, address)
}

/// Adds what the keys before all tables say, but the domains.
fn put_head(alloc: Global, text: &mut Bytes, config: &Config) -> Result<(), AllocError>
    ensures { OnOk result (text.new ≡ text.old ++ Definitions.head_lines config.now) }
{
    put_line(text, b"realm", config.realm.as_slice())?;
    put_place(alloc, text, config)?;
    put_offset(text, config.offset)
}

/// Adds the domains, the users, and where hops and hosts are.
fn put_tables(alloc: Global, text: &mut Bytes, config: &Config) -> Result<(), AllocError>
    ensures { OnOk result (text.new ≡ text.old ++ Definitions.place_lines config.now) }
{
    put_domains(text, config.own.domains.as_slice())?;
    put_users(text, config.users.as_slice())?;
    put_hops(alloc, text, config.hops.as_slice())?;
    put_rows(alloc, text, config.addresses.as_slice())
}

/// What a configuration was understood to say, a line for each, whose value begins in one column behind its key: realm, host, port,
/// address and offset, the domains, the users with their groups and without their digests, where hops and hosts are, the rules in their
/// order; then a line for each thing that is allowed and seldom meant. `AllocError` is the only refusal.
pub fn show(alloc: Global, config: &Config) -> Result<Bytes, AllocError>
    ensures { IfOk result (λ text. text ≡ Definitions.shown_lines config.now) }
{
    let mut text = Bytes::new(alloc);
    put_head(alloc, &mut text, config)?;
    put_tables(alloc, &mut text, config)?;
    put_rules(
        alloc,
        &mut text,
        config.hops.as_slice(),
        config.rules.as_slice(),
    )?;
    put_warnings(&mut text, config)?;
    Ok(text)
}
