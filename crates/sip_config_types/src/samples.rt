//! The sample configuration, made without a file; `examples/sample.toml` states the same.
//! The program has it where no file is named, and so have worked examples and trials.
ghost use Rattle.std.specs.Prelude.{◌≡◌, ◌++◌, [], ◌∷◌, codes, IfOk, OnOk};
ghost use Rattle.sip_route.specs.Examples as RoutingExamples;
ghost use Rattle.sip_hops.specs.Examples as Places;
ghost use Rattle.sip_policy.specs.declared.operation.OperationPattern.TheVariants as Pattern;
ghost use Rattle.sip_policy.specs.declared.target_pattern.TargetPattern.TheVariants as Target;
ghost use Rattle.sip_policy.specs.declared.rule_verdict.RuleVerdict.{RuleVerdict};
ghost use Rattle.sip_policy.specs.declared.who.Who.{Who};
ghost use Rattle.sip_policy.specs.Examples as Policy;
ghost use Rattle.sip_config_types.specs.Sample;

use crate::config::Config;
use sip_hops::{Hop, HostAddress};
use sip_policy::{OperationPattern, Rule, RuleVerdict, TargetPattern, User, Users, Who};
use sip_route::Own;
use sip_text::{Bytes, Items};
use sip_uri::Addr;
use std::alloc::{AllocError, Global};

fn own(alloc: Global) -> Result<Own, AllocError>
    ensures { IfOk result (λ own. own ≡ RoutingExamples.own) }
{
    let host = Bytes::copy(alloc, b"sip.host.com")?;
    let mut domains = Items::new(alloc);
    domains.push(Bytes::copy(alloc, b"host.com")?)?;
    Ok(Own {
        host,
        port: 5060,
        domains,
        ip: [127, 0, 0, 1],
    })
}

/// Adds a user with H(A1) of the sample's realm.
fn add_user(
    alloc: Global,
    users: &mut Items<User>,
    name: &[u8],
    a1: &[u8; 32],
    groups: Items<Bytes>,
) -> Result<(), AllocError>
    ensures { OnOk result (users.new ≡ users.old ++ Policy.user_of name.now a1.now groups ∷ []) }
{
    let name = Bytes::copy(alloc, name)?;
    users.push(User {
        name,
        a1: *a1,
        a1_sha256: None,
        groups,
    })?;
    Ok(())
}

fn staff(alloc: Global) -> Result<Items<Bytes>, AllocError>
    ensures { IfOk result (λ groups. groups ≡ codes "staff" ∷ []) }
{
    let mut groups = Items::new(alloc);
    groups.push(Bytes::copy(alloc, b"staff")?)?;
    Ok(groups)
}

fn listed_users(alloc: Global) -> Result<Items<User>, AllocError>
    ensures { IfOk result (λ users. users ≡ Policy.sample_users) }
{
    let mut users = Items::new(alloc);
    add_user(
        alloc,
        &mut users,
        b"Mufasa",
        b"939e7578ed9e3c518a452acee763bce9",
        staff(alloc)?,
    )?;
    add_user(
        alloc,
        &mut users,
        b"alice",
        b"11111111111111111111111111111111",
        Items::new(alloc),
    )?;
    add_user(
        alloc,
        &mut users,
        b"help",
        b"22222222222222222222222222222222",
        Items::new(alloc),
    )?;
    Ok(users)
}

/// The users, found by their names. These differ, so want of memory is the only refusal.
fn users(alloc: Global) -> Result<Users, AllocError>
    ensures { IfOk result (λ users. users ≡ Policy.sample_users) }
{
    match Users::new(alloc, listed_users(alloc)?) {
        Ok(users) => Ok(users),
        Err(_) => Err(AllocError),
    }
}

/// Proven users may do this with the bindings of their own addresses.
fn own_bindings_rule(id: u32, operation: OperationPattern) -> Rule
    ensures { result ≡ Policy.rule_of id Who.Proven operation Target.SelfTarget RuleVerdict.Allow }
{
    Rule {
        id,
        who: Who::Proven,
        operation,
        target: TargetPattern::SelfTarget,
        window: None,
        verdict: RuleVerdict::Allow,
    }
}

/// Anyone's request to a user of the sample's domain is treated so.
fn anyone_rule(
    alloc: Global,
    id: u32,
    user: &[u8],
    verdict: RuleVerdict,
) -> Result<Rule, AllocError>
    ensures { IfOk result (λ rule. rule ≡ Policy.rule_of id Who.Anyone Pattern.SendAny (Target.Exact user.now (codes "host.com")) verdict) }
{
    let user = Bytes::copy(alloc, user)?;
    let domain = Bytes::copy(alloc, b"host.com")?;
    Ok(Rule {
        id,
        who: Who::Anyone,
        operation: OperationPattern::SendAny,
        target: TargetPattern::Exact { user, domain },
        window: None,
        verdict,
    })
}

/// Users of the sample's domain whose names begin so.
fn users_from(alloc: Global, prefix: &[u8]) -> Result<TargetPattern, AllocError>
    ensures { IfOk result (λ target. target ≡ Target.Prefix prefix.now (codes "host.com")) }
{
    let prefix = Bytes::copy(alloc, prefix)?;
    let domain = Bytes::copy(alloc, b"host.com")?;
    Ok(TargetPattern::Prefix { prefix, domain })
}

fn gateway_rule(alloc: Global) -> Result<Rule, AllocError>
    ensures { IfOk result (λ rule. rule ≡ Policy.rule_5) }
{
    let group = Bytes::copy(alloc, b"staff")?;
    let method = Bytes::copy(alloc, b"INVITE")?;
    let target = users_from(alloc, b"9")?;
    Ok(Rule {
        id: 5,
        who: Who::Group(group),
        operation: OperationPattern::Send(method),
        target,
        window: None,
        verdict: RuleVerdict::Via(0),
    })
}

fn proven_rule(alloc: Global) -> Result<Rule, AllocError>
    ensures { IfOk result (λ rule. rule ≡ Policy.rule_6) }
{
    let target = users_from(alloc, b"")?;
    Ok(Rule {
        id: 6,
        who: Who::Proven,
        operation: OperationPattern::SendAny,
        target,
        window: None,
        verdict: RuleVerdict::Allow,
    })
}

/// Adds the rules on bindings and on what anyone may ask.
fn add_first_rules(alloc: Global, rules: &mut Items<Rule>) -> Result<(), AllocError>
    ensures { OnOk result (rules.new ≡ rules.old ++ Policy.rule_1 ∷ [] ++ Policy.rule_2 ∷ [] ++ Policy.rule_3 ∷ [] ++ Policy.rule_4 ∷ []) }
{
    rules.push(own_bindings_rule(1, OperationPattern::Register))?;
    rules.push(own_bindings_rule(2, OperationPattern::List))?;
    rules.push(anyone_rule(alloc, 3, b"vault", RuleVerdict::Deny)?)?;
    rules.push(anyone_rule(alloc, 4, b"help", RuleVerdict::Allow)?)?;
    Ok(())
}

fn rules(alloc: Global) -> Result<Items<Rule>, AllocError>
    ensures { IfOk result (λ rules. rules ≡ Policy.sample_rules) }
{
    let mut rules = Items::new(alloc);
    add_first_rules(alloc, &mut rules)?;
    rules.push(gateway_rule(alloc)?)?;
    rules.push(proven_rule(alloc)?)?;
    Ok(rules)
}

/// A port of 127.0.0.1.
fn local(port: u16) -> Addr
    ensures { result ≡ Places.local port }
{
    Addr {
        ip: [127, 0, 0, 1],
        port,
    }
}

fn hops(alloc: Global) -> Result<Items<Hop>, AllocError>
    ensures { IfOk result (λ hops. hops ≡ Places.sample_hops) }
{
    let name = Bytes::copy(alloc, b"gw")?;
    let mut hops = Items::new(alloc);
    hops.push(Hop {
        name,
        address: local(5090),
    })?;
    Ok(hops)
}

fn addresses(alloc: Global) -> Result<Items<HostAddress>, AllocError>
    ensures { IfOk result (λ addresses. addresses ≡ Places.sample_addresses) }
{
    let host = Bytes::copy(alloc, b"pc.host.com")?;
    let mut addresses = Items::new(alloc);
    addresses.push(HostAddress {
        host,
        port: 5060,
        address: local(5091),
    })?;
    Ok(addresses)
}

/// The sample configuration. `AllocError` is the only refusal.
pub fn sample(alloc: Global) -> Result<Config, AllocError>
    ensures { IfOk result (λ config. config ≡ Sample.sample) }
{
    let own = own(alloc)?;
    let realm = Bytes::copy(alloc, b"testrealm@host.com")?;
    let users = users(alloc)?;
    let rules = rules(alloc)?;
    let hops = hops(alloc)?;
    let addresses = addresses(alloc)?;
    Ok(Config {
        own,
        bound_port: 5060,
        realm,
        users,
        rules,
        offset: 0,
        hops,
        addresses,
    })
}
