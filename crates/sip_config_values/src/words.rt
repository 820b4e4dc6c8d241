//! The texts of a rule read: who it is for, what it is about, for which targets, and its verdict.
ghost use Rattle.std.specs.Prelude.{◌≡◌, option_map, position, Ok};
ghost use Rattle.sip_policy.specs.declared.target_pattern.TargetPattern.TheVariants as Target;
ghost use Rattle.sip_config_values.specs.Refusals.{Reads};
ghost use Rattle.sip_config_values.specs.Words as Definitions;
ghost use Rattle.sip_config_values.specs.Words.{is_hop};

use crate::error::ConfigError;
use crate::grammar::{is_name, is_sent_method};
use sip_hops::Hop;
use sip_policy::{OperationPattern, RuleVerdict, TargetPattern, Users, Who};
use sip_text::{Bytes, same_bytes, split_once};
use sip_uri::is_host;
use std::alloc::Global;

fn named_who(alloc: Global, users: &Users, word: &[u8], name: &[u8]) -> Result<Who, ConfigError>
    ensures { Reads (λ who. who) result (Definitions.who_named users.now word.now name.now) }
{
    if same_bytes(word, b"user") {
        if users.has_name(name) {
            return Ok(Who::User(Bytes::copy(alloc, name)?));
        }
        return Err(ConfigError::BadValue);
    }
    if same_bytes(word, b"group") && is_name(name) {
        return Ok(Who::Group(Bytes::copy(alloc, name)?));
    }
    Err(ConfigError::BadValue)
}

/// Who a rule is for: `anyone`, `proven`, `user` and the name of a configured user, or `group` and a name.
pub fn who_of(alloc: Global, users: &Users, text: &[u8]) -> Result<Who, ConfigError>
    ensures { Reads (λ who. who) result (Definitions.who_of users.now text.now) }
{
    if same_bytes(text, b"anyone") {
        return Ok(Who::Anyone);
    }
    if same_bytes(text, b"proven") {
        return Ok(Who::Proven);
    }
    match split_once(text, b' ') {
        Some((word, name)) => named_who(alloc, users, word, name),
        None => Err(ConfigError::BadValue),
    }
}

fn sent_by(alloc: Global, word: &[u8], method: &[u8]) -> Result<OperationPattern, ConfigError>
    ensures { Reads (λ operation. operation) result (Definitions.sent_by word.now method.now) }
{
    if !same_bytes(word, b"send") {
        return Err(ConfigError::BadValue);
    }
    if same_bytes(method, b"*") {
        return Ok(OperationPattern::SendAny);
    }
    if !is_sent_method(method) {
        return Err(ConfigError::BadValue);
    }
    Ok(OperationPattern::Send(Bytes::copy(alloc, method)?))
}

/// What a rule is about: `register`, `list`, `send *`, or `send` and a method.
pub fn operation_of(alloc: Global, text: &[u8]) -> Result<OperationPattern, ConfigError>
    ensures { Reads (λ operation. operation) result (Definitions.operation_of text.now) }
{
    if same_bytes(text, b"register") {
        return Ok(OperationPattern::Register);
    }
    if same_bytes(text, b"list") {
        return Ok(OperationPattern::List);
    }
    match split_once(text, b' ') {
        Some((word, method)) => sent_by(alloc, word, method),
        None => Err(ConfigError::BadValue),
    }
}

/// Whether an operation is one that is sent on.
fn is_sent(operation: &OperationPattern) -> bool
    ensures { result ≡ Definitions.is_sent operation.now }
{
    match operation {
        OperationPattern::Register => false,
        OperationPattern::List => false,
        OperationPattern::Send(_) => true,
        OperationPattern::SendAny => true,
    }
}

fn prefix_of(alloc: Global, prefix: &[u8], domain: &[u8]) -> Result<TargetPattern, ConfigError>
    ensures { Reads (λ target. target) result (Ok (Target.Prefix prefix.now domain.now)) }
{
    let prefix = Bytes::copy(alloc, prefix)?;
    let domain = Bytes::copy(alloc, domain)?;
    Ok(TargetPattern::Prefix { prefix, domain })
}

fn exact(alloc: Global, user: &[u8], domain: &[u8]) -> Result<TargetPattern, ConfigError>
    ensures { Reads (λ target. target) result (Ok (Target.Exact user.now domain.now)) }
{
    let user = Bytes::copy(alloc, user)?;
    let domain = Bytes::copy(alloc, domain)?;
    Ok(TargetPattern::Exact { user, domain })
}

/// Users of a domain: all, those whose names begin so, or one.
fn users_at(alloc: Global, user: &[u8], domain: &[u8]) -> Result<TargetPattern, ConfigError>
    ensures { Reads (λ target. target) result (Definitions.users_at user.now domain.now) }
{
    if user.is_empty() {
        return prefix_of(alloc, user, domain);
    }
    match split_once(user, b'*') {
        None => exact(alloc, user, domain),
        Some((prefix, [])) => prefix_of(alloc, prefix, domain),
        Some(_) => Err(ConfigError::BadValue),
    }
}

/// What a rule's requests go to: `self`, `*`, `USER@DOMAIN`, `PREFIX*@DOMAIN` or `@DOMAIN`.
pub fn target_of(alloc: Global, text: &[u8]) -> Result<TargetPattern, ConfigError>
    ensures { Reads (λ target. target) result (Definitions.target_of text.now) }
{
    if same_bytes(text, b"self") {
        return Ok(TargetPattern::SelfTarget);
    }
    if same_bytes(text, b"*") {
        return Ok(TargetPattern::Any);
    }
    match split_once(text, b'@') {
        Some((user, domain)) if is_host(domain) => users_at(alloc, user, domain),
        _ => Err(ConfigError::BadValue),
    }
}

/// The hop that `via HOP` names.
fn hop_named(text: &[u8]) -> Option<&[u8]>
    ensures { option_map (λ name. name.now) result ≡ Definitions.hop_named text.now }
{
    let (word, name) = split_once(text, b' ')?;
    if same_bytes(word, b"via") && is_name(name) {
        Some(name)
    } else {
        None
    }
}

/// Whether a text is a verdict: `allow`, `deny`, or `via` and a name, for requests that are sent on alone.
pub fn is_verdict(operation: &OperationPattern, text: &[u8]) -> bool
    ensures { result ≡ Definitions.is_verdict operation.now text.now }
{
    same_bytes(text, b"allow")
        || same_bytes(text, b"deny")
        || (is_sent(operation) && hop_named(text).is_some())
}

/// The place of the first hop of a name.
fn place_of(hops: &[Hop], name: &[u8]) -> Option<usize>
    ensures { result ≡ position (is_hop name.now) hops.now }
{
    hops.iter()
        .position(|hop| same_bytes(hop.name.as_slice(), name))
}

/// What a verdict says, its hop by its place among those configured.
pub fn verdict_of(hops: &[Hop], text: &[u8]) -> Result<RuleVerdict, ConfigError>
    ensures { Reads (λ verdict. verdict) result (Definitions.verdict_of hops.now text.now) }
{
    if same_bytes(text, b"allow") {
        return Ok(RuleVerdict::Allow);
    }
    if same_bytes(text, b"deny") {
        return Ok(RuleVerdict::Deny);
    }
    let Some(name) = hop_named(text) else {
        return Err(ConfigError::BadValue);
    };
    match place_of(hops, name) {
        Some(place) => Ok(RuleVerdict::Via(place)),
        None => Err(ConfigError::UnknownHop),
    }
}
