//! Classes of addresses of record, and which target patterns the addresses of one meet.
ghost use Rattle.std.specs.Prelude.{◌≡◌, false};
ghost use Rattle.std.specs.Bool.{beq};
ghost use Rattle.std.specs.List.{list_all};
ghost use Rattle.sip_matrix.specs.Column as Definitions;
ghost use Rattle.sip_matrix.specs.declared.column.Column.{Column};

use sip_policy::{Rule, TargetPattern, Users, is_users_address};
use sip_text::{Bytes, same_bytes, same_no_case};
use sip_uri::Aor;
use std::alloc::AllocError;

/// A class of addresses of record.
#[derive(Drop)]
pub enum Column {
    /// This address, its host in any case.
    Named(Aor),
    /// Every address at this host whose user part begins so, that meets no longer prefix of a rule's pattern,
    /// and that isn't named.
    Begins(Aor),
    /// Every address at a host that is no own domain and that no rule's target is of.
    Elsewhere,
}

/// Written out, so that a copy is known to be equal.
impl Clone for Column {
    ghost is_clone = { λ column copy. copy ≡ column };

    fn clone(&self) -> Result<Column, AllocError> {
        match self {
            Column::Named(aor) => Ok(Column::Named(aor.clone()?)),
            Column::Begins(aor) => Ok(Column::Begins(aor.clone()?)),
            Column::Elsewhere => Ok(Column::Elsewhere),
        }
    }
}

/// Whether two answers are the same. Takes no memory.
pub fn agree(one: bool, other: bool) -> bool
    ensures { result ≡ beq one other }
{
    if one { other } else { !other }
}

/// Whether two addresses are the same, the user byte by byte and the host without case.
fn is_same_address(one: &Aor, other: &Aor) -> bool
    ensures { result ≡ Definitions.is_same_address one.now other.now }
{
    same_bytes(one.user.as_slice(), other.user.as_slice())
        && same_no_case(one.host.as_slice(), other.host.as_slice())
}

fn meets_exact(aor: &Aor, user: &Bytes, domain: &Bytes) -> bool
    ensures { result ≡ Definitions.meets_exact (Column.Named aor.now) user.now domain.now }
{
    same_bytes(aor.user.as_slice(), user.as_slice())
        && same_no_case(aor.host.as_slice(), domain.as_slice())
}

fn meets_prefix(aor: &Aor, prefix: &Bytes, domain: &Bytes) -> bool
    ensures { result ≡ Definitions.meets_prefix (Column.Named aor.now) prefix.now domain.now }
{
    aor.user.as_slice().starts_with(prefix.as_slice())
        && same_no_case(aor.host.as_slice(), domain.as_slice())
}

impl Column {
    /// Whether the addresses meet a target pattern, `self` where they are the asker's own. Takes no memory.
    pub fn meets(&self, own: bool, target: &TargetPattern) -> bool
        ensures { result ≡ Definitions.meets own self.now target.now }
    {
        match (target, self) {
            (TargetPattern::Exact { user, domain }, Column::Named(aor)) => {
                meets_exact(aor, user, domain)
            }
            (TargetPattern::Exact { user: _, domain: _ }, _) => false,
            (TargetPattern::Prefix { prefix, domain }, Column::Named(aor)) => {
                meets_prefix(aor, prefix, domain)
            }
            (TargetPattern::Prefix { prefix, domain }, Column::Begins(aor)) => {
                meets_prefix(aor, prefix, domain)
            }
            (
                TargetPattern::Prefix {
                    prefix: _,
                    domain: _,
                },
                Column::Elsewhere,
            ) => false,
            (TargetPattern::SelfTarget, _) => own,
            (TargetPattern::Any, _) => true,
        }
    }

    /// Whether the addresses are a configured user's in an own domain. Takes no memory.
    pub fn is_known(&self, users: &Users, domains: &[Bytes]) -> bool
        ensures { result ≡ Definitions.is_known users.now domains.now self.now }
    {
        match self {
            Column::Named(aor) => is_users_address(users, domains, aor),
            Column::Begins(_) | Column::Elsewhere => false,
        }
    }

    /// Whether two columns have the same addresses by their form. Takes no memory.
    pub(crate) fn is_same(&self, other: &Column) -> bool
        ensures { result ≡ Definitions.is_same_column self.now other.now }
    {
        match (self, other) {
            (Column::Named(one), Column::Named(other)) => is_same_address(one, other),
            (Column::Begins(one), Column::Begins(other)) => is_same_address(one, other),
            (Column::Elsewhere, Column::Elsewhere) => true,
            _ => false,
        }
    }

    /// Whether the addresses of two columns meet the same rules' target patterns.
    fn meets_as(&self, rules: &[Rule], other: &Column) -> bool
        ensures { result ≡ list_all (λ rule. beq (Definitions.meets false self.now rule.target) (Definitions.meets false other.now rule.target)) rules.now }
    {
        rules.iter().all(|rule| {
            agree(
                self.meets(false, &rule.target),
                other.meets(false, &rule.target),
            )
        })
    }

    /// Whether the addresses of two columns meet the same rules' target patterns, and are known alike: the
    /// same is decided about both. Takes no memory.
    pub fn is_asked_as(
        &self,
        rules: &[Rule],
        users: &Users,
        domains: &[Bytes],
        other: &Column,
    ) -> bool
        ensures { result ≡ Definitions.are_asked_alike rules.now users.now domains.now self.now other.now }
    {
        agree(
            self.is_known(users, domains),
            other.is_known(users, domains),
        ) && self.meets_as(rules, other)
    }
}
