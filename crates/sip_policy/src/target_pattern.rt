ghost use Rattle.std.specs.Prelude.{◌≡◌, IfOk};
ghost use Rattle.std.specs.Option.{option_copied};
ghost use Rattle.sip_policy.specs.Rule.{is_self};
ghost use Rattle.sip_policy.specs.TargetPattern.{is_own_name, matches_target};

use crate::Users;
use crate::domains::is_own_domain;
use sip_text::{Bytes, same_bytes, same_no_case};
use sip_uri::Aor;
use std::alloc::AllocError;

/// The target pattern of a rule: addresses of record.
#[derive(Drop)]
pub enum TargetPattern {
    /// `USER@DOMAIN`: that address.
    Exact { user: Bytes, domain: Bytes },
    /// `PREFIX*@DOMAIN`: addresses in the domain whose user begins so; `@DOMAIN` has the empty prefix.
    Prefix { prefix: Bytes, domain: Bytes },
    /// `self`: the proven user's own address.
    SelfTarget,
    /// `*`: every address.
    Any,
}

impl Clone for TargetPattern {
    ghost is_clone = { λ pattern copy. copy ≡ pattern };

    fn clone(&self) -> Result<TargetPattern, AllocError> {
        match self {
            TargetPattern::Exact { user, domain } => {
                let (user, domain) = copy_both(user, domain)?;
                Ok(TargetPattern::Exact { user, domain })
            }
            TargetPattern::Prefix { prefix, domain } => {
                let (prefix, domain) = copy_both(prefix, domain)?;
                Ok(TargetPattern::Prefix { prefix, domain })
            }
            TargetPattern::SelfTarget => Ok(TargetPattern::SelfTarget),
            TargetPattern::Any => Ok(TargetPattern::Any),
        }
    }
}

impl TargetPattern {
    /// Whether an address of record is of the pattern, where a user of this name is proven, or nobody.
    /// Users are compared byte by byte, hosts without case. Takes no memory.
    pub fn matches(
        &self,
        users: &Users,
        domains: &[Bytes],
        proven: Option<&[u8]>,
        aor: &Aor,
    ) -> bool
        ensures { result ≡ matches_target users.now domains.now (option_copied proven.entry) aor.now self.now }
    {
        match self {
            TargetPattern::Exact { user, domain } => {
                same_bytes(aor.user.as_slice(), user.as_slice())
                    && same_no_case(aor.host.as_slice(), domain.as_slice())
            }
            TargetPattern::Prefix { prefix, domain } => {
                aor.user.as_slice().starts_with(prefix.as_slice())
                    && same_no_case(aor.host.as_slice(), domain.as_slice())
            }
            TargetPattern::SelfTarget => {
                is_own_domain(domains, aor.host.as_slice())
                    && is_own_name(users, proven, aor.user.as_slice())
            }
            TargetPattern::Any => true,
        }
    }

    /// Whether the pattern is `self`. Takes no memory.
    pub fn is_self(&self) -> bool
        ensures { result ≡ is_self self.now }
    {
        matches!(self, TargetPattern::SelfTarget)
    }
}

/// Whether a user part is the one who asks: the proven user's name, or with nobody proven any user's.
fn is_own_name(users: &Users, proven: Option<&[u8]>, user: &[u8]) -> bool
    ensures { result ≡ is_own_name users.now (option_copied proven.entry) user.now }
{
    match proven {
        Some(name) => same_bytes(user, name),
        None => users.has_name(user),
    }
}

fn copy_both(user: &Bytes, domain: &Bytes) -> Result<(Bytes, Bytes), AllocError>
    ensures { IfOk result (λ copies. copies ≡ (user.now, domain.now)) }
{
    let user = user.clone()?;
    let domain = domain.clone()?;
    Ok((user, domain))
}
