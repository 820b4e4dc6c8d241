//! The rules, the users and the own domains of two configurations, and who asks, as both know him.
ghost use Rattle.std.specs.Prelude.{◌≡◌, ◌++◌, IfOk, OnOk};
ghost use Rattle.std.specs.Option.{option_copied};
ghost use Rattle.sipd_matrix_changes.specs.Both as Definitions;

use sip_config_types::Config;
use sip_matrix::agree;
use sip_policy::{Rule, User};
use sip_text::{Bytes, Items};
use sipd_matrix::are_of_row;
use std::alloc::{AllocError, Global};

fn add_rules(list: &mut Items<Rule>, rules: &[Rule]) -> Result<(), AllocError>
    ensures { OnOk result (list.new ≡ list.old ++ rules.now) }
{
    for rule in rules {
        list.push(rule.clone()?)?;
    }
    Ok(())
}

fn add_users(alloc: Global, list: &mut Items<User>, users: &[User]) -> Result<(), AllocError>
    ensures { OnOk result (list.new ≡ list.old ++ users.now) }
{
    for user in users {
        list.push(user.copy(alloc)?)?;
    }
    Ok(())
}

fn add_domains(list: &mut Items<Bytes>, domains: &[Bytes]) -> Result<(), AllocError>
    ensures { OnOk result (list.new ≡ list.old ++ domains.now) }
{
    for domain in domains {
        list.push(domain.clone()?)?;
    }
    Ok(())
}

/// The rules of both.
pub(crate) fn rules_of(alloc: Global, old: &Config, new: &Config) -> Result<Items<Rule>, AllocError>
    ensures { IfOk result (λ rules. rules ≡ Definitions.rules_of old.now new.now) }
{
    let mut rules = Items::new(alloc);
    add_rules(&mut rules, old.rules.as_slice())?;
    add_rules(&mut rules, new.rules.as_slice())?;
    Ok(rules)
}

/// The users of both.
pub(crate) fn users_of(alloc: Global, old: &Config, new: &Config) -> Result<Items<User>, AllocError>
    ensures { IfOk result (λ users. users ≡ Definitions.users_of old.now new.now) }
{
    let mut users = Items::new(alloc);
    add_users(alloc, &mut users, old.users.as_slice())?;
    add_users(alloc, &mut users, new.users.as_slice())?;
    Ok(users)
}

/// The own domains of both.
pub(crate) fn domains_of(
    alloc: Global,
    old: &Config,
    new: &Config,
) -> Result<Items<Bytes>, AllocError>
    ensures { IfOk result (λ domains. domains ≡ Definitions.domains_of old.now new.now) }
{
    let mut domains = Items::new(alloc);
    add_domains(&mut domains, old.own.domains.as_slice())?;
    add_domains(&mut domains, new.own.domains.as_slice())?;
    Ok(domains)
}

/// Who is proven to a configuration.
pub(crate) fn proven_to<'a>(config: &Config, proven: Option<&'a [u8]>) -> Option<&'a [u8]>
    ensures { option_copied result ≡ Definitions.proven_to config.now (option_copied proven.entry) }
{
    match proven {
        None => None,
        Some(name) => {
            if config.users.has_name(name) {
                Some(name)
            } else {
                None
            }
        }
    }
}

/// Whether two users ask alike of a configuration.
fn ask_alike_of(config: &Config, one: &[u8], other: &[u8]) -> bool
    ensures { result ≡ Definitions.ask_alike_of config.now one.now other.now }
{
    agree(config.users.has_name(one), config.users.has_name(other))
        && are_of_row(config, one, other)
}

/// Whether they do of both.
pub(crate) fn ask_alike(old: &Config, new: &Config, one: &[u8], other: &[u8]) -> bool
    ensures { result ≡ Definitions.ask_alike_of_both old.now new.now one.now other.now }
{
    ask_alike_of(old, one, other) && ask_alike_of(new, one, other)
}
