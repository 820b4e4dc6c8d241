ghost use Rattle.std.specs.Prelude.{◌≡◌, Option, Ok};
ghost use Rattle.toml.specs.Data.{Members};
ghost use Rattle.sip_config_types.specs.declared.config.Config.{Config};
ghost use Rattle.sip_config.specs.Configuration.{configuration_of};
ghost use Rattle.sip_config.specs.Configured.{IsConfigured, IsWithinLimits};

/// What a file states is a good configuration: no two users have one name and no two rules one number, every
/// rule has a number above 0, and the hops and groups that rules name are configured.
pub fn stated_is_configured()
    ensures { (file : Option Members) (config : Config) → configuration_of file ≡ Ok config → IsConfigured config }
{}

/// It is within the limits: 1 to 16 domains, 1 to 4,096 users, each in at most 16 groups, at most 256 hops,
/// 1,024 host addresses and 1,024 rules; and its realm, its hosts and the names of users, groups and hops are of
/// their grammars.
pub fn stated_is_within_limits()
    ensures { (file : Option Members) (config : Config) → configuration_of file ≡ Ok config → IsWithinLimits config }
{}
