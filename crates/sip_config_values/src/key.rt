ghost use Rattle.std.specs.Prelude.{◌≡◌};

/// The keys of a file.
#[derive(Clone, Copy)]
pub enum ConfigKey {
    Version,
    Offset,
    Realm,
    Host,
    Port,
    Address,
    Domains,
    /// The lists of tables.
    Users,
    Hops,
    HostAddresses,
    Rules,
    Name,
    A1,
    A1Sha256,
    Groups,
    Id,
    WhoAsks,
    Operation,
    Target,
    Verdict,
    From,
    Until,
    /// The first key of a table that its kind doesn't have.
    Unknown,
}

impl ConfigKey {
    ghost use Rattle.sip_config_values.specs.KeyNames.{name_of};

    /// What a key is called; nothing where it isn't known.
    pub fn name(self) -> &'static str
        ensures { result.now ≡ name_of self }
    {
        match self {
            ConfigKey::Version => "version",
            ConfigKey::Offset => "offset",
            ConfigKey::Realm => "realm",
            ConfigKey::Host => "host",
            ConfigKey::Port => "port",
            ConfigKey::Address => "address",
            ConfigKey::Domains => "domains",
            ConfigKey::Users => "user",
            ConfigKey::Hops => "hop",
            ConfigKey::HostAddresses => "host_address",
            ConfigKey::Rules => "rule",
            ConfigKey::Name => "name",
            ConfigKey::A1 => "a1",
            ConfigKey::A1Sha256 => "a1_sha256",
            ConfigKey::Groups => "groups",
            ConfigKey::Id => "id",
            ConfigKey::WhoAsks => "who",
            ConfigKey::Operation => "op",
            ConfigKey::Target => "target",
            ConfigKey::Verdict => "verdict",
            ConfigKey::From => "from",
            ConfigKey::Until => "until",
            ConfigKey::Unknown => "",
        }
    }
}
