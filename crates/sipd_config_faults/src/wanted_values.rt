//! What would do where a configuration is refused, in words: what a key may hold, how long its list may be, and which keys a table may have.
use sip_config_values::{ConfigKey, KeyPlace, TableKind};

/// What a key may hold, in words.
pub(crate) fn wanted(place: KeyPlace) -> &'static str {
    match (place.kind, place.key) {
        (TableKind::Whole, ConfigKey::Host) => "a host name of at most 255 bytes",
        (_, ConfigKey::Host) => "a host, which with its port no other table has",
        (_, ConfigKey::Version) => "1 or 2",
        (_, ConfigKey::Offset) => "a whole number from -720 to 840",
        (_, ConfigKey::Realm) => "text of 1 to 128 bytes from a space to ~, without \" and \\",
        (_, ConfigKey::Port) => "a whole number from 1 to 65535",
        (_, ConfigKey::Address) => "IP:PORT in quotes, as \"192.0.2.1:5060\"",
        (_, ConfigKey::Domains) => "a list of 1 to 16 host names",
        (_, key) => wanted_of_tables(key),
    }
}

/// The same of a list of tables, and of a key of such tables.
fn wanted_of_tables(key: ConfigKey) -> &'static str {
    match key {
        ConfigKey::Users => "one or more tables [[user]]",
        ConfigKey::Hops => "one or more tables [[hop]]",
        ConfigKey::HostAddresses => "one or more tables [[host_address]]",
        ConfigKey::Rules => "one or more tables [[rule]]",
        ConfigKey::Name => "a name of 1 to 64 letters, digits and -_.+, which no other has",
        ConfigKey::A1 => "32 hexadecimal digits in lower case",
        ConfigKey::A1Sha256 => "64 hexadecimal digits in lower case",
        ConfigKey::Groups => "a list of at most 16 names",
        key => wanted_of_rule(key),
    }
}

/// The same of a key of a rule.
fn wanted_of_rule(key: ConfigKey) -> &'static str {
    match key {
        ConfigKey::Id => "a whole number from 1 to 999999",
        ConfigKey::WhoAsks => "anyone, proven, user NAME with a configured one, or group NAME",
        ConfigKey::Operation =>
            "register, list, send * or send METHOD, which isn't REGISTER, ACK or CANCEL",
        ConfigKey::Target => "self, USER@DOMAIN, PREFIX*@DOMAIN, @DOMAIN or *",
        ConfigKey::Verdict => "allow, deny, or with send alone via HOP",
        ConfigKey::From | ConfigKey::Until =>
            "from and until, two whole numbers from 0 to 1439 that differ",
        _ => "",
    }
}

/// How many items the list of a key may have.
pub(crate) fn most_of(key: ConfigKey) -> u64 {
    match key {
        ConfigKey::Users => 4_096,
        ConfigKey::Hops => 256,
        ConfigKey::HostAddresses | ConfigKey::Rules => 1_024,
        _ => 16,
    }
}

/// The keys that a table of a kind may have, those that version 1 doesn't have as well.
pub(crate) fn keys_of(kind: TableKind) -> &'static [ConfigKey] {
    match kind {
        TableKind::Whole => &HEAD_KEYS,
        TableKind::User => &USER_KEYS,
        TableKind::Hop => &HOP_KEYS,
        TableKind::HostAddress => &HOST_ADDRESS_KEYS,
        TableKind::Rule => &RULE_KEYS,
    }
}

static HEAD_KEYS: [ConfigKey; 11] = [
    ConfigKey::Version,
    ConfigKey::Offset,
    ConfigKey::Realm,
    ConfigKey::Host,
    ConfigKey::Port,
    ConfigKey::Address,
    ConfigKey::Domains,
    ConfigKey::Users,
    ConfigKey::Hops,
    ConfigKey::HostAddresses,
    ConfigKey::Rules,
];

static USER_KEYS: [ConfigKey; 4] = [
    ConfigKey::Name,
    ConfigKey::A1,
    ConfigKey::A1Sha256,
    ConfigKey::Groups,
];

static HOP_KEYS: [ConfigKey; 2] = [ConfigKey::Name, ConfigKey::Address];

static HOST_ADDRESS_KEYS: [ConfigKey; 3] = [ConfigKey::Host, ConfigKey::Port, ConfigKey::Address];

static RULE_KEYS: [ConfigKey; 7] = [
    ConfigKey::Id,
    ConfigKey::WhoAsks,
    ConfigKey::Operation,
    ConfigKey::Target,
    ConfigKey::Verdict,
    ConfigKey::From,
    ConfigKey::Until,
];
