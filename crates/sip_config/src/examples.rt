//! Worked examples of configurations that are stated and refused, as contracts that compute: which keys, in which order, at which place.
ghost use Rattle.std.specs.Prelude.{◌≡◌, ◌++◌, [], codes, pos, Some, Ok, Err};
ghost use Rattle.sip_policy.specs.Examples.{rules_with, by_day};
ghost use Rattle.sip_config_types.specs.Sample.{sample};
ghost use Rattle.sip_config_values.specs.declared.error.ConfigError.TheVariants as Refusal;
ghost use Rattle.sip_config_values.specs.declared.key.ConfigKey.TheVariants as keys;
ghost use Rattle.sip_config_values.specs.declared.table_kind.TableKind.TheVariants as kinds;
ghost use Rattle.sip_config_values.specs.declared.refusal.Refusal.TheVariants.{At, Twice};
ghost use Rattle.sip_config_values.specs.Refusals.{place};
ghost use Rattle.sip_config.specs.Configuration.{stated_in};
ghost use Rattle.sip_config.specs.Examples as Texts;

/// The sample's text states the sample.
pub fn sample_is_stated()
    ensures { stated_in Texts.sample_text ≡ Ok sample }
{}

/// As version 2 it may have an offset, and rules windows.
pub fn version_2_is_stated()
    ensures { stated_in (Texts.windowed (codes "from = 480\nuntil = 1080\n")) ≡ Ok (record sample { offset = pos 60; rules = rules_with by_day }) }
{}

/// The sample is refused where it isn't TOML, without `realm`, with port 0, and with 17 domains.
pub fn head_refusals()
    ensures not_toml { stated_in (codes "x = ") ≡ Err Refusal.BadToml }
    ensures no_realm { stated_in (Texts.head_with Texts.sample_version [] Texts.sample_port Texts.sample_domains) ≡ Err Refusal.MissingKey }
    ensures port_0 { stated_in (Texts.head_with Texts.sample_version Texts.sample_realm (codes "port = 0\n") Texts.sample_domains)
        ≡ Err Refusal.BadValue }
    ensures many { stated_in (Texts.head_with Texts.sample_version Texts.sample_realm Texts.sample_port Texts.many_domains) ≡ Err Refusal.TooMany }
{}

/// Lines are looked at in their order: a bad realm before a missing port, a missing realm before a bad port;
/// but a list that is too long comes first.
pub fn lines_in_order()
    ensures realm { stated_in (Texts.head_with Texts.sample_version (codes "realm = \"\"\n") [] Texts.sample_domains) ≡ Err Refusal.BadValue }
    ensures no_realm { stated_in (Texts.head_with Texts.sample_version [] (codes "port = 0\n") Texts.sample_domains) ≡ Err Refusal.MissingKey }
    ensures many { stated_in (Texts.head_with Texts.sample_version [] Texts.sample_port Texts.many_domains) ≡ Err Refusal.TooMany }
{}

/// Users have to be there, one or more, in a list of tables; no name stands twice; and all names are looked at
/// before any digest.
pub fn user_refusals()
    ensures none { stated_in Texts.sample_head ≡ Err Refusal.MissingKey }
    ensures empty { stated_in (Texts.behind_head (codes "user = []\n")) ≡ Err Refusal.BadValue }
    ensures plain_table { stated_in (Texts.behind_head (codes "[user]\nname = \"a\"\n")) ≡ Err Refusal.BadValue }
    ensures twice { stated_in (Texts.behind_head (codes "[[user]]\nname = \"a\"\n[[user]]\nname = \"a\"\n[[user]]\n")) ≡ Err Refusal.BadValue }
    ensures name_first { stated_in (Texts.behind_head (codes "[[user]]\nname = \"a\"\na1 = \"x\"\n[[user]]\n")) ≡ Err Refusal.MissingKey }
{}

/// Of one hop, a missing address comes before a bad name.
pub fn hop_refusals()
    ensures missing { stated_in (Texts.behind_users (codes "[[hop]]\nname = \"-\"\n")) ≡ Err Refusal.MissingKey }
    ensures bad { stated_in (Texts.behind_users (codes "[[hop]]\nname = \"-\"\naddress = \"127.0.0.1:1\"\n")) ≡ Err Refusal.BadValue }
{}

/// Rules: a number twice, an unknown hop, an unknown group, in this order, and all of them behind an unknown
/// key.
pub fn rule_refusals()
    ensures number { stated_in (Texts.behind_users (Texts.plain_rule (codes "6") ++ Texts.plain_rule (codes "6"))) ≡ Err Refusal.DuplicateRule }
    ensures hop { stated_in (Texts.behind_users (Texts.a_rule (codes "6") (codes "anyone") (codes "send *") (codes "via no")))
        ≡ Err Refusal.UnknownHop }
    ensures group { stated_in (Texts.behind_users (Texts.a_rule (codes "6") (codes "group no") (codes "send *") (codes "deny")))
        ≡ Err Refusal.UnknownGroup }
    ensures number_first { stated_in
        (Texts.behind_users (Texts.a_rule (codes "6") (codes "group no") (codes "send *") (codes "via no") ++ Texts.plain_rule (codes "6")))
        ≡ Err Refusal.DuplicateRule }
    ensures hop_first { stated_in (Texts.behind_users (Texts.a_rule (codes "6") (codes "group no") (codes "send *") (codes "via no")))
        ≡ Err Refusal.UnknownHop }
    ensures key_first { stated_in
        (Texts.behind_users (Texts.plain_rule (codes "6") ++ Texts.plain_rule (codes "6") ++ codes "note = \"\"\n")) ≡ Err Refusal.BadValue }
{}

/// A rule may not send a registration to a hop, nor be for a user who isn't configured, nor for ACK.
pub fn rule_values()
    ensures via { stated_in (Texts.behind_users (Texts.a_rule (codes "6") (codes "anyone") (codes "register") (codes "via no")))
        ≡ Err Refusal.BadValue }
    ensures user { stated_in (Texts.behind_users (Texts.a_rule (codes "6") (codes "user no") (codes "register") (codes "deny")))
        ≡ Err Refusal.BadValue }
    ensures ack { stated_in (Texts.behind_users (Texts.a_rule (codes "6") (codes "anyone") (codes "send ACK") (codes "deny")))
        ≡ Err Refusal.BadValue }
{}

/// A window has both minutes, which differ, and are below 1440; version 1 has none, and no offset.
pub fn window_refusals()
    ensures alone { stated_in (Texts.windowed (codes "from = 480\n")) ≡ Err Refusal.BadValue }
    ensures equal { stated_in (Texts.windowed (codes "from = 480\nuntil = 480\n")) ≡ Err Refusal.BadValue }
    ensures too_late { stated_in (Texts.windowed (codes "from = 480\nuntil = 1440\n")) ≡ Err Refusal.BadValue }
    ensures version_1 { stated_in (Texts.behind_users (Texts.plain_rule (codes "6") ++ codes "from = 480\nuntil = 1080\n")) ≡ Err Refusal.BadValue }
    ensures offset { stated_in (Texts.head_with (codes "version = 1\noffset = 0\n") Texts.sample_realm Texts.sample_port
        Texts.sample_domains ++ Texts.sample_users) ≡ Err Refusal.BadValue }
{}

/// A refusal has the place at which the reading stops: no users, the second of two with one name, the verdict of a first rule that names
/// no hop, and a second rule with a key that isn't known.
pub fn refusals_have_places()
    ensures none { Texts.placed_in Texts.sample_head ≡ Some (Err (At Refusal.MissingKey (place kinds.Whole 0 keys.Users))) }
    ensures twice { Texts.placed_in (Texts.behind_head (codes "[[user]]\nname = \"a\"\n[[user]]\nname = \"a\"\n"))
        ≡ Some (Err (Twice (place kinds.User 1 keys.Name))) }
    ensures hop { Texts.placed_in (Texts.behind_users (Texts.a_rule (codes "6") (codes "anyone") (codes "send *") (codes "via no")))
        ≡ Some (Err (At Refusal.UnknownHop (place kinds.Rule 0 keys.Verdict))) }
    ensures unknown { Texts.placed_in (Texts.behind_users (Texts.plain_rule (codes "6") ++ Texts.plain_rule (codes "7") ++ codes "note = \"\"\n"))
        ≡ Some (Err (At Refusal.BadValue (place kinds.Rule 1 keys.Unknown))) }
{}
