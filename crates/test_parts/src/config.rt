use crate::cases::Row;
use crate::config_texts::{OFFICE, SAMPLE};
use sip_config::{ConfigError, read_config};
use sip_policy::PolicyError;
use std::alloc::Global;
use test_forms::gives_text;

/// How many users, rules, hops, addresses of hosts and domains a text states, and how many minutes it is ahead of
/// UTC; None where it is refused.
pub(crate) fn counts(alloc: Global, text: &str) -> Option<([usize; 5], i16)> {
    match read_config(alloc, text) {
        Ok(config) => Some((
            [
                config.users.as_slice().len(),
                config.rules.as_slice().len(),
                config.hops.as_slice().len(),
                config.addresses.as_slice().len(),
                config.own.domains.as_slice().len(),
            ],
            config.offset,
        )),
        Err(_) => None,
    }
}

/// What the examples state.
pub(crate) const EXAMPLES_ARE_READ: &[Row] = &[
    Row::Counts(SAMPLE, [3, 6, 1, 1, 1], 0),
    Row::Counts(OFFICE, [2, 9, 1, 1, 2], 60),
];

fn is_refused(alloc: Global, text: &str) -> bool {
    matches!(read_config(alloc, text), Err(ConfigError::BadValue))
}

/// Whether the sample is refused with BadValue where another text stands for a part of it.
pub(crate) fn is_bad_value(alloc: Global, part: &str, other: &str) -> bool {
    match SAMPLE.replacen(alloc, part, other, 1) {
        Ok(text) => is_refused(alloc, text.as_str()),
        Err(_) => false,
    }
}

/// A part of the sample, and a bad value that stands for it (`docs/CONFIGURATION.md`).
pub(crate) const BAD_VALUES: &[Row] = &[
    Row::BadValue("port = 5060", "port = \"5060\""),
    Row::BadValue("version = 1", "version = 3"),
    Row::BadValue("version = 1", "version = 2\noffset = 841"),
    Row::BadValue("host = \"sip.host.com\"", "host = \"[::1]\""),
    Row::BadValue("\"127.0.0.1:5060\"", "\"127.0.0.01:5060\""),
    Row::BadValue("[\"host.com\"]", "[]"),
    Row::BadValue("\"alice\"", "\".alice\""),
    Row::BadValue("939e", "939E"),
    Row::BadValue("groups", "a1_sha256 = \"1\"\ngroups"),
    Row::BadValue("[\"staff\"]", "[1]"),
    Row::BadValue("\"127.0.0.1:5090\"", "\"127.0.0.1\""),
    Row::BadValue("\"pc.host.com\"", "\"pc host\""),
    Row::BadValue("id = 6", "id = 1000000"),
    Row::BadValue("\"group staff\"", "\"staff\""),
    Row::BadValue("\"send INVITE\"", "\"send CANCEL\""),
    Row::BadValue("\"9*@host.com\"", "\"*9@host.com\""),
    Row::BadValue("\"9*@host.com\"", "\"9@9@host.com\""),
    Row::BadValue("\"register\"", "\"deregister\""),
    Row::BadValue("\"deny\"", "\"refuse\""),
    Row::BadValue("via gw", "via -"),
];

pub(crate) fn printed_refusals(alloc: Global) -> bool {
    gives_text(ConfigError::BadToml.to_string(alloc), "not TOML")
        && gives_text(
            PolicyError::NameTwice.to_string(alloc),
            "two users have the same name",
        )
}
