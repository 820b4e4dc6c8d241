//! The table `[[user]]` of a user who is to be added, for the command `user`: digests are made here, and no password is kept.
ghost use Rattle.std.specs.Prelude.{◌≡◌, ◌++◌, ◌==◌, IfOk, OnOk};
ghost use Rattle.std.specs.List.{list_any};
ghost use Rattle.std.specs.Option.{option_copied};
ghost use Rattle.sipd_ask.specs.Refusals.{Reads};
ghost use Rattle.sipd_ask.specs.User as Definitions;

use crate::error::{QuestionError, confirm};
use sip_config_types::Config;
use sip_config_values::Grammar;
use sip_digest::{a1, a1_sha256};
use sip_policy::Users;
use sip_text::{Bytes, same_bytes};
use std::alloc::{AllocError, Global};

/// The most bytes of a password.
const LONGEST_PASSWORD: usize = 1_024;

fn has_colon(text: &[u8]) -> bool
    ensures { result ≡ list_any (λ b. b == 58) text.now }
{
    text.iter().any(|byte| *byte == b':')
}

fn is_digested_realm(realm: &[u8]) -> bool
    ensures { result ≡ Definitions.is_digested_realm realm.now }
{
    Grammar::Realm.accepts(realm) && !has_colon(realm)
}

/// Adds a key with its text, on a line of its own.
fn put_text(table: &mut Bytes, key: &[u8], text: &[u8]) -> Result<(), AllocError>
    ensures { OnOk result (table.new ≡ table.old ++ Definitions.key_line key.now text.now) }
{
    table.extend(key)?;
    table.extend(b" = \"")?;
    table.extend(text)?;
    table.extend(b"\"\n")
}

/// Which digests of a password stand in a user's table.
#[derive(Clone, Copy, PartialEq, Eq)]
pub enum UserDigests {
    /// That by MD5, `a1`.
    Md5,
    /// That by SHA-256 behind it, `a1_sha256`, too.
    Both,
}

/// Adds a digest by SHA-256, where both are wanted.
fn put_sha256(table: &mut Bytes, digests: UserDigests, digest: &[u8]) -> Result<(), AllocError>
    ensures { OnOk result (table.new ≡ table.old ++ Definitions.sha256_line digests digest.now) }
{
    match digests {
        UserDigests::Md5 => Ok(()),
        UserDigests::Both => put_text(table, b"a1_sha256", digest),
    }
}

fn table_of(
    alloc: Global,
    name: &[u8],
    realm: &[u8],
    password: &[u8],
    digests: UserDigests,
) -> Result<Bytes, AllocError>
    ensures { IfOk result (λ table. table ≡ Definitions.table_of digests name.now realm.now password.now) }
{
    let mut table = Bytes::new(alloc);
    table.extend(b"[[user]]\n")?;
    put_text(&mut table, b"name", name)?;
    put_text(&mut table, b"a1", &a1(name, realm, password))?;
    put_sha256(&mut table, digests, &a1_sha256(name, realm, password))?;
    Ok(table)
}

/// The table `[[user]]` of a user, in TOML: the name, and the digests of name, realm and password by MD5 and, where both
/// are wanted, by SHA-256 (RFC 2617 3.2.2.2, RFC 7616 3.4.2). The password stands nowhere in it.
///
/// Refuses, in this order: BadName for a name, and BadRealm for a realm that a configuration doesn't take, or that has a
/// `:`; EmptyPassword, and LongPassword for one of more than 1,024 bytes. NoMemory may come in place of any answer.
pub fn user_table(
    alloc: Global,
    name: &[u8],
    realm: &[u8],
    password: &[u8],
    digests: UserDigests,
) -> Result<Bytes, QuestionError>
    ensures { Reads (λ table. table) result (Definitions.user_table name.now realm.now password.now digests) }
{
    confirm(Grammar::Name.accepts(name), QuestionError::BadName)?;
    confirm(is_digested_realm(realm), QuestionError::BadRealm)?;
    confirm(!password.is_empty(), QuestionError::EmptyPassword)?;
    confirm(
        password.len() <= LONGEST_PASSWORD,
        QuestionError::LongPassword,
    )?;
    Ok(table_of(alloc, name, realm, password, digests)?)
}

/// Which digests a user needs beside others.
fn digests_beside(users: &Users) -> UserDigests
    ensures { result ≡ Definitions.digests_beside users.now }
{
    if users.any_has_sha256() {
        UserDigests::Both
    } else {
        UserDigests::Md5
    }
}

/// Whether a realm, if one is said, is this one.
fn is_realm_said(realm: &[u8], said: Option<&[u8]>) -> bool
    ensures { result ≡ Definitions.is_realm_said realm.now (option_copied said.entry) }
{
    match said {
        Some(said) => same_bytes(said, realm),
        None => true,
    }
}

/// The table of a user to be added to a configuration, as `user_table` makes it: in the realm of the configuration, and
/// with the digest by SHA-256 exactly where one of its users has it, since every phone is offered both then.
///
/// Refuses, in this order: OtherRealm where another realm is said, TakenName where a user has the name, and what
/// `user_table` refuses. NoMemory may come in place of any answer.
pub fn added_user(
    alloc: Global,
    config: &Config,
    name: &[u8],
    realm: Option<&[u8]>,
    password: &[u8],
) -> Result<Bytes, QuestionError>
    ensures { Reads (λ table. table) result (Definitions.added_user config.now name.now (option_copied realm.entry) password.now) }
{
    let own = config.realm.as_slice();
    confirm(is_realm_said(own, realm), QuestionError::OtherRealm)?;
    confirm(!config.users.has_name(name), QuestionError::TakenName)?;
    user_table(alloc, name, own, password, digests_beside(&config.users))
}
