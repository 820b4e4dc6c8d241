//! The user and the password of a URI read (RFC 3261 19.1.1, 25.1), with their escapes as they stand.
ghost use Rattle.std.specs.Prelude.{◌≡◌, ◌≤◌, length, Some, None, Ok, option_map, IfSome};
ghost use Rattle.std.specs.List.{prefix_len};
ghost use Rattle.std.specs.Option.{ok_or};
ghost use Rattle.sip_uri.specs.Parts.{is_user_byte};
ghost use Rattle.sip_uri.specs.Uri as Definitions;
ghost use Rattle.sip_uri.specs.Reading.{Gives, userinfo_of, user_of};
ghost use Rattle.sip_uri.specs.declared.error.UriError.TheVariants.{Syntax};

use crate::error::UriError;
use crate::escape_classes::{Class, are_escaped, is_escaped, is_user_byte};
use crate::parts::{copy_part, part_before};
use sip_text::{Bytes, split_once};
use std::alloc::Global;

/// What stands before the `@` of a URI, as written (RFC 3261 19.1.1).
#[derive(Clone)]
pub struct UserInfo {
    /// The user, with its escapes.
    pub user: Bytes,
    /// The password, with its escapes, where a `:` stands.
    pub password: Option<Bytes>,
}

/// Written out, so that it is proved once and not wherever a user is dropped.
impl Drop for UserInfo {
    fn drop(self) {
        let UserInfo {
            user: _,
            password: _,
        } = self;
    }
}

/// Whether a text is a password, which may be empty, or there is none.
fn is_password_or_none(password: Option<&[u8]>) -> bool
    ensures { result ≡ Definitions.is_password_or_none (option_map (λ x. x.now) password.entry) }
{
    match password {
        Some(password) => are_escaped(Class::Password, password),
        None => true,
    }
}

/// The user that a text writes, and behind a `:` its password.
fn read_userinfo(alloc: Global, text: &[u8]) -> Result<UserInfo, UriError>
    ensures { Gives (λ info. info) result (ok_or (userinfo_of text.now) Syntax) }
{
    let (user, password) = part_before(text, b':');
    if !is_escaped(Class::User, user) {
        return Err(UriError::Syntax);
    }
    if !is_password_or_none(password) {
        return Err(UriError::Syntax);
    }
    let user = Bytes::copy(alloc, user)?;
    let password = copy_part(alloc, password)?;
    Ok(UserInfo { user, password })
}

/// How many bytes that a user has without escapes stand at the front of a text.
fn plain_length(text: &[u8]) -> usize
    ensures value { result ≡ prefix_len is_user_byte text.now }
    ensures within { result ≤ length text.now }
{
    for at in 0..text.len() {
        if !is_user_byte(text[at]) {
            return at;
        }
    }
    text.len()
}

/// A user without escapes that an `@` ends, and what follows it. None says nothing.
pub(crate) fn plain_user(text: &[u8]) -> Option<(&[u8], &[u8])>
    ensures { IfSome result (λ x. user_of text.now ≡ Ok (Some (record { user = x.0.now; password = None }), x.1.now)) }
{
    let (user, rest) = text.split_at(plain_length(text));
    if user.is_empty() {
        return None;
    }
    let Some((b'@', rest)) = rest.split_first() else {
        return None;
    };
    Some((user, rest))
}

/// The user and the password before the first `@`, if there is one, and what follows it, of a text of any form.
fn any_user(alloc: Global, text: &[u8]) -> Result<(Option<UserInfo>, &[u8]), UriError>
    ensures { Gives (λ x. (x.0, x.1.now)) result (user_of text.now) }
{
    let Some((info, rest)) = split_once(text, b'@') else {
        return Ok((None, text));
    };
    let info = read_userinfo(alloc, info)?;
    Ok((Some(info), rest))
}

/// The user and the password before the first `@`, if there is one, and what follows it.
pub(crate) fn user_before(alloc: Global, text: &[u8]) -> Result<(Option<UserInfo>, &[u8]), UriError>
    ensures { Gives (λ x. (x.0, x.1.now)) result (user_of text.now) }
{
    let Some((user, rest)) = plain_user(text) else {
        return any_user(alloc, text);
    };
    let user = Bytes::copy(alloc, user)?;
    let info = UserInfo {
        user,
        password: None,
    };
    Ok((Some(info), rest))
}
