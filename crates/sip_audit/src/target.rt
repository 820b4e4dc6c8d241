ghost use Rattle.std.specs.Prelude.{◌≡◌, ◌<◌, ◌++◌, IfOk, OnOk, option_map};
ghost use Rattle.std.specs.List.{flat_map};
ghost use Rattle.std.specs.Str.{bytes_eq};
ghost use Rattle.sip_audit.specs.Lines.{user_byte_text, target_text};
ghost use Rattle.sip_audit.specs.Lines as Definitions;
ghost use Rattle.sip_audit.specs.Reading as Readings;
ghost use Rattle.sip_audit.specs.Reading.{Gives};

use crate::error::AuditError;
use crate::name::{are_name_bytes, is_name_byte};
use sip_text::{Buffer, Bytes, TextError, same_bytes, split_once, unescape};
use sip_uri::{Aor, is_host};
use std::alloc::{AllocError, Global};

/// A hexadecimal digit, letters in upper case.
fn upper_digit(value: u8) -> u8
    requires { value < 16 }
    ensures { result ≡ Definitions.upper_digit value }
{
    if value < 10 {
        b'0' + value
    } else {
        b'A' - 10 + value
    }
}

/// Adds a byte of a user, as an escape unless it may stand in a name.
fn push_user_byte(line: &mut Buffer, byte: u8) -> Result<(), AllocError>
    ensures { OnOk result (line.new ≡ line.old ++ user_byte_text byte) }
{
    if is_name_byte(byte) {
        return line.extend(&[byte]);
    }
    line.extend(&[b'%', upper_digit(byte / 16), upper_digit(byte % 16)])
}

/// Adds a user. Most are names, which are written as they are.
#[inline(always)]
#[tactic(auto, using(crate::proofs::Users::name_as_it_is))]
fn push_user(line: &mut Buffer, user: &[u8]) -> Result<(), AllocError>
    ensures { OnOk result (line.new ≡ line.old ++ flat_map user_byte_text user.now) }
{
    if are_name_bytes(user) {
        line.extend(user)?;
        return Ok(());
    }
    for byte in user {
        push_user_byte(line, *byte)?;
    }
    Ok(())
}

/// Adds an address of record: its user, `@` and its host.
#[inline(always)]
pub(crate) fn push_target(line: &mut Buffer, target: &Aor) -> Result<(), AllocError>
    ensures { OnOk result (line.new ≡ line.old ++ target_text target.now) }
{
    push_user(line, target.user.as_slice())?;
    line.extend(b"@")?;
    line.extend(target.host.as_slice())
}

/// A user as it is written before the `@` of a word, and the host behind it.
pub(crate) fn target_of(word: &[u8]) -> Option<(&[u8], &[u8])>
    ensures { option_map (λ x. (x.0.now, x.1.now)) result ≡ Readings.target_of word.now }
{
    let (user, host) = split_once(word, b'@')?;
    if is_host(host) {
        Some((user, host))
    } else {
        None
    }
}

/// Whether a user is written so.
fn is_written(alloc: Global, user: &[u8], text: &[u8]) -> Result<bool, AllocError>
    ensures { IfOk result (λ same. same ≡ bytes_eq (flat_map user_byte_text user.now) text.now) }
{
    let mut written = Buffer::with_room(alloc, text.len())?;
    push_user(&mut written, user)?;
    Ok(same_bytes(written.as_slice(), text))
}

/// The user that is written so. A text that only says the same, as one with an escape that isn't needed, is
/// refused.
pub(crate) fn user_of(alloc: Global, text: &[u8]) -> Result<Bytes, AuditError>
    ensures { Gives (λ user. user) result (Readings.user_of text.now) }
{
    let user = match unescape(alloc, text) {
        Ok(user) => user,
        Err(TextError::NoMemory) => return Err(AuditError::NoMemory),
        Err(_) => return Err(AuditError::BadLine),
    };
    if !is_written(alloc, user.as_slice(), text)? {
        return Err(AuditError::BadLine);
    }
    Ok(user)
}
