ghost use Rattle.std.specs.Prelude.{◌≡◌, ◌<◌, ◌++◌, OnOk};
ghost use Rattle.std.specs.List.{flat_map};
ghost use Rattle.sip_audit.specs.Lines as Definitions;
ghost use Rattle.sip_audit.specs.Names.{is_name_byte as is_name_byte_of};

use sip_text::Bytes;
use sip_uri::Aor;
use std::alloc::AllocError;

/// A hexadecimal digit, letters in upper case.
pub fn upper_digit(value: u8) -> u8
    requires { value < 16 }
    ensures { result ≡ Definitions.upper_digit value }
{
    if value < 10 {
        b'0' + value
    } else {
        b'A' - 10 + value
    }
}

/// Whether a byte may stand in the name of a user.
fn is_name_byte(byte: u8) -> bool
    ensures { result ≡ is_name_byte_of byte }
{
    byte.is_ascii_alphanumeric() || byte == b'-' || byte == b'_' || byte == b'.' || byte == b'+'
}

/// Adds a byte of a user, as an escape unless it may stand in a name.
fn push_user_byte(text: &mut Bytes, byte: u8) -> Result<(), AllocError>
    ensures { OnOk result (text.new ≡ text.old ++ Definitions.user_byte_text byte) }
{
    if is_name_byte(byte) {
        return text.push(byte);
    }
    text.extend(&[b'%', upper_digit(byte / 16), upper_digit(byte % 16)])
}

/// Adds a user, each byte as an escape unless it may stand in a name.
pub fn push_user(text: &mut Bytes, user: &[u8]) -> Result<(), AllocError>
    ensures { OnOk result (text.new ≡ text.old ++ flat_map Definitions.user_byte_text user.now) }
{
    for byte in user {
        push_user_byte(text, *byte)?;
    }
    Ok(())
}

/// Adds an address of record as an audit line has it.
pub fn put_target(text: &mut Bytes, target: &Aor) -> Result<(), AllocError>
    ensures { OnOk result (text.new ≡ text.old ++ Definitions.target_text target.now) }
{
    push_user(text, target.user.as_slice())?;
    text.push(b'@')?;
    text.extend(target.host.as_slice())
}
