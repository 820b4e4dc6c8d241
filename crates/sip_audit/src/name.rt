ghost use Rattle.std.specs.Prelude.{◌≡◌};
ghost use Rattle.std.specs.List.{list_all};
ghost use Rattle.sip_audit.specs.Names;

/// For each byte `1` if it may stand in the name of a user, else `0`.
static NAME_BYTES: [u8; 256] = *b"\
    00000000000000000000000000000000\
    00000000000101101111111111000000\
    01111111111111111111111111100001\
    01111111111111111111111111100000\
    00000000000000000000000000000000\
    00000000000000000000000000000000\
    00000000000000000000000000000000\
    00000000000000000000000000000000";

/// Whether a byte may stand in the name of a user: a letter, a digit or one of `-_.+`.
#[inline]
pub(crate) fn is_name_byte(byte: u8) -> bool
    ensures { result ≡ Names.is_name_byte byte }
{
    NAME_BYTES[byte as usize] == b'1'
}

pub(crate) fn are_name_bytes(bytes: &[u8]) -> bool
    ensures { result ≡ list_all Names.is_name_byte bytes.now }
{
    for byte in bytes {
        if !is_name_byte(*byte) {
            return false;
        }
    }
    true
}

/// Whether a text is the name of a user: 1 to 64 of these bytes, the first a letter or a digit.
pub(crate) fn is_name(name: &[u8]) -> bool
    ensures { result ≡ Names.is_name name.now }
{
    let Some((first, others)) = name.split_first() else {
        return false;
    };
    first.is_ascii_alphanumeric() && are_name_bytes(others) && others.len() <= 63
}
