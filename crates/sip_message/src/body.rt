ghost use Rattle.std.specs.Prelude.{◌≡◌};
ghost use Rattle.sip_message_fields.specs.Slice.{IsCutFrom};
ghost use Rattle.sip_message.specs.Body.{body_of, is_short};

use sip_message_fields::slice_before;

/// The body of some length, of what follows the empty line (RFC 3261 18.3).
pub(crate) fn body_part(length: Option<u64>, rest: &[u8]) -> &[u8]
    ensures body { result.now ≡ body_of length rest.now }
    ensures cut { IsCutFrom rest.entry result }
{
    let Some(length) = length else {
        return rest;
    };
    if (rest.len() as u64) < length {
        return rest;
    }
    slice_before(rest, length as usize)
}

/// Whether what follows the empty line is shorter than the length that is written.
pub(crate) fn is_cut_short(length: Option<u64>, rest: &[u8]) -> bool
    ensures { result ≡ is_short length rest.now }
{
    let Some(length) = length else {
        return false;
    };
    (rest.len() as u64) < length
}
