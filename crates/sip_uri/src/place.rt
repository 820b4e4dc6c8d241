ghost use Rattle.std.specs.Prelude.{ℕ, List, Option, option_map};
ghost use Rattle.std.specs.Option.{ok_or};
ghost use Rattle.sip_uri.specs.Reading.{Gives};
ghost use Rattle.sip_uri.specs.declared.error.UriError.TheVariants.{Syntax};

use crate::error::UriError;
use crate::parts::copy_part;
use sip_text::Bytes;
use std::alloc::Global;

/// A host, and perhaps the digits of a port behind it, as a value's own, if there is one.
pub(crate) fn read_place(
    alloc: Global,
    place: Option<(&[u8], Option<&[u8]>)>,
) -> Result<(Bytes, Option<Bytes>), UriError>
    ensures { Gives {Y = List ℕ × Option (List ℕ)} (λ x. (x.0, x.1)) result
        (ok_or (option_map (λ x. (x.0.now, option_map (λ digits. digits.now) x.1)) place.entry) Syntax) }
{
    let (host, port) = place.ok_or(UriError::Syntax)?;
    let host = Bytes::copy(alloc, host)?;
    let port = copy_part(alloc, port)?;
    Ok((host, port))
}
