ghost use Rattle.std.specs.Prelude.{◌≡◌, ◌++◌, IfOk, OnOk};
ghost use Rattle.sip_edit_response.specs.Tags;

use sip_text::{Buffer, Bytes, hex_text};
use std::alloc::{AllocError, Global};

/// The most bytes of a To tag of this server's: 16 hexadecimal digits, and a number behind a `.`.
const LONGEST_TAG: usize = 37;

/// What a To tag of this server's is made of: the boot word of a run of the server, and the number of the datagram that brought
/// the request.
#[derive(Clone, Copy)]
pub struct ToTag {
    pub boot: u64,
    pub number: u64,
}

/// Adds a To tag.
pub(crate) fn put_tag(out: &mut Buffer, tag: ToTag) -> Result<(), AllocError>
    ensures { OnOk result (out.new ≡ out.old ++ Tags.to_tag tag.boot tag.number) }
{
    out.extend(hex_text(tag.boot).as_slice())?;
    out.extend(b".")?;
    out.push_decimal(tag.number)
}

/// The To tag of the answers to the request that the datagram with this number brought, of the run of the
/// server that began with this boot word (RFC 3261 19.3). `AllocError` is the only refusal.
pub fn to_tag(alloc: Global, boot: u64, number: u64) -> Result<Bytes, AllocError>
    ensures { IfOk result (λ tag. tag ≡ Tags.to_tag boot number) }
{
    let mut tag = Buffer::with_room(alloc, LONGEST_TAG)?;
    put_tag(&mut tag, ToTag { boot, number })?;
    Ok(tag.into_bytes())
}
