//! Texts in HTML.
ghost use Rattle.std.specs.Prelude.{◌≡◌, ◌++◌, OnOk};
ghost use Rattle.sipd_report.specs.Html as Definitions;

use sip_text::Bytes;
use std::alloc::AllocError;

/// Adds a byte of a text.
fn put_escaped_byte(text: &mut Bytes, byte: u8) -> Result<(), AllocError>
    ensures { OnOk result (text.new ≡ text.old ++ Definitions.escaped_byte byte) }
{
    if byte == b'&' {
        text.extend(b"&amp;")
    } else if byte == b'<' {
        text.extend(b"&lt;")
    } else if byte == b'>' {
        text.extend(b"&gt;")
    } else if byte == b'"' {
        text.extend(b"&quot;")
    } else if byte == b'\'' {
        text.extend(b"&#39;")
    } else {
        text.push(byte)
    }
}

/// Adds a text, in which what could be markup is written by its name or number.
pub fn put_escaped(text: &mut Bytes, more: &[u8]) -> Result<(), AllocError>
    ensures { OnOk result (text.new ≡ text.old ++ Definitions.escaped more.now) }
{
    for byte in more {
        put_escaped_byte(text, *byte)?;
    }
    Ok(())
}
