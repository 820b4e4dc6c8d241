ghost use Rattle.std.specs.Prelude.{◌≡◌, ◌++◌, [], IfOk, OnOk};
ghost use Rattle.std.specs.Str.{IsUtf8};
ghost use Rattle.sipd_config_faults.specs.Encoding.{encoding_text, first_text, found_text, is_marked};

use crate::line_number::line_at;
use sip_text::Bytes;
use std::alloc::{AllocError, Global};

/// The two bytes by which files in UTF-16 begin, the smaller half of a number first.
const SMALLER_FIRST: &[u8] = &[0xFF, 0xFE];
/// The same, the greater half first.
const GREATER_FIRST: &[u8] = &[0xFE, 0xFF];

/// Adds which byte is the first that is no UTF-8, both counted from 1.
fn put_byte(text: &mut Bytes, bytes: &[u8], place: usize) -> Result<(), AllocError>
    ensures { OnOk result (text.new ≡ text.old ++ first_text bytes.now place) }
{
    text.extend(b"line ")?;
    text.push_decimal(line_at(bytes, place) as u64)?;
    text.extend(b": not UTF-8: byte ")?;
    text.push_decimal((place as u64).saturating_add(1))?;
    text.extend(b" of the file")
}

/// Whether bytes begin with the mark of UTF-16.
fn is_marked(bytes: &[u8]) -> bool
    ensures { result ≡ is_marked bytes.now }
{
    bytes.starts_with(SMALLER_FIRST) || bytes.starts_with(GREATER_FIRST)
}

/// Adds what stands in a file in place of UTF-8, whose first byte that is none stands at a place.
fn put_found(text: &mut Bytes, bytes: &[u8], place: usize) -> Result<(), AllocError>
    ensures { OnOk result (text.new ≡ text.old ++ found_text bytes.now place) }
{
    if is_marked(bytes) {
        text.extend(b"line 1: the file is in UTF-16, by its first two bytes")
    } else {
        put_byte(text, bytes, place)
    }
}

/// Of a file that isn't UTF-8, as a line: that it is UTF-16, if it begins with a mark of that, or else the line and the
/// place of the first byte that can't stand there; empty where the file is UTF-8. `AllocError` is the only
/// refusal.
pub fn explain_encoding(alloc: Global, bytes: &[u8]) -> Result<Bytes, AllocError>
    ensures none { IsUtf8 bytes.now → IfOk result (λ text. text ≡ []) }
    ensures told { ¬ (IsUtf8 bytes.now) → IfOk result (λ text. text ≡ encoding_text bytes.now) }
{
    let mut text = Bytes::new(alloc);
    let Err(e) = str::from_utf8(bytes) else {
        return Ok(text);
    };
    put_found(&mut text, bytes, e.valid_up_to())?;
    text.extend(b"; wanted: a text file in UTF-8\n")?;
    Ok(text)
}
