ghost use Rattle.std.specs.Prelude.{◌≡◌, IfOk, Some, None};
ghost use Rattle.hex.specs.Hex.{encode_lower};
ghost use Rattle.sip_journal.specs.RecordHead.{digest_in, head_of, head_text, word_in};

use crate::record_mark::{RecordMark, mark_in};
use hex::{decode_to_slice, encode_to_slice};
use sip_text::{Buffer, hex_text, plain_decimal, split_once};
use std::alloc::{AllocError, Global};

/// The room for the longest first line.
const ROOM: usize = 110;

/// What the first line of a record says: what became of it, the word and the first number that the server started with, and the
/// digest of its configuration (SHA-256).
#[derive(Clone, Copy)]
pub struct RecordHead {
    pub mark: RecordMark,
    pub word: u64,
    pub first: u64,
    pub digest: [u8; 32],
}

/// The digits of a digest.
fn digest_text(digest: &[u8; 32]) -> [u8; 64]
    ensures { result ≡ encode_lower digest.now }
{
    let mut text = [0u8; 64];
    let done = encode_to_slice(digest.as_slice(), &mut text);
    prove!(done.is_ok());
    text
}

/// The word that 16 hexadecimal digits write.
fn word_in(digits: &[u8]) -> Option<u64>
    ensures { result ≡ word_in digits.now }
{
    let mut bytes = [0u8; 8];
    match decode_to_slice(digits, &mut bytes) {
        Ok(()) => Some(u64::from_be_bytes(bytes)),
        Err(_) => None,
    }
}

/// The digest that 64 hexadecimal digits write.
fn digest_in(digits: &[u8]) -> Option<[u8; 32]>
    ensures { result ≡ digest_in digits.now }
{
    let mut bytes = [0u8; 32];
    match decode_to_slice(digits, &mut bytes) {
        Ok(()) => Some(bytes),
        Err(_) => None,
    }
}

/// The first line of a record: `MARK WORD FIRST DIGEST` and LF, the mark in six bytes (`record` of a whole one), the word in 16
/// hexadecimal digits in lower case, the digest in 64. `AllocError` is the only refusal.
pub fn head_text(alloc: Global, head: &RecordHead) -> Result<Buffer, AllocError>
    ensures { IfOk result (λ text. text ≡ head_text head.now) }
{
    let mut text = Buffer::with_room(alloc, ROOM)?;
    text.extend(&head.mark.front())?;
    text.extend(&hex_text(head.word))?;
    text.extend(b" ")?;
    text.push_decimal(head.first)?;
    text.extend(b" ")?;
    text.extend(&digest_text(&head.digest))?;
    text.extend(b"\n")?;
    Ok(text)
}

/// What a record's first line says, without its LF; nothing where the line is none. Digits may be in either case.
pub fn read_head(line: &[u8]) -> Option<RecordHead>
    ensures { result ≡ head_of line.now }
{
    let (mark, rest) = mark_in(line)?;
    let (word, rest) = split_once(rest, b' ')?;
    let (first, digest) = split_once(rest, b' ')?;
    let word = word_in(word)?;
    let first = plain_decimal(first)?;
    let digest = digest_in(digest)?;
    Some(RecordHead {
        mark,
        word,
        first,
        digest,
    })
}
