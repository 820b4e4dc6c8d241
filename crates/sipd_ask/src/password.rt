ghost use Rattle.std.specs.Prelude.{◌≡◌, IfOk};
ghost use Rattle.sipd_ask.specs.Password.{ReadsByte, ReadsLine, ReadsPassword};
ghost use Rattle.sipd_ask.specs.User as Definitions;

use sip_text::Bytes;
use std::alloc::Global;
use std::io;
use std::io::Read;

/// How many bytes of a line are read at most: those of the longest password that is taken, a CR, and one more. A line of
/// that many holds no password that is taken, whatever follows.
const LONGEST_LINE: usize = 1_026;

/// A text without the CR at its end, if one stands there.
#[tactic(auto, using(crate::proofs::Lines::behind_cr, crate::proofs::Lines::behind_other, crate::proofs::Lines::of_none))]
fn without_cr(line: &[u8]) -> &[u8]
    ensures { result.now ≡ Definitions.without_cr line.now }
{
    match line.split_last() {
        Some((b'\r', front)) => front,
        _ => line,
    }
}

/// The next byte of an input, if there is one.
fn next_byte<I: Read>(input: &mut I) -> io::Result<Option<u8>>
    ensures { IfOk result (λ byte. ReadsByte (I.remaining input.old) (I.remaining input.new) byte) }
{
    let mut byte = [0u8; 1];
    if input.read(&mut byte)? == 0 {
        return Ok(None);
    }
    Ok(Some(byte[0]))
}

/// The first line of an input, without its LF, or the first 1,026 bytes of it; nothing behind these is read.
#[tactic(auto, using(crate::proofs::PasswordLines::at_limit))]
fn line_in<I: Read>(alloc: Global, input: &mut I) -> io::Result<Vec<u8>>
    ensures { IfOk result (λ line. ReadsLine (I.remaining input.old) line.items) }
{
    let mut line = Vec::new(alloc);
    for _ in 0..LONGEST_LINE {
        match next_byte(input)? {
            None => return Ok(line),
            Some(byte) => {
                if byte == b'\n' {
                    return Ok(line);
                }
                line.push(byte)?;
            }
        }
    }
    Ok(line)
}

/// The password that an input holds: its first line, without the LF and a CR before that. No more than 1,026 bytes are read,
/// and of a longer line these: `user_table` refuses it as it refuses the whole line (`laws::read_so_far`).
///
/// Fails as the input does, and for want of memory.
pub fn password_in<I: Read>(alloc: Global, input: &mut I) -> io::Result<Bytes>
    ensures { IfOk result (λ password. ReadsPassword (I.remaining input.old) password) }
{
    let line = line_in(alloc, input)?;
    Ok(Bytes::copy(alloc, without_cr(line.as_slice()))?)
}
