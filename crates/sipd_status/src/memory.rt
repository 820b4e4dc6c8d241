//! How much memory a process has, as the kernel says it.
ghost use Rattle.std.specs.Prelude.{◌≡◌, option_map};
ghost use Rattle.sipd_status.specs.Memory as Definitions;

use sip_text::{plain_decimal, split_once, without_front_blanks};

/// What stands behind a front of a line, where the line begins with it.
fn behind<'a>(line: &'a [u8], front: &[u8]) -> Option<&'a [u8]>
    ensures { option_map (λ rest. rest.now) result ≡ Definitions.behind front.now line.now }
{
    if line.starts_with(front) {
        Some(&line[front.len()..])
    } else {
        None
    }
}

/// How many bytes a line says, where it says that.
fn bytes_of(line: &[u8]) -> Option<u64>
    ensures { result ≡ Definitions.bytes_of line.now }
{
    let rest = behind(line, b"VmRSS:")?;
    let (number, _) = split_once(without_front_blanks(rest), b' ')?;
    let kilobytes = plain_decimal(number)?;
    Some(kilobytes.saturating_mul(1024))
}

/// How many bytes of memory a process has, by what the kernel says of it (`/proc/self/status`, proc(5)): the first of its lines that says that.
#[tactic(auto, using(crate::proofs::MemoryLines::said_at_end))]
pub fn memory_said(text: &[u8]) -> Option<u64>
    ensures { result ≡ Definitions.memory_said text.now }
{
    let mut rest = text;
    while let Some((line, rest_behind)) = split_once(rest, b'\n') {
        match bytes_of(line) {
            Some(bytes) => return Some(bytes),
            None => rest = rest_behind,
        }
    }
    bytes_of(rest)
}
