ghost use Rattle.std.specs.Prelude.{◌≤◌, length};

use memchr::memchr;

/// How many bytes of a line there are room for, up to its LF; whether that is one of them.
pub(crate) fn part_of_line(bytes: &[u8], room: usize) -> (usize, bool)
    ensures { (result.0 ≤ length bytes.now) × (result.0 ≤ room) }
{
    let most = bytes.len().min(room);
    match memchr(b'\n', &bytes[..most]) {
        Some(at) => (at + 1, true),
        None => (most, false),
    }
}
