ghost use Rattle.std.specs.Prelude.{◌≡◌, ◌+◌, length, decimal, min, ◌-◌, ◌^◌};

use itoa::Buffer;

/// The length of a decimal number.
#[tactic(auto, using(std::proofs::lemmas::Fmt::decimal_digit))]
fn number_length(number: u64) -> usize
    ensures { result ≡ length (decimal number) }
{
    if number < 10 {
        return 1;
    }
    let mut buffer = Buffer::new();
    buffer.format(number).len()
}

/// The length of a request line of these parts, or the greatest `usize` where it is longer.
pub(crate) fn request_length(method: &[u8], uri: &[u8], version: &[u8]) -> usize
    ensures { result ≡ min (length method.now + length uri.now + length version.now + 2) (2 ^ 64 - 1) }
{
    method
        .len()
        .saturating_add(uri.len())
        .saturating_add(version.len())
        .saturating_add(b"  ".len())
}

/// The length of a status line of these parts, or the greatest `usize` where it is longer.
pub(crate) fn status_length(code: u16, reason: &[u8]) -> usize
    ensures { result ≡ min (length (decimal code) + length reason.now + 9) (2 ^ 64 - 1) }
{
    number_length(u64::from(code))
        .saturating_add(reason.len())
        .saturating_add(b"SIP/2.0  ".len())
}

/// The length of a field of these parts with its CRLF, or the greatest `usize` where it is longer.
pub(crate) fn line_length(name: &[u8], value: &[u8]) -> usize
    ensures { result ≡ min (length name.now + length value.now + 4) (2 ^ 64 - 1) }
{
    (name.len() + value.len()).saturating_add(b": \r\n".len())
}

/// The length of what stands behind the fields of a message with a body of this length, or the greatest `usize` where it is
/// longer.
pub(crate) fn rest_length(body: usize) -> usize
    ensures { result ≡ min (length (decimal body) + body + 20) (2 ^ 64 - 1) }
{
    number_length(body as u64)
        .saturating_add(body)
        .saturating_add(b"Content-Length: \r\n\r\n".len())
}

/// The length of a message whose start line, fields and body are so long, or the greatest `usize` where it is
/// longer.
pub(crate) fn whole_length(start: usize, fields: usize, body: usize) -> usize
    ensures { result ≡ min (start + fields + length (decimal body) + body + 22) (2 ^ 64 - 1) }
{
    start
        .saturating_add(fields)
        .saturating_add(b"\r\n".len())
        .saturating_add(rest_length(body))
}
