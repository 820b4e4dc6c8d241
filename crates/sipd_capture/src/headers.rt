//! Numbers, and the headers in front of a datagram.
ghost use Rattle.std.specs.Prelude.{◌≡◌, ◌<◌, ◌++◌, OnOk};
ghost use Rattle.sipd_capture.specs.Headers as Definitions;

use sip_text::Bytes;
use sip_uri::Addr;
use std::alloc::AllocError;

/// What a capture begins with: the order of the bytes, version 2.4, UTC, packets of at most 262,144 bytes, each an IP packet.
const FILE_HEAD: &[u8] =
    b"\xd4\xc3\xb2\xa1\x02\x00\x04\x00\x00\x00\x00\x00\x00\x00\x00\x00\x00\x00\x04\x00\x65\x00\x00\x00";

/// The lowest byte of a number.
fn low_byte(number: u64) -> u8
    ensures { result ≡ Definitions.low_byte number }
{
    (number % 256) as u8
}

/// Adds a number in two bytes, the higher one first.
fn push_high_first(out: &mut Bytes, number: u64) -> Result<(), AllocError>
    ensures { OnOk result (out.new ≡ out.old ++ Definitions.high_first number) }
{
    out.extend(&[low_byte(number / 256), low_byte(number)])
}

/// Adds a number in four bytes, the lowest one first.
fn push_four(out: &mut Bytes, number: u64) -> Result<(), AllocError>
    ensures { OnOk result (out.new ≡ out.old ++ Definitions.four_bytes number) }
{
    out.extend(&[
        low_byte(number),
        low_byte(number / 256),
        low_byte(number / 65_536),
        low_byte(number / 16_777_216),
    ])
}

/// Adds two such numbers.
fn push_fours(out: &mut Bytes, first: u64, second: u64) -> Result<(), AllocError>
    ensures { OnOk result (out.new ≡ out.old ++ Definitions.four_bytes first ++ Definitions.four_bytes second) }
{
    push_four(out, first)?;
    push_four(out, second)
}

/// Adds what a capture begins with.
pub(crate) fn push_file_head(out: &mut Bytes) -> Result<(), AllocError>
    ensures { OnOk result (out.new ≡ out.old ++ Definitions.file_head) }
{
    out.extend(FILE_HEAD)
}

/// Adds what stands in front of a packet of so many bytes.
fn push_packet_head(out: &mut Bytes, at: u64, length: u64) -> Result<(), AllocError>
    ensures { OnOk result (out.new ≡ out.old ++ Definitions.packet_head at length) }
{
    push_fours(out, at / 1000, at % 1000 * 1000)?;
    push_fours(out, length, length)
}

/// Two bytes as a number.
fn pair(high: u8, low: u8) -> u64
    ensures value { result ≡ Definitions.pair high low }
    ensures small { result < 65536 }
{
    256 * u64::from(high) + u64::from(low)
}

/// The sum of both halves of an address.
fn halves(ip: [u8; 4]) -> u64
    ensures value { result ≡ Definitions.halves ip }
    ensures small { result < 131072 }
{
    pair(ip[0], ip[1]) + pair(ip[2], ip[3])
}

/// A sum of numbers of two bytes with what is above them added to it.
fn folded(number: u64) -> u64
    ensures value { result ≡ Definitions.folded number }
{
    number % 65_536 + number / 65_536
}

/// The checksum of an IP header (RFC 791 3.1, RFC 1071).
fn checksum(length: u64, from: [u8; 4], to: [u8; 4]) -> u64
    ensures { result ≡ Definitions.checksum length from to }
{
    let sum = 17_664 + length % 65_536 + 16_384 + 16_401 + halves(from) + halves(to);
    65_535_u64.saturating_sub(folded(folded(sum)))
}

/// Adds an IP header of UDP, for so many bytes with it.
fn push_ip_head(out: &mut Bytes, length: u64, from: [u8; 4], to: [u8; 4]) -> Result<(), AllocError>
    ensures { OnOk result (out.new ≡ out.old ++ Definitions.ip_head length from to) }
{
    push_high_first(out, 17_664)?;
    push_high_first(out, length)?;
    out.extend(&[0, 0, 64, 0, 64, 17])?;
    push_high_first(out, checksum(length, from, to))?;
    out.extend(&from)?;
    out.extend(&to)
}

/// Adds a UDP header without a checksum, for so many bytes with it.
fn push_udp_head(out: &mut Bytes, from: u16, to: u16, length: u64) -> Result<(), AllocError>
    ensures { OnOk result (out.new ≡ out.old ++ Definitions.udp_head from to length) }
{
    push_high_first(out, u64::from(from))?;
    push_high_first(out, u64::from(to))?;
    push_high_first(out, length)?;
    out.extend(&[0, 0])
}

/// Adds a datagram of a moment, with all that stands in front of it.
pub(crate) fn push_frame(
    out: &mut Bytes,
    at: u64,
    from: Addr,
    to: Addr,
    bytes: &[u8],
) -> Result<(), AllocError>
    ensures { OnOk result (out.new ≡ out.old ++ Definitions.frame at from to bytes.now) }
{
    let length = bytes.len() as u64;
    push_packet_head(out, at, length + 28)?;
    push_ip_head(out, length + 28, from.ip, to.ip)?;
    push_udp_head(out, from.port, to.port, length + 8)?;
    out.extend(bytes)
}
