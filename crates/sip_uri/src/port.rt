ghost use Rattle.std.specs.Prelude.{◌≡◌, ◌≤◌, Some, length, take, option_map, IfSome};
ghost use Rattle.sip_uri.specs.Port;

/// A number, if it may be a port.
#[inline]
fn in_port_range(number: u32) -> Option<u16>
    requires { number ≤ 65535 }
    ensures { result ≡ Port.in_port_range number }
{
    if number == 0 {
        None
    } else {
        Some(number as u16)
    }
}

/// The number that a port's digits write, if it is one of 1 to 65535 (RFC 3261 25.1, `port`). Takes
/// no memory.
#[tactic(auto, using(crate::proofs::Ports::port_is, std::proofs::lemmas::List::at_drop_more, std::proofs::lemmas::List::drop_all))]
pub fn port_value(digits: &[u8]) -> Option<u16>
    ensures { result ≡ Port.port_value digits.now }
{
    let mut number: u32 = 0;
    for digit in digits {
        if !digit.is_ascii_digit() {
            return None;
        }
        number = number * 10 + u32::from(*digit - b'0');
        if 65_535 < number {
            return None;
        }
    }
    in_port_range(number)
}

/// How many digits stand at the front of a text, and the number of the port that they write. None says nothing.
#[inline(never)]
#[tactic(auto, using(crate::proofs::Ports::at_front, crate::proofs::Ports::port_written))]
pub(crate) fn port_at(text: &[u8]) -> Option<(usize, u16)>
    ensures within { IfSome result (λ x. x.0 ≤ length text.now) }
    ensures number { IfSome result (λ x. Port.port_value (take x.0 text.now) ≡ Some x.1) }
{
    let mut number: u32 = 0;
    for at in 0..text.len() {
        if !text[at].is_ascii_digit() {
            return Some((at, in_port_range(number)?));
        }
        number = number * 10 + u32::from(text[at] - b'0');
        if 65_535 < number {
            return None;
        }
    }
    Some((text.len(), in_port_range(number)?))
}

/// The digits of the port behind a host and their number, if one is written there and nothing else.
#[inline]
pub(crate) fn port_behind(rest: &[u8]) -> Option<Option<(&[u8], u16)>>
    ensures digits { option_map (λ port. option_map (λ x. x.0.now) port) result ≡ Port.port_of rest.now }
    ensures number { IfSome result (λ port. IfSome port (λ x. Port.port_value x.0.now ≡ Some x.1)) }
{
    let Some((first, digits)) = rest.split_first() else {
        return Some(None);
    };
    if *first != b':' {
        return None;
    }
    let number = port_value(digits)?;
    Some(Some((digits, number)))
}
