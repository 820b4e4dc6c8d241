ghost use Rattle.std.specs.Prelude.{◌≡◌, ◌≤◌, ◌<◌, length, true, false, IfSome, MatchOption};
ghost use Rattle.std.specs.Char.{digit_value};
ghost use Rattle.sip_digest.specs.HexNumber.{is_hex_digit, hex_number_of, IsBelowDigits};

/// The value of a hexadecimal digit, in either case.
#[inline]
fn hex_digit(byte: u8) -> Option<u8>
    ensures { MatchOption result (is_hex_digit byte ≡ false) (λ n. (n < 16) × (n ≡ digit_value byte) × (is_hex_digit byte ≡ true)) }
{
    match byte {
        b'0'..=b'9' => Some(byte - b'0'),
        b'a'..=b'f' => Some(byte - b'a' + 10),
        b'A'..=b'F' => Some(byte - b'A' + 10),
        _ => None,
    }
}

/// The number that hexadecimal digits write, in either case.
#[tactic(auto, using(crate::proofs::HexNumbers::hex_is, crate::proofs::HexNumbers::one_more, crate::proofs::HexNumbers::fits, std::proofs::lemmas::List::at_drop_more, std::proofs::lemmas::List::drop_all))]
pub fn hex_number(digits: &[u8]) -> Option<u128>
    requires { length digits.now ≤ 32 }
    ensures number { result ≡ hex_number_of digits.now }
    ensures below { IfSome result (λ number. IsBelowDigits number (length digits.now)) }
{
    let mut number: u128 = 0;
    for digit in digits {
        let value = hex_digit(*digit)?;
        number = number * 16 + u128::from(value);
    }
    Some(number)
}
