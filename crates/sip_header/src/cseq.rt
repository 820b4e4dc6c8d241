ghost use Rattle.std.specs.Prelude.{◌≡◌};
ghost use Rattle.sip_header.specs.CSeq.{cseq_of};

use sip_text::{Text, decimal, is_token, split_word};

/// What a CSeq says.
#[derive(Drop)]
pub struct CSeq<'a> {
    /// Below 2^31.
    pub number: u32,
    pub method: Text<'a>,
}

/// What the value of a CSeq says: a number below 2^31, one or more blanks and a method (RFC 3261 20.16). None
/// where it is malformed.
pub fn cseq_of(value: &[u8]) -> Option<CSeq<'_>>
    ensures { result ≡ cseq_of value.now }
{
    let (digits, method) = split_word(value);
    let number = decimal(digits)?;
    if number >= 0x8000_0000 {
        return None;
    }
    if !is_token(method) {
        return None;
    }
    Some(CSeq {
        number: number as u32,
        method: Text::new(method),
    })
}
