ghost use Rattle.std.specs.Prelude.{◌≡◌, IfSome};
ghost use Rattle.sip_message_fields.specs.FieldName.{spelling};
ghost use Rattle.sip_message_fields.specs.KnownName.{field_name_of};

use crate::known_names::KnownName;
use sip_text::same_bytes;

/// The first of some names whose full spelling a name is. None says nothing.
#[inline(always)]
fn among(name: &[u8], names: &[KnownName]) -> Option<KnownName>
    ensures { IfSome result (λ found. name.now ≡ spelling (field_name_of found)) }
{
    for known in names {
        if same_bytes(name, known.spelling()) {
            return Some(*known);
        }
    }
    None
}

/// A name, if it is the full spelling of it. None says nothing.
#[inline(always)]
fn only(name: &[u8], known: KnownName) -> Option<KnownName>
    ensures { IfSome result (λ found. name.now ≡ spelling (field_name_of found)) }
{
    if same_bytes(name, known.spelling()) {
        return Some(known);
    }
    None
}

/// Of two names the one whose full spelling a name may be by its first letter. None says nothing.
#[inline(always)]
fn by_letter(name: &[u8], letter: u8, first: KnownName, other: KnownName) -> Option<KnownName>
    ensures { IfSome result (λ found. name.now ≡ spelling (field_name_of found)) }
{
    let (begin, _) = name.split_first()?;
    if *begin == letter {
        return only(name, first);
    }
    only(name, other)
}

/// The name whose full spelling has seven letters and is this name. None says nothing.
#[inline(always)]
fn of_seven(name: &[u8]) -> Option<KnownName>
    ensures { IfSome result (λ found. name.now ≡ spelling (field_name_of found)) }
{
    let (begin, _) = name.split_first()?;
    match *begin {
        b'C' => among(name, &[KnownName::CallId, KnownName::Contact]),
        b'E' => only(name, KnownName::Expires),
        b'R' => only(name, KnownName::Require),
        b'S' => only(name, KnownName::Subject),
        b'W' => only(name, KnownName::Warning),
        _ => None,
    }
}

/// The name whose full spelling has twelve letters and is this name. None says nothing.
#[inline(always)]
fn of_twelve(name: &[u8]) -> Option<KnownName>
    ensures { IfSome result (λ found. name.now ≡ spelling (field_name_of found)) }
{
    let (begin, _) = name.split_first()?;
    match *begin {
        b'M' => only(name, KnownName::MaxForwards),
        b'C' => only(name, KnownName::ContentType),
        b'R' => only(name, KnownName::RecordRoute),
        _ => None,
    }
}

/// The name whose full spelling a name is, letter by letter, as most are. None says nothing.
#[inline(always)]
pub(crate) fn spelled_in_full(name: &[u8]) -> Option<KnownName>
    ensures { IfSome result (λ found. name.now ≡ spelling (field_name_of found)) }
{
    match name.len() {
        2 => only(name, KnownName::To),
        3 => only(name, KnownName::Via),
        4 => by_letter(name, b'F', KnownName::From, KnownName::CSeq),
        5 => only(name, KnownName::Route),
        7 => of_seven(name),
        9 => by_letter(name, b'S', KnownName::Supported, KnownName::Timestamp),
        11 => by_letter(name, b'U', KnownName::Unsupported, KnownName::MinExpires),
        12 => of_twelve(name),
        13 => by_letter(
            name,
            b'A',
            KnownName::Authorization,
            KnownName::ProxyRequire,
        ),
        14 => only(name, KnownName::ContentLength),
        16 => by_letter(
            name,
            b'W',
            KnownName::WwwAuthenticate,
            KnownName::ContentEncoding,
        ),
        18 => only(name, KnownName::ProxyAuthenticate),
        19 => only(name, KnownName::ProxyAuthorization),
        _ => None,
    }
}
