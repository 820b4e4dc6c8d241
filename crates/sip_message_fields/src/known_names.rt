//! Which names of fields this project knows: their spellings, and their compact forms (RFC 3261 7.3.3).
ghost use Rattle.std.specs.Prelude.{◌≡◌, true, [], ◌∷◌, length, MatchOption};
ghost use Rattle.sip_message_fields.specs.FieldName.{spelling, name_of, is_length, is_list, is_same_name};
ghost use Rattle.sip_message_fields.specs.KnownName.{field_name_of, known_of, name_seen};
ghost use Rattle.sip_message_fields.specs.Spellings.{is_spelled, name_of_length};
ghost use Rattle.sip_message_fields.specs.declared.field_name.FieldName.TheVariants.{Other};

use crate::field_name::FieldName;
use sip_text::same_no_case;

/// The names of fields that this project knows (RFC 3261 20).
#[derive(Clone, Copy, PartialEq, Eq)]
pub enum KnownName {
    Via,
    From,
    To,
    CallId,
    CSeq,
    Contact,
    MaxForwards,
    ContentLength,
    ContentType,
    ContentEncoding,
    Subject,
    Supported,
    Route,
    RecordRoute,
    Expires,
    Require,
    ProxyRequire,
    Unsupported,
    Authorization,
    ProxyAuthorization,
    WwwAuthenticate,
    ProxyAuthenticate,
    Warning,
    MinExpires,
    Timestamp,
}

/// Only where two names are one.
pub(crate) fn same_known(left: KnownName, right: KnownName) -> bool
    ensures { result ≡ true → left ≡ right }
{
    left == right
}

/// Whether a name is spelled so, without case.
#[tactic(auto, unfolding(crate::specs::Spellings::is_spelled))]
fn is_spelled(name: &[u8], spelling: &[u8]) -> bool
    ensures { result ≡ is_spelled name.now spelling.now }
{
    same_no_case(name, spelling)
}

/// The name whose compact form is this letter (RFC 3261 7.3.3).
#[tactic(auto, unfolding(crate::specs::Spellings::name_of_length, crate::specs::Spellings::is_spelled))]
fn name_of_letter(letter: u8) -> Option<KnownName>
    ensures { MatchOption result (name_of_length 1 (letter ∷ []) ≡ Other (letter ∷ []))
        (λ known. field_name_of known ≡ name_of_length 1 (letter ∷ [])) }
{
    match letter.to_ascii_lowercase() {
        b'v' => Some(KnownName::Via),
        b'f' => Some(KnownName::From),
        b't' => Some(KnownName::To),
        b'i' => Some(KnownName::CallId),
        b'm' => Some(KnownName::Contact),
        b'l' => Some(KnownName::ContentLength),
        b'c' => Some(KnownName::ContentType),
        b'e' => Some(KnownName::ContentEncoding),
        b's' => Some(KnownName::Subject),
        b'k' => Some(KnownName::Supported),
        _ => None,
    }
}

/// The name whose spelling has two letters.
#[tactic(auto, unfolding(crate::specs::Spellings::name_of_length))]
fn name_of_two(name: &[u8]) -> Option<KnownName>
    ensures { MatchOption result (name_of_length 2 name.now ≡ Other name.now) (λ known. field_name_of known ≡ name_of_length 2 name.now) }
{
    if is_spelled(name, b"To") {
        Some(KnownName::To)
    } else {
        None
    }
}

/// The name whose spelling has three letters.
fn name_of_three(name: &[u8]) -> Option<KnownName>
    ensures { MatchOption result (name_of_length 3 name.now ≡ Other name.now) (λ known. field_name_of known ≡ name_of_length 3 name.now) }
{
    if is_spelled(name, b"Via") {
        Some(KnownName::Via)
    } else {
        None
    }
}

/// The name whose spelling has four letters.
#[tactic(auto, unfolding(crate::specs::Spellings::name_of_length))]
fn name_of_four(name: &[u8]) -> Option<KnownName>
    ensures { MatchOption result (name_of_length 4 name.now ≡ Other name.now) (λ known. field_name_of known ≡ name_of_length 4 name.now) }
{
    if is_spelled(name, b"From") {
        Some(KnownName::From)
    } else if is_spelled(name, b"CSeq") {
        Some(KnownName::CSeq)
    } else {
        None
    }
}

/// The name whose spelling has five letters.
#[tactic(auto, unfolding(crate::specs::Spellings::name_of_length))]
fn name_of_five(name: &[u8]) -> Option<KnownName>
    ensures { MatchOption result (name_of_length 5 name.now ≡ Other name.now) (λ known. field_name_of known ≡ name_of_length 5 name.now) }
{
    if is_spelled(name, b"Route") {
        Some(KnownName::Route)
    } else {
        None
    }
}

/// The name whose spelling has seven letters.
#[tactic(auto, unfolding(crate::specs::Spellings::name_of_length))]
fn name_of_seven(name: &[u8]) -> Option<KnownName>
    ensures { MatchOption result (name_of_length 7 name.now ≡ Other name.now) (λ known. field_name_of known ≡ name_of_length 7 name.now) }
{
    if is_spelled(name, b"Call-ID") {
        Some(KnownName::CallId)
    } else if is_spelled(name, b"Contact") {
        Some(KnownName::Contact)
    } else if is_spelled(name, b"Subject") {
        Some(KnownName::Subject)
    } else if is_spelled(name, b"Expires") {
        Some(KnownName::Expires)
    } else if is_spelled(name, b"Require") {
        Some(KnownName::Require)
    } else if is_spelled(name, b"Warning") {
        Some(KnownName::Warning)
    } else {
        None
    }
}

/// The name whose spelling has nine letters.
#[tactic(auto, unfolding(crate::specs::Spellings::name_of_length))]
fn name_of_nine(name: &[u8]) -> Option<KnownName>
    ensures { MatchOption result (name_of_length 9 name.now ≡ Other name.now) (λ known. field_name_of known ≡ name_of_length 9 name.now) }
{
    if is_spelled(name, b"Supported") {
        Some(KnownName::Supported)
    } else if is_spelled(name, b"Timestamp") {
        Some(KnownName::Timestamp)
    } else {
        None
    }
}

/// The name whose spelling has eleven letters.
#[tactic(auto, unfolding(crate::specs::Spellings::name_of_length))]
fn name_of_eleven(name: &[u8]) -> Option<KnownName>
    ensures { MatchOption result (name_of_length 11 name.now ≡ Other name.now) (λ known. field_name_of known ≡ name_of_length 11 name.now) }
{
    if is_spelled(name, b"Unsupported") {
        Some(KnownName::Unsupported)
    } else if is_spelled(name, b"Min-Expires") {
        Some(KnownName::MinExpires)
    } else {
        None
    }
}

/// The name whose spelling has twelve letters.
fn name_of_twelve(name: &[u8]) -> Option<KnownName>
    ensures { MatchOption result (name_of_length 12 name.now ≡ Other name.now) (λ known. field_name_of known ≡ name_of_length 12 name.now) }
{
    if is_spelled(name, b"Content-Type") {
        Some(KnownName::ContentType)
    } else if is_spelled(name, b"Max-Forwards") {
        Some(KnownName::MaxForwards)
    } else if is_spelled(name, b"Record-Route") {
        Some(KnownName::RecordRoute)
    } else {
        None
    }
}

/// The name whose spelling has thirteen letters.
#[tactic(auto, unfolding(crate::specs::Spellings::name_of_length))]
fn name_of_thirteen(name: &[u8]) -> Option<KnownName>
    ensures { MatchOption result (name_of_length 13 name.now ≡ Other name.now) (λ known. field_name_of known ≡ name_of_length 13 name.now) }
{
    if is_spelled(name, b"Proxy-Require") {
        Some(KnownName::ProxyRequire)
    } else if is_spelled(name, b"Authorization") {
        Some(KnownName::Authorization)
    } else {
        None
    }
}

/// The name whose spelling has fourteen letters.
#[tactic(auto, unfolding(crate::specs::Spellings::name_of_length))]
fn name_of_fourteen(name: &[u8]) -> Option<KnownName>
    ensures { MatchOption result (name_of_length 14 name.now ≡ Other name.now) (λ known. field_name_of known ≡ name_of_length 14 name.now) }
{
    if is_spelled(name, b"Content-Length") {
        Some(KnownName::ContentLength)
    } else {
        None
    }
}

/// The name whose spelling has sixteen letters.
#[tactic(auto, unfolding(crate::specs::Spellings::name_of_length))]
fn name_of_sixteen(name: &[u8]) -> Option<KnownName>
    ensures { MatchOption result (name_of_length 16 name.now ≡ Other name.now) (λ known. field_name_of known ≡ name_of_length 16 name.now) }
{
    if is_spelled(name, b"Content-Encoding") {
        Some(KnownName::ContentEncoding)
    } else if is_spelled(name, b"WWW-Authenticate") {
        Some(KnownName::WwwAuthenticate)
    } else {
        None
    }
}

/// The name whose spelling has eighteen letters.
#[tactic(auto, unfolding(crate::specs::Spellings::name_of_length))]
fn name_of_eighteen(name: &[u8]) -> Option<KnownName>
    ensures { MatchOption result (name_of_length 18 name.now ≡ Other name.now) (λ known. field_name_of known ≡ name_of_length 18 name.now) }
{
    if is_spelled(name, b"Proxy-Authenticate") {
        Some(KnownName::ProxyAuthenticate)
    } else {
        None
    }
}

/// The name whose spelling has nineteen letters.
#[tactic(auto, unfolding(crate::specs::Spellings::name_of_length))]
fn name_of_nineteen(name: &[u8]) -> Option<KnownName>
    ensures { MatchOption result (name_of_length 19 name.now ≡ Other name.now) (λ known. field_name_of known ≡ name_of_length 19 name.now) }
{
    if is_spelled(name, b"Proxy-Authorization") {
        Some(KnownName::ProxyAuthorization)
    } else {
        None
    }
}

/// The name that is written so, compared with those of its length alone.
#[tactic(auto, using(crate::proofs::Spelled::no_such_length))]
fn name_of_its_length(name: &[u8]) -> Option<KnownName>
    ensures { MatchOption result (name_of_length (length name.now) name.now ≡ Other name.now)
        (λ known. field_name_of known ≡ name_of_length (length name.now) name.now) }
{
    match name.len() {
        // No compact form is written as an empty one, and this is the first name without one.
        0 => Some(KnownName::CSeq),
        1 => name_of_letter(name[0]),
        2 => name_of_two(name),
        3 => name_of_three(name),
        4 => name_of_four(name),
        5 => name_of_five(name),
        7 => name_of_seven(name),
        9 => name_of_nine(name),
        11 => name_of_eleven(name),
        12 => name_of_twelve(name),
        13 => name_of_thirteen(name),
        14 => name_of_fourteen(name),
        16 => name_of_sixteen(name),
        18 => name_of_eighteen(name),
        19 => name_of_nineteen(name),
        _ => None,
    }
}

impl KnownName {
    /// The name that is written so, in full or in its compact form, in any case (RFC 3261 7.3.1 and 7.3.3), if it is
    /// one of these. Takes no memory.
    #[tactic(auto, using(crate::proofs::Spelled::by_length))]
    pub fn from_bytes(name: &[u8]) -> Option<Self>
        ensures { MatchOption result (name_of name.now ≡ Other name.now) (λ known. field_name_of known ≡ name_of name.now) }
    {
        name_of_its_length(name)
    }

    /// Which of them a name of a field is.
    #[tactic(auto, using(crate::proofs::KnownNames::seen_again))]
    pub fn of(name: &FieldName) -> Option<Self>
        ensures known { result ≡ known_of name.now }
        ensures same { name_seen result (spelling name.now) ≡ name.now }
    {
        match name {
            FieldName::Via => Some(KnownName::Via),
            FieldName::From => Some(KnownName::From),
            FieldName::To => Some(KnownName::To),
            FieldName::CallId => Some(KnownName::CallId),
            FieldName::CSeq => Some(KnownName::CSeq),
            FieldName::Contact => Some(KnownName::Contact),
            FieldName::MaxForwards => Some(KnownName::MaxForwards),
            FieldName::ContentLength => Some(KnownName::ContentLength),
            FieldName::ContentType => Some(KnownName::ContentType),
            FieldName::ContentEncoding => Some(KnownName::ContentEncoding),
            FieldName::Subject => Some(KnownName::Subject),
            FieldName::Supported => Some(KnownName::Supported),
            FieldName::Route => Some(KnownName::Route),
            FieldName::RecordRoute => Some(KnownName::RecordRoute),
            FieldName::Expires => Some(KnownName::Expires),
            FieldName::Require => Some(KnownName::Require),
            FieldName::ProxyRequire => Some(KnownName::ProxyRequire),
            FieldName::Unsupported => Some(KnownName::Unsupported),
            FieldName::Authorization => Some(KnownName::Authorization),
            FieldName::ProxyAuthorization => Some(KnownName::ProxyAuthorization),
            FieldName::WwwAuthenticate => Some(KnownName::WwwAuthenticate),
            FieldName::ProxyAuthenticate => Some(KnownName::ProxyAuthenticate),
            FieldName::Warning => Some(KnownName::Warning),
            FieldName::MinExpires => Some(KnownName::MinExpires),
            FieldName::Timestamp => Some(KnownName::Timestamp),
            FieldName::Other(_) => None,
        }
    }

    /// The name of a field that it is.
    pub fn to_name(self) -> FieldName
        ensures { result ≡ field_name_of self }
    {
        match self {
            KnownName::Via => FieldName::Via,
            KnownName::From => FieldName::From,
            KnownName::To => FieldName::To,
            KnownName::CallId => FieldName::CallId,
            KnownName::CSeq => FieldName::CSeq,
            KnownName::Contact => FieldName::Contact,
            KnownName::MaxForwards => FieldName::MaxForwards,
            KnownName::ContentLength => FieldName::ContentLength,
            KnownName::ContentType => FieldName::ContentType,
            KnownName::ContentEncoding => FieldName::ContentEncoding,
            KnownName::Subject => FieldName::Subject,
            KnownName::Supported => FieldName::Supported,
            KnownName::Route => FieldName::Route,
            KnownName::RecordRoute => FieldName::RecordRoute,
            KnownName::Expires => FieldName::Expires,
            KnownName::Require => FieldName::Require,
            KnownName::ProxyRequire => FieldName::ProxyRequire,
            KnownName::Unsupported => FieldName::Unsupported,
            KnownName::Authorization => FieldName::Authorization,
            KnownName::ProxyAuthorization => FieldName::ProxyAuthorization,
            KnownName::WwwAuthenticate => FieldName::WwwAuthenticate,
            KnownName::ProxyAuthenticate => FieldName::ProxyAuthenticate,
            KnownName::Warning => FieldName::Warning,
            KnownName::MinExpires => FieldName::MinExpires,
            KnownName::Timestamp => FieldName::Timestamp,
        }
    }

    /// Its full spelling (RFC 3261 20).
    pub fn spelling(self) -> &'static [u8]
        ensures { result.now ≡ spelling (field_name_of self) }
    {
        match self {
            KnownName::Via => b"Via",
            KnownName::From => b"From",
            KnownName::To => b"To",
            KnownName::CallId => b"Call-ID",
            KnownName::CSeq => b"CSeq",
            KnownName::Contact => b"Contact",
            KnownName::MaxForwards => b"Max-Forwards",
            KnownName::ContentLength => b"Content-Length",
            KnownName::ContentType => b"Content-Type",
            KnownName::ContentEncoding => b"Content-Encoding",
            KnownName::Subject => b"Subject",
            KnownName::Supported => b"Supported",
            KnownName::Route => b"Route",
            KnownName::RecordRoute => b"Record-Route",
            KnownName::Expires => b"Expires",
            KnownName::Require => b"Require",
            KnownName::ProxyRequire => b"Proxy-Require",
            KnownName::Unsupported => b"Unsupported",
            KnownName::Authorization => b"Authorization",
            KnownName::ProxyAuthorization => b"Proxy-Authorization",
            KnownName::WwwAuthenticate => b"WWW-Authenticate",
            KnownName::ProxyAuthenticate => b"Proxy-Authenticate",
            KnownName::Warning => b"Warning",
            KnownName::MinExpires => b"Min-Expires",
            KnownName::Timestamp => b"Timestamp",
        }
    }

    /// Whether two names are the same (RFC 3261 7.3.1): no spelling is compared.
    #[tactic(auto, using(crate::proofs::KnownNames::same_known))]
    pub fn is_same(self, other: KnownName) -> bool
        ensures { result ≡ is_same_name (field_name_of self) (field_name_of other) }
    {
        self == other
    }

    /// Whether it is Content-Length, which a message that was read doesn't keep as a field.
    pub fn is_content_length(self) -> bool
        ensures { result ≡ is_length (field_name_of self) }
    {
        matches!(self, KnownName::ContentLength)
    }

    /// Whether values of this name are cut at their commas, so that each item is a field of its own.
    pub fn is_list(self) -> bool
        ensures { result ≡ is_list (field_name_of self) }
    {
        matches!(
            self,
            KnownName::Via
                | KnownName::Route
                | KnownName::RecordRoute
                | KnownName::Contact
                | KnownName::Require
                | KnownName::ProxyRequire
        )
    }
}
