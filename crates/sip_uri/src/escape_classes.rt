//! Which bytes need no escape `%HH` in which part of a URI (RFC 3261 25.1). Escapes are resolved in `sip_text`.
ghost use Rattle.std.specs.Prelude.{◌≡◌, ◌<◌, length, MatchOption};
ghost use Rattle.sip_text.specs.Lists.{is_nil};
ghost use Rattle.sip_uri.specs.Parts;

/// The texts of a URI that escapes may stand in, by the bytes that need none there (RFC 3261 25.1).
#[derive(Clone, Copy)]
pub(crate) enum Class {
    User,
    Password,
    /// The name or the value of a parameter.
    Parameter,
    /// The name or the value of a header.
    Header,
}

const USER: u8 = 1;

const PASSWORD: u8 = 2;

const PARAMETER: u8 = 4;

const HEADER: u8 = 8;

// For each byte a letter, whose low four bits are the flags above.
static CLASSES: [u8; 256] = *b"\
    @@@@@@@@@@@@@@@@@@@@@@@@@@@@@@@@\
    @O@@O@GOOOOOCOOMOOOOOOOOOOLA@C@I\
    @OOOOOOOOOOOOOOOOOOOOOOOOOOL@L@O\
    @OOOOOOOOOOOOOOOOOOOOOOOOOO@@@O@\
    @@@@@@@@@@@@@@@@@@@@@@@@@@@@@@@@\
    @@@@@@@@@@@@@@@@@@@@@@@@@@@@@@@@\
    @@@@@@@@@@@@@@@@@@@@@@@@@@@@@@@@\
    @@@@@@@@@@@@@@@@@@@@@@@@@@@@@@@@";

/// Whether a byte needs no escape in a user.
#[inline]
pub(crate) fn is_user_byte(byte: u8) -> bool
    ensures { result ≡ Parts.is_user_byte byte }
{
    CLASSES[byte as usize] & USER != 0
}

fn is_password_byte(byte: u8) -> bool
    ensures { result ≡ Parts.is_password_byte byte }
{
    CLASSES[byte as usize] & PASSWORD != 0
}

fn is_parameter_byte(byte: u8) -> bool
    ensures { result ≡ Parts.is_parameter_byte byte }
{
    CLASSES[byte as usize] & PARAMETER != 0
}

fn is_header_byte(byte: u8) -> bool
    ensures { result ≡ Parts.is_header_byte byte }
{
    CLASSES[byte as usize] & HEADER != 0
}

/// Whether a byte needs no escape in a text.
fn is_of(class: Class, byte: u8) -> bool
    ensures { result ≡ Parts.is_of class byte }
{
    match class {
        Class::User => is_user_byte(byte),
        Class::Password => is_password_byte(byte),
        Class::Parameter => is_parameter_byte(byte),
        Class::Header => is_header_byte(byte),
    }
}

/// What follows the byte or the escape at the front of a text. None at its end, or at another byte.
fn after_byte(class: Class, rest: &[u8]) -> Option<&[u8]>
    ensures { MatchOption result (Parts.are_escaped (Parts.is_of class) rest.now ≡ is_nil rest.now)
        (λ after. (length after.now < length rest.now) × (Parts.are_escaped (Parts.is_of class) rest.now
        ≡ Parts.are_escaped (Parts.is_of class) after.now)) }
{
    let (first, after) = rest.split_first()?;
    if is_of(class, *first) {
        return Some(after);
    }
    if *first != b'%' {
        return None;
    }
    let (high, after) = after.split_first()?;
    let (low, after) = after.split_first()?;
    if high.is_ascii_hexdigit() && low.is_ascii_hexdigit() {
        Some(after)
    } else {
        None
    }
}

/// Whether a text is of bytes of a class and escapes.
pub(crate) fn are_escaped(class: Class, text: &[u8]) -> bool
    ensures { result ≡ Parts.are_escaped (Parts.is_of class) text.now }
{
    let mut rest = text;
    while let Some(after) = after_byte(class, rest) {
        rest = after;
    }
    rest.is_empty()
}

/// Whether a text is of one or more bytes of a class and escapes.
pub(crate) fn is_escaped(class: Class, text: &[u8]) -> bool
    ensures { result ≡ Parts.is_escaped (Parts.is_of class) text.now }
{
    if text.is_empty() {
        return false;
    }
    are_escaped(class, text)
}
