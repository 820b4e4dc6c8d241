ghost use Rattle.std.specs.Prelude.{◌≡◌};
ghost use Rattle.sip_message_form.specs.ReadError.{number_of};
ghost use Rattle.sip_message_form.specs.declared.error.ReadError.TheVariants.{NoMemory};

use crate::message::Message;
use std::alloc::{AllocError, AllocFailed};
use std::error::Error;
use std::fmt;

/// Why bytes are not read as a message.
#[derive(Drop)]
pub enum ReadError {
    /// 1: memory ran out.
    NoMemory,
    /// 2: no start line, or no empty line behind the fields (RFC 3261 7).
    NotSip,
    /// 3: a line that writes no field, a list that can't be cut into items, or a Content-Length that is
    /// repeated or is no number below 2^64 (RFC 3261 7.3.1 and 20.14).
    BadField,
    /// 4: fewer bytes of body than Content-Length says (RFC 3261 18.3), with the message and the bytes that
    /// came.
    ShortBody(Message),
    /// 5: more than 65,507 bytes, or a written form of more than 49,152 bytes.
    TooLong,
    /// 6: more than 256 fields, each item of a list counted as one.
    TooManyFields,
}

impl ReadError {
    ghost use Rattle.sip_message_form.specs.ReadError.{words_of};

    /// Its number, from 1 to 6.
    pub fn number(&self) -> u8
        ensures { result ≡ number_of self.now }
    {
        match self {
            ReadError::NoMemory => 1,
            ReadError::NotSip => 2,
            ReadError::BadField => 3,
            ReadError::ShortBody(_) => 4,
            ReadError::TooLong => 5,
            ReadError::TooManyFields => 6,
        }
    }

    /// What is wrong, in words.
    fn words(&self) -> &'static str
        ensures { result.now ≡ words_of self.now }
    {
        match self {
            ReadError::NoMemory => "out of memory",
            ReadError::NotSip => "no SIP message",
            ReadError::BadField => "a malformed field",
            ReadError::ShortBody(_) => "a body shorter than its Content-Length",
            ReadError::TooLong => "too long",
            ReadError::TooManyFields => "too many fields",
        }
    }
}

impl fmt::Display for ReadError {
    ghost use Rattle.std.specs.Prelude.{Some};
    ghost use Rattle.sip_message_form.specs.ReadError.{words_of};

    ghost output = { λ e. Some (words_of e) };

    fn fmt<W: fmt::Write>(&self, f: &mut fmt::Formatter<W>) -> fmt::Result {
        f.write_str(self.words())
    }
}

/// Its words alone, without what it carries.
impl fmt::Debug for ReadError {
    fn fmt<W: fmt::Write>(&self, f: &mut fmt::Formatter<W>) -> fmt::Result {
        fmt::Display::fmt(self, f)
    }
}

impl Error for ReadError {}

impl From<AllocError> for ReadError {
    ghost from_gives = { λ _ e. e ≡ NoMemory };

    fn from(_e: AllocError) -> ReadError {
        ReadError::NoMemory
    }
}

impl<T: Drop> From<AllocFailed<T>> for ReadError {
    ghost from_gives = { λ _ e. e ≡ NoMemory };

    fn from(_e: AllocFailed<T>) -> ReadError {
        ReadError::NoMemory
    }
}
