//! Why a question about a configuration has no answer, in numbers and in words.
ghost use Rattle.std.specs.Prelude.{◌≡◌};
ghost use Rattle.sipd_ask.specs.Refusals.{confirmed};
ghost use Rattle.sipd_ask.specs.declared.error.QuestionError.TheVariants.{NoMemory};

use std::alloc::{AllocError, AllocFailed};
use std::error::Error;
use std::fmt;

/// Why a question has no answer.
#[derive(Clone, Copy, Debug, PartialEq, Eq)]
pub enum QuestionError {
    /// Memory ran out.
    NoMemory = 1,
    /// The minute is none of a day: 1440 or more.
    BadMinute = 2,
    /// What is asked is neither `register` nor `list` nor a method of requests that are sent on: REGISTER is asked as the one or
    /// the other, and no rule decides about ACK and CANCEL.
    BadMethod = 3,
    /// No configured user has the name.
    UnknownUser = 4,
    /// The target is neither `USER@HOST` nor a SIP or SIPS URI.
    BadTarget = 5,
    /// A configuration takes no such name.
    BadName = 6,
    /// A configuration takes no such realm, or it has a `:`, which ends a realm in what is digested.
    BadRealm = 7,
    /// The password is empty.
    EmptyPassword = 8,
    /// The method has a small letter, and methods are told apart by case (RFC 3261 7.1).
    SmallLetter = 9,
    /// The password is longer than 1,024 bytes.
    LongPassword = 10,
    /// A configured user has the name.
    TakenName = 11,
    /// The configuration has another realm than the one that is said.
    OtherRealm = 12,
}

impl QuestionError {
    ghost use Rattle.sipd_ask.specs.QuestionError.{words_of};

    /// What is wrong, in words.
    fn words(self) -> &'static str
        ensures { result.now ≡ words_of self }
    {
        match self {
            QuestionError::NoMemory => "out of memory",
            QuestionError::BadMinute => "a minute is 0 to 1439",
            QuestionError::BadMethod => {
                "what is asked is register, list (both are a REGISTER) or a method; no rule decides about ACK and CANCEL"
            }
            QuestionError::UnknownUser => "no user of this name is configured",
            QuestionError::BadTarget => "a target is USER@HOST or a SIP URI",
            QuestionError::BadName => {
                "a name is 1 to 64 letters, digits and -_.+, and begins with a letter or a digit"
            }
            QuestionError::BadRealm =>
                "a realm is 1 to 128 bytes from a space to ~, without \" \\ :",
            QuestionError::EmptyPassword => "the password is empty",
            QuestionError::SmallLetter => "methods are in capitals",
            QuestionError::LongPassword => "a password is at most 1024 bytes",
            QuestionError::TakenName => "a user of this name is configured already",
            QuestionError::OtherRealm => "the configuration has another realm",
        }
    }
}

impl fmt::Display for QuestionError {
    ghost use Rattle.std.specs.Prelude.{Some};
    ghost use Rattle.sipd_ask.specs.QuestionError.{words_of};

    ghost output = { λ e. Some (words_of e) };

    fn fmt<W: fmt::Write>(&self, f: &mut fmt::Formatter<W>) -> fmt::Result {
        f.write_str(self.words())
    }
}

impl Error for QuestionError {}

impl From<AllocError> for QuestionError {
    ghost from_gives = { λ _ e. e ≡ NoMemory };

    fn from(_e: AllocError) -> QuestionError {
        QuestionError::NoMemory
    }
}

impl<T: Drop> From<AllocFailed<T>> for QuestionError {
    ghost from_gives = { λ _ e. e ≡ NoMemory };

    fn from(_e: AllocFailed<T>) -> QuestionError {
        QuestionError::NoMemory
    }
}

/// Refuses what doesn't hold.
pub(crate) fn confirm(holds: bool, refusal: QuestionError) -> Result<(), QuestionError>
    ensures { result ≡ confirmed holds refusal }
{
    if holds { Ok(()) } else { Err(refusal) }
}
