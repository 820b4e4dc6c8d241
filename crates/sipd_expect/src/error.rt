//! Why a line isn't an expectation, or isn't known to hold, in words.
ghost use Rattle.std.specs.Prelude.{◌≡◌};
ghost use Rattle.sipd_expect.specs.declared.error.LineError.TheVariants.{NoMemory};

use std::alloc::AllocError;
use std::error::Error;
use std::fmt;

/// Why a line isn't an expectation, or isn't known to hold.
#[derive(Clone, Copy, Debug, PartialEq, Eq)]
pub enum LineError {
    /// Memory ran out.
    NoMemory = 1,
    /// It doesn't say who asks.
    BadWho = 2,
    /// It names a group that no user is in.
    UnknownGroup = 3,
    /// What is asked is neither `register` nor `list` nor `any` nor a method of requests that are sent on.
    BadOperation = 4,
    /// The method has a small letter.
    SmallLetter = 5,
    /// The target is none that a rule may have.
    BadTarget = 6,
    /// It doesn't say when.
    BadTimes = 7,
    /// It says neither `bindings` nor `via HOP` behind that, or where it is never let through.
    BadPlace = 8,
    /// It names a hop that isn't configured.
    UnknownHop = 9,
    /// A text has a `*` where it says no more than itself, or a host is `elsewhere.invalid`.
    Unsaid = 10,
}

impl LineError {
    ghost use Rattle.sipd_expect.specs.LineError.{words_of};

    /// What is wrong, in words.
    fn words(self) -> &'static str
        ensures { result.now ≡ words_of self }
    {
        match self {
            LineError::NoMemory => "out of memory",
            LineError::BadWho => {
                "who asks is anyone, nobody, proven, user NAME (a configured one) or group NAME"
            }
            LineError::UnknownGroup => "no user is in the group",
            LineError::BadOperation => "what is asked is register, list, a method or any",
            LineError::SmallLetter => "methods are in capitals",
            LineError::BadTarget =>
                "a target is as in a rule: self, USER@DOMAIN, PREFIX*@DOMAIN, @DOMAIN or *",
            LineError::BadTimes => "when is always, never or HH:MM-HH:MM",
            LineError::BadPlace =>
                "behind that stands nothing, bindings or via HOP; and nothing behind never",
            LineError::UnknownHop => "no hop of this name is configured",
            LineError::Unsaid => "this isn't known: a text has a *, or a host is elsewhere.invalid",
        }
    }
}

impl fmt::Display for LineError {
    ghost use Rattle.std.specs.Prelude.{Some};
    ghost use Rattle.sipd_expect.specs.LineError.{words_of};

    ghost output = { λ e. Some (words_of e) };

    fn fmt<W: fmt::Write>(&self, f: &mut fmt::Formatter<W>) -> fmt::Result {
        f.write_str(self.words())
    }
}

impl Error for LineError {}

impl From<AllocError> for LineError {
    ghost from_gives = { λ _ e. e ≡ NoMemory };

    fn from(_e: AllocError) -> LineError {
        LineError::NoMemory
    }
}
