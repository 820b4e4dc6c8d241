ghost use Rattle.std.specs.Prelude.{◌≡◌, ◌⊎◌};
ghost use Rattle.sip_message_form.specs.ReadError.{number_of};
ghost use Rattle.sip_message_form.specs.ViewRefusal.{refusal_seen};
ghost use Rattle.sip_message_form.specs.declared.error.ReadError.TheVariants.{NoMemory};

use crate::error::ReadError;
use crate::message_view::View;
use crate::view_refusal::ViewRefusal;
use std::alloc::{AllocError, AllocFailed, Global};
use std::marker::Model;

/// Why bytes are not viewed as a message, seen as the refusal of `read`.
#[derive(Drop)]
pub struct ViewError<'a> {
    refusal: ViewRefusal<'a>,
}

impl<'a> Model for ViewError<'a> {
    ghost use Rattle.sip_message_form.specs.declared.error.ReadError.{ReadError};
    ghost use Rattle.sip_message_form.specs.ViewRefusal.{refusal_seen};

    ghost Value = { ReadError };

    ghost view = { λ e. refusal_seen e.refusal };
}

/// The message of a short body, which owns its bytes, or the want of memory for it.
fn short_body(alloc: Global, view: &View<'_>) -> ReadError
    ensures { (result ≡ NoMemory) ⊎ (result ≡ ReadError.ShortBody view.now) }
{
    match view.to_message(alloc) {
        Ok(message) => ReadError::ShortBody(message),
        Err(_) => ReadError::NoMemory,
    }
}

impl<'a> ViewError<'a> {
    /// This refusal.
    pub fn new(refusal: ViewRefusal<'a>) -> Self
        ensures { result ≡ refusal_seen refusal.entry }
    {
        ViewError { refusal }
    }

    /// Which refusal it is.
    pub fn refusal(&self) -> &ViewRefusal<'a>
        ensures { refusal_seen result.now ≡ self.now }
    {
        &self.refusal
    }

    /// Its number, from 1 to 6.
    pub fn number(&self) -> u8
        ensures { result ≡ number_of self.now }
    {
        match &self.refusal {
            ViewRefusal::NoMemory => 1,
            ViewRefusal::NotSip => 2,
            ViewRefusal::BadField => 3,
            ViewRefusal::ShortBody(_) => 4,
            ViewRefusal::TooLong => 5,
            ViewRefusal::TooManyFields => 6,
        }
    }

    /// The refusal of `read`, whose message owns its bytes.
    pub fn to_read_error(&self, alloc: Global) -> ReadError
        ensures { (result ≡ NoMemory) ⊎ (result ≡ self.now) }
    {
        match &self.refusal {
            ViewRefusal::NoMemory => ReadError::NoMemory,
            ViewRefusal::NotSip => ReadError::NotSip,
            ViewRefusal::BadField => ReadError::BadField,
            ViewRefusal::ShortBody(view) => short_body(alloc, view),
            ViewRefusal::TooLong => ReadError::TooLong,
            ViewRefusal::TooManyFields => ReadError::TooManyFields,
        }
    }
}

impl<'a> From<AllocError> for ViewError<'a> {
    ghost from_gives = { λ _ e. e ≡ NoMemory };

    fn from(_e: AllocError) -> ViewError<'a> {
        ViewError::new(ViewRefusal::NoMemory)
    }
}

impl<'a, T: Drop> From<AllocFailed<T>> for ViewError<'a> {
    ghost from_gives = { λ _ e. e ≡ NoMemory };

    fn from(_e: AllocFailed<T>) -> ViewError<'a> {
        ViewError::new(ViewRefusal::NoMemory)
    }
}
