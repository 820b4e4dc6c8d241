//! Calls of an engine with the sample configuration.

use crate::driving::{begins, hear};
use crate::kinds::{TestServer, opened};
use crate::refusals::aor_of;
use crate::registers::{Datagram, REGISTER};
use sip_config_change::FrameKey;
use sip_config_types::{Config, sample};
use sip_event::Ticket;
use sip_replay::engine::{ChangeError, StepError};
use sip_text::{Bytes, Items};
use sip_uri::Aor;
use std::alloc::{AllocError, Global};
use test_forms::gives_text;

/// The first moment that is too large, and the first number that no datagram has: 2^62.
pub(crate) const TOO_LARGE: u64 = 4_611_686_018_427_387_904;

const TICKET: Ticket = Ticket {
    datagram: 1,
    branch: 1,
};

/// What another configuration says otherwise than the sample.
#[derive(Clone, Copy)]
pub(crate) enum Other {
    /// It has no rules: whatever it is asked is denied, by no rule.
    Rules,
    /// It has another realm.
    Realm,
}

/// A call of an engine, and what is wanted of it.
#[derive(Clone, Copy)]
pub(crate) enum Call {
    /// A datagram at a moment, with its word: how long the one packet is that goes out for it, or its refusal.
    Hears(u64, u128, Datagram, Result<usize, StepError>),
    /// The same, and how the one packet begins.
    Answers(u64, u128, Datagram, &'static [u8]),
    /// What is due at a moment, or its refusal.
    Fires(u64, Option<StepError>),
    /// The fault of a packet at a moment that is too large.
    FailsTooLate,
    /// The moment that it has.
    Is(u64),
    /// Mufasa has one binding, the one that the second REGISTER made.
    IsBound,
    /// Another configuration.
    Changes(Other, Result<(), ChangeError>),
}

/// A REGISTER is challenged, and one with a credential makes a binding for an hour.
pub(crate) const BINDING_OF_A_REGISTER: &[Call] = &[
    Call::Hears(1_000, 1, Datagram::Registers, Ok(348)),
    Call::Hears(2_000, 2, Datagram::RegistersAgain, Ok(267)),
    Call::IsBound,
];

/// A binding outlives a change of the rules, which count from the next request on.
pub(crate) const CHANGE_KEEPS_WHAT_STANDS: &[Call] = &[
    Call::Hears(1_000, 1, Datagram::Registers, Ok(348)),
    Call::Hears(2_000, 2, Datagram::RegistersAgain, Ok(267)),
    Call::Changes(Other::Rules, Ok(())),
    Call::IsBound,
    Call::Answers(3_000, 3, Datagram::RegistersLater, b"SIP/2.0 403 "),
];

/// Another realm is refused by its name, and what stands isn't touched.
pub(crate) const ANOTHER_REALM_IS_REFUSED: &[Call] = &[
    Call::Hears(1_000, 1, Datagram::Registers, Ok(348)),
    Call::Hears(2_000, 2, Datagram::RegistersAgain, Ok(267)),
    Call::Changes(Other::Realm, Err(ChangeError::OtherFrame(FrameKey::Realm))),
    Call::IsBound,
];

/// A moment of 2^62 changes nothing. The last datagram that has a number is taken, more are refused as worn out, and time
/// passes still.
pub(crate) const TIME_AND_NUMBER_LIMITS: &[Call] = &[
    Call::Hears(
        TOO_LARGE,
        1,
        Datagram::Nothing,
        Err(StepError::MomentTooLarge),
    ),
    Call::Fires(TOO_LARGE, Some(StepError::MomentTooLarge)),
    Call::FailsTooLate,
    Call::Is(0),
    Call::Hears(0, 1, Datagram::Nothing, Ok(0)),
    Call::Hears(0, 1, Datagram::Nothing, Err(StepError::Worn)),
    Call::Fires(7, None),
    Call::Is(7),
    Call::Hears(7, 1, Datagram::Nothing, Err(StepError::Worn)),
];

fn another(alloc: Global, kind: Other) -> Result<Config, AllocError> {
    let mut config = sample(alloc)?;
    match kind {
        Other::Rules => config.rules = Items::new(alloc),
        Other::Realm => config.realm = Bytes::copy(alloc, b"office.local")?,
    }
    Ok(config)
}

fn changes(
    alloc: Global,
    engine: &mut TestServer,
    kind: Other,
    wanted: Result<(), ChangeError>,
) -> bool {
    match another(alloc, kind) {
        Ok(config) => engine.change(config) == wanted,
        Err(_) => false,
    }
}

/// Whether an address has one binding, the one that the second REGISTER made.
fn is_bound(engine: &TestServer, aor: &Aor) -> bool {
    let mut live = engine.bindings(aor);
    match live.next() {
        Some(binding) => {
            binding.cseq() == 2 && binding.expires_at() == 3_602_000 && live.next().is_none()
        }
        None => false,
    }
}

fn is_mufasa_bound(alloc: Global, engine: &TestServer) -> bool {
    match aor_of(alloc, "Mufasa") {
        Ok(aor) => is_bound(engine, &aor),
        Err(_) => false,
    }
}

impl Call {
    fn holds(&self, alloc: Global, engine: &mut TestServer) -> bool {
        match *self {
            Call::Hears(at, word, datagram, wanted) => hear(engine, at, word, datagram.bytes())
                == wanted,
            Call::Answers(at, word, datagram, front) => begins(
                engine,
                at,
                word,
                datagram.bytes(),
                front,
            ),
            Call::Fires(at, wanted) => engine.fire(at).err() == wanted,
            Call::FailsTooLate => {
                engine.fault(TOO_LARGE, TICKET).err() == Some(StepError::MomentTooLarge)
            }
            Call::Is(moment) => engine.moment() == moment,
            Call::IsBound => is_mufasa_bound(alloc, engine),
            Call::Changes(kind, wanted) => changes(alloc, engine, kind, wanted),
        }
    }
}

/// Whether calls come to what is wanted on an engine.
pub(crate) fn all_hold(alloc: Global, engine: &mut TestServer, calls: &[Call]) -> bool {
    for call in calls {
        if !call.holds(alloc, engine) {
            return false;
        }
    }
    true
}

/// Whether calls come to what is wanted on an engine whose first datagram has this number.
pub(crate) fn hold(alloc: Global, first: u64, calls: &[Call]) -> bool {
    match opened(alloc, first) {
        Ok(mut engine) => all_hold(alloc, &mut engine, calls),
        Err(_) => false,
    }
}

/// Whether a REGISTER is challenged, or is refused for want of memory, changes nothing, and is challenged when it comes again.
fn is_challenged_in_the_end(engine: &mut TestServer) -> bool {
    match hear(engine, 1_000, 1, REGISTER) {
        Ok(length) => length == 348,
        Err(StepError::NoMemory) => {
            engine.moment() == 0
                && engine.next_due().is_none()
                && hear(engine, 1_000, 1, REGISTER) == Ok(348)
        }
        Err(_) => false,
    }
}

/// This holds whichever allocation of the process is refused: a refused one inside `deliver` gives NoMemory, and the engine is
/// as it was.
pub(crate) fn refused_inside_deliver(alloc: Global) -> bool {
    match opened(alloc, 1) {
        Ok(mut engine) => is_challenged_in_the_end(&mut engine),
        Err(_) => true,
    }
}

/// An error prints its words.
pub(crate) fn printed_error(alloc: Global) -> bool {
    gives_text(
        StepError::Worn.to_string(alloc),
        "the numbers of datagrams are worn out",
    )
}
