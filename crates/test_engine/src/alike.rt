//! Whether two engines go on alike, by what each of them took.

use crate::calls::{self, Call, all_hold};
use crate::fault::Fault;
use crate::kinds::{TestServer, opened};
use crate::refusals::{event_of, step};
use crate::registers::Datagram;
use sip_event::Event;
use sip_replay_script::{Gathered, ScriptLines, next_line};
use std::alloc::{AllocError, Global};

/// What two engines take, each its calls, and whether they are the same then.
pub(crate) type Pair = (&'static [Call], &'static [Call], bool);

/// A REGISTER is challenged, and no other one comes.
const CHALLENGED_ALONE: &[Call] = &[
    Call::Hears(1_000, 1, Datagram::Registers, Ok(348)),
    Call::Hears(2_000, 2, Datagram::Nothing, Ok(0)),
];

/// Nothing comes that is a message, twice.
const NOTHING_TWICE: &[Call] = &[
    Call::Hears(1_000, 1, Datagram::Nothing, Ok(0)),
    Call::Hears(2_000, 2, Datagram::Nothing, Ok(0)),
];

/// The same once: the next number is another one.
const NOTHING_ONCE: &[Call] = &[Call::Hears(2_000, 2, Datagram::Nothing, Ok(0))];

/// Both REGISTERs are over, the nonce is dead, and the binding has expired.
const REGISTERED_LONG_AGO: &[Call] = &[
    Call::Hears(1_000, 1, Datagram::Registers, Ok(348)),
    Call::Hears(2_000, 2, Datagram::RegistersAgain, Ok(267)),
    Call::Fires(4_000_000, None),
    Call::Fires(4_000_000, None),
    Call::Fires(4_000_000, None),
    Call::Is(4_000_000),
];

/// As many datagrams, none of which was a message.
const NOTHING_LONG_AGO: &[Call] = &[
    Call::Hears(1_000, 1, Datagram::Nothing, Ok(0)),
    Call::Hears(2_000, 2, Datagram::Nothing, Ok(0)),
    Call::Fires(4_000_000, None),
    Call::Is(4_000_000),
];

/// Engines that took the same events are the same, and so is one whose REGISTERs left nothing that lives as one that never heard
/// them. Those are not whose bindings, open requests or next numbers differ.
pub(crate) const ALIKE: &[Pair] = &[
    (
        calls::BINDING_OF_A_REGISTER,
        calls::BINDING_OF_A_REGISTER,
        true,
    ),
    (calls::BINDING_OF_A_REGISTER, CHALLENGED_ALONE, false),
    (CHALLENGED_ALONE, NOTHING_TWICE, false),
    (NOTHING_TWICE, NOTHING_ONCE, false),
    (REGISTERED_LONG_AGO, NOTHING_LONG_AGO, true),
];

/// Whether two engines are as a row says, in either order.
fn are_as_said(alloc: Global, pair: &Pair) -> Result<bool, AllocError> {
    let (left, right, wanted) = *pair;
    let mut one = opened(alloc, 1)?;
    let mut other = opened(alloc, 1)?;
    if !all_hold(alloc, &mut one, left) {
        return Ok(false);
    }
    if !all_hold(alloc, &mut other, right) {
        return Ok(false);
    }
    Ok(one.is_same(&other) == wanted && other.is_same(&one) == wanted)
}

/// Whether it is so of each row.
pub(crate) fn hold(alloc: Global, pairs: &[Pair]) -> bool {
    for pair in pairs {
        if are_as_said(alloc, pair) != Ok(true) {
            return false;
        }
    }
    true
}

/// Takes an event, behind all that is due by its moment.
fn go(engine: &mut TestServer, event: &Event) -> Result<(), Fault> {
    for _ in 0..u64::MAX {
        let taken = step(engine, event)?;
        if taken.is_own {
            return Ok(());
        }
    }
    Err(Fault::Script)
}

/// Takes the events of a script, one after another.
fn go_on(alloc: Global, engine: &mut TestServer, script: &[u8]) -> Result<(), Fault> {
    let mut input = script;
    let mut lines = ScriptLines::new(alloc)?;
    let mut bytes = Gathered::new(alloc);
    for _ in 0..u64::MAX {
        let Some(line) = next_line(alloc, &mut lines, &mut input, &mut bytes)? else {
            return Ok(());
        };
        let event = event_of(alloc, line, &bytes)?;
        go(engine, &event)?;
    }
    Err(Fault::Script)
}

/// An engine with the sample configuration that took a script, as far as it can be taken.
fn behind(alloc: Global, script: &[u8]) -> Result<TestServer, AllocError> {
    let mut engine = opened(alloc, 1)?;
    let _ = go_on(alloc, &mut engine, script);
    Ok(engine)
}

/// Whether two engines that took a script are the same, in either order.
fn are_alike(alloc: Global, script: &[u8]) -> Result<bool, AllocError> {
    let one = behind(alloc, script)?;
    let other = behind(alloc, script)?;
    Ok(one.is_same(&other) && other.is_same(&one))
}

/// Whether two engines with the sample configuration that took a script, as far as it can be taken, go on alike.
pub fn leaves_alike(alloc: Global, script: &[u8]) -> bool {
    are_alike(alloc, script) == Ok(true)
}
