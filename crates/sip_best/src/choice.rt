//! The best answer of a request all of whose branches have one (RFC 3261 16.7 steps 6 and 7). Which of two is the better is in `rank`.
ghost use Rattle.std.specs.Prelude.{◌≡◌, ◌++◌, Some, None, if◌then◌else◌, IfOk, MatchOption};
ghost use Rattle.std.specs.List.{list_any, flat_map};
ghost use Rattle.sip_best.specs.Ranks.{outranks};
ghost use Rattle.sip_best.specs.Best.{chosen_of, is_challenge_status, challenges_of, taking_along, going_up, best_of};

use crate::challenges::{challenges_in, fields_along, is_challenge_status};
use crate::final_answer::Final;
use crate::rank::better;
use sip_base::Shared;
use sip_message_fields::ViewField;
use sip_message_form::Kept;
use std::alloc::{AllocError, Global};

/// The answer that goes up of some, and those that came before it and behind it.
#[derive(Drop)]
struct Choice<'a> {
    chosen: &'a Final,
    before: &'a [Final],
    behind: &'a [Final],
}

/// Whether one of some answers outranks an answer.
fn is_outranked(answer: &Final, finals: &[Final]) -> bool
    ensures { result ≡ list_any (λ other. outranks other answer.now) finals.now }
{
    finals.iter().any(|other| better(other, answer))
}

/// The first of some answers that none outranks, and the others. There are no more than a request has branches.
fn choose<'a>(finals: &'a [Final]) -> Option<Choice<'a>>
    ensures { MatchOption result (chosen_of finals.now ≡ None)
        (λ choice. chosen_of finals.now ≡ Some (choice.chosen.now, choice.before.now ++ choice.behind.now)) }
{
    for (place, answer) in finals.iter().enumerate() {
        if !is_outranked(answer, finals) {
            return Some(Choice {
                chosen: answer,
                before: &finals[..place],
                behind: &finals[place + 1..],
            });
        }
    }
    None
}

/// The challenges of the other answers, in order of arrival.
fn other_challenges<'a>(
    alloc: Global,
    choice: &Choice<'a>,
) -> Result<Vec<ViewField<'a>>, AllocError>
    ensures { IfOk result (λ found. found.items ≡ flat_map challenges_of (choice.now.before.now ++ choice.now.behind.now)) }
{
    let mut found = challenges_in(alloc, choice.before)?;
    let mut later = challenges_in(alloc, choice.behind)?;
    found.append(&mut later)?;
    Ok(found)
}

/// A message with some challenges behind its last field. This is the one copy.
fn challenging<'v>(
    alloc: Global,
    message: &'v Kept,
    challenges: &'v [ViewField<'_>],
) -> Result<Kept, AllocError>
    ensures { IfOk result (λ up. up ≡ taking_along message.now challenges.now) }
{
    let fields = fields_along(alloc, message, challenges)?;
    let view = message.view(alloc)?;
    Kept::of(alloc, &view.with_fields(fields))
}

/// A message with some challenges behind its last field: it stays as it is where there are none.
fn taking_along<'v>(
    alloc: Global,
    message: &'v Shared<Kept>,
    challenges: &'v [ViewField<'_>],
) -> Result<Shared<Kept>, AllocError>
    ensures { IfOk result (λ up. up ≡ taking_along message.now challenges.now) }
{
    if challenges.is_empty() {
        return message.clone();
    }
    Shared::new(alloc, challenging(alloc, message.get(), challenges)?)
}

/// The message of the chosen answer: the one that came, but that of a 401 or 407 takes along the challenges of the
/// others.
fn message_up(
    alloc: Global,
    choice: &Choice<'_>,
    message: &Shared<Kept>,
) -> Result<Shared<Kept>, AllocError>
    ensures { IfOk result
        (λ up. up ≡ (if is_challenge_status choice.now.chosen.now.status
        then taking_along message.now (flat_map challenges_of (choice.now.before.now ++ choice.now.behind.now)) else message.now)) }
{
    if !is_challenge_status(choice.chosen.status) {
        return message.clone();
    }
    let challenges = other_challenges(alloc, choice)?;
    taking_along(alloc, message, challenges.as_slice())
}

/// The chosen answer as it goes up.
fn going_up(alloc: Global, choice: &Choice<'_>) -> Result<Final, AllocError>
    ensures { IfOk result (λ up. up ≡ going_up (choice.now.before.now ++ choice.now.behind.now) choice.now.chosen.now) }
{
    let chosen = choice.chosen;
    if chosen.status == 503 {
        return Ok(Final {
            status: 500,
            message: None,
        });
    }
    let message = match &chosen.message {
        Some(message) => Some(message_up(alloc, choice, message)?),
        None => None,
    };
    Ok(Final {
        status: chosen.status,
        message,
    })
}

/// The best of some final answers, which stand in order of arrival, as it goes up: the first that none outranks, a 503
/// as a 500 that is made here, and a 401 or 407 with the challenges of all other 401 and 407 behind its last field,
/// while its text fits a datagram (RFC 3261 16.7 steps 6 and 7). One without a message is made here. None exactly where
/// there is no answer. `AllocError` is the only refusal.
pub fn best(alloc: Global, finals: &[Final]) -> Result<Option<Final>, AllocError>
    ensures { IfOk result (λ best. best ≡ best_of finals.now) }
{
    match choose(finals) {
        Some(choice) => Ok(Some(going_up(alloc, &choice)?)),
        None => Ok(None),
    }
}
