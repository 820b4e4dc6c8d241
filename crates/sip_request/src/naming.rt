//! Which timers the parts of an open request have by their phases (RFC 3261 16.6, 16.8, 17; RFC 6026 7). `part` sets and stops them.
ghost use Rattle.std.specs.Prelude.{◌≡◌, ◌++◌, ◌^◌, ℕ, Some, None, if◌then◌else◌};
ghost use Rattle.sip_timers.specs.declared.letter.Letter.TheVariants.{D, M};
ghost use Rattle.sip_timers.specs.declared.timer.Owner.{Owner};
ghost use Rattle.sip_timers.specs.declared.timer.Owner.TheVariants as Of;
ghost use Rattle.model_transactions.specs.state.State as States;
ghost use Rattle.model_transactions.specs.context_model.Branches as Contexts;
ghost use Rattle.model_transactions.specs.context_branches.Early.{IsEarly};
ghost use Rattle.model_transactions.specs.InviteClient.{invite_timers, call_timers};
ghost use Rattle.model_transactions.specs.OtherClient.{other_timers};
ghost use Rattle.model_transactions.specs.InviteServer.{invite_side_timers};
ghost use Rattle.model_transactions.specs.OtherServer.{other_side_timers};
ghost use Rattle.model_transactions.specs.Ties.{branch_timers, owner_of, part_timers, side_timers};
ghost use Rattle.model_transactions.specs.declared.timer_keys.TimerKeys.{TimerKeys};
ghost use Rattle.sip_request.specs.Near.{AreBefore};
ghost use Rattle.sip_request.specs.Order.{AreInSlots};
ghost use Rattle.sip_request.specs.Slots.{listed, part_standing, slots_standing};

use crate::part::{PartTimers, RequestPart};
use model_transactions::state::{
    Branch, LastAnswer, OpenRequest, Phase, Resend, Side, is_invite, is_success,
};
use sip_timers::{Letter, Owner, TIMER_C_PAST_B};

/// Whether the answer that was sent last is one of 300 to 699.
pub(crate) fn was_refused(answer: &Option<LastAnswer>) -> bool
    ensures { result ≡ Contexts.was_refused answer.now }
{
    match answer {
        None => false,
        Some(answer) => answer.status >= 300,
    }
}

/// One timer at which a transaction ends.
fn ending(letter: Letter, until: u64) -> PartTimers
    ensures { result ≡ record { again = None; last = Some (letter, until); call = None } }
{
    PartTimers {
        again: None,
        last: Some((letter, until)),
        call: None,
    }
}

/// One timer at which what was sent goes again, and one at which the transaction ends.
fn repeating(again: Letter, due: u64, last: Letter, until: u64) -> PartTimers
    ensures { result ≡ record { again = Some (again, due); last = Some (last, until); call = None } }
{
    PartTimers {
        again: Some((again, due)),
        last: Some((last, until)),
        call: None,
    }
}

/// The proxy's own timer of a branch alone.
fn calling(letter: Letter, until: u64) -> PartTimers
    ensures { result ≡ record { again = None; last = None; call = Some (letter, until) } }
{
    PartTimers {
        again: None,
        last: None,
        call: Some((letter, until)),
    }
}

/// No timer.
fn nothing() -> PartTimers
    ensures { result ≡ record { again = None; last = None; call = None } }
{
    PartTimers {
        again: None,
        last: None,
        call: None,
    }
}

/// The timer of a branch of an INVITE that has its final answer: M after a 2xx, D after another one (RFC 3261 17.1.1.2,
/// RFC 6026 7.2).
fn lingering(until: u64, status: u16) -> PartTimers
    ensures slots { AreInSlots result }
    ensures timers { result ≡ record { again = None; last = Some ((if States.is_success status then M else D), until); call = None } }
{
    if is_success(status) {
        ending(Letter::M, until)
    } else {
        ending(Letter::D, until)
    }
}

/// The timers of a branch to a target of an INVITE: those of its transaction, and the proxy's own (RFC 3261 16.6, 16.8,
/// 17.1.1.2; RFC 6026 7.2).
fn invite_part(phase: Phase, again: Resend) -> PartTimers
    requires { IsEarly phase }
    ensures slots { AreInSlots result }
    ensures timers { listed result ≡ invite_timers phase again ++ call_timers phase }
    ensures names { (number : ℕ) (owner : Owner) (keys : TimerKeys) → slots_standing number owner keys result
        ≡ part_timers number owner keys (invite_timers phase again ++ call_timers phase) }
{
    match phase {
        Phase::Unheard { until } => PartTimers {
            again: Some((Letter::A, again.due)),
            last: Some((Letter::B, until)),
            call: Some((Letter::C, until + TIMER_C_PAST_B)),
        },
        Phase::Heard { until } => calling(Letter::C, until),
        Phase::Cancelled { until } => calling(Letter::Cancelled, until),
        Phase::Done { until, status } => lingering(until, status),
        Phase::Ended => nothing(),
    }
}

/// The timers of a branch of another request, and of a CANCEL (RFC 3261 17.1.2.2).
fn other_part(phase: Phase, again: Resend) -> PartTimers
    ensures slots { AreInSlots result }
    ensures timers { listed result ≡ other_timers phase again }
    ensures names { (number : ℕ) (owner : Owner) (keys : TimerKeys) → slots_standing number owner keys result
        ≡ part_timers number owner keys (other_timers phase again) }
{
    match phase {
        Phase::Unheard { until } => repeating(Letter::E, again.due, Letter::F, until),
        Phase::Heard { until } => repeating(Letter::E, again.due, Letter::F, until),
        Phase::Cancelled { .. } => nothing(),
        Phase::Done { until, .. } => ending(Letter::K, until),
        Phase::Ended => nothing(),
    }
}

/// The timers of the answering side of an INVITE (RFC 3261 17.2.1, RFC 6026 7.1).
fn invite_side_part(side: Side, answer: &Option<LastAnswer>, again: Resend) -> PartTimers
    ensures slots { AreInSlots result }
    ensures timers { listed result ≡ invite_side_timers side answer.now again }
    ensures names { (number : ℕ) (owner : Owner) (keys : TimerKeys) → slots_standing number owner keys result
        ≡ part_timers number owner keys (invite_side_timers side answer.now again) }
{
    match side {
        Side::Answering => nothing(),
        Side::Closing { until } => {
            if was_refused(answer) {
                repeating(Letter::G, again.due, Letter::H, until)
            } else {
                ending(Letter::L, until)
            }
        }
        Side::Acknowledged { until } => ending(Letter::I, until),
        Side::Closed => nothing(),
    }
}

/// The timer of the answering side of another request (RFC 3261 17.2.2).
fn other_side_part(side: Side) -> PartTimers
    ensures slots { AreInSlots result }
    ensures timers { listed result ≡ other_side_timers side }
    ensures names { (number : ℕ) (owner : Owner) (keys : TimerKeys) → slots_standing number owner keys result
        ≡ part_timers number owner keys (other_side_timers side) }
{
    match side {
        Side::Answering => nothing(),
        Side::Closing { until } => ending(Letter::J, until),
        Side::Acknowledged { .. } => nothing(),
        Side::Closed => nothing(),
    }
}

/// Whose the timers of a branch are.
fn owner_of(branch: &Branch) -> Owner
    ensures { result ≡ owner_of branch.now }
{
    if branch.is_cancel {
        Owner::Cancel(branch.number)
    } else {
        Owner::Branch(branch.number)
    }
}

/// The timers of a branch, by whether its request is an INVITE.
#[inline(always)]
fn timers_of_branch(call: &OpenRequest, invite: bool, branch: &Branch) -> PartTimers
    requires invite { invite ≡ States.is_invite call.now }
    requires early { AreBefore (2 ^ 64) (branch_timers call.now branch.now) }
    ensures slots { AreInSlots result }
    ensures timers { listed result ≡ branch_timers call.now branch.now }
    ensures names { (number : ℕ) (owner : Owner) (keys : TimerKeys) → slots_standing number owner keys result
        ≡ part_timers number owner keys (branch_timers call.now branch.now) }
{
    if invite && !branch.is_cancel {
        invite_part(branch.phase, branch.again)
    } else {
        other_part(branch.phase, branch.again)
    }
}

/// The timers of the answering side.
fn timers_of_side(call: &OpenRequest) -> PartTimers
    ensures slots { AreInSlots result }
    ensures timers { listed result ≡ side_timers call.now }
    ensures names { (number : ℕ) (owner : Owner) (keys : TimerKeys) → slots_standing number owner keys result
        ≡ part_timers number owner keys (side_timers call.now) }
{
    if is_invite(call) {
        invite_side_part(call.side, &call.answer, call.again)
    } else {
        other_side_part(call.side)
    }
}

/// A branch of an open request, with the timers that it has by its phase and by whether the request is an INVITE, worked out
/// where it is asked for.
#[inline(always)]
pub(crate) fn branch_part_here(call: &OpenRequest, invite: bool, branch: &Branch) -> RequestPart
    requires invite { invite ≡ States.is_invite call.now }
    requires early { AreBefore (2 ^ 64) (branch_timers call.now branch.now) }
    ensures slots { AreInSlots result.timers }
    ensures timers { listed result.timers ≡ branch_timers call.now branch.now }
    ensures names { (keys : TimerKeys) → part_standing keys result
        ≡ part_timers call.now.number (owner_of branch.now) keys (branch_timers call.now branch.now) }
{
    RequestPart {
        request: call.number,
        owner: owner_of(branch),
        timers: timers_of_branch(call, invite, branch),
    }
}

/// A branch of an open request, with the timers that it has by its phase.
pub fn branch_part(call: &OpenRequest, branch: &Branch) -> RequestPart
    requires { AreBefore (2 ^ 64) (branch_timers call.now branch.now) }
    ensures slots { AreInSlots result.timers }
    ensures timers { listed result.timers ≡ branch_timers call.now branch.now }
    ensures names { (keys : TimerKeys) → part_standing keys result
        ≡ part_timers call.now.number (owner_of branch.now) keys (branch_timers call.now branch.now) }
{
    branch_part_here(call, is_invite(call), branch)
}

/// The answering side of an open request, with the timers that it has by its phase.
pub fn side_part(call: &OpenRequest) -> RequestPart
    ensures slots { AreInSlots result.timers }
    ensures timers { listed result.timers ≡ side_timers call.now }
    ensures names { (keys : TimerKeys) → part_standing keys result ≡ part_timers call.now.number Of.Server keys (side_timers call.now) }
{
    RequestPart {
        request: call.number,
        owner: Owner::Server,
        timers: timers_of_side(call),
    }
}
