//! What a line of the log asked, and whether something else is decided about it.
ghost use Rattle.std.specs.Prelude.{◌≡◌, IfOk};
ghost use Rattle.std.specs.Option.{option_copied};
ghost use Rattle.sipd_expect.specs.Asking as Definitions;

use sip_audit::{AuditOperation, AuditOutcome, Record};
use sip_policy::{Decision, Operation, Users};
use sip_text::Bytes;
use sipd_ask::Destination;
use std::alloc::{AllocError, Global};

/// The status of an answer to a request for an address that is no user's (RFC 3261 21.4.5).
const NOT_FOUND: u16 = 404;

/// What a line asked for.
pub(crate) fn operation_of(alloc: Global, logged: &Record) -> Result<Operation, AllocError>
    ensures { IfOk result (λ operation. operation ≡ Definitions.operation_by logged.now.operation logged.now.method) }
{
    match logged.operation {
        AuditOperation::Register => Ok(Operation::Register),
        AuditOperation::List => Ok(Operation::List),
        AuditOperation::Send => Ok(Operation::Send(Bytes::copy(alloc, logged.method.as_slice())?)),
    }
}

/// A name, if it is a user's.
fn users_name<'n>(users: &Users, name: &'n [u8]) -> Option<&'n [u8]>
    ensures { option_copied result ≡ Definitions.users_name users.now name.now }
{
    if users.has_name(name) {
        Some(name)
    } else {
        None
    }
}

/// Who asks: the user whom the line says to be proven, if a configuration has him, and else nobody.
pub(crate) fn asker_of<'r>(users: &Users, who: &'r Option<Bytes>) -> Option<&'r [u8]>
    ensures { option_copied result ≡ Definitions.asker_of users.now who.now }
{
    match who {
        Some(name) => users_name(users, name.as_slice()),
        None => None,
    }
}

/// Whether a rule let something through by this number.
fn is_let_through(rule: u32, decision: Decision) -> bool
    ensures { result ≡ Definitions.is_let_through rule decision }
{
    match decision {
        Decision::Allow(id) | Decision::Via(id, _) => rule == id,
        Decision::Deny(_) | Decision::Challenge => false,
    }
}

/// Whether a rule denied something by this number.
fn is_denied(rule: u32, decision: Decision) -> bool
    ensures { result ≡ Definitions.is_denied rule decision }
{
    match decision {
        Decision::Deny(id) => rule == id,
        Decision::Allow(_) | Decision::Via(_, _) | Decision::Challenge => false,
    }
}

fn is_challenge(decision: Decision) -> bool
    ensures { result ≡ Definitions.is_challenge decision }
{
    match decision {
        Decision::Challenge => true,
        Decision::Allow(_) | Decision::Via(_, _) | Decision::Deny(_) => false,
    }
}

/// Whether what goes there is sent on.
fn is_sent(destination: Destination) -> bool
    ensures { result ≡ Definitions.is_sent destination }
{
    match destination {
        Destination::Bindings | Destination::Hop(_) => true,
        Destination::Nowhere | Destination::Registrar | Destination::NotFound => false,
    }
}

/// Whether what goes there may be answered here with a status.
fn is_answered(status: u16, destination: Destination) -> bool
    ensures { result ≡ Definitions.is_answered status destination }
{
    match destination {
        Destination::Registrar => true,
        Destination::Bindings => status != NOT_FOUND,
        Destination::NotFound => status == NOT_FOUND,
        Destination::Nowhere | Destination::Hop(_) => false,
    }
}

/// Whether what became of a request is what is decided about it, by a rule of the same number, and may come of it where that leads.
pub(crate) fn is_same(outcome: AuditOutcome, decision: Decision, destination: Destination) -> bool
    ensures { result ≡ Definitions.is_same outcome decision destination }
{
    match outcome {
        AuditOutcome::Challenge { status: _ } => is_challenge(decision),
        AuditOutcome::Deny { rule } => is_denied(rule, decision),
        AuditOutcome::Sent { rule, targets: _ } => {
            is_let_through(rule, decision) && is_sent(destination)
        }
        AuditOutcome::Answer { rule, status } => {
            is_let_through(rule, decision) && is_answered(status, destination)
        }
    }
}
