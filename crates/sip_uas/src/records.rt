ghost use Rattle.std.specs.Prelude.{◌≡◌, [], ◌∷◌, IfOk};
ghost use Rattle.std.specs.Option.{option_copied};
ghost use Rattle.sip_message_form.specs.declared.message.Message.{Message};
ghost use Rattle.sip_message_form.specs.ViewStart.{start_seen};
ghost use Rattle.sip_forwarding.specs.Arrivals.{arrival_of};
ghost use Rattle.sip_forwarding.specs.steps_model.Effect as Effects;
ghost use Rattle.sip_dialog_updates.specs.state.declared.server.Server.{Server};
ghost use Rattle.sip_verdict.specs.verdict_model.Verdict.{minute_on};

use sip_audit::{AuditOutcome, Record};
use sip_forwarding::Arrival;
use sip_message_form::ViewStart;
use sip_policy::Operation;
use sip_text::{Bytes, Items};
use sip_verdict::Judged;
use std::alloc::{AllocError, Global};

/// The method that the first line of a request says; a response has none. Takes no memory.
pub fn method_of<'v>(start: &ViewStart<'v>) -> &'v [u8]
    ensures { result.now ≡ Effects.method_of (start_seen start.now) }
{
    match start {
        ViewStart::Request { method, .. } => method,
        ViewStart::Status { .. } => &[],
    }
}

/// An operation as it is recorded. Takes no memory.
pub fn recorded(operation: &Operation) -> sip_audit::AuditOperation
    ensures { result ≡ Effects.recorded operation.now }
{
    match operation {
        Operation::Register => sip_audit::AuditOperation::Register,
        Operation::List => sip_audit::AuditOperation::List,
        Operation::Send(_) => sip_audit::AuditOperation::Send,
    }
}

/// The same name, or none.
fn copied_name(alloc: Global, name: Option<&[u8]>) -> Result<Option<Bytes>, AllocError>
    ensures { IfOk result (λ copy. copy ≡ option_copied name.entry) }
{
    match name {
        Some(name) => Ok(Some(Bytes::copy(alloc, name)?)),
        None => Ok(None),
    }
}

/// What is recorded of a request with this first line that policy was asked about, and that came in a datagram: its method,
/// the name of the user that it proves to come from, the address of record that it is for, the minute of the ruling on it,
/// and what became of it. It is made where it stands.
pub(crate) fn record_of(
    alloc: Global,
    arrival: Arrival,
    start: &ViewStart<'_>,
    judged: &Judged<'_>,
    outcome: AuditOutcome,
) -> Result<Items<Record>, AllocError>
    ensures { IfOk result (λ made. (server : Server) (request : Message) → request.start ≡ start_seen start.now
        → judged.now.minute ≡ minute_on server judged.now.question
        → made ≡ Effects.record_of server (arrival_of arrival) request judged.now.question outcome ∷ []) }
{
    let question = &judged.question;
    let mut records = Items::with_room(alloc, 1)?;
    let method = Bytes::copy(alloc, method_of(start))?;
    let who = copied_name(alloc, question.proof.name())?;
    let target = question.target.clone()?;
    records.push(Record {
        at: arrival.now,
        number: arrival.number,
        method,
        who,
        target,
        operation: recorded(&question.operation),
        minute: judged.minute,
        outcome,
    })?;
    Ok(records)
}
