ghost use Rattle.std.specs.Prelude.{◌≡◌, IfOk};
ghost use Rattle.sip_policy.specs.Operation.{operation_of, matches_operation};

use sip_text::{Bytes, same_bytes};
use std::alloc::{AllocError, Global};

/// What a request asks for.
#[derive(Drop)]
pub enum Operation {
    /// A REGISTER with a Contact.
    Register,
    /// A REGISTER without Contact, which asks for the bindings (RFC 3261 10.2.3).
    List,
    /// A request of any other method, which is to be sent on.
    Send(Bytes),
}

impl Operation {
    /// What a request of a method asks for, with or without a Contact. `AllocError` is the only refusal.
    pub fn of_request(alloc: Global, method: &[u8], has_contact: bool) -> Result<Self, AllocError>
        ensures { IfOk result (λ operation. operation ≡ operation_of method.now has_contact) }
    {
        if !same_bytes(method, b"REGISTER") {
            return Ok(Operation::Send(Bytes::copy(alloc, method)?));
        }
        if has_contact {
            Ok(Operation::Register)
        } else {
            Ok(Operation::List)
        }
    }
}

/// The operation pattern of a rule.
#[derive(Drop)]
pub enum OperationPattern {
    Register,
    List,
    /// `send METHOD`: requests of that method.
    Send(Bytes),
    /// `send *`: requests of every method that is sent on.
    SendAny,
}

impl Clone for OperationPattern {
    ghost is_clone = { λ pattern copy. copy ≡ pattern };

    fn clone(&self) -> Result<OperationPattern, AllocError> {
        match self {
            OperationPattern::Register => Ok(OperationPattern::Register),
            OperationPattern::List => Ok(OperationPattern::List),
            OperationPattern::Send(method) => Ok(OperationPattern::Send(method.clone()?)),
            OperationPattern::SendAny => Ok(OperationPattern::SendAny),
        }
    }
}

impl OperationPattern {
    /// Whether an operation is of the pattern; methods are compared byte by byte (RFC 3261 7.1). Takes no
    /// memory.
    pub fn matches(&self, operation: &Operation) -> bool
        ensures { result ≡ matches_operation operation.now self.now }
    {
        match (operation, self) {
            (Operation::Register, OperationPattern::Register) => true,
            (Operation::List, OperationPattern::List) => true,
            (Operation::Send(method), OperationPattern::Send(wanted)) => {
                same_bytes(method.as_slice(), wanted.as_slice())
            }
            (Operation::Send(_), OperationPattern::SendAny) => true,
            _ => false,
        }
    }
}
