ghost use Rattle.std.specs.Prelude.{◌≡◌};
ghost use Rattle.sip_policy_index.specs.Code as Definitions;

use sip_base::mixed;
use sip_policy::{OperationPattern, Who};

/// The code of `register`.
pub(crate) const REGISTER: u64 = 1;

/// The code of `list`.
pub(crate) const LIST: u64 = 2;

/// The code of `send *`.
pub(crate) const SEND_ANY: u64 = 3;

/// What stands before the method in the code of `send METHOD`.
pub(crate) const SEND: u64 = 4;

/// What stands for `anyone` and for `proven` behind the code of an operation pattern.
pub(crate) const EACH_USER: u64 = 1;

/// What stands before a user's name.
pub(crate) const USER: u64 = 2;

/// What stands before a group's name.
pub(crate) const GROUP: u64 = 3;

/// A code with a text behind it.
#[tactic(auto, unfolding(crate::specs::Code::text_code))]
pub(crate) fn text_code(start: u64, text: &[u8]) -> u64
    ensures { result ≡ Definitions.text_code start text.now }
{
    text.iter()
        .fold(start, |code, byte| mixed(code, u64::from(*byte)))
}

/// The code of an operation pattern.
pub(crate) fn operation_code(pattern: &OperationPattern) -> u64
    ensures { result ≡ Definitions.operation_code pattern.now }
{
    match pattern {
        OperationPattern::Register => REGISTER,
        OperationPattern::List => LIST,
        OperationPattern::SendAny => SEND_ANY,
        OperationPattern::Send(method) => text_code(SEND, method.as_slice()),
    }
}

/// The code of an operation pattern's code and a user pattern.
pub(crate) fn class_code(operation: u64, who: &Who) -> u64
    ensures { result ≡ Definitions.class_code operation who.now }
{
    match who {
        Who::Anyone | Who::Proven => mixed(operation, EACH_USER),
        Who::User(name) => text_code(mixed(operation, USER), name.as_slice()),
        Who::Group(group) => text_code(mixed(operation, GROUP), group.as_slice()),
    }
}
