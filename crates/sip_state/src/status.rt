ghost use Rattle.std.specs.Prelude.{◌≡◌};
ghost use Rattle.sip_state.specs.State as States;

use crate::open_request::OpenRequest;

/// Whether a request is an INVITE.
pub fn is_invite(request: &OpenRequest) -> bool
    ensures { result ≡ States.is_invite request.now }
{
    request.key.get().method.is_invite()
}

/// 1xx (RFC 3261 7.2).
pub fn is_provisional(status: u16) -> bool
    ensures { result ≡ States.is_provisional status }
{
    status <= 199
}

/// 2xx.
pub fn is_success(status: u16) -> bool
    ensures { result ≡ States.is_success status }
{
    200 <= status && status <= 299
}

/// 3xx and above.
pub fn is_failure(status: u16) -> bool
    ensures { result ≡ States.is_failure status }
{
    300 <= status
}

/// 6xx.
pub fn is_decline(status: u16) -> bool
    ensures { result ≡ States.is_decline status }
{
    600 <= status
}
