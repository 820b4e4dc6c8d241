ghost use Rattle.std.specs.Prelude.{ℕ, List};
ghost use Rattle.model_steps.specs.state.declared.server.Server.{Server};
ghost use Rattle.model_steps.specs.state.declared.proxy_state.ProxyState.{ProxyState};
ghost use Rattle.model_steps.specs.state.State.{first_state};
ghost use Rattle.sip_model.specs.Run.{Link, IsChain};
ghost use Rattle.sip_model.specs.Endings.{EndInTime};

use crate::order::{no_deadline_passed, requests_can_end};
use crate::parts::steps_have_parts;

/// Over every history each open request ends in time, whatever its caller and who is called do or leave
/// undone. Once a datagram was taken, or time passed up to a moment, no request is open that came 64 seconds
/// before, unless it is an INVITE, and no INVITE that came 254 seconds before and got no response of 101 to 199
/// since: only who is called can keep one open for longer, by such responses.
pub fn requests_end_in_time()
    ensures { (server : Server) (first : ℕ) (history : List Link) (last : ProxyState)
        → IsChain server (first_state first) history last → EndInTime server history }
{
    steps_have_parts();
    requests_can_end();
    no_deadline_passed();
}
