ghost use Rattle.std.specs.Prelude.{ℕ, List};
ghost use Rattle.std.specs.List.{AllByRecursion};
ghost use Rattle.model_steps.specs.state.declared.server.Server.{Server};
ghost use Rattle.model_steps.specs.state.declared.open_request.OpenRequest.{OpenRequest};
ghost use Rattle.model_steps.specs.state.declared.proxy_state.ProxyState.{ProxyState};
ghost use Rattle.model_steps.specs.state.State.{first_state};
ghost use Rattle.sip_model.specs.Run.{Link, IsChain};
ghost use Rattle.model_transactions.specs.Matching.{AreBranched};
ghost use Rattle.model_transactions.specs.Queue.{AreApart};

use crate::order::numbers_rise;
use crate::parts::steps_have_parts;

/// In each state to which steps of the model led, every open request has branches to targets, each with a number of its own, and right
/// behind some of them the CANCEL that was sent to it (RFC 3261 9.1, 16.6). So no two of the timers that stand then are alike.
pub fn open_requests_are_branched()
    ensures branched { (server : Server) (first : ℕ) (history : List Link) (last : ProxyState) → IsChain server (first_state first) history last
        → AllByRecursion (λ (r : OpenRequest). AreBranched r.branches) last.requests }
    ensures apart { (server : Server) (first : ℕ) (history : List Link) (last : ProxyState) → IsChain server (first_state first) history last
        → AreApart last.requests }
{
    numbers_rise();
    steps_have_parts();
}
