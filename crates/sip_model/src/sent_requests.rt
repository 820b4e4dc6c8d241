ghost use Rattle.std.specs.Prelude.{◌≡◌, ℕ, List, [], ◌∷◌};
ghost use Rattle.model_steps.specs.state.declared.server.Server.{Server};
ghost use Rattle.model_steps.specs.state.declared.proxy_state.ProxyState.{ProxyState};
ghost use Rattle.model_steps.specs.state.State.{first_state};
ghost use Rattle.sip_model.specs.Run.{Link, IsChain};
ghost use Rattle.sip_model.specs.Sendings.{invite_moments, GoOutSoOften};

use crate::order::{no_deadline_passed, numbers_rise};
use crate::parts::steps_have_parts;
use model_transactions::copies::{
    begins_with, copy_leaves_one_less, nothing_leaves_more, sent_at, stays_timely,
};

/// The seven moments of an INVITE that is first sent at the moment 0.
pub fn moments_of_an_invite()
    ensures { invite_moments 0 7 ≡ 31500 ∷ 15500 ∷ 7500 ∷ 3500 ∷ 1500 ∷ 500 ∷ 0 ∷ [] }
{}

/// A request that this proxy sends to a target goes out at most eleven times, whatever happens; an INVITE at most
/// seven times, and only 500, 1500, 3500, 7500, 15500 and 31500 ms after its first sending (RFC 3261 17.1.1.2,
/// 17.1.2.2). As long as nothing was heard of an INVITE, each of these sendings has gone out once its moment has come,
/// also of one that is to be cancelled.
pub fn requests_go_out_so_often()
    ensures { (server : Server) (first : ℕ) (history : List Link) (last : ProxyState)
        → IsChain server (first_state first) history last → GoOutSoOften history }
{
    steps_have_parts();
    no_deadline_passed();
    numbers_rise();
    sent_at();
    begins_with();
    stays_timely();
    copy_leaves_one_less();
    nothing_leaves_more();
}
