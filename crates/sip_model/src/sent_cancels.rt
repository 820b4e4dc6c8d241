ghost use Rattle.std.specs.Prelude.{◌≡◌, ℕ, Bool, true, false, List, codes};
ghost use Rattle.std.specs.List.{AllByRecursion};
ghost use Rattle.model_steps.specs.state.declared.server.Server.{Server};
ghost use Rattle.model_steps.specs.state.declared.proxy_state.ProxyState.{ProxyState};
ghost use Rattle.model_steps.specs.state.declared.branch.Branch.{Branch};
ghost use Rattle.model_steps.specs.state.declared.open_request.OpenRequest.{OpenRequest};
ghost use Rattle.model_steps.specs.state.State.{first_state};
ghost use Rattle.model_steps.specs.context_model.Sending.{branch_packets};
ghost use Rattle.sip_model.specs.Run.{Link, IsChain};
ghost use Rattle.sip_model.specs.Cancels.{begins_cancel, IsOwnCancel, GoOutElevenTimes, HasOneCancelEach};
ghost use Rattle.sip_model.specs.SecondCancel.{second_cancel};
ghost use Rattle.model_steps.specs.context_model.Calls.{sample};

use crate::parts::steps_have_parts;
use model_transactions::copies::{
    begins_with, copy_leaves_one_less, nothing_leaves_more, sent_at, stays_timely,
};

/// A CANCEL that this proxy sends to a target, once its INVITE is to end, goes out at most eleven times, whatever
/// happens: for each time it is sent first at most ten copies follow, by the deadline of its transaction (RFC 3261
/// 9.1, 17.1.2.2: Timers E and F).
pub fn cancels_go_out_so_often()
    ensures { (server : Server) (first : ℕ) (history : List Link) (last : ProxyState)
        → IsChain server (first_state first) history last → GoOutElevenTimes history }
{
    steps_have_parts();
    sent_at();
    begins_with();
    stays_timely();
    copy_leaves_one_less();
    nothing_leaves_more();
}

/// Each branch is sent its CANCEL for the first time at most once, whatever happens: of all first sendings of a history
/// those that are CANCELs of this server are those of branches, each of another one (RFC 3261 9.1).
pub fn one_cancel_for_each_branch()
    ensures { (server : Server) (first : ℕ) (history : List Link) (last : ProxyState)
        → IsChain server (first_state first) history last → HasOneCancelEach server history }
{
    steps_have_parts();
    sent_at();
    begins_with();
    stays_timely();
    copy_leaves_one_less();
    nothing_leaves_more();
}

/// A history in which a target is sent a second CANCEL, for the first time like the one before it, doesn't have that.
pub fn second_cancel_is_refused()
    ensures { HasOneCancelEach sample second_cancel → ⊥ }
{}

/// What is sent for a CANCEL, first and again, is what this law counts: its ticket names no branch, and it begins with
/// its method.
pub fn cancels_are_counted()
    ensures { (server : Server) (again : Bool) (r : OpenRequest) (b : Branch) → b.is_cancel ≡ true
        → AllByRecursion IsOwnCancel (branch_packets server again r b) }
{}

/// A CANCEL is told by its bytes from what else bears no branch on its ticket: an answer, and an ACK.
pub fn cancels_are_told_apart()
    ensures cancel { begins_cancel (codes "CANCEL sip:bob@example.com SIP/2.0\r\n") ≡ true }
    ensures ack { begins_cancel (codes "ACK sip:bob@example.com SIP/2.0\r\n") ≡ false }
    ensures answer { begins_cancel (codes "SIP/2.0 200 OK\r\n") ≡ false }
{}
