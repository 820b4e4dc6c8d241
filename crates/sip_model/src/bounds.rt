ghost use Rattle.std.specs.Prelude.{ℕ, List, Option};
ghost use Rattle.sip_event.specs.declared.event.StepOut.{StepOut};
ghost use Rattle.model_steps.specs.state.declared.server.Server.{Server};
ghost use Rattle.model_steps.specs.state.declared.proxy_state.ProxyState.{ProxyState};
ghost use Rattle.model_steps.specs.state.State.{first_state};
ghost use Rattle.sip_model.specs.Run.{Link, IsChain};
ghost use Rattle.sip_model.specs.Periods.{Period, IsRunUnder};
ghost use Rattle.sip_model.specs.Bounds.{IsBounded};

use crate::endings::requests_end_in_time;
use crate::final_answers::{final_answers_go_again, one_final_answer_in_packets};
use crate::periods::runs_under_are_one;
use crate::sent_cancels::{cancels_go_out_so_often, one_cancel_for_each_branch};
use crate::sent_requests::requests_go_out_so_often;

/// Every history is bounded, whatever comes and whatever fails: of each request at most one final answer goes to its
/// caller, or several 2xx of an INVITE, and goes again as often as copies of the request come, to an INVITE ten times more
/// by time; the request goes out to a target eleven times at most, an INVITE seven times, at its moments
/// alone, and a CANCEL of this server's eleven times, of which one is the first, for each branch; and each request is
/// closed in time.
pub fn every_history_is_bounded()
    ensures { (server : Server) (first : ℕ) (history : List Link) (last : ProxyState) → IsChain server (first_state first) history last
        → IsBounded server history }
{
    one_final_answer_in_packets();
    final_answers_go_again();
    requests_go_out_so_often();
    cancels_go_out_so_often();
    one_cancel_for_each_branch();
    requests_end_in_time();
}

/// So are runs under one configuration after the other, as a whole: a change of the configuration lets nothing go out more often, and
/// nothing stay open longer.
pub fn runs_under_are_bounded()
    ensures { (server : Server) (first : ℕ) (periods : List Period) (until : Option ℕ) (steps : List StepOut) (history : List Link)
        (last : ProxyState)
        → IsRunUnder server (first_state first) periods until steps history last → IsBounded server history }
{
    every_history_is_bounded();
    runs_under_are_one();
}
