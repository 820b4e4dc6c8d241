ghost use Rattle.std.specs.Prelude.{ℕ, List, [], ◌∷◌, Contains};
ghost use Rattle.std.specs.List.{AllByRecursion};
ghost use Rattle.sip_message_form.specs.declared.message.Message.{Message};
ghost use Rattle.sip_targets.specs.declared.target.Target.{Target};
ghost use Rattle.sip_uri.specs.declared.addr.Addr.{Addr};
ghost use Rattle.model_transactions.specs.Matching.{AreBranched};
ghost use Rattle.sip_context_branches.specs.context_model.Branches.{acknowledged, responded, overdue, side_overdue, send_failed, cancelled};
ghost use Rattle.sip_context_branches.specs.context_model.Opening.{branches_from, dialog_branch, opening};
ghost use Rattle.sip_context_branches.specs.context_model.Retransmission.{with_resend};
ghost use Rattle.sip_context_branches.specs.state.declared.branch.Branch.{Branch};
ghost use Rattle.sip_context_branches.specs.state.declared.open_request.OpenRequest.{OpenRequest};
ghost use Rattle.sip_context_branches.specs.state.declared.server.Server.{Server};
ghost use Rattle.model_transactions.specs.Queue.{AreApart};
ghost use Rattle.model_transactions.specs.Kept.{AreKept, AreNumbered};

/// What may send a CANCEL keeps the branches: a response to one of them, a deadline of one and of the answering side, a packet that
/// couldn't be sent, and the caller's CANCEL (RFC 3261 16.7 to 16.10, 17).
pub fn branches_are_kept()
    ensures responded { (server : Server) (now status : ℕ) (r : OpenRequest) (b : Branch) (m : Message) → AreBranched r.branches → Contains r.branches b
        → AreKept r.branches (responded server now r b status m).request.branches }
    ensures overdue { (server : Server) (now : ℕ) (r : OpenRequest) (b : Branch) → AreBranched r.branches → AreKept r.branches (overdue server now r b).request.branches }
    ensures side_overdue { (server : Server) (now : ℕ) (r : OpenRequest) → AreBranched r.branches → AreKept r.branches (side_overdue server now r).request.branches }
    ensures send_failed { (server : Server) (now : ℕ) (r : OpenRequest) (b : Branch) → AreBranched r.branches → AreKept r.branches (send_failed server now r b).request.branches }
    ensures cancelled { (server : Server) (now : ℕ) (r : OpenRequest) → AreBranched r.branches → AreKept r.branches (cancelled server now r).request.branches }
{}

/// What sends no CANCEL keeps the branches, too: what goes again of one of them, the caller's ACK, and what leaves them as they are
/// (RFC 3261 17).
pub fn branches_stay()
    ensures branch_again { (r : OpenRequest) (b : Branch) → AreBranched r.branches → AreKept r.branches (with_resend b r).branches }
    ensures acknowledged { (now : ℕ) (r : OpenRequest) → AreBranched r.branches → AreKept r.branches (acknowledged now r).branches }
    ensures unchanged { (bs : List Branch) → AreBranched bs → AreKept bs bs }
{}

/// A request that is sent on has branches with numbers of their own, before anything is sent and after it (RFC 3261 16.6, 16.12).
pub fn branches_begin()
    ensures targets { (now number : ℕ) (targets : List Target) → AreBranched (branches_from now number targets) }
    ensures dialog { (server : Server) (now : ℕ) (m : Message) (address : Addr) → AreBranched (dialog_branch server now m address ∷ []) }
    ensures opening { (server : Server) (now : ℕ) (r : OpenRequest) → AreBranched r.branches → AreBranched (opening server now r).request.branches }
    ensures joined { (bs : List Branch) → AreBranched bs → AreKept [] bs }
{}

/// Where open requests stand in rising order of their numbers, each with such branches, no two of their timers are alike.
pub fn timers_are_apart()
    ensures { (requests : List OpenRequest) → AreNumbered requests → AllByRecursion (λ (r : OpenRequest). AreBranched r.branches) requests → AreApart requests }
{}
