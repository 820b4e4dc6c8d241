ghost use Rattle.std.specs.Prelude.{◌≡◌, ℕ, true, List, [], ◌∷◌, Contains};
ghost use Rattle.sip_message_form.specs.declared.message.Message.{Message};
ghost use Rattle.sip_context_branches.specs.state.Arrival.{Arrival};
ghost use Rattle.sip_context_branches.specs.state.declared.server.Server.{Server};
ghost use Rattle.sip_context_branches.specs.state.declared.branch.Branch.{Branch};
ghost use Rattle.sip_context_branches.specs.state.declared.open_request.OpenRequest.{OpenRequest};
ghost use Rattle.sip_context_branches.specs.state.State.{is_answering};
ghost use Rattle.sip_context_branches.specs.context_model.Branches.{responded, overdue, side_overdue, send_failed, cancelled, acknowledged};
ghost use Rattle.sip_context_branches.specs.context_model.Opening.{closing, branches_from, dialog_branch, forking, opening};
ghost use Rattle.sip_context_branches.specs.context_model.Retransmission.{answer_next, with_resend};
ghost use Rattle.sip_targets.specs.declared.target.Target.{Target};
ghost use Rattle.sip_uri.specs.declared.addr.Addr.{Addr};
ghost use Rattle.model_transactions.specs.Fits.{Fits, IsFinalAnswer};
/// A request that comes fits: one that is answered at once, with a final answer; one that is sent to its targets, or
/// on in its dialog; and what it is once its first packets went (RFC 3261 16.6, 17.2).
pub fn opens_fitting()
    ensures answered { (a : Arrival) (m : Message) (status : ℕ) (text : List ℕ) → IsFinalAnswer status → Fits (closing a m status text) }
    ensures sent { (a : Arrival) (m : Message) (targets : List Target) → Fits (forking a m (branches_from a.now 1 targets)) }
    ensures sent_within { (server : Server) (a : Arrival) (m : Message) (address : Addr)
        → Fits (forking a m (dialog_branch server a.now m address ∷ [])) }
    ensures begun { (server : Server) (now : ℕ) (r : OpenRequest) → is_answering r.side ≡ true → Fits r → Fits (opening server now r).request }
{}

/// Every event leaves the parts fitting: a response to a branch, a deadline of a branch and of the answering side, a
/// packet that couldn't be sent, the caller's CANCEL and ACK (RFC 3261 16.7 to 16.10, 17).
pub fn stays_fitting()
    ensures responded { (server : Server) (now status : ℕ) (r : OpenRequest) (b : Branch) (m : Message) → Fits r → Contains r.branches b
        → Fits (responded server now r b status m).request }
    ensures overdue { (server : Server) (now : ℕ) (r : OpenRequest) (b : Branch) → Fits r → Fits (overdue server now r b).request }
    ensures side_overdue { (server : Server) (now : ℕ) (r : OpenRequest) → Fits r → Fits (side_overdue server now r).request }
    ensures send_failed { (server : Server) (now : ℕ) (r : OpenRequest) (b : Branch) → Fits r → Fits (send_failed server now r b).request }
    ensures cancelled { (server : Server) (now : ℕ) (r : OpenRequest) → Fits r → Fits (cancelled server now r).request }
    ensures acknowledged { (now : ℕ) (r : OpenRequest) → Fits r → Fits (acknowledged now r) }
{}

/// What goes again leaves the parts fitting (RFC 3261 17).
pub fn goes_again_fitting()
    ensures branch { (r : OpenRequest) (b : Branch) → Fits r → Fits (with_resend b r) }
    ensures answer { (r : OpenRequest) → Fits r → Fits (record r { again = answer_next r }) }
{}
