ghost use Rattle.std.specs.Prelude.{ℕ, List, [], ◌∷◌};
ghost use Rattle.std.specs.List.{AllByRecursion};
ghost use Rattle.sip_uri.specs.declared.addr.Addr.{Addr};
ghost use Rattle.sip_message_form.specs.declared.message.Message.{Message};
ghost use Rattle.sip_targets.specs.declared.target.Target.{Target};
ghost use Rattle.sip_context_branches.specs.state.Arrival.{Arrival};
ghost use Rattle.sip_context_branches.specs.state.declared.branch.Branch.{Branch};
ghost use Rattle.sip_context_branches.specs.state.declared.open_request.OpenRequest.{OpenRequest};
ghost use Rattle.sip_context_branches.specs.state.declared.server.Server.{Server};
ghost use Rattle.sip_context_branches.specs.context_model.Opening.{closing, branches_from, dialog_branch, forking, opening};
ghost use Rattle.model_transactions.specs.Near.{IsBranchWithin, IsWithin};

/// A request that is answered at once is near the moment at which it comes (RFC 3261 17.2).
pub fn answered_at_once()
    ensures { (a : Arrival) (m : Message) (status : ℕ) (text : List ℕ) → IsWithin a.now (closing a m status text) }
{}

/// Branches are near the moment at which they are sent to: those to targets, and that of a request in a dialog (RFC
/// 3261 16.6, 16.12).
pub fn branches_begin()
    ensures targets { (now number : ℕ) (targets : List Target) → AllByRecursion (IsBranchWithin now) (branches_from now number targets) }
    ensures dialog { (server : Server) (now : ℕ) (m : Message) (address : Addr) → IsBranchWithin now (dialog_branch server now m address) }
{}

/// A request that is sent on is near the moment at which it comes, before anything is sent and after it.
pub fn sent_on()
    ensures forking { (a : Arrival) (m : Message) (branches : List Branch) → AllByRecursion (IsBranchWithin a.now) branches
        → IsWithin a.now (forking a m branches) }
    ensures opening { (server : Server) (now : ℕ) (r : OpenRequest) → IsWithin now r → IsWithin now (opening server now r).request }
    ensures targets { (server : Server) (a : Arrival) (m : Message) (number : ℕ) (targets : List Target)
        → IsWithin a.now (opening server a.now (forking a m (branches_from a.now number targets))).request }
    ensures dialog { (server : Server) (a : Arrival) (m : Message) (address : Addr)
        → IsWithin a.now (opening server a.now (forking a m (dialog_branch server a.now m address ∷ []))).request }
{}
