ghost use Rattle.std.specs.Prelude.{◌≡◌, ◌≤◌, ℕ, List, Some};
ghost use Rattle.sip_message_form.specs.declared.message.Message.{Message};
ghost use Rattle.sip_event.specs.declared.packet.Packet.{Packet};
ghost use Rattle.sip_context_branches.specs.state.declared.branch.Branch.{Branch};
ghost use Rattle.sip_context_branches.specs.state.declared.open_request.OpenRequest.{OpenRequest};
ghost use Rattle.sip_context_branches.specs.state.declared.server.Server.{Server};
ghost use Rattle.sip_context_branches.specs.context_model.Branches.{responded, overdue, side_overdue, send_failed, cancelled, acknowledged};
ghost use Rattle.sip_context_branches.specs.context_model.Retransmission.{IsResent, answer_due, answer_next, branch_due, with_resend};
ghost use Rattle.model_transactions.specs.Near.{IsBranchWithin, IsWithin};

/// A response to a branch of a request leaves it near the moment at which it comes (RFC 3261 16.7).
pub fn response_keeps()
    ensures { (server : Server) (bound now : ℕ) (r : OpenRequest) (b : Branch) (status : ℕ) (m : Message) → bound ≤ now
        → IsBranchWithin bound b → IsWithin bound r
        → IsWithin now (responded server now r b status m).request }
{}

/// So does a deadline that passes, of a branch or of the answering side (RFC 3261 16.8, 17).
pub fn deadline_keeps()
    ensures branch { (server : Server) (bound now : ℕ) (r : OpenRequest) (b : Branch) → bound ≤ now → IsBranchWithin bound b
        → IsWithin bound r → IsWithin now (overdue server now r b).request }
    ensures side { (server : Server) (bound now : ℕ) (r : OpenRequest) → bound ≤ now → IsWithin bound r
        → IsWithin now (side_overdue server now r).request }
{}

/// So does a send to a branch that failed (RFC 3261 16.9).
pub fn fault_keeps()
    ensures { (server : Server) (bound now : ℕ) (r : OpenRequest) (b : Branch) → bound ≤ now → IsBranchWithin bound b → IsWithin bound r
        → IsWithin now (send_failed server now r b).request }
{}

/// So do a CANCEL and an ACK of the caller's (RFC 3261 16.10, 17.2.1).
pub fn caller_keeps()
    ensures cancel { (server : Server) (bound now : ℕ) (r : OpenRequest) → bound ≤ now → IsWithin bound r
        → IsWithin now (cancelled server now r).request }
    ensures ack { (bound now : ℕ) (r : OpenRequest) → bound ≤ now → IsWithin bound r → IsWithin now (acknowledged now r) }
{}

/// So does what goes again, at its own moment or a later one, however long it waited before (RFC 3261 17.1.1.2,
/// 17.1.2.2, 17.2.1).
pub fn resend_keeps()
    ensures answer { (bound now due : ℕ) (r : OpenRequest) → bound ≤ now → due ≤ now → answer_due r ≡ Some due → IsWithin bound r
        → IsWithin now (record r { again = answer_next r }) }
    ensures branch { (bound now due : ℕ) (r : OpenRequest) (b : Branch) → bound ≤ now → due ≤ now → branch_due r b ≡ Some due
        → IsWithin bound r → IsWithin now (with_resend b r) }
    ensures either { (server : Server) (bound now due : ℕ) (r next : OpenRequest) (packets : List Packet) → bound ≤ now → due ≤ now
        → IsResent server due r packets next → IsWithin bound r → IsWithin now next }
{}
