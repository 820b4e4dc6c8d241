ghost use Rattle.std.specs.Prelude.{◌≡◌, ◌≢◌, ◌≤◌, ◌^◌, ℕ, true, List, codes, Some};
ghost use Rattle.sip_message_fields.specs.declared.field.Field.{Field};
ghost use Rattle.sip_model.specs.state.declared.server.Server.{Server};
ghost use Rattle.sip_model.specs.state.declared.branch.Branch.{Branch};
ghost use Rattle.sip_model.specs.state.declared.open_request.OpenRequest.{OpenRequest};
ghost use Rattle.sip_model.specs.state.declared.proxy_state.ProxyState.{ProxyState};
ghost use Rattle.sip_model.specs.state.State.{first_state};
ghost use Rattle.sip_model.specs.context_model.Branches.{is_same_branch};
ghost use Rattle.sip_model.specs.verdict_model.Verdict.{responding};
ghost use Rattle.sip_model.specs.Run.{Link, IsChain};
ghost use Rattle.model_laws.specs.Responses.{IsOfBranch, IsGivenTo};

use sip_edit::laws::branches_are_read_back;
use sip_model::order::{branches_are_found_by_numbers, numbers_differ, numbers_fit};

/// A response is given to the branch that it says, and to no other (RFC 3261 17.1.3): the request is open, the branch
/// is one of its branches, the top Via is this server's with the text that it put there for that branch, and CSeq has
/// the branch's method. And over every history each response that says a branch of an open request is given to one
/// of that request with that number and method: where the request is no CANCEL itself, to that very branch.
pub fn response_belongs_to_branch()
    ensures taken { (server : Server) (requests : List OpenRequest) (fields : List Field) (r : OpenRequest) (b : Branch)
        → responding server requests fields ≡ Some (r, b) → IsOfBranch server requests fields r b }
    ensures given { (server : Server) (first : ℕ) (history : List Link) (last : ProxyState)
        → IsChain server (first_state first) history last → last.next ≤ 2 ^ 64
        → (fields : List Field) (r : OpenRequest) (b : Branch) → IsOfBranch server last.requests fields r b
        → IsGivenTo server last.requests fields r b }
    ensures same { (server : Server) (requests : List OpenRequest) (fields : List Field) (r : OpenRequest) (b found : Branch)
        → IsOfBranch server requests fields r b
        → responding server requests fields ≡ Some (r, found) → found.number ≡ b.number → r.key.method ≢ codes "CANCEL"
        → is_same_branch found b ≡ true }
{
    branches_are_read_back();
    numbers_differ();
    numbers_fit();
    branches_are_found_by_numbers();
}
