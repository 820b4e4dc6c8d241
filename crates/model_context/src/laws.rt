ghost use Rattle.std.specs.Prelude.{◌≡◌, ◌≤◌, ℕ, List, count_by};
ghost use Rattle.std.specs.List.{AllByRecursion};
ghost use Rattle.sip_state.specs.declared.server.Server.{Server};
ghost use Rattle.sip_state.specs.declared.open_request.OpenRequest.{OpenRequest};
ghost use Rattle.model_context.specs.BranchById.{is_of_datagram, branch_by_id, HasNumbers};
ghost use Rattle.model_context.specs.FoundBranch.{found_branch};

/// The branch whose text and method are these is found by the two numbers in the text, where no number is that
/// of two open requests: no other text need be compared (RFC 3261 17.1.3).
pub fn found_by_numbers()
    ensures { (server : Server) (text method : List ℕ) (requests : List OpenRequest)
        → ((number : ℕ) → count_by (is_of_datagram number) requests ≤ 1) → AllByRecursion HasNumbers requests
        → found_branch server text method requests ≡ branch_by_id server text method requests }
{}
