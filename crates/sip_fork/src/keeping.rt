ghost use Rattle.std.specs.Prelude.{◌≡◌, ◌≤◌, ◌<◌, ◌^◌, ℕ, Contains, Some, slice_get};
ghost use Rattle.sip_dialog_updates.specs.state.declared.branch.Branch.{Branch};
ghost use Rattle.sip_dialog_updates.specs.state.declared.open_request.OpenRequest.{OpenRequest};
ghost use Rattle.sip_dialog_updates.specs.state.declared.server.Server.{Server};
ghost use Rattle.sip_context.specs.declared.input.Input.{Input};
ghost use Rattle.sip_context.specs.declared.sent.Sent.{Sent};
ghost use Rattle.sip_context.specs.Inputs.{IsFit, outcome, outcome_of};
ghost use Rattle.sip_request.specs.transactions_model.Fits.{Fits};
ghost use Rattle.sip_request.specs.transactions_model.Near.{IsWithin};
ghost use Rattle.sip_fork.specs.Keeping.{IsKeptAs, IsOf};

use sip_request::transactions_model::bounds::{branches_are_within, leaves_room};
use sip_request::transactions_model::branches::{branches_are_kept, branches_stay};
use sip_request::transactions_model::events::{
    caller_keeps, deadline_keeps, fault_keeps, resend_keeps, response_keeps,
};
use sip_request::transactions_model::fitting_events::{goes_again_fitting, stays_fitting};

/// The branch at a place of a request is one of its branches.
pub fn places_hold_branches()
    ensures { (r : OpenRequest) (place : ℕ) (b : Branch) → slice_get r.branches place ≡ Some b → Contains r.branches b }
{}

/// Where the moments of a request are near a bound of less than 2^62 ms, each input of it counts on from moments that
/// leave room for the next ones.
pub fn inputs_fit()
    ensures { (bound now : ℕ) (r : OpenRequest) (input : Input) → bound < 2 ^ 62 → IsWithin bound r → IsOf r now input → IsFit r input }
{
    branches_are_within();
    leaves_room();
}

/// Each input of a request leaves it as it is to be kept: what comes of it at once, and each request that it comes to
/// as it was planned (RFC 3261 16.7 to 16.10, 17).
pub fn inputs_keep()
    ensures change { (server : Server) (bound now : ℕ) (r : OpenRequest) (input : Input) → Fits r → IsWithin bound r → bound ≤ now → IsOf r now input
        → IsKeptAs now r (outcome_of server now r input).request }
    ensures planned { (server : Server) (bound now : ℕ) (r x : OpenRequest) (sent : Sent) (input : Input) → Fits r → IsWithin bound r
        → bound ≤ now → IsOf r now input
        → outcome x sent ≡ outcome_of server now r input → IsKeptAs now r x }
{
    branches_are_within();
    stays_fitting();
    goes_again_fitting();
    response_keeps();
    deadline_keeps();
    fault_keeps();
    caller_keeps();
    resend_keeps();
    branches_are_kept();
    branches_stay();
}
