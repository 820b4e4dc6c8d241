ghost use Rattle.std.specs.Prelude.{◌≡◌, ◌&&◌, not, true, false};
ghost use Rattle.sip_context_branches.specs.state.declared.branch.Branch.{Branch};
ghost use Rattle.sip_context_branches.specs.state.declared.open_request.OpenRequest.{OpenRequest};
ghost use Rattle.sip_context_branches.specs.state.State.{is_invite};
ghost use Rattle.model_transactions.specs.Fits.{Fits, BranchFits, HasInviteClient, HasOtherClient, HasInviteServer, HasOtherServer};

/// A branch that fits has a state of its client transaction: of that of an INVITE, or of the other one.
pub fn branches_have_states()
    ensures invite { (r : OpenRequest) (b : Branch) → BranchFits (is_invite r) b → (is_invite r && not b.is_cancel) ≡ true → HasInviteClient b }
    ensures other { (r : OpenRequest) (b : Branch) → BranchFits (is_invite r) b → (is_invite r && not b.is_cancel) ≡ false → HasOtherClient b }
{}

/// An open request that fits has a state of its server transaction.
pub fn sides_have_states()
    ensures invite { (r : OpenRequest) → Fits r → is_invite r ≡ true → HasInviteServer r }
    ensures other { (r : OpenRequest) → Fits r → is_invite r ≡ false → HasOtherServer r }
{}
