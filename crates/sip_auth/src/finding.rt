use crate::right_claim::RightClaim;
use sip_base::Shared;

/// Whom a request proves to come from: a user by a claim that is right, a user but for the nonce, or nobody.
pub(crate) enum Finding<'v> {
    /// It stands apart: what policy is asked is handed on, and is small so.
    Right(Shared<RightClaim<'v>>),
    Stale,
    Wrong,
}

/// Written out, so that it is proved once and not wherever a proof is dropped.
impl<'v> Drop for Finding<'v> {
    fn drop(self) {
        match self {
            Finding::Right(_) => {}
            Finding::Stale | Finding::Wrong => {}
        }
    }
}
