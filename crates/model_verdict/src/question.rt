use sip_auth::Proof;
use sip_policy::Operation;
use sip_uri::Aor;

/// What policy is asked about a request.
pub struct Question<'v> {
    /// Whom it proves to come from.
    pub proof: Proof<'v>,
    /// What it asks for.
    pub operation: Operation,
    /// The address of record that it is for.
    pub target: Aor,
    /// The minute of the day at which it came.
    pub minute: u16,
}

/// Written out, so that it is proved once and not wherever one is dropped.
impl<'v> Drop for Question<'v> {
    fn drop(self) {
        let Question {
            proof: _,
            operation: _,
            target: _,
            minute: _,
        } = self;
    }
}
