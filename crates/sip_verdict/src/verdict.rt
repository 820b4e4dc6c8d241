ghost use Rattle.std.specs.Prelude.{◌≡◌};
ghost use Rattle.sip_verdict.specs.Verdict.{plan_of};

use crate::Registering;
use model_verdict::Question;
use sip_dialog::DialogId;
use sip_location::RegisterPlan;
use sip_message_fields::Fields;
use sip_targets::Targets;
use sip_transaction_table::Boxed;
use sip_uri::Addr;

/// What is to be done with a request that no open one is found for.
#[derive(Drop)]
pub enum Verdict<'v> {
    /// Nothing.
    Dropped,
    /// It is an ACK, which is sent on to this address in this dialog.
    AckOn(Addr, DialogId),
    /// It is a CANCEL, and isn't refused: what becomes of it is decided by the request that it names.
    Cancel,
    /// It is answered with this status and these further fields.
    Answer(u16, Fields),
    /// It is sent on to this address in this dialog.
    InDialog(Addr, DialogId),
    /// Policy decided about it. What it was asked is large, and stands apart: a verdict is moved often.
    Judged(Boxed<Judged<'v>>),
}

/// What policy was asked about a request, and what comes of what it decided.
pub struct Judged<'v> {
    pub question: Question<'v>,
    /// The minute of the day that is recorded, where the rule that decided has a window; of a challenge none.
    pub minute: Option<u16>,
    pub outcome: PolicyOutcome,
}

/// Written out, so that it is proved once and not wherever one is dropped.
impl<'v> Drop for Judged<'v> {
    fn drop(self) {
        let Judged {
            question: _,
            minute: _,
            outcome: _,
        } = self;
    }
}

impl<'v> Judged<'v> {
    /// What came of what policy decided.
    pub fn into_outcome(self) -> PolicyOutcome
        ensures { result ≡ self.entry.outcome }
    {
        let Judged {
            question: _,
            minute: _,
            outcome,
        } = self;
        outcome
    }
}

/// What comes of what policy decided. The first numbers are those of the deciding rules; 0 is no rule's.
pub enum PolicyOutcome {
    /// The one who asks has to prove to be a user first.
    Challenge,
    /// It is denied.
    Deny(u32),
    /// It goes to these targets.
    Send(u32, Targets),
    /// It is a REGISTER, and comes to this.
    Register(u32, Registering),
}

/// Written out, so that it is proved once and not wherever one is dropped.
impl Drop for PolicyOutcome {
    fn drop(self) {
        match self {
            PolicyOutcome::Challenge => {}
            PolicyOutcome::Deny(_) => {}
            PolicyOutcome::Send(_, _) => {}
            PolicyOutcome::Register(_, _) => {}
        }
    }
}

impl PolicyOutcome {
    /// The bindings that are planned, if any are.
    pub fn into_plan(self) -> Option<RegisterPlan>
        ensures { result ≡ plan_of self }
    {
        match self {
            PolicyOutcome::Register(_, registering) => registering.into_plan(),
            PolicyOutcome::Challenge | PolicyOutcome::Deny(_) | PolicyOutcome::Send(_, _) => None,
        }
    }
}
