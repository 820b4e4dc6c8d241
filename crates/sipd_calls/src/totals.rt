//! What is counted of the calls that are shown.
ghost use Rattle.std.specs.Prelude.{◌≡◌, ◌++◌, OnOk};
ghost use Rattle.sipd_calls.specs.Totals as Definitions;

use crate::moments::{push_length, seconds_of};
use sip_days::{Call, CallResult};
use sip_text::Bytes;
use std::alloc::AllocError;

/// How many calls are shown, how many of them were answered, and for how many milliseconds these were talked.
#[derive(Clone, Copy)]
pub(crate) struct CallTotals {
    pub calls: u64,
    pub answered: u64,
    pub talked: u64,
}

impl CallTotals {
    /// Nothing counted yet.
    pub(crate) fn new() -> CallTotals
        ensures { result ≡ Definitions.no_totals }
    {
        CallTotals {
            calls: 0,
            answered: 0,
            talked: 0,
        }
    }

    /// One call more that is shown.
    pub(crate) fn counting(self, call: &Call) -> CallTotals
        ensures { result ≡ Definitions.with_call call.now self }
    {
        CallTotals {
            calls: self.calls.saturating_add(1),
            answered: self.answered.saturating_add(answers(call)),
            talked: self.talked.saturating_add(talk_of(call)),
        }
    }

    /// Adds what was counted.
    pub(crate) fn push(self, out: &mut Bytes) -> Result<(), AllocError>
        ensures { OnOk result (out.new ≡ out.old ++ Definitions.totals_text self) }
    {
        out.extend(b"calls: ")?;
        out.push_decimal(self.calls)?;
        out.extend(b", answered: ")?;
        out.push_decimal(self.answered)?;
        push_talked(out, self.talked)
    }
}

/// 1 for a call that was answered, and 0 for any other.
fn answers(call: &Call) -> u64
    ensures { result ≡ Definitions.answers call.now }
{
    match call.result() {
        CallResult::Answered => 1,
        CallResult::Open
        | CallResult::Busy
        | CallResult::NoAnswer
        | CallResult::Cancelled
        | CallResult::Denied
        | CallResult::Challenged
        | CallResult::Other(_) => 0,
    }
}

/// For how long a call was talked, in milliseconds.
fn talk_of(call: &Call) -> u64
    ensures { result ≡ Definitions.talk_in call.now }
{
    call.talk().unwrap_or(0)
}

/// Adds for how long the calls were talked.
fn push_talked(out: &mut Bytes, talked: u64) -> Result<(), AllocError>
    ensures { OnOk result (out.new ≡ out.old ++ Definitions.talked_text talked) }
{
    out.extend(b", talked: ")?;
    push_length(out, seconds_of(talked))?;
    out.push(b'\n')
}
