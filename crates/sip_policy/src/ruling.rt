ghost use Rattle.std.specs.Prelude.{◌≡◌};
ghost use Rattle.std.specs.Option.{option_copied};
ghost use Rattle.sip_policy.specs.Decision.{decision_with, minute_for};

use crate::decision::Decision;
use crate::rule::Rule;

/// What the rules decide about a request, with the minute that is recorded of it.
#[derive(Clone, Copy)]
pub struct Ruling {
    pub decision: Decision,
    /// The minute of the day, where the rule that decides has a window; of a challenge none.
    pub minute: Option<u16>,
}

/// What a rule, the first that applies at a minute, decides. Where there is none, rule 0 denies.
pub fn ruling_by(rule: Option<&Rule>, proven: Option<&[u8]>, minute: u16) -> Ruling
    ensures decision { result.decision ≡ decision_with (option_copied proven.entry) (option_copied rule.entry) }
    ensures minute { result.minute ≡ minute_for (decision_with (option_copied proven.entry) (option_copied rule.entry)) minute
        (option_copied rule.entry) }
{
    match rule {
        Some(rule) => {
            let decision = rule.decision(proven);
            Ruling {
                decision,
                minute: rule.recorded_minute(decision, minute),
            }
        }
        None => Ruling {
            decision: Decision::Deny(0),
            minute: None,
        },
    }
}
