ghost use Rattle.std.specs.Prelude.{◌≡◌, true};
ghost use Rattle.sip_resume.specs.Parts.{newest_of};

use sip_event::StepOut;

/// What comes next in a record.
#[derive(Drop)]
pub(crate) enum ResumedPart {
    /// An event, which was taken; its own step.
    Taken(StepOut),
    /// No event, but what may be a configuration.
    Configuration,
    /// Nothing, or the front of an event that was cut.
    End,
}

/// How far a record was taken.
#[derive(Drop)]
pub(crate) struct Reached {
    /// How many lines were given by then.
    pub(crate) lines: u64,
    /// The own step of the last event; none where no event was taken.
    pub(crate) last: Option<StepOut>,
    /// Whether the record ends there.
    pub(crate) is_over: bool,
}

impl Reached {
    /// Nothing more was taken behind so many lines, and the record ends there.
    pub(crate) fn over(lines: u64) -> Self
        ensures { (result.lines ≡ lines) × (result.last ≡ None) × (result.is_over ≡ true) }
    {
        Reached {
            lines,
            last: None,
            is_over: true,
        }
    }

    /// The same behind what was taken before.
    pub(crate) fn behind(self, before: Reached) -> Self
        ensures lines { result.lines ≡ self.lines }
        ensures last { result.last ≡ newest_of self.last before.last }
        ensures is_over { result.is_over ≡ self.is_over }
    {
        let Reached {
            lines,
            last,
            is_over,
        } = self;
        let last = match last {
            Some(out) => Some(out),
            None => before.last,
        };
        Reached {
            lines,
            last,
            is_over,
        }
    }
}
