use sip_config_types::Config;
use sip_event::{Event, StepOut};
use sip_listener::Listener;
use sip_replay_script::PrintStop;
use sipd_ladder::Ladder;
use std::alloc::{AllocError, Global};

/// A ladder, and where it takes its memory from.
#[derive(Drop)]
pub(crate) struct Climber {
    pub alloc: Global,
    pub ladder: Ladder,
}

impl Listener for Climber {
    ghost use Rattle.std.specs.Prelude.{⊤};
    ghost use Rattle.sipd_traces.specs.Ladders.{AddsRungs};

    ghost hears = { λ old step new. AddsRungs old.ladder step new.ladder };

    ghost refuses = { λ _ _ _. ⊤ };

    ghost gave_up = { λ _. ⊥ };

    fn hear(
        &mut self,
        config: &Config,
        event: Option<Event>,
        out: StepOut,
    ) -> Result<(), PrintStop> {
        match self.ladder.hear(self.alloc, config.offset, &event, &out) {
            Ok(()) => Ok(()),
            Err(AllocError) => Err(PrintStop::NoMemory),
        }
    }
}
