ghost use Rattle.std.specs.Prelude.{IfErr, OnOk, OnErr};
ghost use Rattle.sip_replay_print.specs.Stops.{PrintStops};
ghost use Rattle.sip_listener.specs.Heard.{Heard, heard_as};

use sip_config_types::Config;
use sip_event::{Event, StepOut};
use sip_replay_script::PrintStop;

/// Who is told the steps of a record, one behind the other.
pub trait Listener {
    // how it stands behind a step that it takes
    ghost hears: { Self → Heard → Self → Type 0 };

    // and behind one that it doesn't
    ghost refuses: { Self → Heard → Self → Type 0 };

    // it gave up
    ghost gave_up: { Self → Type 0 };

    /// Takes a step: the configuration that is in force, the event whose own step it is, or none where what was due happened, and what the
    /// step put out, with the moment at which it stood. Refusals: `NoMemory`; `Write`, where it gave up.
    fn hear(&mut self, config: &Config, event: Option<Event>, out: StepOut) -> Result<(), PrintStop>
        ensures heard { OnOk result (hears self.old (heard_as config.now event out) self.new) }
        ensures unheard { OnErr result (refuses self.old (heard_as config.now event out) self.new) }
        ensures stopped { IfErr result (PrintStops (gave_up self.new)) };
}
