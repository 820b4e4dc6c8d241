//! The call that a number means.
ghost use Rattle.std.specs.Prelude.{◌≡◌, ◌==◌, IfOk, OnOk};
ghost use Rattle.std.specs.List.{list_any};
ghost use Rattle.sip_listener.specs.Heard.{heard_as};
ghost use Rattle.sipd_traces.specs.Numbers as Definitions;

use sip_audit::Record;
use sip_config_types::Config;
use sip_event::{Event, StepOut};
use sip_listener::Listener;
use sip_replay_script::PrintStop;
use sip_text::Bytes;
use sipd_capture::call_id_in;
use std::alloc::{AllocError, Global};

/// The Call-ID of the first datagram with a number that was decided, as far as records were told.
#[derive(Drop)]
pub(crate) struct Finder {
    pub alloc: Global,
    pub number: u64,
    pub found: Option<Bytes>,
}

fn has_number(number: u64, decision: &Record) -> bool
    ensures { result ≡ Definitions.has_number number decision.now }
{
    decision.number == number
}

fn any_has_number(number: u64, records: &[Record]) -> bool
    ensures { result ≡ list_any (Definitions.has_number number) records.now }
{
    records.iter().any(|decision| has_number(number, decision))
}

/// The Call-ID of the datagram of a step.
fn call_id_by(alloc: Global, event: &Option<Event>) -> Result<Option<Bytes>, AllocError>
    ensures { IfOk result (λ call_id. call_id ≡ Definitions.call_id_by event.now) }
{
    match event {
        Some(Event::Datagram { bytes, .. }) => call_id_in(alloc, bytes.as_slice()),
        _ => Ok(None),
    }
}

/// The same, where it was decided, with a number.
fn numbered(
    alloc: Global,
    number: u64,
    config: &Config,
    event: &Option<Event>,
    out: &StepOut,
) -> Result<Option<Bytes>, AllocError>
    ensures { IfOk result (λ call_id. call_id ≡ Definitions.numbered number (heard_as config.now event.now out.now)) }
{
    if !any_has_number(number, out.records.as_slice()) {
        return Ok(None);
    }
    call_id_by(alloc, event)
}

impl Listener for Finder {
    ghost use Rattle.std.specs.Prelude.{⊤};
    ghost use Rattle.sipd_traces.specs.Numbers.{found_with};

    ghost hears = { λ old step new. (new.number ≡ old.number) × (new.found ≡ found_with old.number step old.found) };

    ghost refuses = { λ _ _ _. ⊤ };

    ghost gave_up = { λ _. ⊥ };

    fn hear(
        &mut self,
        config: &Config,
        event: Option<Event>,
        out: StepOut,
    ) -> Result<(), PrintStop> {
        if self.found.is_some() {
            return Ok(());
        }
        match numbered(self.alloc, self.number, config, &event, &out) {
            Ok(found) => {
                self.found = found;
                Ok(())
            }
            Err(AllocError) => Err(PrintStop::NoMemory),
        }
    }
}
