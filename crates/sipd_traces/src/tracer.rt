ghost use Rattle.std.specs.Prelude.{◌≡◌, IsSomeAnd, IfErr, OnOk, OnErr};
ghost use Rattle.std.specs.Io.KnownBytes.{Appends};
ghost use Rattle.std.specs.Option.{ghost_name_of};
ghost use Rattle.sip_replay_script.specs.Devices.{GaveUp, WritesFront};
ghost use Rattle.sip_replay_script.specs.declared.print_stop.PrintStop.TheVariants.{Write};
ghost use Rattle.sip_replay_print.specs.Stops.{PrintStops};
ghost use Rattle.sipd_capture.specs.Headers.{file_head};
ghost use Rattle.sipd_traces.specs.Traces.{held_by};

use sip_config_types::Config;
use sip_event::{Event, StepOut};
use sip_listener::Listener;
use sip_replay_script::{PrintStop, TellingWriter, put};
use sipd_capture::{CaptureChoice, frames_of, head_of};
use std::alloc::{AllocError, Global};

/// Writes what a capture begins with. Refusals: `NoMemory`; `Write`, where the writer gave up. A front of it is written then.
pub(crate) fn put_head<W: TellingWriter>(alloc: Global, writer: &mut W) -> Result<(), PrintStop>
    ensures begun { OnOk result (Appends (W.contents writer.old) (W.contents writer.new) file_head) }
    ensures front { OnErr result (WritesFront (W.contents writer.old) (W.contents writer.new) file_head) }
    ensures stopped { IfErr result (PrintStops (GaveUp (W.has_failed writer.new) (W.called writer.new))) }
{
    match head_of(alloc) {
        Ok(head) => put(writer, head.as_slice()),
        Err(AllocError) => Err(PrintStop::NoMemory),
    }
}

/// Writes bytes to a writer that is lent. Refused as `put` is.
fn put_lent<W: TellingWriter>(writer: &mut Option<&mut W>, bytes: &[u8]) -> Result<(), PrintStop>
    ensures same { ghost_name_of writer.new ≡ ghost_name_of writer.old }
    ensures ok { OnOk result (Appends (held_by W.contents writer.old) (held_by W.contents writer.new) bytes.now) }
    ensures front { OnErr result (WritesFront (held_by W.contents writer.old) (held_by W.contents writer.new) bytes.now) }
    ensures failed { IfErr result (λ stop. (stop ≡ Write) × IsSomeAnd writer.new (λ w. GaveUp (W.has_failed w.now) (W.called w.now))) }
{
    match writer {
        Some(writer) => put(&mut **writer, bytes),
        None => Ok(()),
    }
}

/// A capture that a writer gets, as far as records were told.
#[derive(Drop)]
pub(crate) struct Tracer<'w, W: TellingWriter> {
    pub alloc: Global,
    pub choice: CaptureChoice,
    /// The writer, which is lent: taken out once all was told.
    pub writer: Option<&'w mut W>,
}

impl<W: TellingWriter> Listener for Tracer<'_, W> {
    ghost use Rattle.std.specs.Prelude.{IsSomeAnd};
    ghost use Rattle.std.specs.Option.{ghost_name_of};
    ghost use Rattle.sipd_traces.specs.Traces.{TracesStep, held_by, step_frames};

    ghost hears = { λ old step new. TracesStep old.choice new.choice (ghost_name_of old.writer) (ghost_name_of new.writer)
        (held_by W.contents old.writer) step (held_by W.contents new.writer) };

    ghost refuses = { λ old step new. WritesFront (held_by W.contents old.writer) (held_by W.contents new.writer) (step_frames old.choice step) };

    ghost gave_up = { λ t. IsSomeAnd t.writer (λ w. GaveUp (W.has_failed w.now) (W.called w.now)) };

    fn hear(
        &mut self,
        config: &Config,
        event: Option<Event>,
        out: StepOut,
    ) -> Result<(), PrintStop> {
        match frames_of(self.alloc, &self.choice, config, &event, &out) {
            Ok(frames) => put_lent(&mut self.writer, frames.as_slice()),
            Err(AllocError) => Err(PrintStop::NoMemory),
        }
    }
}
