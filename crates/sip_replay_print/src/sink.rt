ghost use Rattle.std.specs.Prelude.{◌≡◌, ℕ, List, Option, IfErr, OnOk, OnErr};
ghost use Rattle.std.specs.Io.KnownBytes.{Appends};
ghost use Rattle.sip_replay_script.specs.Devices.{GaveUp, WritesFront};
ghost use Rattle.sip_replay_print.specs.Print.{step_text};
ghost use Rattle.sip_replay_print.specs.Stops.{PrintStops};

use crate::print::{PrintRoom, print_step};
use sip_event::StepOut;
use sip_replay_script::{PrintStop, TellingWriter};
use std::alloc::Global;

/// What steps are shown to, one behind the other.
pub trait StepSink {
    // the bytes that it was given, where they are known
    ghost shown: { Self → Option (List ℕ) };

    // its writer gave up
    ghost gave_up: { Self → Type 0 };

    /// Takes a step, as it is printed. Refusals: `NoMemory`; `Write`, where its writer gave up. It has a front of what is printed then.
    fn show(&mut self, out: &StepOut) -> Result<(), PrintStop>
        ensures shown { OnOk result (Appends (shown self.old) (shown self.new) (step_text out.now)) }
        ensures front { OnErr result (WritesFront (shown self.old) (shown self.new) (step_text out.now)) }
        ensures stopped { IfErr result (PrintStops (gave_up self.new)) };
}

/// Steps aren't shown. It tells nothing, and never stops.
#[derive(Drop)]
pub struct NoSink;

impl StepSink for NoSink {
    ghost shown = { λ _. Option.None };

    ghost gave_up = { λ _. ⊥ };

    fn show(&mut self, _out: &StepOut) -> Result<(), PrintStop> {
        Ok(())
    }
}

/// Steps are printed by a writer.
#[derive(Drop)]
pub struct Printer<W: TellingWriter + Drop> {
    pub writer: W,
    alloc: Global,
    room: PrintRoom,
}

impl<W: TellingWriter + Drop> Printer<W> {
    /// Prints behind what a writer holds. Takes no memory.
    pub fn new(alloc: Global, writer: W) -> Self
        ensures { result.writer ≡ writer }
    {
        Printer {
            writer,
            alloc,
            room: PrintRoom::new(),
        }
    }
}

impl<W: TellingWriter + Drop> StepSink for Printer<W> {
    ghost shown = { λ p. W.contents p.writer };

    ghost gave_up = { λ p. GaveUp (W.has_failed p.writer) (W.called p.writer) };

    fn show(&mut self, out: &StepOut) -> Result<(), PrintStop> {
        print_step(self.alloc, &mut self.writer, &mut self.room, out)
    }
}
