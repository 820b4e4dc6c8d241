//! What a serving program prints: each audit line, whole, before its packets are sent, and the lines on the server itself.
ghost use Rattle.std.specs.Prelude.{◌≡◌, true, false, Err, IfErr, OnOk, OnErr, None};
ghost use Rattle.std.specs.Io.KnownBytes.{Appends};
ghost use Rattle.sip_loop.specs.Printing.{Prints};
ghost use Rattle.sip_journal.specs.Recorder.{told};
ghost use Rattle.sipd_exit.specs.Exits.{IsPrintFault};
ghost use Rattle.sipd_service.specs.Exits;
ghost use Rattle.sipd_service.specs.Printing.{serving_text, turns_text};
ghost use Rattle.sipd_status.specs.Tally.{no_tally, tally_behind};

use crate::printing::{print_records, serving_text, turns_text};
use sip_audit::Record;
use sip_loop::{AuditFault, AuditLog};
use sip_uri::Addr;
use sipd_exit::{DeviceFault, Exit, print};
use sipd_status::Tally;
use std::alloc::Global;
use std::io::Write;

/// What prints the lines of decisions on a writer, each whole, and hands them on before it answers. It has failed once memory ran
/// out or the writer failed in that, and prints no line of decisions from then on. What it says of the server itself it prints whatever
/// became of those lines, and a fault of that is told by its call alone. It counts the lines of decisions that it printed.
#[derive(Drop)]
pub struct LinePrinter<W: Write + Drop> {
    alloc: Global,
    pub output: W,
    pub has_failed: bool,
    /// How the writer failed.
    pub fault: DeviceFault,
    /// What the lines come to that it printed.
    pub tally: Tally,
}

impl<W: Write + Drop> LinePrinter<W> {
    /// A printer that prints behind what the writer holds.
    pub fn new(alloc: Global, output: W) -> Self
        ensures output { result.output ≡ output }
        ensures has_failed { result.has_failed ≡ false }
        ensures tally { result.tally ≡ no_tally }
    {
        LinePrinter {
            alloc,
            output,
            has_failed: false,
            fault: DeviceFault::Other,
            tally: Tally::new(),
        }
    }

    /// Whether it has failed.
    pub fn has_failed(&self) -> bool
        ensures { result ≡ self.now.has_failed }
    {
        self.has_failed
    }

    /// How the writer failed.
    pub fn fault(&self) -> DeviceFault
        ensures { result ≡ self.now.fault }
    {
        self.fault
    }

    /// Prints where it serves, and hands it on. Refusals: `Memory`, `Device`.
    pub fn print_serving(&mut self, address: Addr) -> Result<(), Exit>
        ensures printed { OnOk result (Appends (W.contents self.old.output) (W.contents self.new.output) (serving_text address)) }
        ensures refused { IfErr result IsPrintFault }
        ensures has_failed { self.new.has_failed ≡ self.old.has_failed }
        ensures fault { self.new.fault ≡ self.old.fault }
    {
        let text = serving_text(self.alloc, address)?;
        print(text.as_slice(), &mut self.output)
    }

    /// Prints that so many turns are over, and hands it on. Refusals: `Memory`, `Device`.
    pub fn print_turns(&mut self, turns: u32) -> Result<(), Exit>
        ensures printed { OnOk result (Appends (W.contents self.old.output) (W.contents self.new.output) (turns_text turns)) }
        ensures refused { IfErr result IsPrintFault }
        ensures has_failed { self.new.has_failed ≡ self.old.has_failed }
        ensures fault { self.new.fault ≡ self.old.fault }
    {
        let text = turns_text(self.alloc, turns)?;
        print(text.as_slice(), &mut self.output)
    }

    /// It has failed: what that is to who serves. A device's fault is told as one, and kept.
    fn fail(&mut self, exit: &Exit) -> AuditFault
        ensures why { result ≡ Exits.fault_of_print exit.now }
        ensures failed { self.new ≡ record self.old { has_failed = true; fault = Exits.device_of_print exit.now } }
    {
        self.has_failed = true;
        self.fault = match exit {
            Exit::Device(fault) => *fault,
            _ => DeviceFault::Other,
        };
        match exit {
            Exit::Memory => AuditFault::NoMemory,
            _ => AuditFault::Device,
        }
    }
}

impl<W: Write + Drop> AuditLog for LinePrinter<W> {
    ghost printed = { λ p. told p.has_failed (W.contents p.output) };

    ghost faulted = { λ p. p.has_failed };

    fn print(&mut self, records: &[Record]) -> Result<(), AuditFault>
        ensures printed { OnOk result (Prints (told self.old.has_failed (W.contents self.old.output))
            (told self.new.has_failed (W.contents self.new.output)) records.now) }
        ensures failed { OnErr result (told self.new.has_failed (W.contents self.new.output) ≡ None) }
        ensures still { OnOk result (self.old.has_failed ≡ false) }
        ensures going { OnOk result (self.new.has_failed ≡ false) }
        ensures tally { OnOk result (self.new.tally ≡ tally_behind records.now self.old.tally) }
        ensures untold { OnErr result (self.new.tally ≡ self.old.tally) }
        ensures said { OnErr result (self.new.has_failed ≡ true) }
        ensures kept { self.old.has_failed ≡ true → (self.new ≡ self.old) × (result ≡ Err AuditFault.Device) }
        ensures told { IfErr result (λ why. self.old.has_failed ≡ false → Exits.IsTold why self.new.fault) }
    {
        if self.has_failed {
            return Err(AuditFault::Device);
        }
        match print_records(self.alloc, records, &mut self.output) {
            Ok(()) => {
                self.tally.add(records);
                Ok(())
            }
            Err(exit) => Err(self.fail(&exit)),
        }
    }
}
