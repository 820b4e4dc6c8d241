//! The journal of a server that records: each event goes out as a line of a script before its packets are sent.
//! What reads such lines again is in `sip_resume` and `sip_replay`.
ghost use Rattle.std.specs.Prelude.{◌≡◌, ◌⊎◌, ◌∷◌, [], true, false, IfOk, OnOk, OnErr, None};
ghost use Rattle.sip_event.specs.declared.event.Event.TheVariants.{Datagram, Time, Fault};
ghost use Rattle.sip_replay_script.specs.Devices.{GaveUp, WritesFront};
ghost use Rattle.sip_replay_script.specs.EventText.{event_text};
ghost use Rattle.sip_journal.specs.Record.{Notes, NotesConfiguration};
ghost use Rattle.sip_journal.specs.Recorder.{told, answer_of, is_faulted, CantWrite, FrontOfConfiguration, WritesConfiguration};
ghost use Rattle.sip_journal.specs.Recorder.{WritesEvent};

use crate::configuration_lines::write_configuration;
use crate::journal::{Journal, JournalFault};
use crate::line_room::LineRoom;
use crate::on_fault::OnFault;
use crate::types::{datagram_has_types, fault_has_types};
use crate::writing::{write_datagram, write_fault, write_time};
use sip_event::Ticket;
use sip_replay_script::TellingWriter;
use sip_replay_script::laws::written_event_is_recorded;
use sip_uri::Addr;
use std::alloc::{AllocError, Global};

/// A record that is kept by a writer: each event is written as a line of a script (a datagram without bytes as two), at once and
/// whole, and handed on before the call answers, so that it is out of the process before the packets of its step are sent. It takes
/// memory where it is made, and none for an event. A configuration, whatever its bytes are, is written line by line, and handed on behind
/// the line with its digest. A recorder has failed once its writer gave up, or was told an event that no script says: a moment of 2^62 or
/// more, a datagram from the port 0, or one of more than 65,508 bytes. From then on it writes nothing, and answers as `on_fault` says.
pub struct Recorder<W: TellingWriter + Drop> {
    pub writer: W,
    pub on_fault: OnFault,
    pub has_failed: bool,
    line: LineRoom,
}

/// Written out, so that it is proved once and not wherever one is dropped.
impl<W: TellingWriter + Drop> Drop for Recorder<W> {
    fn drop(self) {
        let Recorder {
            writer: _,
            on_fault: _,
            has_failed: _,
            line: _,
        } = self;
    }
}

impl<W: TellingWriter + Drop> Recorder<W> {
    /// A recorder that writes behind what the writer holds. `AllocError` is the only refusal.
    pub fn new(alloc: Global, writer: W, on_fault: OnFault) -> Result<Self, AllocError>
        ensures writer { IfOk result (λ recorder. recorder.writer ≡ writer) }
        ensures on_fault { IfOk result (λ recorder. recorder.on_fault ≡ on_fault) }
        ensures has_failed { IfOk result (λ recorder. recorder.has_failed ≡ false) }
    {
        let line = LineRoom::new(alloc)?;
        Ok(Recorder {
            writer,
            on_fault,
            has_failed: false,
            line,
        })
    }

    /// Whether it has failed.
    pub fn has_failed(&self) -> bool
        ensures { result ≡ self.now.has_failed }
    {
        self.has_failed
    }

    /// A fault where it has failed and the server is to end.
    fn answer(&self) -> Result<(), JournalFault>
        ensures value { result ≡ answer_of self.now.on_fault self.now.has_failed }
        ensures whole { OnOk result (is_faulted self.now.on_fault self.now.has_failed ≡ false) }
        ensures said { OnErr result (is_faulted self.now.on_fault self.now.has_failed ≡ true) }
    {
        match self.on_fault {
            OnFault::End if self.has_failed => Err(JournalFault),
            _ => Ok(()),
        }
    }
}

impl<W: TellingWriter + Drop> Journal for Recorder<W> {
    ghost written = { λ r. told r.has_failed (W.contents r.writer) };

    ghost faulted = { λ r. is_faulted r.on_fault r.has_failed };

    #[tactic(auto, using(sip_replay_script::proofs::Fronts::front_none))]
    fn heard(&mut self, at: u64, word: u128, from: Addr, bytes: &[u8]) -> Result<(), JournalFault>
        ensures noted { OnOk result (Notes (told self.old.has_failed (W.contents self.old.writer))
            (told self.new.has_failed (W.contents self.new.writer)) (Datagram at word from bytes.now ∷ [])) }
        ensures failed { OnErr result (told self.new.has_failed (W.contents self.new.writer) ≡ None) }
        ensures whole { OnOk result ((is_faulted self.old.on_fault self.old.has_failed ≡ false)
            × (is_faulted self.new.on_fault self.new.has_failed ≡ false)) }
        ensures said { OnErr result (is_faulted self.new.on_fault self.new.has_failed ≡ true) }
        ensures written { self.new.has_failed ≡ false → WritesEvent (W.contents self.old.writer) (W.contents self.new.writer)
            (W.is_flushed self.new.writer) (Datagram at word from bytes.now) }
        ensures why { self.new.has_failed ≡ true → (self.old.has_failed ≡ true) ⊎ CantWrite (GaveUp (W.has_failed self.new.writer)
            (W.called self.new.writer)) (Datagram at word from bytes.now) }
        ensures part { WritesFront (W.contents self.old.writer) (W.contents self.new.writer) (event_text (Datagram at word from bytes.now)) }
        ensures kept { self.old.has_failed ≡ true → (self.new.has_failed ≡ true) × (self.new.writer ≡ self.old.writer) }
        ensures answer { result ≡ answer_of self.old.on_fault self.new.has_failed }
        ensures on_fault { self.new.on_fault ≡ self.old.on_fault }
    {
        written_event_is_recorded();
        datagram_has_types(at, word, from, bytes);
        if self.has_failed {
            return self.answer();
        }
        let done = write_datagram(&mut self.writer, &mut self.line, at, word, from, bytes);
        self.has_failed = !done;
        self.answer()
    }

    #[tactic(auto, using(sip_replay_script::proofs::Fronts::front_none))]
    fn passed(&mut self, at: u64) -> Result<(), JournalFault>
        ensures noted { OnOk result (Notes (told self.old.has_failed (W.contents self.old.writer))
            (told self.new.has_failed (W.contents self.new.writer)) (Time at ∷ [])) }
        ensures failed { OnErr result (told self.new.has_failed (W.contents self.new.writer) ≡ None) }
        ensures whole { OnOk result ((is_faulted self.old.on_fault self.old.has_failed ≡ false)
            × (is_faulted self.new.on_fault self.new.has_failed ≡ false)) }
        ensures said { OnErr result (is_faulted self.new.on_fault self.new.has_failed ≡ true) }
        ensures written { self.new.has_failed ≡ false → WritesEvent (W.contents self.old.writer) (W.contents self.new.writer)
            (W.is_flushed self.new.writer) (Time at) }
        ensures why { self.new.has_failed ≡ true → (self.old.has_failed ≡ true) ⊎ CantWrite (GaveUp (W.has_failed self.new.writer)
            (W.called self.new.writer)) (Time at) }
        ensures part { WritesFront (W.contents self.old.writer) (W.contents self.new.writer) (event_text (Time at)) }
        ensures kept { self.old.has_failed ≡ true → (self.new.has_failed ≡ true) × (self.new.writer ≡ self.old.writer) }
        ensures answer { result ≡ answer_of self.old.on_fault self.new.has_failed }
        ensures on_fault { self.new.on_fault ≡ self.old.on_fault }
    {
        written_event_is_recorded();
        if self.has_failed {
            return self.answer();
        }
        let done = write_time(&mut self.writer, at);
        self.has_failed = !done;
        self.answer()
    }

    #[tactic(auto, using(sip_replay_script::proofs::Fronts::front_none))]
    fn failed(&mut self, at: u64, ticket: Ticket) -> Result<(), JournalFault>
        ensures noted { OnOk result (Notes (told self.old.has_failed (W.contents self.old.writer))
            (told self.new.has_failed (W.contents self.new.writer)) (Fault at ticket ∷ [])) }
        ensures failed { OnErr result (told self.new.has_failed (W.contents self.new.writer) ≡ None) }
        ensures whole { OnOk result ((is_faulted self.old.on_fault self.old.has_failed ≡ false)
            × (is_faulted self.new.on_fault self.new.has_failed ≡ false)) }
        ensures said { OnErr result (is_faulted self.new.on_fault self.new.has_failed ≡ true) }
        ensures written { self.new.has_failed ≡ false → WritesEvent (W.contents self.old.writer) (W.contents self.new.writer)
            (W.is_flushed self.new.writer) (Fault at ticket) }
        ensures why { self.new.has_failed ≡ true → (self.old.has_failed ≡ true) ⊎ CantWrite (GaveUp (W.has_failed self.new.writer)
            (W.called self.new.writer)) (Fault at ticket) }
        ensures part { WritesFront (W.contents self.old.writer) (W.contents self.new.writer) (event_text (Fault at ticket)) }
        ensures kept { self.old.has_failed ≡ true → (self.new.has_failed ≡ true) × (self.new.writer ≡ self.old.writer) }
        ensures answer { result ≡ answer_of self.old.on_fault self.new.has_failed }
        ensures on_fault { self.new.on_fault ≡ self.old.on_fault }
    {
        written_event_is_recorded();
        fault_has_types(at, ticket);
        if self.has_failed {
            return self.answer();
        }
        let done = write_fault(&mut self.writer, at, ticket);
        self.has_failed = !done;
        self.answer()
    }

    #[tactic(auto, using(crate::proofs::Configuring::front_of_none))]
    fn configured(&mut self, bytes: &[u8]) -> Result<(), JournalFault>
        ensures noted { OnOk result (NotesConfiguration (told self.old.has_failed (W.contents self.old.writer))
            (told self.new.has_failed (W.contents self.new.writer)) bytes.now) }
        ensures failed { OnErr result (told self.new.has_failed (W.contents self.new.writer) ≡ None) }
        ensures whole { OnOk result ((is_faulted self.old.on_fault self.old.has_failed ≡ false)
            × (is_faulted self.new.on_fault self.new.has_failed ≡ false)) }
        ensures said { OnErr result (is_faulted self.new.on_fault self.new.has_failed ≡ true) }
        ensures written { self.new.has_failed ≡ false → WritesConfiguration (W.contents self.old.writer) (W.contents self.new.writer)
            (W.is_flushed self.new.writer) bytes.now }
        ensures why { self.new.has_failed ≡ true → (self.old.has_failed ≡ true) ⊎ GaveUp (W.has_failed self.new.writer)
            (W.called self.new.writer) }
        ensures part { FrontOfConfiguration (W.contents self.old.writer) (W.contents self.new.writer) bytes.now }
        ensures kept { self.old.has_failed ≡ true → (self.new.has_failed ≡ true) × (self.new.writer ≡ self.old.writer) }
        ensures answer { result ≡ answer_of self.old.on_fault self.new.has_failed }
        ensures on_fault { self.new.on_fault ≡ self.old.on_fault }
    {
        if self.has_failed {
            return self.answer();
        }
        let done = write_configuration(&mut self.writer, &mut self.line, bytes);
        self.has_failed = !done;
        self.answer()
    }
}
