//! A file without a system, for trials of a watch: it shows given states, may be gone or unreadable, and tells what it answered.
ghost use Rattle.std.specs.Prelude.{◌≡◌, ◌≤◌, ◌⊎◌, [], Some, Ok, Err, option_map, length, IfOk, IfSome};
ghost use Rattle.sipd_reload.specs.File.{GrewBy, most_bytes, short_bytes};
ghost use Rattle.sipd_reload.specs.MemoryFile as Definitions;
ghost use Rattle.sipd_reload.specs.MemoryFile.{next_shown};
ghost use Rattle.sipd_reload.specs.declared.file_fault.FileFault.TheVariants.{NoMemory};
ghost use Rattle.sipd_reload.specs.declared.file_answer.FileAnswer.TheVariants.{Stamped, Gave};

use crate::file_answer::FileAnswer;
use crate::file_fault::FileFault;
use crate::file_state::FileState;
use crate::limits::{MOST_BYTES, short_stamp};
use crate::stamp::Stamp;
use crate::watched_file::WatchedFile;
use sip_text::Bytes;
use std::alloc::Global;
use std::marker::Model;

/// A file over memory: each time that its stamp is asked for it shows the next state of a list, at the end the last one again; it is gone where
/// there is none. It tells what it answered, while there is memory for that.
pub struct MemoryFile {
    alloc: Global,
    states: Vec<FileState>,
    /// How many of these it has shown.
    shown: usize,
    told: Option<Vec<FileAnswer>>,
}

/// Written out, so that it is proved once and not wherever one is dropped.
impl Drop for MemoryFile {
    fn drop(self) {
        let MemoryFile {
            alloc: _,
            states: _,
            shown: _,
            told: _,
        } = self;
    }
}

impl Model for MemoryFile {
    ghost use Rattle.std.specs.Prelude.{◌≤◌, length, option_map};
    ghost use Rattle.sipd_reload.specs.MemoryFile.{MemoryFileState};

    ghost Value = { MemoryFileState };

    ghost view = { λ f. record { states = f.states.items; shown = f.shown; told = option_map (λ told. told.items) f.told } };

    ghost invariant = { λ f. f.shown ≤ length f.states.items };
}

/// The stamp that is shown when so many states are shown.
#[tactic(auto, using(crate::proofs::States::state_there, crate::proofs::States::none_there))]
fn stamp_at(states: &[FileState], shown: usize) -> Result<Stamp, FileFault>
    requires { shown ≤ length states.now }
    ensures { result ≡ Definitions.stamp_at states.now shown }
{
    match shown.checked_sub(1) {
        None => Err(FileFault::Gone),
        Some(place) => short_stamp(states[place].stamp),
    }
}

/// The bytes that are shown when so many states are shown, copied.
#[tactic(auto, using(crate::proofs::States::state_there, crate::proofs::States::none_there))]
fn bytes_at(alloc: Global, states: &[FileState], shown: usize) -> Result<Bytes, FileFault>
    requires { shown ≤ length states.now }
    ensures { (result ≡ Definitions.bytes_at states.now shown) ⊎ (result ≡ Err NoMemory) }
{
    let Some(place) = shown.checked_sub(1) else {
        return Err(FileFault::Gone);
    };
    match &states[place].bytes {
        Ok(bytes) => short_copy(alloc, bytes.as_slice()),
        Err(fault) => Err(*fault),
    }
}

/// A copy of bytes, unless they are more than are read.
fn short_copy(alloc: Global, bytes: &[u8]) -> Result<Bytes, FileFault>
    ensures { (result ≡ short_bytes (Ok bytes.now)) ⊎ (result ≡ Err NoMemory) }
{
    if bytes.len() > MOST_BYTES {
        return Err(FileFault::TooLong);
    }
    match Bytes::copy(alloc, bytes) {
        Ok(copy) => Ok(copy),
        Err(_) => Err(FileFault::NoMemory),
    }
}

/// A copy of an answer, where there is memory for it.
fn copy_of(alloc: Global, bytes: &Result<Bytes, FileFault>) -> Option<Result<Bytes, FileFault>>
    ensures { IfSome result (λ copy. copy ≡ bytes.now) }
{
    match bytes {
        Ok(bytes) => match Bytes::copy(alloc, bytes.as_slice()) {
            Ok(copy) => Some(Ok(copy)),
            Err(_) => None,
        },
        Err(fault) => Some(Err(*fault)),
    }
}

/// What is told, and this last, while there is memory for that.
fn with_last(told: Option<Vec<FileAnswer>>, last: FileAnswer) -> Option<Vec<FileAnswer>>
    ensures { GrewBy last (option_map (λ told. told.items) told) (option_map (λ told. told.items) result) }
{
    let mut told = told?;
    match told.push(last) {
        Ok(()) => Some(told),
        Err(_) => None,
    }
}

impl MemoryFile {
    /// A file that is to show these states.
    pub fn new(alloc: Global, states: Vec<FileState>) -> Self
        ensures { result ≡ record { states = states.items; shown = 0; told = Some [] } }
    {
        MemoryFile {
            alloc,
            states,
            shown: 0,
            told: Some(Vec::new(alloc)),
        }
    }

    /// What it answered, oldest first; none once there was no memory to tell it.
    pub fn told(&self) -> Option<&[FileAnswer]>
        ensures { option_map (λ told. told.now) result ≡ self.now.told }
    {
        match &self.told {
            Some(told) => Some(told.as_slice()),
            None => None,
        }
    }
}

impl WatchedFile for MemoryFile {
    ghost told = { λ f. f.told };

    fn stamp(&mut self) -> Result<Stamp, FileFault>
        ensures tells { GrewBy (Stamped result) self.old.told self.new.told }
        ensures short { IfOk result (λ stamp. stamp.length ≤ most_bytes) }
        ensures stamp { result ≡ Definitions.stamp_at self.old.states self.new.shown }
        ensures shown { self.new.shown ≡ next_shown self.old }
        ensures states { self.new.states ≡ self.old.states }
    {
        if self.shown < self.states.len() {
            self.shown += 1;
        }
        let stamp = stamp_at(self.states.as_slice(), self.shown);
        self.told = with_last(self.told.take(), FileAnswer::Stamped(stamp));
        stamp
    }

    fn read(&mut self) -> Result<Bytes, FileFault>
        ensures tells { GrewBy (Gave result) self.old.told self.new.told }
        ensures short { IfOk result (λ bytes. length bytes ≤ most_bytes) }
        ensures bytes { (result ≡ Definitions.bytes_at self.old.states self.old.shown) ⊎ (result ≡ Err NoMemory) }
        ensures shown { self.new.shown ≡ self.old.shown }
        ensures states { self.new.states ≡ self.old.states }
    {
        let bytes = bytes_at(self.alloc, self.states.as_slice(), self.shown);
        self.told = match copy_of(self.alloc, &bytes) {
            Some(copy) => with_last(self.told.take(), FileAnswer::Gave(copy)),
            None => None,
        };
        bytes
    }
}
