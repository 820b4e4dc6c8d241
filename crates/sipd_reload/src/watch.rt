//! When other bytes of a configuration's file are to be taken: once they stay, and not again once they were refused.
//! What is done with them is decided by who asks (`sipd_service`).
ghost use Rattle.std.specs.Prelude.{◌≡◌, None};
ghost use Rattle.sipd_reload.specs.Watch as Definitions;
ghost use Rattle.sipd_reload.specs.Watch.{Looks, look_of, noted, with_taken, with_refused};
ghost use Rattle.sipd_reload.specs.declared.seen.Seen.TheVariants as seens;
ghost use Rattle.sipd_reload.specs.declared.sight.Sight.TheVariants as sights;

use crate::file_fault::FileFault;
use crate::look::Look;
use crate::seen::Seen;
use crate::sight::{Sight, sight_of};
use crate::stamp::Stamp;
use crate::watched_file::WatchedFile;
use sip_text::{Bytes, same_bytes};
use std::marker::Model;

/// How often the file is looked at, in milliseconds.
const SECOND: u64 = 1000;

/// A watch of the file of a configuration, which is in force. It tells when the file holds other bytes that are to be taken: those that
/// two looks in a row saw alike, a second apart at least, so that a file that is written without such a pause isn't taken in part.
#[derive(Drop)]
pub struct Watch<F: WatchedFile> {
    file: F,
    in_force: Bytes,
    /// What was offered last and refused, while the file holds no other bytes.
    refused: Option<Bytes>,
    /// When it last looked, in milliseconds.
    looked: u64,
    seen: Seen,
    /// Why the file couldn't be read at the last look.
    fault: Option<FileFault>,
}

impl<F: WatchedFile> Model for Watch<F> {
    ghost use Rattle.sipd_reload.specs.Watch.{WatchState};

    ghost Value = { WatchState };

    ghost view = { λ w. record { in_force = w.in_force; refused = w.refused; looked = w.looked; seen = w.seen; fault = w.fault; told = F.told w.file } };
}

/// Whether these are the bytes that were refused.
fn is_refused(refused: &Option<Bytes>, bytes: &[u8]) -> bool
    ensures { result ≡ Definitions.is_refused refused.now bytes.now }
{
    match refused {
        Some(refused) => same_bytes(refused.as_slice(), bytes),
        None => false,
    }
}

/// Whether this is why the file couldn't be read at the last look.
fn same_fault(known: Option<FileFault>, fault: FileFault) -> bool
    ensures { result ≡ Definitions.same_fault known fault }
{
    matches!(
        (known, fault),
        (Some(FileFault::NoMemory), FileFault::NoMemory)
            | (Some(FileFault::Gone), FileFault::Gone)
            | (Some(FileFault::TooLong), FileFault::TooLong)
            | (Some(FileFault::Device), FileFault::Device)
    )
}

impl<F: WatchedFile> Watch<F> {
    /// A watch of a file, while these bytes are in force. Its first look comes a second behind this moment, in milliseconds, at the
    /// earliest.
    pub fn new(file: F, in_force: Bytes, now: u64) -> Self
        ensures { result ≡ record { in_force = in_force; refused = None; looked = now; seen = seens.Nothing; fault = None; told = F.told file } }
    {
        Watch {
            file,
            in_force,
            refused: None,
            looked: now,
            seen: Seen::Nothing,
            fault: None,
        }
    }

    /// The file.
    pub fn file(&self) -> &F
        ensures { F.told result.now ≡ self.now.told }
    {
        &self.file
    }

    /// The bytes in force.
    pub fn in_force(&self) -> &[u8]
        ensures { result.now ≡ self.now.in_force }
    {
        self.in_force.as_slice()
    }

    /// Looks at the file at a moment, in milliseconds, once a second at most, and tells what is new. Takes no memory but for the bytes that
    /// it reads; without memory for them it knows what it knew.
    pub fn look(&mut self, now: u64) -> Look
        ensures { Looks self.old now self.new result }
    {
        if !self.is_due(now) {
            self.looked = self.looked.min(now);
            return Look::Nothing;
        }
        let sight = sight_of(&mut self.file, &self.seen);
        self.looked = now;
        self.note(sight)
    }

    /// These bytes, which were offered, are in force from now on.
    pub fn take(&mut self, bytes: Bytes)
        ensures { self.new ≡ with_taken self.old bytes }
    {
        self.in_force = bytes;
        self.refused = None;
        self.seen = Seen::Nothing;
    }

    /// These bytes, which were offered, are refused: they aren't offered again until the file held others.
    pub fn refuse(&mut self, bytes: Bytes)
        ensures { self.new ≡ with_refused self.old bytes }
    {
        self.refused = Some(bytes);
        self.seen = Seen::Nothing;
    }

    /// Whether a look is due.
    fn is_due(&self, now: u64) -> bool
        ensures { result ≡ Definitions.is_due self.now now }
    {
        now.saturating_sub(self.looked) >= SECOND
    }

    /// Notes what a look sees, and tells what is new.
    fn note(&mut self, sight: Sight) -> Look
        ensures look { result ≡ look_of self.old sight }
        ensures noted { self.new ≡ noted self.old sight }
    {
        match sight {
            Sight::Failed(fault) => self.note_fault(fault),
            Sight::Same => {
                self.fault = None;
                Look::Nothing
            }
            Sight::Held { stamp, bytes } => self.note_bytes(stamp, bytes),
        }
    }

    /// Notes why the file couldn't be read, and tells it where it is new.
    fn note_fault(&mut self, fault: FileFault) -> Look
        ensures look { result ≡ look_of self.old (sights.Failed fault) }
        ensures noted { self.new ≡ noted self.old (sights.Failed fault) }
    {
        let known = same_fault(self.fault, fault);
        self.fault = Some(fault);
        if fault != FileFault::NoMemory {
            self.seen = Seen::Nothing;
        }
        if known {
            Look::Nothing
        } else {
            Look::Unread(fault)
        }
    }

    /// Notes what the file holds, and offers it where it is to be taken.
    fn note_bytes(&mut self, stamp: Stamp, bytes: Bytes) -> Look
        ensures look { result ≡ look_of self.old (sights.Held stamp bytes) }
        ensures noted { self.new ≡ noted self.old (sights.Held stamp bytes) }
    {
        self.fault = None;
        let refused = is_refused(&self.refused, bytes.as_slice());
        if !refused {
            self.refused = None;
        }
        if same_bytes(self.in_force.as_slice(), bytes.as_slice()) || refused {
            self.seen = self.seen.with_known(stamp);
            return Look::Nothing;
        }
        if self.seen.has_other(bytes.as_slice()) {
            self.seen = Seen::Nothing;
            Look::Settled(bytes)
        } else {
            self.seen = Seen::Other(bytes);
            Look::Unsettled
        }
    }
}
