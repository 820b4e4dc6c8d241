//! What is kept of a server for those who look on: who gave passwords, and when what is said and written again.
ghost use Rattle.std.specs.Prelude.{◌≡◌, IfOk, OnErr, OnOk};
ghost use Rattle.sipd_status.specs.Book as Definitions;
ghost use Rattle.sipd_status.specs.Tries.{lines_of};
ghost use Rattle.sipd_status.specs.declared.tally.Proof.TheVariants.{Wanted};

use crate::giver::given_name;
use crate::tally::Proof;
use crate::tries::Tries;
use sip_text::Bytes;
use std::alloc::{AllocError, Global};

/// How many milliseconds pass until the numbers are written again.
const PERIOD: u64 = 10_000;

/// How many milliseconds pass until it is told again who gave wrong passwords.
const MINUTE: u64 = 60_000;

/// What is kept.
pub struct StatusBook {
    /// How many requests gave credentials and proved nobody.
    pub wrong: u64,
    /// Who gave passwords in this minute.
    pub tries: Tries,
    /// From which moment on the numbers are written, in milliseconds.
    pub due: u64,
    /// From which moment on it is told who gave wrong passwords.
    pub ends: u64,
    /// Whether it was said that the numbers can't be written.
    pub is_refused: bool,
}

/// Written out, so that it is proved once and not wherever one is dropped.
impl Drop for StatusBook {
    fn drop(self) {
        let StatusBook {
            wrong: _,
            tries: _,
            due: _,
            ends: _,
            is_refused: _,
        } = self;
    }
}

impl StatusBook {
    /// Of a server of which nothing is known; its numbers are written at once. `AllocError` is the only refusal.
    pub fn new(alloc: Global) -> Result<StatusBook, AllocError>
        ensures { IfOk result (λ book. book ≡ Definitions.new_book) }
    {
        Ok(StatusBook {
            wrong: 0,
            tries: Tries::new(alloc)?,
            due: 0,
            ends: 0,
            is_refused: false,
        })
    }

    /// A request of a source gave credentials that proved nobody.
    fn note_wrong(&mut self, ip: [u8; 4], name: Bytes)
        ensures { self.new ≡ Definitions.with_wrong ip name self.old }
    {
        self.wrong = self.wrong.saturating_add(1);
        self.tries.wrong(ip, name);
    }

    /// A request of a source was challenged, which may have given credentials.
    fn note_wanted(&mut self, alloc: Global, ip: [u8; 4], datagram: &[u8]) -> Result<(), AllocError>
        ensures noted { OnOk result (self.new ≡ Definitions.noted Wanted ip datagram.now self.old) }
        ensures refused { OnErr result (self.new ≡ self.old) }
    {
        if let Some(name) = given_name(alloc, datagram)? {
            self.note_wrong(ip, name);
        }
        Ok(())
    }

    /// What was decided of who asked in a datagram of a source. `AllocError` is the only refusal, and nothing is changed then.
    pub fn note(
        &mut self,
        alloc: Global,
        proof: Proof,
        ip: [u8; 4],
        datagram: &[u8],
    ) -> Result<(), AllocError>
        ensures noted { OnOk result (self.new ≡ Definitions.noted proof ip datagram.now self.old) }
        ensures refused { OnErr result (self.new ≡ self.old) }
    {
        match proof {
            Proof::Given => {
                self.tries.right(alloc, ip);
                Ok(())
            }
            Proof::Wanted => self.note_wanted(alloc, ip, datagram),
            Proof::Unasked => Ok(()),
        }
    }

    /// Whether a minute is over, so that it is told who gave wrong passwords in it.
    pub fn is_minute_over(&self, now: u64) -> bool
        ensures { result ≡ Definitions.is_minute_over now self.now }
    {
        self.ends <= now
    }

    /// Another minute begins. Gives the lines of those who gave wrong passwords alone in the last one. `AllocError` is the only refusal: that
    /// minute goes on then.
    pub fn end_minute(&mut self, alloc: Global, now: u64) -> Result<Bytes, AllocError>
        ensures lines { IfOk result (λ lines. lines ≡ lines_of self.old.tries) }
        ensures ended { OnOk result (self.new ≡ Definitions.minute_ended now self.old) }
        ensures refused { OnErr result (self.new ≡ self.old) }
    {
        let lines = self.tries.lines(alloc)?;
        self.tries.clear();
        self.ends = now.saturating_add(MINUTE);
        Ok(lines)
    }

    /// Whether ten seconds are over, so that the numbers are written.
    pub fn is_due(&self, now: u64) -> bool
        ensures { result ≡ Definitions.is_due now self.now }
    {
        self.due <= now
    }

    /// The numbers are written, or can't be; they are ten seconds later again.
    pub fn wait(&mut self, now: u64)
        ensures { self.new ≡ Definitions.waiting now self.old }
    {
        self.due = now.saturating_add(PERIOD);
    }

    /// Whether it is said that the numbers can't be written: once, until they could be again.
    pub fn says_refused(&mut self, is_refused: bool) -> bool
        ensures said { result ≡ Definitions.says_refused is_refused self.old }
        ensures kept { self.new ≡ record self.old { is_refused = is_refused } }
    {
        let was_refused = self.is_refused;
        self.is_refused = is_refused;
        is_refused && !was_refused
    }
}
