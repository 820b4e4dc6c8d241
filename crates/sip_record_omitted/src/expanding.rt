//! A reader that gives, in the place of each line that stands for datagrams which say no message, the lines of these.
ghost use Rattle.std.specs.Prelude.{◌≡◌, option_map, IfOk};
ghost use Rattle.sip_record_omitted.specs.Holding.{ahead};
ghost use Rattle.sip_record_omitted.specs.Omitted.{expanded};

use crate::held::Held;
use sip_replay_script::TellingReader;
use std::alloc::{AllocError, Global};
use std::io;

/// A reader that gives the text that another one's bytes stand for, line by line: in the place of each line `omitted COUNT` so
/// many lines of a datagram of one byte, which says no message. What another reader gives without such a line it gives as it is.
/// It looks at no line before all in front of that was given, takes memory where it is made, and none later.
pub struct Expanding<I> {
    pub inner: I,
    pub(crate) held: Held,
}

/// Written out, so that it is proved once and not wherever one is dropped.
impl<I: Drop> Drop for Expanding<I> {
    fn drop(self) {
        let Expanding { inner: _, held: _ } = self;
    }
}

impl<I: TellingReader + Drop> Expanding<I> {
    /// What a reader has, from where it stands, which is the front of a line. `AllocError` is the only refusal.
    pub fn new(alloc: Global, inner: I) -> Result<Self, AllocError>
        ensures inner { IfOk result (λ e. e.inner ≡ inner) }
        ensures text { IfOk result (λ e. ⟦<Expanding<I> as TellingReader>⟧.remaining e
            ≡ option_map expanded (I.remaining inner)) }
    {
        let held = Held::new(alloc)?;
        Ok(Expanding { inner, held })
    }

    /// How many lines more were given, or are to be given, than were read of those that were looked at: in the text that is given
    /// a line stands so many lines further on than in what is read. At most the greatest that a `u64` holds.
    pub fn added(&self) -> u64
        ensures { result ≡ self.now.held.added }
    {
        self.held.added()
    }
}

impl<I: TellingReader> TellingReader for Expanding<I> {
    ghost remaining = { λ e. option_map (ahead e.held) (I.remaining e.inner) };

    ghost has_failed = { λ e. I.has_failed e.inner };

    #[tactic(auto, using(crate::proofs::Ahead::gives, crate::proofs::Ahead::gives_all))]
    fn ask(&mut self, buffer: &mut [u8]) -> io::Result<usize> {
        self.held.settle(&mut self.inner)?;
        Ok(self.held.give(buffer))
    }
}
