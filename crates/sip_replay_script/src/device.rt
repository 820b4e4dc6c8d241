ghost use Rattle.std.specs.Prelude.{◌≡◌, ℕ, List, Option, ⊤, IfErr, OnOk};
ghost use Rattle.std.specs.IoError.{error_kind};
ghost use Rattle.std.specs.Io.{ReadsAtMost, WritesAtMost};
ghost use Rattle.std.specs.Io.KnownBytes.{Keeps, ReadConsumes, WriteAppends};
ghost use Rattle.sip_replay_script.specs.Devices.{later, IsFault, TookNothing};

use std::io;
use std::io::{Read, Write};

/// What a script is read from. It may tell how often it was asked, and that it failed. Every reader is one, which
/// tells neither.
pub trait TellingReader {
    // the bytes that it will give, where they are known
    ghost remaining: { Self → Option (List ℕ) };

    // how often it was asked, where that is told
    ghost asked: { Self → Option ℕ } = { λ _. Option.None };

    // it failed in some call
    ghost has_failed: { Self → Type 0 } = { λ _. ⊤ };

    /// `Read::read`.
    fn ask(&mut self, buffer: &mut [u8]) -> io::Result<usize>
        ensures bound { ReadsAtMost result buffer.new }
        ensures bytes { ReadConsumes (remaining self.old) (remaining self.new) result buffer.new }
        ensures asked { asked self.new ≡ later 1 (asked self.old) }
        ensures failed { IfErr result (λ e. IsFault (error_kind e) → has_failed self.new) };
}

impl<R: Read> TellingReader for R {
    ghost remaining = { λ r. R.remaining r };

    fn ask(&mut self, buffer: &mut [u8]) -> io::Result<usize> {
        self.read(buffer)
    }
}

/// What a replay is written to. It may tell how often it was called, that it failed, and that it holds nothing
/// back. Every writer is one, which tells none of it.
pub trait TellingWriter {
    // the bytes that it holds, where they are known
    ghost contents: { Self → Option (List ℕ) };

    // how often it was called, where that is told
    ghost called: { Self → Option ℕ } = { λ _. Option.None };

    // it failed in some call
    ghost has_failed: { Self → Type 0 } = { λ _. ⊤ };

    // it holds nothing back
    ghost is_flushed: { Self → Type 0 } = { λ _. ⊤ };

    /// `Write::write`.
    fn give(&mut self, text: &[u8]) -> io::Result<usize>
        ensures bound { WritesAtMost result text.now }
        ensures bytes { WriteAppends (contents self.old) (contents self.new) result text.now }
        ensures called { called self.new ≡ later 1 (called self.old) }
        ensures kept { has_failed self.old → has_failed self.new }
        ensures failed { IfErr result (λ e. IsFault (error_kind e) → has_failed self.new) }
        ensures refused { TookNothing result text.now → has_failed self.new };

    /// `Write::flush`.
    fn hand_on(&mut self) -> io::Result<()>
        ensures bytes { Keeps (contents self.old) (contents self.new) }
        ensures called { called self.new ≡ later 1 (called self.old) }
        ensures flushed { OnOk result (is_flushed self.new) }
        ensures kept { has_failed self.old → has_failed self.new }
        ensures failed { IfErr result (λ e. IsFault (error_kind e) → has_failed self.new) };
}

impl<W: Write> TellingWriter for W {
    ghost contents = { λ w. W.contents w };

    #[inline(always)]
    fn give(&mut self, text: &[u8]) -> io::Result<usize> {
        self.write(text)
    }

    fn hand_on(&mut self) -> io::Result<()> {
        self.flush()
    }
}
