//! The lines of a script or a record, read in parts of at most 8,192 bytes. What a line says is in `script`.
ghost use Rattle.std.specs.Prelude.{◌≡◌, ◌≢◌, ◌≤◌, ◌<◌, ◌+◌, ◌*◌, ◌++◌, ◌∷◌, [], ℕ, List, true, false, length, take, drop, vec_len, count_by, IfOk};
ghost use Rattle.std.specs.Prelude.{IfErr, IfSome, IfNone, OnOk, MatchOption};
ghost use Rattle.std.specs.Io.KnownBytes.{Consumes, Keeps, IsAtEnd};
ghost use Rattle.sip_replay_script.specs.Devices.{later};
ghost use Rattle.sip_replay_script.specs.Lines.{is_end, pending, left, BeginsWith, EndsAt, EndsLine, GoesOn, GivesLine, IsOver, IsSpent};
ghost use Rattle.sip_replay_script.specs.Lines.{LineStops, PartStops, PutStops};
ghost use Rattle.sip_replay_script.specs.declared.read_stop.ReadStop.TheVariants.{Cut, Read};

use crate::device::TellingReader;
use crate::read_stop::ReadStop;
use memchr::memchr_iter;
use std::alloc::{AllocError, Global};
use std::io::ErrorKind;
use std::marker::Model;

/// The most bytes that a line has, without its LF.
pub(crate) const LONGEST_LINE: usize = 200_000;

/// How many bytes are asked for at a time.
const BUFFER: usize = 8192;

/// The lines of a script, each ended by LF, through a buffer. The reader is asked at most 4,294,967,295
/// times.
#[derive(Drop)]
pub struct ScriptLines {
    buffer: Vec<u8>,
    start: usize,
    end: usize,
    asks: u32,
    number: u64,
}

impl Model for ScriptLines {
    ghost use Rattle.std.specs.Prelude.{◌≡◌, ◌≤◌, ◌+◌, ◌-◌, ◌*◌, vec_len};
    ghost use Rattle.std.specs.List.{slice_range};
    ghost use Rattle.sip_replay_script.specs.Lines.{Reading};

    ghost Value = { Reading };

    ghost view = { λ l. record { unread = slice_range l.buffer.items l.start l.end; asks = l.asks; number = l.number } };

    ghost invariant = { λ l. (l.start ≤ l.end) × (l.end ≤ 8192) × (vec_len l.buffer ≡ 8192)
        × (l.number + (l.end - l.start) + 8192 * l.asks ≤ 8192 * 4294967295) };
}

impl ScriptLines {
    /// Nothing read yet.
    pub fn new(alloc: Global) -> Result<ScriptLines, AllocError>
        ensures { IfOk result (λ lines. lines ≡ record { unread = []; asks = 4294967295; number = 0 }) }
    {
        let buffer = zeros(alloc, BUFFER)?;
        Ok(ScriptLines {
            buffer,
            start: 0,
            end: 0,
            asks: u32::MAX,
            number: 0,
        })
    }

    /// How many lines were given.
    pub fn number(&self) -> u64
        ensures value { result ≡ self.now.number }
        ensures small { result ≤ 8192 * 4294967295 }
    {
        self.number
    }

    /// The next line, without its LF, or nothing at the end of the script. Refusals: `NoMemory`; `Damaged`, where no line of at most
    /// 200,000 bytes stands there; `Cut`, where the script ends within such a line, whose bytes are given all the same; `Read`.
    pub fn next<R: TellingReader>(
        &mut self,
        reader: &mut R,
        line: &mut Vec<u8>,
    ) -> Result<bool, ReadStop>
        ensures given { IfOk result (λ more. more ≡ true → GivesLine self.old self.new (R.remaining reader.old) (R.remaining reader.new)
            line.new.items) }
        ensures over { IfOk result (λ more. more ≡ false → IsOver self.old self.new (R.remaining reader.old) (R.remaining reader.new)) }
        ensures stopped { IfErr result (LineStops (IsSpent (R.has_failed reader.new) self.new.asks) (pending self.old (R.remaining reader.old)) line.new.items) }
        ensures asked { later self.new.asks (R.asked reader.new) ≡ later self.old.asks (R.asked reader.old) }
        ensures less { self.new.asks ≤ self.old.asks }
    {
        line.clear();
        loop {
            if !self.fill(reader)? {
                return over(line);
            }
            if self.take_part(line)? {
                return Ok(true);
            }
        }
    }

    /// The next byte, which stays: it begins what is given next; `None` at the end of the script. `Read` is the only refusal: the reader
    /// failed, or was asked 4,294,967,295 times.
    pub fn peek<R: TellingReader>(&mut self, reader: &mut R) -> Result<Option<u8>, ReadStop>
        ensures kept { OnOk result (Keeps (pending self.old (R.remaining reader.old)) (pending self.new (R.remaining reader.new))) }
        ensures byte { IfOk result (λ found. IfSome found (λ byte. (rest : List ℕ) × (self.new.unread ≡ byte ∷ rest))) }
        ensures end { IfOk result (λ found. IfNone found (IsAtEnd (pending self.new (R.remaining reader.new)))) }
        ensures number { self.new.number ≡ self.old.number }
        ensures fewer { OnOk result (left self.new ≤ left self.old) }
        ensures stopped { IfErr result (λ stop. (stop ≡ Read) × IsSpent (R.has_failed reader.new) self.new.asks) }
        ensures asked { later self.new.asks (R.asked reader.new) ≡ later self.old.asks (R.asked reader.old) }
        ensures less { self.new.asks ≤ self.old.asks }
    {
        if !self.fill(reader)? {
            return Ok(None);
        }
        Ok(Some(self.unread()[0]))
    }

    /// The bytes that were read and not given yet. Takes no memory.
    #[inline(always)]
    pub fn unread(&self) -> &[u8]
        ensures unread { result.now ≡ self.now.unread }
        ensures few { length result.now ≤ 8192 }
    {
        &self.buffer[self.start..self.end]
    }

    /// The next line, without its LF, where it stands whole among the unread bytes: so it can be used from there, and
    /// is copied once. `pass` goes on behind it.
    pub(crate) fn front(&self) -> Option<&[u8]>
        ensures { MatchOption result (count_by is_end self.now.unread ≡ 0) (λ line. BeginsWith self.now.unread line.now) }
    {
        let unread = &self.buffer[self.start..self.end];
        let place = end_of_line(unread)?;
        Some(&unread[..place])
    }

    /// Goes on behind a line of so many bytes that stands whole among the unread bytes, and its LF.
    pub fn pass(&mut self, count: usize)
        requires { count < length self.old.unread }
        ensures unread { self.new.unread ≡ drop (count + 1) self.old.unread }
        ensures number { self.new.number ≡ self.old.number + 1 }
        ensures asks { self.new.asks ≡ self.old.asks }
    {
        self.start = self.start + count + 1;
        self.number += 1;
    }

    /// Goes on behind so many bytes, which are so many lines that stand whole among the unread bytes, each with its LF.
    pub fn pass_lines(&mut self, count: usize, lines: usize)
        requires { (count ≤ length self.old.unread) × (lines ≤ count) }
        ensures unread { self.new.unread ≡ drop count self.old.unread }
        ensures number { self.new.number ≡ self.old.number + lines }
        ensures asks { self.new.asks ≡ self.old.asks }
    {
        self.start += count;
        self.number += lines as u64;
    }

    /// Whether there is an unread byte; if all were given, the reader is asked.
    fn fill<R: TellingReader>(&mut self, reader: &mut R) -> Result<bool, ReadStop>
        ensures kept { OnOk result (Keeps (pending self.old (R.remaining reader.old)) (pending self.new (R.remaining reader.new))) }
        ensures some { IfOk result (λ some. some ≡ true → 1 ≤ length self.new.unread) }
        ensures end { IfOk result (λ some. some ≡ false → IsAtEnd (pending self.new (R.remaining reader.new))) }
        ensures number { self.new.number ≡ self.old.number }
        ensures fewer { OnOk result (left self.new ≤ left self.old) }
        ensures stopped { IfErr result (λ stop. (stop ≡ Read) × IsSpent (R.has_failed reader.new) self.new.asks) }
        ensures asked { later self.new.asks (R.asked reader.new) ≡ later self.old.asks (R.asked reader.old) }
        ensures less { self.new.asks ≤ self.old.asks }
    {
        if self.start < self.end {
            return Ok(true);
        }
        let count = read_some(reader, &mut self.buffer, &mut self.asks)?;
        self.start = 0;
        self.end = count;
        Ok(count > 0)
    }

    /// Moves the unread bytes up to the first LF to the line, or all of them; whether there was an LF.
    fn take_part(&mut self, line: &mut Vec<u8>) -> Result<bool, ReadStop>
        requires { length line.old.items ≤ 200000 }
        ensures short { OnOk result (length line.new.items ≤ 200000) }
        ensures ends { IfOk result (λ ended. ended ≡ true → EndsLine self.old self.new line.old.items line.new.items) }
        ensures goes_on { IfOk result (λ ended. ended ≡ false → GoesOn self.old self.new line.old.items line.new.items) }
        ensures stopped { IfErr result (PartStops self.old.unread line.old.items) }
        ensures asks { self.new.asks ≡ self.old.asks }
    {
        let unread = &self.buffer[self.start..self.end];
        match end_of_line(unread) {
            Some(place) => {
                put_part(line, &unread[..place])?;
                self.start += place + 1;
                self.number += 1;
                Ok(true)
            }
            None => {
                put_part(line, unread)?;
                self.start = self.end;
                Ok(false)
            }
        }
    }
}

fn zeros(alloc: Global, count: usize) -> Result<Vec<u8>, AllocError>
    ensures { IfOk result (λ v. vec_len v ≡ count) }
{
    vec![in alloc; 0; count]
}

/// A script may end here only where no line has begun.
fn over(line: &[u8]) -> Result<bool, ReadStop>
    ensures over { IfOk result (λ more. (more ≡ false) × (line.now ≡ [])) }
    ensures stopped { IfErr result (λ stop. (stop ≡ Cut) × (line.now ≢ [])) }
{
    if line.is_empty() {
        Ok(false)
    } else {
        Err(ReadStop::Cut)
    }
}

/// How many bytes the reader gave, 0 at its end.
#[tactic(auto, using(crate::proofs::Written::keeps_both, crate::proofs::Written::keeps_itself, crate::proofs::Written::keeps_consumes, crate::proofs::Calls::later_less))]
fn read_some<R: TellingReader>(
    reader: &mut R,
    buffer: &mut Vec<u8>,
    asks: &mut u32,
) -> Result<usize, ReadStop>
    ensures same { vec_len buffer.new ≡ vec_len buffer.old }
    ensures within { IfOk result (λ count. count ≤ vec_len buffer.new) }
    ensures bytes { IfOk result (λ count. Consumes (R.remaining reader.old) (R.remaining reader.new) (take count buffer.new.items)) }
    ensures end { IfOk result (λ count. count ≡ 0 → 0 < vec_len buffer.new → IsAtEnd (R.remaining reader.new)) }
    ensures less { asks.new ≤ asks.old }
    ensures lesser { OnOk result (asks.new < asks.old) }
    ensures asked { later asks.new (R.asked reader.new) ≡ later asks.old (R.asked reader.old) }
    ensures stopped { IfErr result (λ stop. (stop ≡ Read) × IsSpent (R.has_failed reader.new) asks.new) }
{
    while *asks > 0 {
        *asks -= 1;
        match reader.ask(buffer.as_mut_slice()) {
            Ok(count) => return Ok(count),
            Err(e) => match e.kind() {
                ErrorKind::Interrupted => {}
                _ => return Err(ReadStop::Read),
            },
        }
    }
    Err(ReadStop::Read)
}

/// The place of the first LF.
pub fn end_of_line(unread: &[u8]) -> Option<usize>
    ensures { MatchOption result (count_by is_end unread.now ≡ 0) (λ place. EndsAt unread.now place) }
{
    memchr_iter(b'\n', unread).next()
}

/// Adds a part to a line, if the line isn't too long then.
fn put_part(line: &mut Vec<u8>, part: &[u8]) -> Result<(), ReadStop>
    requires { length line.old.items ≤ 200000 }
    ensures grown { OnOk result (line.new.items ≡ line.old.items ++ part.now) }
    ensures short { OnOk result (length line.new.items ≤ 200000) }
    ensures stopped { IfErr result (PutStops part.now line.old.items) }
{
    if part.len() > LONGEST_LINE - line.len() {
        return Err(ReadStop::Damaged);
    }
    line.extend_from_slice(part)?;
    Ok(())
}
