//! The bytes of a configuration's file read whole, and no more of them than a configuration may have. What they state isn't asked.
ghost use Rattle.std.specs.Prelude.{◌≡◌, ◌≤◌, ◌<◌, ◌+◌, [], true, false, length, take, Err, IfOk, IfErr, OnErr};
ghost use Rattle.std.specs.Io.KnownBytes.{Consumes, Keeps, IsAtEnd};
ghost use Rattle.sipd_reload.specs.File.{Grows, IsAll, IsLonger, most_bytes};
ghost use Rattle.sipd_reload.specs.declared.file_fault.FileFault.TheVariants.{TooLong};

use crate::file_fault::FileFault;
use crate::limits::MOST_BYTES;
use sip_text::{Buffer, Bytes};
use std::alloc::Global;
use std::fs::OpenFile;
use std::io::{ErrorKind, Read};

/// How many bytes are asked for at a time.
const PART: usize = 8192;

/// How often a reader that is interrupted is asked again.
const MOST_ASKED: u32 = 1000;

/// A part, to be filled.
fn new_part() -> [u8; PART] {
    [0; PART]
}

/// How many bytes are asked for behind so many: one more than are read of a configuration, at the most.
fn next_count(count: usize) -> usize
    requires { count ≤ most_bytes }
    ensures some { 0 < result }
    ensures within { result ≤ 8192 }
    ensures short { count + result ≤ most_bytes + 1 }
{
    PART.min(MOST_BYTES + 1 - count)
}

/// Fills the front of a part with the next bytes of a reader; how many these are, 0 at its end.
#[tactic(auto, using(crate::proofs::Parts::keeps_itself, crate::proofs::Parts::keeps_both, crate::proofs::Parts::keeps_consumes))]
fn fill<I: Read>(reader: &mut I, part: &mut [u8]) -> Result<usize, FileFault>
    ensures within { IfOk result (λ count. count ≤ length part.new) }
    ensures bytes { IfOk result (λ count. Consumes (I.remaining reader.old) (I.remaining reader.new) (take count part.new)) }
    ensures end { IfOk result (λ count. count ≡ 0 → 0 < length part.new → IsAtEnd (I.remaining reader.new)) }
    ensures kept { OnErr result (Keeps (I.remaining reader.old) (I.remaining reader.new)) }
    ensures short { IfErr result (λ fault. ¬ (fault ≡ TooLong)) }
{
    for _ in 0..MOST_ASKED {
        match reader.read(part) {
            Ok(count) => return Ok(count),
            Err(e) => match e.kind() {
                ErrorKind::Interrupted => {}
                kind => return Err(FileFault::of_kind(kind)),
            },
        }
    }
    Err(FileFault::Device)
}

/// Reads the next part of what a reader gives behind some bytes, of which there are no more than are read; whether there was any.
#[tactic(auto, using(crate::proofs::Parts::grows))]
fn read_part<I: Read>(
    reader: &mut I,
    part: &mut [u8; PART],
    buffer: &mut Buffer,
) -> Result<bool, FileFault>
    requires { length buffer.old ≤ most_bytes }
    ensures grown { IfOk result (λ more. more ≡ true → Grows (I.remaining reader.old) (I.remaining reader.new) buffer.old buffer.new) }
    ensures over { IfOk result (λ more. more ≡ false → Consumes (I.remaining reader.old) (I.remaining reader.new) [] × IsAtEnd (I.remaining reader.new)
        × (buffer.new ≡ buffer.old)) }
    ensures short { IfErr result (λ fault. ¬ (fault ≡ TooLong)) }
{
    let wanted = next_count(buffer.as_slice().len());
    let count = fill(reader, &mut part[..wanted])?;
    if count == 0 {
        return Ok(false);
    }
    buffer.extend(&part[..count])?;
    Ok(true)
}

/// All bytes that a reader gives, of which so many are expected. `TooLong` only where there are more than are read of a configuration, behind
/// one byte too many.
#[tactic(auto, using(crate::proofs::Parts::consumes_nothing, crate::proofs::Parts::consumes_grown, crate::proofs::Parts::is_all, crate::proofs::Parts::is_longer, crate::proofs::Parts::more_there))]
pub(crate) fn read_all<I: Read>(
    alloc: Global,
    reader: &mut I,
    room: usize,
) -> Result<Bytes, FileFault>
    ensures all { IfOk result (IsAll (I.remaining reader.old) (I.remaining reader.new)) }
    ensures long { result ≡ Err TooLong → IsLonger (I.remaining reader.old) (I.remaining reader.new) }
{
    let mut part = new_part();
    let mut buffer = Buffer::with_room(alloc, room)?;
    'parts: while read_part(reader, &mut part, &mut buffer)? {
        if buffer.as_slice().len() > MOST_BYTES {
            return Err(FileFault::TooLong);
        }
    }
    Ok(buffer.into_bytes())
}

/// How many bytes of an open file are to be expected.
fn room_for<F: OpenFile>(file: &F) -> usize
    ensures { result ≤ most_bytes }
{
    match file.metadata() {
        Ok(found) => found.len().min(MOST_BYTES as u64) as usize,
        Err(_) => 0,
    }
}

/// All bytes of an open file, which is to state a configuration. `TooLong` only where it has more than are read of one, behind one byte too
/// many; so of a device that gives bytes without end.
pub fn read_configuration_file<F: Read + OpenFile>(
    alloc: Global,
    file: &mut F,
) -> Result<Bytes, FileFault>
    ensures all { IfOk result (IsAll (F.remaining file.old) (F.remaining file.new)) }
    ensures long { result ≡ Err TooLong → IsLonger (F.remaining file.old) (F.remaining file.new) }
{
    let room = room_for(file);
    read_all(alloc, file, room)
}
