//! A record opened by its first line, and whether it begins with the configuration of a file. What stands behind is read elsewhere.
ghost use Rattle.std.specs.Prelude.{◌≡◌, ◌≢◌, ◌⊎◌, true, false, IfErr, IfOk, OnErr};
ghost use Rattle.std.specs.Io.KnownBytes.{Keeps};
ghost use Rattle.std.specs.IoError.{error_kind};
ghost use Rattle.sip_replay_script.specs.Devices.{later, IsFault};
ghost use Rattle.sipd_exit.specs.declared.exit.Exit.TheVariants.{Memory};
ghost use Rattle.sipd_old_record.specs.OldRecord.{at_line_of_file, line_of_file, IsFirstLine, IsReaderFault, IsRefused};
ghost use Rattle.sipd_old_record.specs.OldRecord.{IsSystemFault, ReadsByte, SaysHead, WasSaid};
ghost use Rattle.sipd_old_record.specs.Readers.{most_asks, HasStopped, WasAsked};

use sip_journal::{RecordHead, read_head};
use sip_record_sealed::Unsealing;
use sip_replay_script::TellingReader;
use sipd_exit::Exit;
use std::alloc::Global;
use std::io::{BufReader, ErrorKind};
use std::rt::Files;
use std::{fs, io};

/// The longest first line of a record, in bytes, with some room.
const LONGEST_HEAD: usize = 200;

/// A record that is read: what its first line says, and what reads the lines behind it.
#[derive(Drop)]
pub struct OldRecord<I: Drop> {
    pub head: RecordHead,
    pub events: I,
}

/// The next byte that a reader gives, if it isn't interrupted; none at its end.
fn ask_byte<I: TellingReader>(reader: &mut I) -> io::Result<Option<u8>>
    ensures read { IfOk result (ReadsByte (I.remaining reader.old) (I.remaining reader.new)) }
    ensures kept { OnErr result (Keeps (I.remaining reader.old) (I.remaining reader.new)) }
    ensures asked { I.asked reader.new ≡ later 1 (I.asked reader.old) }
    ensures failed { IfErr result (λ e. IsFault (error_kind e) → I.has_failed reader.new) }
{
    let mut byte = [0u8; 1];
    if reader.ask(&mut byte)? == 0 {
        return Ok(None);
    }
    Ok(Some(byte[0]))
}

/// The next byte that a reader gives; none at its end.
#[tactic(auto, using(sip_replay_script::proofs::Written::keeps_both, crate::proofs::FirstLines::read_behind, sip_replay_script::proofs::Written::keeps_itself))]
fn next_byte<I: TellingReader>(reader: &mut I) -> io::Result<Option<u8>>
    ensures read { IfOk result (ReadsByte (I.remaining reader.old) (I.remaining reader.new)) }
    ensures asked { WasAsked 0 (I.asked reader.old) (I.asked reader.new) }
    ensures failed { IfErr result (λ e. IsFault (error_kind e) → I.has_failed reader.new) }
    ensures stopped { OnErr result (HasStopped (I.has_failed reader.new) most_asks (I.asked reader.old) (I.asked reader.new)) }
{
    for _ in 0..u32::MAX {
        match ask_byte(reader) {
            Ok(found) => return Ok(found),
            Err(e) => match e.kind() {
                ErrorKind::Interrupted => {}
                _ => return Err(e),
            },
        }
    }
    Err(io::Error::from(ErrorKind::Interrupted))
}

/// The first line of what is read, without its LF; what is longer than that of a record is cut, and what ends without LF is a line, too.
#[tactic(auto, using(crate::proofs::FirstLines::at_limit, crate::proofs::Asking::none_asked, crate::proofs::Asking::asked_both))]
fn first_line<I: TellingReader>(alloc: Global, reader: &mut I) -> Result<Vec<u8>, Exit>
    ensures line { IfOk result (λ line. IsFirstLine (I.remaining reader.old) (I.remaining reader.new) line.items) }
    ensures asked { WasAsked 0 (I.asked reader.old) (I.asked reader.new) }
    ensures failed { IfErr result
        (λ exit. (exit ≡ Memory) ⊎ IsReaderFault (I.has_failed reader.new) (I.asked reader.old) (I.asked reader.new) exit) }
{
    let mut line = Vec::new(alloc);
    for _ in 0..LONGEST_HEAD {
        match next_byte(reader)? {
            None => return Ok(line),
            Some(byte) => {
                if byte == b'\n' {
                    return Ok(line);
                }
                line.push(byte)?;
            }
        }
    }
    Ok(line)
}

/// What the first line of a record says, whatever became of it. Refusals: `NoRecord`; `Memory`; a fault of the reader.
pub fn head_in<I: TellingReader>(alloc: Global, reader: &mut I) -> Result<RecordHead, Exit>
    ensures head { IfOk result (SaysHead (I.remaining reader.old) (I.remaining reader.new)) }
    ensures asked { WasAsked 0 (I.asked reader.old) (I.asked reader.new) }
    ensures refused { IfErr result (IsRefused (I.remaining reader.old) (I.remaining reader.new) (I.has_failed reader.new) (I.asked reader.old)
        (I.asked reader.new)) }
{
    let line = first_line(alloc, reader)?;
    match read_head(line.as_slice()) {
        Some(head) => Ok(head),
        None => Err(Exit::NoRecord),
    }
}

/// Whether the configuration with which a record begins whose first line says this head is that of a file with this digest.
pub fn is_made_with(head: &RecordHead, digest: &[u8; 32]) -> bool
    ensures same { result ≡ true → head.now.digest ≡ digest.now }
    ensures other { result ≡ false → head.now.digest ≢ digest.now }
{
    head.digest == *digest
}

/// The file of a record, to be read, without the lines that hold digests of it or of the record that it follows.
#[tactic(auto, using(crate::proofs::FirstLines::system_fault, crate::proofs::FirstLines::no_memory))]
pub fn open_file<R: Files>(
    rt: &R,
    alloc: Global,
    path: &str,
) -> Result<Unsealing<BufReader<R::File>>, Exit>
    ensures { IfErr result IsSystemFault }
{
    let file = fs::File::open(rt, path)?;
    let reader = BufReader::new(alloc, file)?;
    Ok(Unsealing::new(alloc, reader)?)
}

/// The record in a file, whatever became of it, and with whatever configuration it was made. What a file holds no clause can say: whatever
/// it held, its first line says that head.
pub fn open_any_record<R: Files>(
    rt: &R,
    alloc: Global,
    path: &str,
) -> Result<OldRecord<Unsealing<BufReader<R::File>>>, Exit>
    ensures { IfOk result (λ old. WasSaid old.head) }
{
    let mut events = open_file(rt, alloc, path)?;
    let head = head_in(alloc, &mut events)?;
    Ok(OldRecord { head, events })
}

/// How the program ends at a line of a record's file, where the line is said of the text that the file stands for, in which so many lines more
/// stand in front of that one, and so many fewer, since those hold digests, or say which record is followed.
pub fn at_line_of_file(exit: Exit, more: u64, fewer: u64) -> Exit
    ensures { result ≡ at_line_of_file more fewer exit }
{
    match exit {
        Exit::Script(line, ..) => Exit::Script(line.saturating_sub(more).saturating_add(fewer)),
        exit => exit,
    }
}

/// How the program ends where what reads a record's file stopped, which gave so many lines more than stand in the file.
pub fn exit_in_file<I>(exit: Exit, file: &Unsealing<I>, more: u64) -> Exit {
    match file.changed() {
        Some(line) => Exit::Changed(line),
        None => at_line_of_file(exit, more, file.hidden()),
    }
}

/// The line of a record's file that is this one behind its first line.
pub fn line_of_file(line: u64) -> u64
    ensures { result ≡ line_of_file line }
{
    line.saturating_add(1)
}
