//! The text of a configuration in a record, read piece by piece up to the line with its digest. `sip_journal` writes it.
ghost use Rattle.std.specs.Prelude.{◌≡◌, ◌≢◌, ◌≤◌, ◌++◌, [], Some, None, true, false, length, option_map, OnOk, IfOk, IfErr, IfSome, IfNone};
ghost use Rattle.std.specs.Str.{bytes_eq};
ghost use Rattle.sip_journal.specs.Configurations.{begins_piece, begins_rest, rest_stop, AddsPiece, ConfigurationStops, GivesConfiguration};
ghost use Rattle.sip_journal.specs.Configurations.{PartStops, PieceStops, RestStops, TakesPiece};
ghost use Rattle.sip_replay_script.specs.Devices.{later};
ghost use Rattle.sip_replay_script.specs.Lines.{pending, GivesLine, IsOver, IsSpent};
ghost use Rattle.sip_journal.specs.Segments;

use crate::configuration_stop::ConfigurationStop;
use hex::encode_to_slice;
use sha2::{Digest, Sha256};
use sip_replay_script::{ReadStop, ScriptLines, TellingReader};
use sip_text::Buffer;
use std::alloc::Global;

/// The line from which on a configuration is in force, without its LF: `configuration DIGEST`, the SHA-256 of its bytes in 64
/// hexadecimal digits in lower case.
pub fn configuration_line(configuration: &[u8]) -> [u8; 78]
    ensures { result ≡ Segments.configuration_line configuration.now }
{
    let mut line =
        *b"configuration 0000000000000000000000000000000000000000000000000000000000000000";
    let digest = Sha256::digest(configuration);
    let done = encode_to_slice(digest.as_slice(), &mut line[14..]);
    prove!(done.is_ok());
    line
}

/// What a line gives of a text: what stands in it, and what stands behind that.
fn piece_of(line: &[u8]) -> Option<(&[u8], &[u8])>
    ensures { option_map (λ piece. piece.0.now ++ piece.1.now) result ≡ Segments.piece_of line.now }
{
    if line.starts_with(b"= ") {
        return Some((&line[2..], b"\n"));
    }
    if line.starts_with(b"+ ") {
        return Some((&line[2..], b""));
    }
    None
}

/// Adds a part to a text that has at most so many bytes.
fn add(text: &mut Buffer, part: &[u8], longest: usize) -> Result<(), ConfigurationStop>
    requires { length text.old ≤ longest }
    ensures added { OnOk result (text.new ≡ text.old ++ part.now) }
    ensures short { OnOk result (length text.new ≤ longest) }
    ensures stopped { IfErr result (PartStops longest part.now text.old) }
{
    if part.len() > longest - text.as_slice().len() {
        return Err(ConfigurationStop::TooLong);
    }
    text.extend(part)?;
    Ok(())
}

/// Adds what a line gives to a text that has at most so many bytes; whether it gives anything.
fn add_piece(text: &mut Buffer, line: &[u8], longest: usize) -> Result<bool, ConfigurationStop>
    requires { length text.old ≤ longest }
    ensures added { IfOk result (λ given. given ≡ true → AddsPiece line.now text.old text.new) }
    ensures none { IfOk result (λ given. given ≡ false → (Segments.piece_of line.now ≡ None) × (text.new ≡ text.old)) }
    ensures short { OnOk result (length text.new ≤ longest) }
    ensures stopped { IfErr result (PieceStops longest line.now text.old) }
{
    let Some((piece, behind)) = piece_of(line) else {
        return Ok(false);
    };
    add(text, piece, longest)?;
    add(text, behind, longest)?;
    Ok(true)
}

/// Whether a line is the one behind a configuration of these bytes.
fn is_last(line: &[u8], text: &[u8]) -> bool
    ensures { result ≡ bytes_eq line.now (Segments.configuration_line text.now) }
{
    line == configuration_line(text).as_slice()
}

/// Whether a line that was cut is the front of one that gives a piece, or goes on as one.
fn begins_piece(line: &[u8]) -> bool
    ensures { result ≡ begins_piece line.now }
{
    let front = &line[..line.len().min(2)];
    if b"= ".starts_with(front) {
        return true;
    }
    b"+ ".starts_with(front)
}

/// Whether it is that, or a front of the line of the configuration.
fn begins_rest(text: &[u8], line: &[u8]) -> bool
    ensures { result ≡ begins_rest text.now line.now }
{
    if begins_piece(line) {
        return true;
    }
    configuration_line(text).starts_with(line)
}

/// Why no line of a configuration is read behind its first bytes where no line is; of one that was cut these are the bytes.
fn rest_stop(text: &[u8], line: &[u8], stop: ReadStop) -> ConfigurationStop
    ensures { result ≡ rest_stop text.now line.now stop }
{
    match stop {
        ReadStop::NoMemory => ConfigurationStop::NoMemory,
        ReadStop::Damaged => ConfigurationStop::Damaged,
        ReadStop::Cut if begins_rest(text, line) => ConfigurationStop::Cut,
        ReadStop::Cut => ConfigurationStop::Damaged,
        ReadStop::Read => ConfigurationStop::Read,
    }
}

/// Takes the next line of a configuration, of which the text was given before; whether it gives more of it. Otherwise it is the line
/// behind the whole.
fn take_line<R: TellingReader>(
    lines: &mut ScriptLines,
    reader: &mut R,
    line: &mut Vec<u8>,
    text: &mut Buffer,
    longest: usize,
) -> Result<bool, ConfigurationStop>
    requires { length text.old ≤ longest }
    ensures piece { IfOk result (λ more. more ≡ true → TakesPiece lines.old lines.new (R.remaining reader.old) (R.remaining reader.new)
        text.old text.new) }
    ensures whole { IfOk result (λ more. more ≡ false → GivesLine lines.old lines.new (R.remaining reader.old) (R.remaining reader.new)
        (Segments.configuration_line text.old) × (text.new ≡ text.old)) }
    ensures short { OnOk result (length text.new ≤ longest) }
    ensures stopped { IfErr result (RestStops longest (IsSpent (R.has_failed reader.new) lines.new.asks)
        (pending lines.old (R.remaining reader.old)) text.old) }
    ensures asked { later lines.new.asks (R.asked reader.new) ≡ later lines.old.asks (R.asked reader.old) }
    ensures less { lines.new.asks ≤ lines.old.asks }
{
    let more = match lines.next(reader, line) {
        Ok(more) => more,
        Err(stop) => return Err(rest_stop(text.as_slice(), line, stop)),
    };
    if !more {
        return Err(ConfigurationStop::Cut);
    }
    if add_piece(text, line, longest)? {
        return Ok(true);
    }
    if is_last(line, text.as_slice()) {
        Ok(false)
    } else {
        Err(ConfigurationStop::Damaged)
    }
}

/// Takes the lines of a configuration.
#[tactic(auto, using(crate::proofs::Configurations::taken_none, crate::proofs::Configurations::taken_more, crate::proofs::Configurations::takes_less, crate::proofs::Configurations::taken_whole))]
fn take_lines<R: TellingReader>(
    alloc: Global,
    lines: &mut ScriptLines,
    reader: &mut R,
    text: &mut Buffer,
    longest: usize,
) -> Result<(), ConfigurationStop>
    requires empty { text.old ≡ [] }
    requires some { lines.old.unread ≢ [] }
    ensures given { OnOk result (GivesConfiguration lines.old lines.new (R.remaining reader.old) (R.remaining reader.new) text.new) }
    ensures short { OnOk result (length text.new ≤ longest) }
    ensures stopped { IfErr result (ConfigurationStops longest (IsSpent (R.has_failed reader.new) lines.new.asks)
        (pending lines.old (R.remaining reader.old))) }
    ensures asked { later lines.new.asks (R.asked reader.new) ≡ later lines.old.asks (R.asked reader.old) }
    ensures less { lines.new.asks ≤ lines.old.asks }
{
    let mut line = Vec::new(alloc);
    while take_line(lines, reader, &mut line, text, longest)? {}
    Ok(())
}

/// The next configuration of a record, which has at most so many bytes; `None` at the record's end. Refusals: `NoMemory`; `TooLong`,
/// where the lines that stand there give more bytes; `Cut`, where what is left is the front of a text that says a configuration, and
/// not the whole of it; `Damaged`, where it begins with no such text, also where the digest is that of other bytes, and is no such front;
/// `Read`, where the reader failed or was asked 4,294,967,295 times.
pub fn next_configuration<R: TellingReader>(
    alloc: Global,
    lines: &mut ScriptLines,
    reader: &mut R,
    longest: usize,
) -> Result<Option<Buffer>, ConfigurationStop>
    ensures given { IfOk result (λ found. IfSome found
        (λ text. GivesConfiguration lines.old lines.new (R.remaining reader.old) (R.remaining reader.new) text)) }
    ensures short { IfOk result (λ found. IfSome found (λ text. length text ≤ longest)) }
    ensures over { IfOk result (λ found. IfNone found (IsOver lines.old lines.new (R.remaining reader.old) (R.remaining reader.new))) }
    ensures stopped { IfErr result (ConfigurationStops longest (IsSpent (R.has_failed reader.new) lines.new.asks)
        (pending lines.old (R.remaining reader.old))) }
    ensures asked { later lines.new.asks (R.asked reader.new) ≡ later lines.old.asks (R.asked reader.old) }
    ensures less { lines.new.asks ≤ lines.old.asks }
{
    match lines.peek(reader) {
        Ok(Some(_)) => {}
        Ok(None) => return Ok(None),
        Err(_) => return Err(ConfigurationStop::Read),
    }
    let mut text = Buffer::with_room(alloc, 0)?;
    take_lines(alloc, lines, reader, &mut text, longest)?;
    Ok(Some(text))
}
