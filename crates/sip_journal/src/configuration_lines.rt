ghost use Rattle.std.specs.Prelude.{◌≡◌, ◌≢◌, ◌+◌, [], true, false};
ghost use Rattle.sip_replay_script.specs.Devices.{GaveUp};
ghost use Rattle.sip_journal.specs.Recorder.{FrontOfConfiguration, FrontOfText, IsFirstPiece, WritesConfiguration, WritesText};

use crate::configuration::configuration_line;
use crate::line_room::LineRoom;
use crate::writing::write;
use sip_replay_script::{TellingWriter, end_of_line, put};

/// The most bytes of a configuration that stand in one line: as many as a line has room for, and fewer than one that is read may have.
const LONGEST_PIECE: usize = 131_072;

/// The first piece of a text, as a line gives it.
#[derive(Clone, Copy)]
struct LinePiece<'a> {
    /// What the line begins with: `=` of a line of the text, `+` of what goes on without LF.
    mark: [u8; 2],
    bytes: &'a [u8],
    /// How many bytes it gives.
    count: usize,
}

/// The first piece of a text: its first line, or as much of that as one line holds.
fn first_piece(text: &[u8]) -> LinePiece<'_>
    requires { text.now ≢ [] }
    ensures { IsFirstPiece text.now result.mark result.bytes.now result.count }
{
    let near = &text[..text.len().min(LONGEST_PIECE)];
    match end_of_line(near) {
        Some(place) => LinePiece {
            mark: *b"= ",
            bytes: &near[..place],
            count: place + 1,
        },
        None => LinePiece {
            mark: *b"+ ",
            bytes: near,
            count: near.len(),
        },
    }
}

/// Writes the lines that give a text; whether it did.
#[tactic(auto, using(crate::proofs::Configuring::writes_none, crate::proofs::Configuring::writes_all))]
fn write_text<W: TellingWriter>(writer: &mut W, line: &mut LineRoom, text: &[u8]) -> bool
    ensures written { result ≡ true → WritesText (W.contents writer.old) (W.contents writer.new) text.now [] }
    ensures gave_up { result ≡ false → GaveUp (W.has_failed writer.new) (W.called writer.new) }
    ensures part { result ≡ false → FrontOfText (W.contents writer.old) (W.contents writer.new) text.now }
{
    let mut done = 0;
    while done < text.len() {
        let piece = first_piece(&text[done..]);
        if put(writer, line.plain(&piece.mark, piece.bytes)).is_err() {
            return false;
        }
        done += piece.count;
    }
    true
}

/// Writes a configuration, and has it handed on; whether it did.
#[tactic(auto, using(crate::proofs::Configuring::front_of_lines))]
pub(crate) fn write_configuration<W: TellingWriter>(
    writer: &mut W,
    line: &mut LineRoom,
    configuration: &[u8],
) -> bool
    ensures written { result ≡ true → WritesConfiguration (W.contents writer.old) (W.contents writer.new) (W.is_flushed writer.new)
        configuration.now }
    ensures gave_up { result ≡ false → GaveUp (W.has_failed writer.new) (W.called writer.new) }
    ensures part { FrontOfConfiguration (W.contents writer.old) (W.contents writer.new) configuration.now }
{
    if !write_text(writer, line, configuration) {
        return false;
    }
    write(writer, line.plain(&configuration_line(configuration), b"")).is_ok()
}
