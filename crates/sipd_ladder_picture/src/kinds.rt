//! By which words a row is coloured.
ghost use Rattle.std.specs.Prelude.{◌≡◌};
ghost use Rattle.sipd_ladder_picture.specs.Kinds as Definitions;

/// The kind of a message, by its word.
pub(crate) fn kind_of(word: &[u8]) -> &'static [u8]
    ensures { result.now ≡ Definitions.kind_of word.now }
{
    if word.starts_with(b"401 ") || word.starts_with(b"407 ") {
        b"asked"
    } else if word.starts_with(b"1") {
        b"trying"
    } else if word.starts_with(b"2") {
        b"done"
    } else if word.starts_with(b"3") || word.starts_with(b"4") {
        b"refused"
    } else if word.starts_with(b"5") || word.starts_with(b"6") {
        b"refused"
    } else {
        b"request"
    }
}

/// The kind of what was decided, or happened, by its text.
pub(crate) fn note_kind(text: &[u8]) -> &'static [u8]
    ensures { result.now ≡ Definitions.note_kind text.now }
{
    if text.starts_with(b"challenge ") {
        b"note asked"
    } else if text.ends_with(b": deny") {
        b"note refused"
    } else if text.starts_with(b"rule ") {
        b"note done"
    } else {
        b"note"
    }
}
