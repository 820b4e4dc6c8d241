ghost use Rattle.std.specs.Prelude.{◌≡◌, option_map};
ghost use Rattle.sip_journal.specs.RecordHead.{behind_mark, mark_front, mark_in};

/// What became of a record. Its first word says it, in six bytes and a blank, so that it can be written over in its place.
#[derive(Clone, Copy, Debug, PartialEq, Eq)]
pub enum RecordMark {
    /// `record`: it has all events that its server took, up to where it ends.
    Whole,
    /// `broken`: its writing failed and its server went on, so it lacks events.
    Broken,
    /// `left`: another start went on from it.
    Left,
}

impl RecordMark {
    /// What the first line of a record with this mark begins with: its first word, in six bytes, and a blank.
    pub fn front(&self) -> [u8; 7]
        ensures { result ≡ mark_front self.now }
    {
        match self {
            RecordMark::Whole => *b"record ",
            RecordMark::Broken => *b"broken ",
            RecordMark::Left => *b"left   ",
        }
    }
}

/// What stands behind a mark, where a line begins with it.
fn behind_mark(line: &[u8], mark: RecordMark) -> Option<(RecordMark, &[u8])>
    ensures { option_map (λ x. (x.0, x.1.now)) result ≡ behind_mark line.now mark }
{
    let front = mark.front();
    if line.starts_with(&front) {
        Some((mark, &line[front.len()..]))
    } else {
        None
    }
}

/// The mark of a line, and what stands behind it.
pub(crate) fn mark_in(line: &[u8]) -> Option<(RecordMark, &[u8])>
    ensures { option_map (λ x. (x.0, x.1.now)) result ≡ mark_in line.now }
{
    if let Some(found) = behind_mark(line, RecordMark::Whole) {
        return Some(found);
    }
    if let Some(found) = behind_mark(line, RecordMark::Broken) {
        return Some(found);
    }
    behind_mark(line, RecordMark::Left)
}
