ghost use Rattle.std.specs.Prelude.{◌≡◌, true, IfOk};
ghost use Rattle.sip_message.specs.Lines.{joined};
ghost use Rattle.sip_message.specs.Line.{line_bytes, has_fold};

use crate::joined_line::JoinedLine;
use std::alloc::{AllocError, Global};

/// A line of a head: a part of the datagram, and bytes of its own only once a fold was joined to it, so that a line
/// without folds is not copied.
pub(crate) enum WholeLine<'a> {
    Part(&'a [u8]),
    Unfolded(JoinedLine<'a>),
}

/// Written out, so that it is proved once and not wherever a line is dropped.
impl<'a> Drop for WholeLine<'a> {
    fn drop(self) {
        match self {
            WholeLine::Part(_) => {}
            WholeLine::Unfolded(_) => {}
        }
    }
}

impl<'a> WholeLine<'a> {
    /// The line with a fold of it.
    pub(crate) fn with_fold(self, alloc: Global, fold: &[u8]) -> Result<Self, AllocError>
        ensures bytes { IfOk result (λ both. line_bytes both ≡ joined (line_bytes self.entry) fold.now) }
        ensures fold { IfOk result (λ both. has_fold both ≡ true) }
    {
        let line = match self {
            WholeLine::Part(part) => JoinedLine::begun(alloc, part)?,
            WholeLine::Unfolded(line) => line,
        };
        Ok(WholeLine::Unfolded(line.with_fold(fold)?))
    }
}
