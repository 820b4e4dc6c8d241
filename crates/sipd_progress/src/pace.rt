ghost use Rattle.std.specs.Prelude.{◌≡◌, ◌++◌, IfOk, OnOk};
ghost use Rattle.sipd_progress.specs.Pace as Definitions;

use sip_text::Bytes;
use std::alloc::{AllocError, Global};

/// How many milliseconds pass between two lines at least.
const SECOND: u64 = 1_000;

/// How far a reading is, and when that is said next.
#[derive(Clone, Copy)]
pub struct Pace {
    /// How many bytes were read.
    pub read: u64,
    /// From which moment on it is said, in milliseconds.
    pub due: u64,
}

/// The moment from which on it is said again.
fn due_behind(moment: u64) -> u64
    ensures { result ≡ Definitions.due_behind moment }
{
    moment.saturating_add(SECOND)
}

impl Pace {
    /// Nothing read yet, at a moment.
    pub fn new(moment: u64) -> Pace
        ensures { result ≡ Definitions.begun_at moment }
    {
        Pace {
            read: 0,
            due: due_behind(moment),
        }
    }

    /// So many bytes more are read at a moment. Whether that is said: once in a second at most, and not in the first one.
    pub fn add(&mut self, count: u64, moment: u64) -> bool
        ensures said { result ≡ Definitions.is_said moment self.old }
        ensures pace { self.new ≡ Definitions.read_more count moment self.old }
    {
        self.read = self.read.saturating_add(count);
        if moment < self.due {
            return false;
        }
        self.due = due_behind(moment);
        true
    }

    /// What is said: what is read, how many bytes of it, and of how many, where that is known. `AllocError` is the only refusal.
    pub fn line(&self, alloc: Global, what: &[u8], whole: Option<u64>) -> Result<Bytes, AllocError>
        ensures { IfOk result (λ line. line ≡ Definitions.line_of what.now self.now.read whole) }
    {
        let mut line = Bytes::new(alloc);
        line.extend(b"sipd: ")?;
        line.extend(what)?;
        line.extend(b": ")?;
        line.push_decimal(self.read)?;
        put_whole(&mut line, whole)?;
        line.extend(b" bytes are read")?;
        Ok(line)
    }
}

/// Adds of how many.
fn put_whole(line: &mut Bytes, whole: Option<u64>) -> Result<(), AllocError>
    ensures { OnOk result (line.new ≡ line.old ++ Definitions.whole_text whole) }
{
    let Some(whole) = whole else {
        return Ok(());
    };
    line.extend(b" of ")?;
    line.push_decimal(whole)
}
