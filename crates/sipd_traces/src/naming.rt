//! Which call a word of a command line means.
ghost use Rattle.std.specs.Prelude.{IfOk};
ghost use Rattle.sipd_traces.specs.Traces.{Means};

use crate::finder::Finder;
use sip_policy::Rules;
use sip_text::{Bytes, plain_decimal};
use sip_timers::Timers;
use sipd_exit::Exit;
use sipd_telling::{DayReading, Onward, tell_files};
use std::io::Write;
use std::rt::{Clock, Files};

/// The Call-ID of the datagram of a number, if it was decided.
fn call_of_number<T: Timers, P: Rules, R: Files + Clock + Eprint + AllocGlobal, C: Write>(
    rt: &R,
    number: u64,
    records: &[String],
    reading: &DayReading,
    complaints: &mut C,
) -> Result<Option<Bytes>, Exit> {
    let mut finder = Onward::new(Finder {
        alloc: rt.alloc(),
        number,
        found: None,
    });
    let told = tell_files::<T, P, R, Finder, C>(rt, records, reading, &mut finder, complaints);
    match finder.listener.found.take() {
        Some(call_id) => Ok(Some(call_id)),
        None => {
            told?;
            Ok(None)
        }
    }
}

/// The Call-ID that a word means: that of the datagram of a number, where one with it was decided, and else the word itself.
pub(crate) fn call_id_of<T: Timers, P: Rules, R: Files + Clock + Eprint + AllocGlobal, C: Write>(
    rt: &R,
    word: &str,
    records: &[String],
    reading: &DayReading,
    complaints: &mut C,
) -> Result<Bytes, Exit>
    ensures { IfOk result (λ call_id. Means word.now call_id) }
{
    if let Some(number) = plain_decimal(word.as_bytes()) {
        let found = call_of_number::<T, P, R, C>(rt, number, records, reading, complaints)?;
        if let Some(call_id) = found {
            return Ok(call_id);
        }
    }
    Ok(Bytes::copy(rt.alloc(), word.as_bytes())?)
}
