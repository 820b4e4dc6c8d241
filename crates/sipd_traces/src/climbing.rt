//! The command `ladder`: a call of recorded days as a diagram, or as a drawing.
ghost use Rattle.std.specs.Prelude.{◌≡◌, map, string_bytes, IfOk, OnOk};
ghost use Rattle.std.specs.Io.KnownBytes.{Appends};
ghost use Rattle.sipd_traces.specs.Ladders.{PrintsLadder, shown_ladder};

use crate::climber::Climber;
use crate::naming::call_id_of;
use sip_policy::Rules;
use sip_text::Bytes;
use sip_timers::Timers;
use sipd_arguments::LadderCall;
use sipd_exit::{Exit, print};
use sipd_ladder::Ladder;
use sipd_ladder_picture::picture;
use sipd_record_files::record_files;
use sipd_telling::{Onward, reading_of, tell_files};
use std::alloc::{AllocError, Global};
use std::io::Write;
use std::rt::{Clock, Files};

/// How the program ends where days have nothing of a call.
fn nothing_of(alloc: Global, call: &str) -> Exit {
    match format!(in alloc; "nothing of the call {call}") {
        Ok(text) => Exit::Question(text),
        Err(_) => Exit::Memory,
    }
}

/// A ladder as text, or as a drawing.
fn ladder_shown(alloc: Global, svg: bool, ladder: &Ladder) -> Result<Bytes, AllocError>
    ensures { IfOk result (λ text. text ≡ shown_ladder svg ladder.now) }
{
    if svg {
        picture(alloc, ladder)
    } else {
        ladder.text(alloc)
    }
}

/// Prints it.
fn print_ladder<W: Write>(
    alloc: Global,
    svg: bool,
    ladder: &Ladder,
    output: &mut W,
) -> Result<(), Exit>
    ensures { OnOk result (Appends (W.contents output.old) (W.contents output.new) (shown_ladder svg ladder.now)) }
{
    let text = ladder_shown(alloc, svg, ladder)?;
    print(text.as_slice(), output)
}

/// Prints a call of recorded days as a diagram, or as a drawing; one of which they have nothing is no call. A record that is being written may be
/// among them. Where one is damaged, what came before is in it, and the program ends as that says.
///
/// `seen`: whether somebody looks at standard error, where it is said then how far it is.
pub fn draw_ladder<
    T: Timers,
    P: Rules,
    R: Files + Clock + Eprint + AllocGlobal,
    W: Write,
    C: Write,
>(rt: &R, call: &LadderCall, seen: bool, output: &mut W, complaints: &mut C) -> Result<(), Exit>
    ensures { OnOk result (PrintsLadder call.now.svg (map string_bytes call.now.records.items) (W.contents output.old) (W.contents output.new)) }
{
    let alloc = rt.alloc();
    let files = record_files(rt, call.records.as_slice())?;
    let records = files.as_slice();
    let reading = reading_of(rt, &call.config, seen)?;
    let call_id = call_id_of::<T, P, R, C>(rt, call.call.as_str(), records, &reading, complaints)?;
    let mut climber = Onward::new(Climber {
        alloc,
        ladder: Ladder::new(alloc, call_id.as_slice())?,
    });
    let told = tell_files::<T, P, R, Climber, C>(rt, records, &reading, &mut climber, complaints);
    if climber.listener.ladder.rungs.as_slice().is_empty() {
        told?;
        return Err(nothing_of(alloc, call.call.as_str()));
    }
    print_ladder(alloc, call.svg, &climber.listener.ladder, output)?;
    told
}
