ghost use Rattle.std.specs.Prelude.{◌≤◌};

use crate::compacting::compact_file;
use crate::serving::serve_file;
use sip_policy::Rules;
use sip_timers::Timers;
use sipd_arguments::{Parsed, ProgramCall, ReplayCall, parse};
use sipd_days::{DayTable, show_calls, show_sources, show_table};
use sipd_exit::{Exit, print};
use sipd_page::print_page;
use sipd_progress::Watched;
use sipd_replay::{replay_records, replay_script};
use sipd_service::LinePrinter;
use sipd_tools::{check, decide, make_report, make_user, matrix};
use sipd_traces::{draw_ladder, write_trace};
use std::io::{Read, Write};
use std::net::Net;
use std::random::RandomSource;
use std::rt::{Clock, Files};

/// Replays the script of the input, a record, or those of a folder.
fn replay_call<
    T: Timers,
    P: Rules,
    R: Files + Clock + Eprint + AllocGlobal,
    I: Read,
    W: Write,
    C: Write,
>(
    rt: &R,
    call: &ReplayCall,
    seen: bool,
    input: &mut I,
    output: &mut W,
    complaints: &mut C,
) -> Result<(), Exit> {
    match call {
        ReplayCall::Script { config } => {
            let config = config.as_ref().map(String::as_str);
            let mut script = Watched::new(rt, input, "the script", None, seen);
            replay_script::<T, P, R, _, W>(rt, config, &mut script, output)
        }
        ReplayCall::Record { config, path } => {
            let config = config.as_ref().map(String::as_str);
            replay_records::<T, P, R, W, C>(rt, config, path.as_str(), seen, output, complaints)
        }
    }
}

fn carry_out<
    T: Timers,
    P: Rules,
    R: Files + Net + Clock + RandomSource + Eprint + AllocGlobal,
    I: Read,
    W: Write,
    C: Write,
>(
    rt: &R,
    parsed: &Parsed,
    seen: bool,
    input: &mut I,
    output: &mut W,
    complaints: &mut C,
) -> Result<(), Exit> {
    let call = match parsed {
        Parsed::Text(text) => return print(text.as_bytes(), output),
        Parsed::Call(call) => call,
    };
    match call {
        ProgramCall::Check(call) => check(rt, call, output, complaints),
        ProgramCall::Replay(call) => replay_call::<T, P, R, I, W, C>(
            rt, call, seen, input, output, complaints,
        ),
        ProgramCall::Compact(call) => compact_file::<T, P, R, C>(rt, call, seen, complaints),
        ProgramCall::Serve(call) => {
            let mut printer = LinePrinter::new(rt.alloc(), output);
            serve_file::<T, P, R, I, _, C>(rt, call, seen, input, &mut printer, complaints)
        }
        ProgramCall::Decide(call) => decide(rt, call, input, output, complaints),
        ProgramCall::Matrix(call) => matrix(rt, call, output, complaints),
        ProgramCall::Report(call) => make_report(rt, call, input, output, complaints),
        ProgramCall::User(call) => make_user(rt, call, input, output, complaints),
        ProgramCall::Calls(call) => show_calls::<T, P, R, W, C>(rt, call, seen, output, complaints),
        ProgramCall::Phones(call) => {
            show_table::<T, P, R, W, C>(rt, DayTable::Phones, call, seen, output, complaints)
        }
        ProgramCall::Now(call) => {
            show_table::<T, P, R, W, C>(rt, DayTable::Standing, call, seen, output, complaints)
        }
        ProgramCall::Trace(call) => {
            write_trace::<T, P, R, W, C>(rt, call, seen, output, complaints)
        }
        ProgramCall::Ladder(call) => {
            draw_ladder::<T, P, R, W, C>(rt, call, seen, output, complaints)
        }
        ProgramCall::Sources(call) => {
            show_sources::<T, P, R, W, C>(rt, call, seen, output, complaints)
        }
        ProgramCall::Page(call) => print_page::<T, P, R, W, C>(rt, call, seen, output, complaints),
    }
}

fn run<
    T: Timers,
    P: Rules,
    R: Files + Net + Clock + RandomSource + Eprint + AllocGlobal,
    I: Read,
    W: Write,
    C: Write,
>(
    rt: &R,
    words: &[String],
    seen: bool,
    input: &mut I,
    output: &mut W,
    complaints: &mut C,
) -> Result<(), Exit> {
    let parsed = parse(rt.alloc(), words)?;
    let done = carry_out::<T, P, R, I, W, C>(rt, &parsed, seen, input, output, complaints);
    let_go(parsed);
    done
}

/// Lets what a command line says go. It stands apart, so that its cases don't stand where it is carried out.
fn let_go(_parsed: Parsed) {}

/// Complains of that by which the program ends, and gives the exit status.
fn end_by<C: Write>(exit: Exit, complaints: &mut C) -> u8
    ensures { result ≤ 6 }
{
    let _ = writeln!(complaints, "{exit}");
    exit.status()
}

/// Does what the words of a command line say, the program's own name first, on these kinds of timers and rules, and gives
/// the exit status: 0 done; 1 usage, or a question without an answer; 2 a configuration that is refused; 3 a script or a record that
/// isn't taken, or a configuration that can't come in another one's place; 4 a device, or a record that can't be made or written; 5
/// memory, or the stack; 6 a decision that isn't as expected. The last line that it complains of says why, but for the text on usage.
/// `seen`: whether somebody looks at the process's standard error, where long work says then how far it is.
pub fn command<
    T: Timers,
    P: Rules,
    R: Files + Net + Clock + RandomSource + Eprint + AllocGlobal,
    I: Read,
    W: Write,
    C: Write,
>(rt: &R, words: &[String], seen: bool, input: &mut I, output: &mut W, complaints: &mut C) -> u8
    ensures { result ≤ 6 }
{
    match run::<T, P, R, I, W, C>(rt, words, seen, input, output, complaints) {
        Ok(()) => 0,
        Err(exit) => end_by(exit, complaints),
    }
}
