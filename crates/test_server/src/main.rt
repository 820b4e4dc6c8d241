//! Trials of the whole server, and of its parts: one program, since each that holds the server costs the gate minutes.
//! Without words it tries all that the gate compares: the stored runs, the cases that have a name, and the steps of one
//! stored run.
//! With words it tries one thing:
//!
//! - `runs`: every stored run of the folder that it runs in;
//! - `cases`: what no stored run shows of the engine, of replays, of runs over lists of events and of `serve`, and of the
//!   parts, as texts, messages and tables;
//! - `refusals`: the steps of the script of standard input, where `tests/refuse_each.sh` refuses their memory;
//!
//! Exit statuses: 0 done, 1 a refused step changed something, 2 other words, 3 script, 4 device, 5 memory outside of
//! steps. What doesn't hold is told by what is printed, which is compared.
#![tactic(auto)]

mod runs;

use std::io::{BufWriter, Write};
use std::process::ExitCode;
use std::{env, io};
use test_engine::{Fault, cases, refusals};

/// The exit status where all that was asked for is done.
const DONE: u8 = 0;

/// The exit status where the words ask for nothing that is here.
const OTHER_WORDS: u8 = 2;

/// The words of the command line, the program's own name first.
fn words<R: env::Env + AllocGlobal>(rt: &R) -> Result<Vec<String>, Fault> {
    let mut words = Vec::new(rt.alloc());
    for word in env::args(rt)? {
        words.push(word)?;
    }
    Ok(words)
}

/// The cases that have a name.
fn try_cases(rt: &HostRuntime) -> io::Result<()> {
    cases::tell_all(rt)?;
    test_serve::tell_all(rt)?;
    test_kinds::tell_all(rt)?;
    test_parts::tell_all(rt)
}

/// All that the gate compares.
fn try_all(rt: &HostRuntime) -> io::Result<()> {
    runs::tell_all(rt)?;
    try_cases(rt)?;
    runs::tell_steps(rt, "registered")
}

/// The steps of the script of standard input, each taken once more where it is refused for want of memory.
fn try_steps(rt: &HostRuntime) -> Result<(), Fault> {
    let mut input = rt.reader();
    let mut output = BufWriter::new(rt.alloc(), io::writer(rt))?;
    let mut marks = rt.stderr();
    let refused = refusals::play(rt.alloc(), &mut input, &mut output, &mut marks)?;
    output.flush()?;
    eprintln!(rt; "refused {refused}")?;
    Ok(())
}

/// One trial by its name.
fn try_one(rt: &HostRuntime, trial: &str) -> Result<u8, Fault> {
    match trial {
        "runs" => runs::tell_all(rt)?,
        "cases" => try_cases(rt)?,
        "refusals" => try_steps(rt)?,
        _ => return Ok(OTHER_WORDS),
    }
    Ok(DONE)
}

/// The exit status of what these words ask for.
fn answer(rt: &HostRuntime, words: &[String]) -> Result<u8, Fault> {
    match words {
        [_] => {
            try_all(rt)?;
            Ok(DONE)
        }
        [_, trial] => try_one(rt, trial.as_str()),
        _ => Ok(OTHER_WORDS),
    }
}

/// The exit status of what the words of the command line ask for.
fn run(rt: &HostRuntime) -> Result<u8, Fault> {
    let words = words(rt)?;
    answer(rt, words.as_slice())
}

fn main(rt: HostRuntime) -> ExitCode {
    match run(&rt) {
        Ok(status) => ExitCode::from(status),
        Err(fault) => ExitCode::from(fault.status()),
    }
}
