//! The program `sipd`: a command line over the process's words, standard streams and exit status.
#![tactic(auto)]

use sip_policy_index::IndexedRules;
use sip_timers_wheel::WheelTimers;
use sipd_command::command;
use sipd_exit::Exit;
use std::io::{BufWriter, IsTerminal, Read, Write};
use std::process::ExitCode;
use std::{env, io};

/// The words of the command line, the program's own name first.
fn words(rt: &HostRuntime) -> Result<Vec<String>, Exit> {
    let mut words = Vec::new(rt.alloc());
    for word in env::args(rt)? {
        words.push(word)?;
    }
    Ok(words)
}

/// Does what the words of a command line say, on a wheel of timers and indexed rules.
fn carry_out<I: Read, W: Write, C: Write>(
    rt: &HostRuntime,
    words: &[String],
    seen: bool,
    input: &mut I,
    output: &mut W,
    complaints: &mut C,
) -> u8 {
    command::<WheelTimers, IndexedRules, HostRuntime, I, W, C>(
        rt, words, seen, input, output, complaints,
    )
}

/// The exit status of what the words ask for.
fn run(rt: &HostRuntime) -> Result<u8, Exit> {
    let words = words(rt)?;
    let mut input = rt.reader();
    let mut output = BufWriter::new(rt.alloc(), io::writer(rt))?;
    let mut complaints = rt.stderr();
    let seen = complaints.is_terminal();
    Ok(carry_out(
        rt,
        words.as_slice(),
        seen,
        &mut input,
        &mut output,
        &mut complaints,
    ))
}

fn main(rt: HostRuntime) -> ExitCode {
    match run(&rt) {
        Ok(status) => ExitCode::from(status),
        Err(exit) => {
            let _ = eprintln!(rt; "{exit}");
            ExitCode::from(exit.status())
        }
    }
}
