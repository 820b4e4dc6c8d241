//! One stored run, held against its files: what the program writes, complains and exits with, and what plain lists give; and
//! whether two servers that took its script go on alike.
use sip_policy::ListRules;
use sip_policy_index::IndexedRules;
use sip_timers::ListTimers;
use sip_timers_wheel::WheelTimers;
use sipd_arguments::{Parsed, ProgramCall, ReplayCall, parse};
use sipd_command::{command, replay_script};
use sipd_exit::{DeviceFault, Exit};
use std::io::Write;
use test_engine::alike::leaves_alike;
use test_engine::refusals::prints;
use test_forms::stored::{agrees, file_of, input_of, script_of, words_of};

/// Whether these words and this input give the output, the complaint and the status that a run's files say.
fn gives(rt: &HostRuntime, name: &str, words: &[String], script: &[u8]) -> bool {
    let mut input = script;
    let mut output = Vec::new(rt.alloc());
    let mut complaints = Vec::new(rt.alloc());
    let status = command::<WheelTimers, IndexedRules, HostRuntime, &[u8], Vec<u8>, Vec<u8>>(
        rt,
        words,
        false,
        &mut input,
        &mut output,
        &mut complaints,
    );
    agrees(rt, name, output.as_slice(), complaints.as_slice(), status)
}

/// Replays a script as these words say, on plain lists of timers and rules; how the program would end.
fn replay_on_lists(
    rt: &HostRuntime,
    words: &[String],
    script: &[u8],
    output: &mut Vec<u8>,
) -> Result<(), Exit> {
    let mut input = script;
    let parsed = parse(rt.alloc(), words)?;
    match &parsed {
        Parsed::Call(ProgramCall::Replay(ReplayCall::Script { config })) => {
            let path = config.as_ref().map(String::as_str);
            replay_script::<ListTimers, ListRules, HostRuntime, &[u8], Vec<u8>>(
                rt, path, &mut input, output,
            )
        }
        _ => Err(Exit::Device(DeviceFault::Other)),
    }
}

/// Whether the replay that these words ask for gives the same on plain lists of timers and rules.
fn gives_on_lists(rt: &HostRuntime, name: &str, words: &[String], script: &[u8]) -> bool {
    let mut output = Vec::new(rt.alloc());
    let mut complaints = Vec::new(rt.alloc());
    let status = match replay_on_lists(rt, words, script, &mut output) {
        Ok(()) => 0,
        Err(exit) => {
            let _ = writeln!(&mut complaints, "{exit}");
            exit.status()
        }
    };
    agrees(rt, name, output.as_slice(), complaints.as_slice(), status)
}

/// Whether the run of a script agrees with its files on plain lists of timers and rules, and whether two servers with the
/// sample's configuration that took the script go on alike.
#[derive(Clone, Copy)]
pub struct ScriptAgreement {
    pub on_lists: bool,
    pub alike: bool,
}

/// Whether a run agrees with its files, by the program, and, where it has a script, by that.
#[derive(Clone, Copy)]
pub struct Agreement {
    pub by_program: bool,
    pub by_script: Option<ScriptAgreement>,
}

/// What the script of a run comes to.
fn script_agreement(
    rt: &HostRuntime,
    name: &str,
    words: &[String],
    script: &[u8],
) -> ScriptAgreement {
    ScriptAgreement {
        on_lists: gives_on_lists(rt, name, words, script),
        alike: leaves_alike(rt.alloc(), script),
    }
}

/// Whether a run agrees with its files.
pub fn agreement_of(rt: &HostRuntime, name: &str) -> Agreement {
    let Some(words) = words_of(rt, name) else {
        return Agreement {
            by_program: false,
            by_script: None,
        };
    };
    match script_of(rt, name) {
        Some(script) => Agreement {
            by_program: gives(rt, name, words.as_slice(), script.as_slice()),
            by_script: Some(script_agreement(rt, name, words.as_slice(), script.as_slice())),
        },
        None => Agreement {
            by_program: gives(rt, name, words.as_slice(), input_of(rt, name).as_slice()),
            by_script: None,
        },
    }
}

/// Whether the steps of a run with the sample's configuration, each taken by itself, print what its file says.
pub fn steps_agree(rt: &HostRuntime, name: &str) -> bool {
    let Some(script) = file_of(rt, name, "script") else {
        return false;
    };
    let Some(wanted) = file_of(rt, name, "out") else {
        return false;
    };
    prints(rt.alloc(), script.as_slice(), wanted.as_slice())
}
