//! Every stored run of the folder that the program runs in: how many agree with their files, and the name of each that
//! doesn't. Those with a script are replayed by the program and on plain lists of timers and rules, and print the same, and two
//! servers that took it go on alike. A run is files alone (`test_forms`).

mod run;

use run::{ScriptAgreement, agreement_of, steps_agree};
use std::io;
use test_forms::names::names_in;

/// How many runs there are, and how many of them agree.
#[derive(Clone, Copy)]
struct Count {
    runs: u32,
    agreed: u32,
}

impl Count {
    fn new() -> Self {
        Count { runs: 0, agreed: 0 }
    }

    fn add(&mut self, agrees: bool) {
        self.runs = self.runs.saturating_add(1);
        if agrees {
            self.agreed = self.agreed.saturating_add(1);
        }
    }
}

/// Counts what a script comes to, and prints where it doesn't agree.
fn count_script(
    rt: &HostRuntime,
    name: &str,
    agreement: ScriptAgreement,
    on_lists: &mut Count,
    alike: &mut Count,
) -> io::Result<()> {
    on_lists.add(agreement.on_lists);
    alike.add(agreement.alike);
    if !agreement.on_lists {
        println!(rt; "{name} on plain lists")?;
    }
    if !agreement.alike {
        println!(rt; "{name} on two servers")?;
    }
    Ok(())
}

/// Does a run, by the program and, where it has a script, on plain lists and on two servers; the name of one that doesn't agree
/// is printed.
fn do_run(
    rt: &HostRuntime,
    name: &str,
    by_program: &mut Count,
    on_lists: &mut Count,
    alike: &mut Count,
) -> io::Result<()> {
    let agreement = agreement_of(rt, name);
    by_program.add(agreement.by_program);
    if !agreement.by_program {
        println!(rt; "{name}")?;
    }
    match agreement.by_script {
        Some(by_script) => count_script(rt, name, by_script, on_lists, alike),
        None => Ok(()),
    }
}

/// Does these runs, and prints how many agree; then how many of those with a script do on plain lists of timers and rules, and
/// behind how many two servers go on alike.
fn tell_runs(rt: &HostRuntime, names: &[String]) -> io::Result<()> {
    let mut by_program = Count::new();
    let mut on_lists = Count::new();
    let mut alike = Count::new();
    for name in names {
        do_run(
            rt,
            name.as_str(),
            &mut by_program,
            &mut on_lists,
            &mut alike,
        )?;
    }
    println!(rt; "{} of {} runs agree", by_program.agreed, by_program.runs)?;
    println!(rt;
        "{} of {} scripts agree on plain lists",
        on_lists.agreed, on_lists.runs
    )?;
    println!(rt;
        "{} of {} scripts leave servers that go on alike",
        alike.agreed, alike.runs
    )
}

/// Does every run of the folder.
pub fn tell_all(rt: &HostRuntime) -> io::Result<()> {
    let names = names_in(rt, ".")?;
    tell_runs(rt, names.as_slice())
}

/// Takes the steps of one run, and prints whether they agree.
pub fn tell_steps(rt: &HostRuntime, name: &str) -> io::Result<()> {
    if steps_agree(rt, name) {
        println!(rt; "the steps of {name} agree")
    } else {
        println!(rt; "the steps of {name} DIFFER")
    }
}
