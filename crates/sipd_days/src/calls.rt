//! The command `calls`.
ghost use Rattle.std.specs.Prelude.{IsOk, OnOk};
ghost use Rattle.std.specs.Io.KnownBytes.{Appends};
ghost use Rattle.sipd_days.specs.Days.{shown_text};
ghost use Rattle.sipd_days.specs.Printed.{PrintsCalls, PrintsNames};

use crate::choosing::{choice_of, form_of};
use crate::showing::text_of;
use sip_days::Calls;
use sip_days::laws::calls_grow_by_a_step;
use sip_policy::Rules;
use sip_timers::Timers;
use sipd_arguments::CallsCall;
use sipd_calls::{CallFilter, Notation, names_text};
use sipd_exit::{Exit, print};
use sipd_record_files::record_files;
use sipd_telling::{Onward, reading_of, tell_files};
use std::alloc::Global;
use std::io::Write;
use std::rt::{Clock, Files};

/// Prints the calls that were told.
fn print_calls<W: Write>(
    alloc: Global,
    form: Option<Notation>,
    choice: &CallFilter<'_>,
    calls: &Calls,
    output: &mut W,
) -> Result<(), Exit>
    ensures { OnOk result (Appends (W.contents output.old) (W.contents output.new) (shown_text form choice.now calls.now)) }
{
    let text = text_of(alloc, form, choice, calls.as_slice())?;
    print(text.as_slice(), output)
}

/// Whether nothing is printed where the program ends so: where memory ran out, and some of the calls may lack, or none was told.
fn hides(exit: &Exit, calls: &Calls) -> bool {
    match exit {
        Exit::Memory => true,
        _ => calls.as_slice().is_empty(),
    }
}

/// Prints the calls of records that were told; where they weren't to their end, those in front of that, and the program ends so.
fn print_told<W: Write>(
    alloc: Global,
    form: Option<Notation>,
    choice: &CallFilter<'_>,
    calls: &Calls,
    told: Result<(), Exit>,
    output: &mut W,
) -> Result<(), Exit>
    ensures printed { OnOk result (Appends (W.contents output.old) (W.contents output.new) (shown_text form choice.now calls.now)) }
    ensures whole { OnOk result (IsOk told) }
{
    match told {
        Ok(()) => print_calls(alloc, form, choice, calls, output),
        Err(exit) => {
            if hides(&exit, calls) {
                return Err(exit);
            }
            print_calls(alloc, form, choice, calls, output)?;
            Err(exit)
        }
    }
}

/// Prints the names of the columns, where programs get it.
fn print_names<W: Write>(form: Option<Notation>, output: &mut W) -> Result<(), Exit>
    ensures { OnOk result (PrintsNames form (W.contents output.old) (W.contents output.new)) }
{
    match form {
        Some(notation) => print(names_text(notation), output),
        None => Ok(()),
    }
}

/// Prints the calls of records, those that are asked for, as a table, or one list for programs. Records that go on from one another, in the order in
/// which they are named or have their numbers in a folder, are one history, in which a call has one row. A record that is being written may be among
/// them. Where one is damaged, what is in front of the damage is printed, and the program ends as that says.
///
/// `seen`: whether somebody looks at standard error, where it is said then how far it is.
pub fn show_calls<T: Timers, P: Rules, R: Files + Clock + Eprint + AllocGlobal, W: Write, C: Write>(
    rt: &R,
    call: &CallsCall,
    seen: bool,
    output: &mut W,
    complaints: &mut C,
) -> Result<(), Exit>
    ensures { OnOk result (PrintsCalls call.now (W.contents output.old) (W.contents output.new)) }
{
    let form = form_of(call.csv, call.json);
    let choice = choice_of(rt.alloc(), &call.chosen)?;
    let reading = reading_of(rt, &call.config, seen)?;
    let files = record_files(rt, call.records.as_slice())?;
    print_names(form, output)?;
    calls_grow_by_a_step();
    let mut onward = Onward::new(Calls::new(rt.alloc()));
    let told = tell_files::<T, P, R, Calls, C>(
        rt,
        files.as_slice(),
        &reading,
        &mut onward,
        complaints,
    );
    print_told(rt.alloc(), form, &choice, &onward.listener, told, output)
}
