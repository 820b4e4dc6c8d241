//! The commands `phones` and `now`: how a recorded day stood at a time.
ghost use Rattle.std.specs.Prelude.{◌≡◌, ◌<◌, ◌^◌, nat_le, true, option_map, string_bytes, IfNone, IfOk, IfSome, OnOk};
ghost use Rattle.sipd_days.specs.Choosing as Chosen;
ghost use Rattle.sipd_days.specs.DayAt.{IsByClock, WasTableIf};
ghost use Rattle.sipd_days.specs.Printed.{PrintsTable};
ghost use Rattle.sipd_report.specs.Said;

use crate::choosing::{form_of, time_in};
use crate::day_at::{DayAt, DayTable, table_of};
use crate::standing::DayClock;
use sip_policy::Rules;
use sip_timers::Timers;
use sipd_arguments::TimeCall;
use sipd_calls::Notation;
use sipd_exit::Exit;
use sipd_old_record::{OldRecord, named_file};
use sipd_record_files::{is_folder, name_of, numbers_in};
use sipd_report::moment_at;
use sipd_telling::{DayReading, exit_of_file, open_day};
use std::io::Write;
use std::rt::{Clock, Files};

/// A table of the record in a file, at a time of a clock, or of that of the configuration with which it begins, where none is given; at its end,
/// where no time is. A record that holds no configuration has that of a file.
pub(crate) fn table_in_file<T: Timers, P: Rules, R: Files + Clock + Eprint + AllocGlobal, C: Write>(
    rt: &R,
    table: DayTable,
    path: &str,
    config: Option<&str>,
    form: Option<Notation>,
    time: Option<u64>,
    clock: Option<DayClock>,
    seen: bool,
    complaints: &mut C,
) -> Result<DayAt, Exit>
    requires { IfSome time (λ t. t < 2 ^ 50) }
    ensures { IfOk result (λ day. WasTableIf table form time (option_map (λ c. c.ahead) clock) day.text day.taken.ahead day.in_force.ahead day.end) }
{
    let named = named_file(rt, config)?;
    let reading = DayReading { named, seen };
    let OldRecord { head, mut events } = open_day(rt, path, reading.seen, complaints)?;
    let alloc = rt.alloc();
    let named = reading.named.as_ref();
    match table_of::<T, P, _>(alloc, table, &head, named, &mut events, form, time, clock) {
        Ok(day) => Ok(day.in_file(&events)),
        Err(exit) => Err(exit_of_file(exit, &events, complaints)),
    }
}

/// The same by the clock that is in force then, as it is asked for: where that isn't the clock with which the record begins, it is told once more.
fn table_by_clock<T: Timers, P: Rules, R: Files + Clock + Eprint + AllocGlobal, C: Write>(
    rt: &R,
    table: DayTable,
    call: &TimeCall,
    path: &str,
    time: Option<u64>,
    seen: bool,
    complaints: &mut C,
) -> Result<DayAt, Exit>
    requires { IfSome time (λ t. t < 2 ^ 50) }
    ensures { IfOk result (λ day. IsByClock table (Chosen.form_of call.now.csv call.now.json) time day.text day.end) }
{
    let config = call.config.as_ref().map(String::as_str);
    let form = form_of(call.csv, call.json);
    let first = table_in_file::<T, P, R, C>(
        rt, table, path, config, form, time, None, seen, complaints,
    )?;
    match first.other_clock() {
        None => Ok(first),
        Some(clock) => table_in_file::<T, P, R, C>(
            rt,
            table,
            path,
            config,
            form,
            time,
            Some(clock),
            seen,
            complaints,
        ),
    }
}

/// Whether a time of a clock isn't before the moment of a record's number; so is none, which is the record's end.
fn is_from_then_on(time: Option<u64>, clock: DayClock, number: u64) -> bool
    requires { IfSome time (λ t. t < 2 ^ 50) }
    ensures none { IfNone time (result ≡ true) }
    ensures some { IfSome time (λ t. result ≡ nat_le number (Said.moment_at t clock.ahead)) }
{
    match time {
        Some(time) => number <= moment_at(time, clock.ahead),
        None => true,
    }
}

/// The same of the record with this number in a folder.
fn table_of_number<T: Timers, P: Rules, R: Files + Clock + Eprint + AllocGlobal, C: Write>(
    rt: &R,
    table: DayTable,
    call: &TimeCall,
    number: u64,
    time: Option<u64>,
    seen: bool,
    complaints: &mut C,
) -> Result<DayAt, Exit>
    requires { IfSome time (λ t. t < 2 ^ 50) }
    ensures { IfOk result (λ day. IsByClock table (Chosen.form_of call.now.csv call.now.json) time day.text day.end) }
{
    let path = name_of(rt, call.file.as_str(), number, "record")?;
    table_by_clock::<T, P, R, C>(rt, table, call, path.as_str(), time, seen, complaints)
}

/// A table of one of the records of a folder, which have these numbers, the oldest first: of the newest that was begun by that time, and of the
/// oldest where none was. What was heard by then stands in that one, or still matters of what was heard before it began.
fn table_in_folder<T: Timers, P: Rules, R: Files + Clock + Eprint + AllocGlobal, C: Write>(
    rt: &R,
    table: DayTable,
    call: &TimeCall,
    numbers: &[u64],
    time: Option<u64>,
    seen: bool,
    complaints: &mut C,
) -> Result<DayAt, Exit>
    requires { IfSome time (λ t. t < 2 ^ 50) }
    ensures { IfOk result (λ day. IsByClock table (Chosen.form_of call.now.csv call.now.json) time day.text day.end) }
{
    for back in 0..numbers.len() {
        let place = numbers.len() - 1 - back;
        let number = numbers[place];
        let day = table_of_number::<T, P, R, C>(rt, table, call, number, time, seen, complaints)?;
        if place == 0 || is_from_then_on(time, day.taken, number) {
            return Ok(day);
        }
    }
    Err(Exit::NoRecord)
}

/// A table of the record that is named, or of the one of a folder in which that time stands.
fn table_asked<T: Timers, P: Rules, R: Files + Clock + Eprint + AllocGlobal, C: Write>(
    rt: &R,
    table: DayTable,
    call: &TimeCall,
    time: Option<u64>,
    seen: bool,
    complaints: &mut C,
) -> Result<DayAt, Exit>
    requires { IfSome time (λ t. t < 2 ^ 50) }
    ensures { IfOk result (λ day. IsByClock table (Chosen.form_of call.now.csv call.now.json) time day.text day.end) }
{
    let path = call.file.as_str();
    if is_folder(rt, path) {
        let numbers = numbers_in(rt, path, b"record")?;
        return table_in_folder::<T, P, R, C>(
            rt,
            table,
            call,
            numbers.as_slice(),
            time,
            seen,
            complaints,
        );
    }
    table_by_clock::<T, P, R, C>(rt, table, call, path, time, seen, complaints)
}

/// Prints a table of a recorded day at a time, or at its end. The time is one of the office's clock by the configuration that was in
/// force then: where that isn't the clock with which the record begins, it is told once more. Where the record is damaged in front of that, it
/// is so at the damage, and the program ends as that says. Of a folder it is that of the record in which the time stands.
///
/// `seen`: whether somebody looks at standard error, where it is said then how far it is.
pub fn show_table<T: Timers, P: Rules, R: Files + Clock + Eprint + AllocGlobal, W: Write, C: Write>(
    rt: &R,
    table: DayTable,
    call: &TimeCall,
    seen: bool,
    output: &mut W,
    complaints: &mut C,
) -> Result<(), Exit>
    ensures { OnOk result (PrintsTable table call.now (W.contents output.old) (W.contents output.new)) }
{
    let time = time_in(rt.alloc(), &call.at)?;
    let day = table_asked::<T, P, R, C>(rt, table, call, time, seen, complaints)?;
    day.print_to(output)
}
