//! The command `sources`.
ghost use Rattle.std.specs.Prelude.{◌≡◌, length, IfOk, OnOk};
ghost use Rattle.sipd_days.specs.PrintedSources.{PrintsColumns, PrintsEach, PrintsOne, PrintsSources, WereSources, every_datagram as all_datagrams};

use crate::choosing::{filter_of, form_of};
use crate::day_at::DayTable;
use crate::moments::table_in_file;
use sip_policy::Rules;
use sip_text::Bytes;
use sip_timers::Timers;
use sipd_arguments::SourcesCall;
use sipd_calls::Notation;
use sipd_exit::{Exit, print};
use sipd_record_files::record_files;
use sipd_sources::{SourceFilter, columns_text};
use std::io::Write;
use std::rt::{Clock, Files};

/// Which datagrams are counted, and how that is written.
#[derive(Clone, Copy)]
struct Counting {
    filter: SourceFilter,
    form: Option<Notation>,
    /// Whether somebody looks at standard error.
    seen: bool,
}

/// What each address did from which datagrams came, of the record in a file, as a form has it; all of it was told. A record that holds no
/// configuration has that of a file.
pub fn sources_in_file<T: Timers, P: Rules, R: Files + Clock + Eprint + AllocGlobal, C: Write>(
    rt: &R,
    path: &str,
    config: Option<&str>,
    form: Option<Notation>,
    seen: bool,
    complaints: &mut C,
) -> Result<Bytes, Exit>
    ensures { IfOk result (WereSources form all_datagrams) }
{
    let table = DayTable::Sources(every_datagram());
    let day = table_in_file::<T, P, R, C>(
        rt, table, path, config, form, None, None, seen, complaints,
    )?;
    day.into_text()
}

/// Each datagram.
fn every_datagram() -> SourceFilter
    ensures { result ≡ all_datagrams }
{
    SourceFilter {
        since: None,
        until: None,
        from: None,
    }
}

/// Prints the addresses of a record; one that holds no configuration has that of a file.
fn tell_record<T: Timers, P: Rules, R: Files + Clock + Eprint + AllocGlobal, W: Write, C: Write>(
    rt: &R,
    path: &str,
    counting: Counting,
    config: Option<&str>,
    output: &mut W,
    complaints: &mut C,
) -> Result<(), Exit>
    ensures { OnOk result (PrintsOne counting.form counting.filter (W.contents output.old) (W.contents output.new)) }
{
    let day = table_in_file::<T, P, R, C>(
        rt,
        DayTable::Sources(counting.filter),
        path,
        config,
        counting.form,
        None,
        None,
        counting.seen,
        complaints,
    )?;
    day.print_to(output)
}

/// Prints the addresses of records, one record after the other.
fn tell_records<T: Timers, P: Rules, R: Files + Clock + Eprint + AllocGlobal, W: Write, C: Write>(
    rt: &R,
    paths: &[String],
    counting: Counting,
    config: Option<&str>,
    output: &mut W,
    complaints: &mut C,
) -> Result<(), Exit>
    ensures { OnOk result (PrintsEach counting.form counting.filter (length paths.now) (W.contents output.old) (W.contents output.new)) }
{
    for path in paths {
        tell_record::<T, P, R, W, C>(rt, path.as_str(), counting, config, output, complaints)?;
    }
    Ok(())
}

/// Prints the names of the columns, where programs get it.
fn print_columns<W: Write>(form: Option<Notation>, output: &mut W) -> Result<(), Exit>
    ensures { OnOk result (PrintsColumns form (W.contents output.old) (W.contents output.new)) }
{
    match form {
        Some(notation) => print(columns_text(notation), output),
        None => Ok(()),
    }
}

/// Prints what each address did on recorded days from which datagrams came that are counted, one record after the other, those of a folder in their
/// order: a table for each, or one list for programs. A record that is being written may be among them. Where one is damaged, what is in front of
/// the damage is printed, and the program ends as that says.
///
/// `seen`: whether somebody looks at standard error, where it is said then how far it is.
pub fn show_sources<
    T: Timers,
    P: Rules,
    R: Files + Clock + Eprint + AllocGlobal,
    W: Write,
    C: Write,
>(rt: &R, call: &SourcesCall, seen: bool, output: &mut W, complaints: &mut C) -> Result<(), Exit>
    ensures { OnOk result (PrintsSources call.now (W.contents output.old) (W.contents output.new)) }
{
    let form = form_of(call.csv, call.json);
    let filter = filter_of(rt.alloc(), &call.chosen)?;
    let counting = Counting { filter, form, seen };
    let config = call.config.as_ref().map(String::as_str);
    let files = record_files(rt, call.records.as_slice())?;
    print_columns(form, output)?;
    tell_records::<T, P, R, W, C>(rt, files.as_slice(), counting, config, output, complaints)
}
