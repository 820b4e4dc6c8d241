//! The commands `check`, `matrix`, `report` and `user` carried out: files read, answers printed, and the exit of each.
ghost use Rattle.std.specs.Prelude.{◌≡◌, ◌≢◌, ◌⊎◌, [], true, false, option_map, string_bytes, IfErr, IfOk, Ok, OnOk};
ghost use Rattle.std.specs.Option.{option_copied};
ghost use Rattle.std.specs.Io.KnownBytes.{Appends};
ghost use Rattle.sip_config.specs.Stated.{States};
ghost use Rattle.sip_replay_script.specs.Devices.{later, GaveUp};
ghost use Rattle.sipd_arguments.specs.Summary;
ghost use Rattle.sipd_exit.specs.Exits.{IsPrintFault};
ghost use Rattle.sipd_exit.specs.declared.exit.Exit.TheVariants.{OtherFrame, OtherPolicy};
ghost use Rattle.sipd_ask.specs.Question;
ghost use Rattle.sipd_ask.specs.Show;
ghost use Rattle.sipd_report.specs.Report.{Reports};
ghost use Rattle.sipd_report.specs.Said;
ghost use Rattle.sipd_tools.specs.Against.{ChangesPolicy, KeepsPolicy, TellsChange};
ghost use Rattle.sipd_tools.specs.Checks.{Checks, EndsChecking, EndsTelling, EndsUnderstanding, EndsWithin, IsReadAs, IsUnderstood};
ghost use Rattle.sipd_tools.specs.Checks.{Shows, ShowsWrong, Tells, TellsAndHolds};
ghost use Rattle.sipd_tools.specs.Ends.{EndsAs, IsUnanswered};
ghost use Rattle.sipd_tools.specs.Reporting;
ghost use Rattle.sipd_tools.specs.Reporting.{AsksFor, EndsReporting, IsOffset, MakesReport};
ghost use Rattle.sipd_tools.specs.Tables;
ghost use Rattle.sipd_tools.specs.UserTables;
ghost use Rattle.sipd_tools.specs.UserTables.{AddsUser, MakesUser, MakesUserAlone};

use crate::against::before_of;
use crate::clocks::zones_in;
use crate::expectations::{hold, lines_in};
use sip_config::ConfigError;
use sip_config_types::Config;
use sip_policy::Operation;
use sip_replay_script::{TellingReader, TellingWriter};
use sip_text::Bytes;
use sipd_arguments::{CheckCall, MatrixCall, ReportCall, UserCall, summary_of};
use sipd_ask::{
    QuestionError, UserDigests, added_user, digest_warning, operation_asked, password_in, show,
    user_table,
};
use sipd_changes::{can_be_taken, changes_of, told};
use sipd_config_faults::{Reading, explain_encoding, read_or_tell};
use sipd_exit::{DeviceFault, Exit, bytes_in, config_of, config_of_bytes, print};
use sipd_matrix::matrix_text;
use sipd_matrix_changes::changes_text;
use sipd_matrix_forms::{csv_text, html_text};
use sipd_report::{Form, Query, ReportError, Zone, no_time, report, time_said};
use std::alloc::{AllocError, Global};
use std::io::{Read, Write};
use std::rt::Files;

/// How the program ends where a question has no answer.
fn exit_of_question(alloc: Global, e: QuestionError) -> Exit
    ensures { IsUnanswered result }
{
    match e {
        QuestionError::NoMemory => Exit::Memory,
        e => match format!(in alloc; "{e}") {
            Ok(text) => Exit::Question(text),
            Err(_) => Exit::Memory,
        },
    }
}

/// The same of a question about a method: where it has a small letter, with the one in capitals.
pub(crate) fn exit_of_decision(alloc: Global, e: QuestionError, method: &str) -> Result<Exit, Exit>
    ensures asked { IfOk result IsUnanswered }
    ensures refused { IfErr result IsUnanswered }
{
    if e != QuestionError::SmallLetter {
        return Ok(exit_of_question(alloc, e));
    }
    let capitals = method.to_ascii_uppercase(alloc)?;
    Ok(Exit::Question(format!(in alloc; "{e}: {capitals}")?))
}

/// The bytes of a word, if it is said.
pub(crate) fn name_of(name: &Option<String>) -> Option<&[u8]>
    ensures { option_copied result ≡ option_map string_bytes name.now }
{
    match name {
        Some(name) => Some(name.as_bytes()),
        None => None,
    }
}

/// How the program ends where a report can't be made.
pub(crate) fn exit_of_report(e: ReportError) -> Exit
    ensures { result ≡ Reporting.exit_of_report e }
{
    match e {
        ReportError::NoMemory => Exit::Memory,
        ReportError::Read | ReportError::Write => Exit::Device(DeviceFault::Other),
    }
}

/// How the program ends behind the lines of the cells that change: well, where there is none.
fn ends_behind(lines: &[u8]) -> Result<(), Exit>
    ensures same { OnOk result (lines.now ≡ []) }
    ensures other { IfErr result (λ exit. (exit ≡ OtherPolicy) × (lines.now ≢ [])) }
{
    match lines.split_first() {
        None => Ok(()),
        Some(_) => Err(Exit::OtherPolicy),
    }
}

/// Prints the cells of the table that change from one configuration to another. It ends well where none does, and else with `OtherPolicy`.
fn tell_policy<W: Write>(
    alloc: Global,
    old: &Config,
    new: &Config,
    operation: &Operation,
    output: &mut W,
) -> Result<(), Exit>
    ensures kept { OnOk result (KeepsPolicy old.now new.now operation.now (W.contents output.old) (W.contents output.new)) }
    ensures other { IfErr result (EndsAs OtherPolicy (ChangesPolicy old.now new.now operation.now (W.contents output.old) (W.contents output.new))) }
{
    let text = changes_text(alloc, old, new, operation)?;
    print(text.as_slice(), output)?;
    ends_behind(text.as_slice())?;
    Ok(())
}

/// The whole table, as text, as comma-separated values or as a page of HTML.
fn table_text(
    alloc: Global,
    csv: bool,
    html: bool,
    config: &Config,
    operation: &Operation,
) -> Result<Bytes, AllocError>
    ensures { IfOk result (λ text. text ≡ Tables.table_text csv html config.now operation.now) }
{
    if csv {
        csv_text(alloc, config, operation)
    } else if html {
        html_text(alloc, config, operation)
    } else {
        matrix_text(alloc, config, operation)
    }
}

/// Prints the whole table.
fn print_table<W: Write>(
    alloc: Global,
    call: &MatrixCall,
    config: &Config,
    operation: &Operation,
    output: &mut W,
) -> Result<(), Exit>
    ensures printed { OnOk result (Appends (W.contents output.old) (W.contents output.new)
        (Tables.table_text call.now.csv call.now.html config.now operation.now)) }
    ensures refused { IfErr result IsPrintFault }
{
    let text = table_text(alloc, call.csv, call.html, config, operation)?;
    print(text.as_slice(), output)
}

/// Prints that, or the cells alone that change from another configuration.
fn print_policy<W: Write>(
    alloc: Global,
    call: &MatrixCall,
    config: &Config,
    operation: &Operation,
    before: &Option<Config>,
    output: &mut W,
) -> Result<(), Exit>
    ensures printed { OnOk result (Tables.PrintsAgainst before.now call.now.csv call.now.html config.now operation.now
        (W.contents output.old) (W.contents output.new)) }
    ensures other { IfErr result (Tables.EndsAgainst before.now config.now operation.now (W.contents output.old) (W.contents output.new)) }
{
    match before {
        Some(old) => tell_policy(alloc, old, config, operation, output),
        None => print_table(alloc, call, config, operation, output),
    }
}

/// The method that is asked for: INVITE, where none is named.
fn method_of(call: &MatrixCall) -> &str
    ensures { result.now ≡ Tables.method_of call.now }
{
    match &call.method {
        Some(method) => method.as_str(),
        None => "INVITE",
    }
}

/// What is asked for.
fn operation_of(alloc: Global, call: &MatrixCall) -> Result<Operation, Exit>
    ensures { IfOk result (λ operation. Question.operation_asked (Tables.method_of call.now) ≡ Ok operation) }
{
    let method = method_of(call);
    match operation_asked(alloc, method.as_bytes()) {
        Ok(operation) => Ok(operation),
        Err(e) => Err(exit_of_decision(alloc, e, method)?),
    }
}

/// Prints which rule decides for whom, of what a method asks for, as a table that is all of it; or the cells alone that change.
pub fn matrix<R: Files + AllocGlobal, W: Write, C: Write>(
    rt: &R,
    call: &MatrixCall,
    output: &mut W,
    complaints: &mut C,
) -> Result<(), Exit>
    ensures printed { OnOk result (Tables.PrintsPolicy call.now (W.contents output.old) (W.contents output.new)) }
    ensures other { IfErr result (Tables.EndsMatrix call.now (W.contents output.old) (W.contents output.new)) }
{
    let alloc = rt.alloc();
    let config = config_of(rt, Some(call.config.as_str()))?;
    let operation = operation_of(alloc, call)?;
    let before = before_of(rt, &call.against, complaints)?;
    print_policy(alloc, call, &config, &operation, &before, output)?;
    Ok(())
}

/// The time of day of a report where no record says one: that of a configuration, or UTC.
fn offset_of<R: Files + AllocGlobal>(rt: &R, path: &Option<String>) -> Result<i16, Exit>
    ensures { IfOk result (IsOffset path.now) }
{
    match path {
        Some(path) => {
            let config = config_of(rt, Some(path.as_str()))?;
            Ok(config.offset)
        }
        None => Ok(0),
    }
}

/// The form of a report.
fn form_of(csv: bool) -> Form
    ensures { result ≡ Reporting.form_of csv }
{
    if csv { Form::Csv } else { Form::Table }
}

/// How the program ends where a word is no time.
fn exit_of_time(alloc: Global, text: &str) -> Exit {
    match no_time(alloc, text) {
        Ok(text) => Exit::Question(text),
        Err(_) => Exit::Memory,
    }
}

/// The time that is said, if one is. `Question`, where a word is no time; `Memory`.
fn time_in(alloc: Global, said: &Option<String>) -> Result<Option<u64>, Exit>
    ensures { IfOk result (λ time. time ≡ Said.time_in (option_map string_bytes said.now)) }
{
    let Some(text) = said else {
        return Ok(None);
    };
    match time_said(text.as_bytes()) {
        Some(second) => Ok(Some(second)),
        None => Err(exit_of_time(alloc, text.as_str())),
    }
}

/// What a call asks for, by a clock that is so many minutes ahead of UTC, and from the moments of some zones on as these say.
fn query_of<'c>(
    alloc: Global,
    call: &'c ReportCall,
    offset: i16,
    zones: &'c [Zone],
) -> Result<Query<'c>, Exit>
    ensures { IfOk result (AsksFor call.now offset zones.now) }
{
    let chosen = &call.chosen;
    let since = time_in(alloc, &chosen.since)?;
    let until = time_in(alloc, &chosen.until)?;
    Ok(Query {
        since,
        until,
        user: name_of(&chosen.user),
        target: name_of(&chosen.target),
        rule: chosen.rule,
        denied: chosen.denied,
        outcome: name_of(&chosen.outcome),
        offset,
        zones,
        form: form_of(call.csv),
    })
}

/// Prints the report of the audit lines of the input, and says how many lines are none.
fn print_report<I: TellingReader, W: TellingWriter>(
    alloc: Global,
    query: &Query<'_>,
    input: &mut I,
    output: &mut W,
) -> Result<u64, Exit>
    ensures reported { IfOk result (Reports query.now (I.remaining input.old) (W.contents output.old) (W.contents output.new)) }
    ensures refused { IfErr result (EndsReporting query.now (I.remaining input.old) (W.contents output.old) (W.contents output.new)
        (I.has_failed input.new ⊎ (I.asked input.new ≡ later 4294967295 (I.asked input.old))) (GaveUp (W.has_failed output.new) (W.called output.new))) }
{
    match report(alloc, query, input, output) {
        Ok(none) => Ok(none),
        Err(e) => Err(exit_of_report(e)),
    }
}

/// Complains of how many lines are no audit lines, beside comma-separated values.
fn complain_of_lines<C: Write>(csv: bool, none: u64, complaints: &mut C) {
    if csv && none > 0 {
        let _ = writeln!(complaints, "sipd: {none} lines are no audit lines");
    }
}

/// Prints a report of the audit lines of the input. How many lines are none is part of a table, and complained about beside
/// comma-separated values.
pub fn make_report<R: Files + AllocGlobal, I: Read, W: Write, C: Write>(
    rt: &R,
    call: &ReportCall,
    input: &mut I,
    output: &mut W,
    complaints: &mut C,
) -> Result<(), Exit>
    ensures { OnOk result (MakesReport call.now (I.remaining input.old) (W.contents output.old) (W.contents output.new)) }
{
    let offset = offset_of(rt, &call.config)?;
    let zones = zones_in(rt, call.records.as_slice())?;
    let query = query_of(rt.alloc(), call, offset, zones.as_slice())?;
    let none = print_report(rt.alloc(), &query, input, output)?;
    complain_of_lines(call.csv, none, complaints);
    Ok(())
}

/// Complains of what is seldom meant, if anything is.
fn complain<C: Write>(alloc: Global, warning: &Bytes, complaints: &mut C) -> Result<(), Exit>
    ensures { IfErr result IsPrintFault }
{
    if warning.as_slice().is_empty() {
        return Ok(());
    }
    let line = Bytes::joined(alloc, b"sipd: ", warning.as_slice())?;
    let _ = complaints.write_all(line.as_slice());
    Ok(())
}

/// The realm that is said.
fn realm_of(call: &UserCall) -> &[u8]
    ensures { result.now ≡ UserTables.realm_of call.now }
{
    match &call.realm {
        Some(realm) => realm.as_bytes(),
        None => b"",
    }
}

/// The digests that are wanted.
fn digests_of(sha256: bool) -> UserDigests
    ensures { result ≡ UserTables.digests_of sha256 }
{
    if sha256 {
        UserDigests::Both
    } else {
        UserDigests::Md5
    }
}

/// The table of a user by what the words of the command line say.
fn table_of(alloc: Global, call: &UserCall, password: &[u8]) -> Result<Bytes, Exit>
    ensures { IfOk result (λ table. UserTables.table_of call.now password.now ≡ Ok table) }
{
    let digests = digests_of(call.sha256);
    match user_table(
        alloc,
        call.name.as_bytes(),
        realm_of(call),
        password,
        digests,
    ) {
        Ok(table) => Ok(table),
        Err(e) => Err(exit_of_question(alloc, e)),
    }
}

/// The table of a user to be added to a configuration.
fn table_in(alloc: Global, config: &Config, call: &UserCall, password: &[u8]) -> Result<Bytes, Exit>
    ensures { IfOk result (λ table. UserTables.table_in config.now call.now password.now ≡ Ok table) }
{
    let realm = name_of(&call.realm);
    match added_user(alloc, config, call.name.as_bytes(), realm, password) {
        Ok(table) => Ok(table),
        Err(e) => Err(exit_of_question(alloc, e)),
    }
}

/// Prints the table of a user to be added to the configuration of a file.
fn add_user<R: Files + AllocGlobal, I: Read, W: Write, C: Write>(
    rt: &R,
    path: &str,
    call: &UserCall,
    input: &mut I,
    output: &mut W,
    complaints: &mut C,
) -> Result<(), Exit>
    ensures { OnOk result (AddsUser call.now (I.remaining input.old) (W.contents output.old) (W.contents output.new)) }
{
    let alloc = rt.alloc();
    let config = config_of(rt, Some(path))?;
    let password = password_in(alloc, input)?;
    let table = table_in(alloc, &config, call, password.as_slice())?;
    print(table.as_slice(), output)?;
    complain(alloc, &digest_warning(alloc, &config)?, complaints)?;
    Ok(())
}

/// Prints the table of a user alone.
fn print_user<I: Read, W: Write>(
    alloc: Global,
    call: &UserCall,
    input: &mut I,
    output: &mut W,
) -> Result<(), Exit>
    ensures { OnOk result (MakesUserAlone call.now (I.remaining input.old) (W.contents output.old) (W.contents output.new)) }
{
    let password = password_in(alloc, input)?;
    let table = table_of(alloc, call, password.as_slice())?;
    print(table.as_slice(), output)?;
    Ok(())
}

/// Prints a user's table; the password is the first line of the input.
pub fn make_user<R: Files + AllocGlobal, I: Read, W: Write, C: Write>(
    rt: &R,
    call: &UserCall,
    input: &mut I,
    output: &mut W,
    complaints: &mut C,
) -> Result<(), Exit>
    ensures { OnOk result (MakesUser call.now (I.remaining input.old) (W.contents output.old) (W.contents output.new)) }
{
    match &call.config {
        Some(path) => add_user(rt, path.as_str(), call, input, output, complaints),
        None => print_user(rt.alloc(), call, input, output),
    }
}

/// Prints all that was understood of a configuration, and gives it; or what is wrong with it.
#[tactic(auto, using(crate::proofs::Checked::read_as, crate::proofs::Checked::refused_as))]
fn show_config<W: Write>(alloc: Global, bytes: &[u8], output: &mut W) -> Result<Config, Exit>
    ensures stated { IfOk result (IsReadAs bytes.now) }
    ensures shown { IfOk result (λ config. Appends (W.contents output.old) (W.contents output.new) (Show.shown_lines config)) }
    ensures refused { IfErr result (λ exit. IsPrintFault exit ⊎ ShowsWrong bytes.now (W.contents output.old) (W.contents output.new) exit) }
{
    let Ok(text) = str::from_utf8(bytes) else {
        print(explain_encoding(alloc, bytes)?.as_slice(), output)?;
        return Err(Exit::from(ConfigError::BadToml));
    };
    match read_or_tell(alloc, text)? {
        Reading::Stated(config) => {
            print(show(alloc, &config)?.as_slice(), output)?;
            Ok(config)
        }
        Reading::Refused(error, line) => {
            print(line.as_slice(), output)?;
            Err(Exit::from(error))
        }
    }
}

/// Prints what a change from one configuration to another would do. A server that runs has to be able to take it: `OtherFrame` else.
fn tell_changes<W: Write>(
    alloc: Global,
    old: &Config,
    new: &Config,
    output: &mut W,
) -> Result<(), Exit>
    ensures taken { OnOk result (TellsChange old.now new.now true (W.contents output.old) (W.contents output.new)) }
    ensures other { IfErr result (EndsAs OtherFrame (TellsChange old.now new.now false (W.contents output.old) (W.contents output.new))) }
{
    let changes = changes_of(alloc, old, new)?;
    print(told(alloc, &changes)?.as_slice(), output)?;
    if can_be_taken(changes.as_slice()) {
        Ok(())
    } else {
        Err(Exit::OtherFrame)
    }
}

/// Complains of what is wrong with a configuration that is refused, and where.
fn complain_of_mistake<C: Write>(
    alloc: Global,
    bytes: &[u8],
    complaints: &mut C,
) -> Result<(), Exit> {
    let line = match str::from_utf8(bytes) {
        Err(_) => explain_encoding(alloc, bytes)?,
        Ok(text) => match read_or_tell(alloc, text)? {
            Reading::Stated(_) => return Ok(()),
            Reading::Refused(_, line) => line,
        },
    };
    let _ = complaints.write_all(line.as_slice());
    Ok(())
}

/// The configuration of a file; of a refused one it is complained what is wrong, and where.
fn stated_config<C: Write>(alloc: Global, bytes: &[u8], complaints: &mut C) -> Result<Config, Exit>
    ensures { IfOk result (States bytes.now) }
{
    match config_of_bytes(alloc, bytes) {
        Ok(config) => Ok(config),
        Err(exit) => {
            complain_of_mistake(alloc, bytes, complaints)?;
            Err(exit)
        }
    }
}

/// The configuration that bytes state. All that was understood of it is printed, if that is asked for; of a refused one it is told what is
/// wrong, there or as a complaint.
fn understood<W: Write, C: Write>(
    alloc: Global,
    is_shown: bool,
    bytes: &[u8],
    output: &mut W,
    complaints: &mut C,
) -> Result<Config, Exit>
    ensures stated { IfOk result (IsUnderstood is_shown bytes.now) }
    ensures shown { IfOk result (λ config. Shows is_shown config (W.contents output.old) (W.contents output.new)) }
    ensures refused { IfErr result (EndsUnderstanding is_shown bytes.now (W.contents output.old) (W.contents output.new)) }
{
    if is_shown {
        Ok(show_config(alloc, bytes, output)?)
    } else {
        Ok(stated_config(alloc, bytes, complaints)?)
    }
}

/// Prints how much a configuration has. It complains of users with different digests, but where all was shown, which says so, too.
fn tell_summary<W: Write, C: Write>(
    alloc: Global,
    is_shown: bool,
    config: &Config,
    output: &mut W,
    complaints: &mut C,
) -> Result<(), Exit>
    ensures told { OnOk result (Appends (W.contents output.old) (W.contents output.new) (Summary.summary_of config.now)) }
    ensures refused { IfErr result IsPrintFault }
{
    print(summary_of(alloc, config)?.as_slice(), output)?;
    if is_shown {
        return Ok(());
    }
    complain(alloc, &digest_warning(alloc, config)?, complaints)?;
    Ok(())
}

/// Prints how much a configuration has, or what a change to it from another one would do.
fn tell<W: Write, C: Write>(
    alloc: Global,
    is_shown: bool,
    config: &Config,
    before: &Option<Config>,
    output: &mut W,
    complaints: &mut C,
) -> Result<(), Exit>
    ensures told { OnOk result (Tells before.now config.now (W.contents output.old) (W.contents output.new)) }
    ensures other { IfErr result (EndsTelling before.now config.now (W.contents output.old) (W.contents output.new)) }
{
    match before {
        Some(old) => tell_changes(alloc, old, config, output),
        None => tell_summary(alloc, is_shown, config, output, complaints),
    }
}

/// Prints that, and what of its policy isn't as it is expected to be.
fn tell_and_hold<W: Write, C: Write>(
    alloc: Global,
    is_shown: bool,
    config: &Config,
    before: &Option<Config>,
    expected: &Option<Bytes>,
    output: &mut W,
    complaints: &mut C,
) -> Result<(), Exit>
    ensures told { OnOk result (TellsAndHolds before.now expected.now config.now (W.contents output.old) (W.contents output.new)) }
    ensures other { IfErr result (EndsWithin before.now expected.now config.now (W.contents output.old) (W.contents output.new)) }
{
    tell(alloc, is_shown, config, before, output, complaints)?;
    hold(alloc, expected, config, output)?;
    Ok(())
}

/// Checks the configuration of a file, and prints how much it has, behind all that was understood, if that is asked for, or what a change to
/// it would do; and what of its policy isn't as it is expected to be. Of a refused one it tells what is wrong, with `show` among what it
/// prints.
pub fn check<R: Files + AllocGlobal, W: Write, C: Write>(
    rt: &R,
    call: &CheckCall,
    output: &mut W,
    complaints: &mut C,
) -> Result<(), Exit>
    ensures checked { OnOk result (Checks call.now (W.contents output.old) (W.contents output.new)) }
    ensures other { IfErr result (EndsChecking call.now (W.contents output.old) (W.contents output.new)) }
{
    let alloc = rt.alloc();
    let bytes = bytes_in(rt, call.config.as_str())?;
    let expected = lines_in(rt, &call.expect, complaints)?;
    let config = understood(alloc, call.show, bytes.as_slice(), output, complaints)?;
    let before = before_of(rt, &call.against, complaints)?;
    tell_and_hold(
        alloc, call.show, &config, &before, &expected, output, complaints,
    )?;
    Ok(())
}
