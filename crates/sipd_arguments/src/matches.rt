//! What the words of a command ask for, read out of what was parsed; and which options don't stand together.
ghost use Rattle.std.specs.Prelude.{◌≡◌, Some, None, codes, map, IfErr, IfOk, OnOk, is_some, option_map, string_bytes};
ghost use Rattle.clap.specs.Words.{found_of, rows_of, subcommand_rows_of};
ghost use Rattle.sipd_arguments.specs.CommandLine as Definitions;
ghost use Rattle.sipd_arguments.specs.CommandLine.{IsCall, IsCallOf, IsPlace};
ghost use Rattle.sipd_arguments.specs.Commands.{IsFitCall, IsUnfit, IsWhy};

use crate::call::{
    CallsCall, CheckCall, ChosenCalls, ChosenLines, ChosenSources, CompactCall, DecideCall,
    ExpectedDecision, LadderCall, MatrixCall, PageCall, ProgramCall, QuestionCall, ReplayCall,
    ReportCall, ServeCall, SourcesCall, TimeCall, TraceCall, UserCall,
};
use crate::misuse::Misuse;
use clap::ArgMatches;
use sipd_exit::{RecordFault, RecordPlace, RecordSync};
use std::alloc::{AllocError, Global};

/// Why what a command line says is no call.
#[derive(Clone, Copy)]
pub(crate) enum Uncalled {
    NoMemory,
    Misused(Misuse),
}

impl From<AllocError> for Uncalled {
    ghost use Rattle.sipd_arguments.specs.declared.matches.Uncalled.TheVariants.{NoMemory};

    ghost from_gives = { λ _ why. why ≡ NoMemory };

    fn from(_e: AllocError) -> Uncalled {
        Uncalled::NoMemory
    }
}

impl From<Misuse> for Uncalled {
    ghost use Rattle.sipd_arguments.specs.declared.matches.Uncalled.TheVariants.{Misused};

    ghost from_gives = { λ misuse why. why ≡ Misused misuse };

    fn from(misuse: Misuse) -> Uncalled {
        Uncalled::Misused(misuse)
    }
}

/// The text of an option.
#[tactic(auto, using(crate::proofs::Found::text_found))]
fn text_of(
    alloc: Global,
    matches: &ArgMatches<'_>,
    name: &str,
) -> Result<Option<String>, AllocError>
    ensures { IfOk result (λ text. option_map string_bytes text ≡ Definitions.text_at name.now (rows_of (found_of matches.now))) }
{
    match matches.get_str(name) {
        Some(text) => Ok(Some(String::from_str(alloc, text)?)),
        None => Ok(None),
    }
}

/// Puts the text of an option into its place. Who is lent several places to fill owns nothing, and has one way through it.
fn put_text(
    alloc: Global,
    matches: &ArgMatches<'_>,
    name: &str,
    place: &mut Option<String>,
) -> Result<(), AllocError>
    ensures { OnOk result (option_map string_bytes place.new ≡ Definitions.text_at name.now (rows_of (found_of matches.now))) }
{
    *place = text_of(alloc, matches, name)?;
    Ok(())
}

/// Copies of texts.
fn copies(alloc: Global, texts: &[&str]) -> Result<Vec<String>, AllocError>
    ensures { IfOk result (λ copies. map string_bytes copies.items ≡ map (λ text. text.now) texts.now) }
{
    let mut copies = Vec::new(alloc);
    for text in texts {
        copies.push(String::from_str(alloc, text)?)?;
    }
    Ok(copies)
}

/// The texts of an option that may have several.
#[tactic(auto, using(crate::proofs::Found::texts_found))]
fn texts_of(alloc: Global, matches: &ArgMatches<'_>, name: &str) -> Result<Vec<String>, AllocError>
    ensures { IfOk result (λ texts. map string_bytes texts.items ≡ Definitions.texts_at name.now (rows_of (found_of matches.now))) }
{
    match matches.get_strs(name) {
        Some(texts) => Ok(copies(alloc, texts)?),
        None => Ok(Vec::new(alloc)),
    }
}

/// The text of one that has to be there.
#[tactic(auto, using(crate::proofs::Found::text_found))]
fn needed_text(alloc: Global, matches: &ArgMatches<'_>, name: &str) -> Result<String, AllocError>
    ensures { IfOk result (λ text. string_bytes text ≡ Definitions.needed_text name.now (rows_of (found_of matches.now))) }
{
    match matches.get_str(name) {
        Some(text) => String::from_str(alloc, text),
        None => String::from_str(alloc, ""),
    }
}

/// The number of an option.
fn number_of(matches: &ArgMatches<'_>, name: &str) -> Option<u32>
    ensures { result ≡ Definitions.number_at 32 name.now (rows_of (found_of matches.now)) }
{
    matches.get_one::<u32>(name)
}

/// The minute of a day that an option says.
fn minute_of(matches: &ArgMatches<'_>, name: &str) -> Option<u16>
    ensures { result ≡ Definitions.number_at 16 name.now (rows_of (found_of matches.now)) }
{
    matches.get_one::<u16>(name)
}

/// Whether an option is there that has no value.
fn is_on(matches: &ArgMatches<'_>, name: &str) -> bool
    ensures { result ≡ Definitions.is_on name.now (rows_of (found_of matches.now)) }
{
    matches.get_one::<bool>(name).unwrap_or(false)
}

fn check_call(alloc: Global, matches: &ArgMatches<'_>) -> Result<ProgramCall, Uncalled>
    ensures call { IfOk result (IsFitCall (codes "check") (rows_of (found_of matches.now))) }
    ensures refused { IfErr result (IsUnfit (codes "check") (rows_of (found_of matches.now))) }
{
    Ok(ProgramCall::Check(CheckCall {
        config: needed_text(alloc, matches, "config")?,
        show: is_on(matches, "show"),
        against: text_of(alloc, matches, "against")?,
        expect: text_of(alloc, matches, "expect")?,
    }))
}

fn replay_call(alloc: Global, matches: &ArgMatches<'_>) -> Result<ProgramCall, Uncalled>
    ensures call { IfOk result (IsFitCall (codes "replay") (rows_of (found_of matches.now))) }
    ensures refused { IfErr result (IsUnfit (codes "replay") (rows_of (found_of matches.now))) }
{
    let config = text_of(alloc, matches, "config")?;
    let call = match text_of(alloc, matches, "record")? {
        Some(path) => ReplayCall::Record { config, path },
        None => ReplayCall::Script { config },
    };
    Ok(ProgramCall::Replay(call))
}

fn compact_call(alloc: Global, matches: &ArgMatches<'_>) -> Result<ProgramCall, Uncalled>
    ensures call { IfOk result (IsFitCall (codes "compact") (rows_of (found_of matches.now))) }
    ensures refused { IfErr result (IsUnfit (codes "compact") (rows_of (found_of matches.now))) }
{
    Ok(ProgramCall::Compact(CompactCall {
        config: needed_text(alloc, matches, "config")?,
        old: needed_text(alloc, matches, "OLD")?,
        new: needed_text(alloc, matches, "NEW")?,
    }))
}

/// What becomes of the server where its record can't be written, if it is a word that is known.
#[tactic(auto, using(crate::proofs::Found::text_found))]
fn fault_said(matches: &ArgMatches<'_>) -> Option<RecordFault>
    ensures { result ≡ Definitions.fault_said (rows_of (found_of matches.now)) }
{
    let Some(text) = matches.get_str("record-fault") else {
        return Some(RecordFault::GoOn);
    };
    if text == "go-on" {
        return Some(RecordFault::GoOn);
    }
    if text == "end" {
        return Some(RecordFault::End);
    }
    None
}

/// Where a server is to record.
fn record_place(alloc: Global, matches: &ArgMatches<'_>) -> Result<Option<RecordPlace>, AllocError>
    ensures { IfOk result (IsPlace (Definitions.text_at (codes "records") (rows_of (found_of matches.now)))
        (Definitions.text_at (codes "record") (rows_of (found_of matches.now))) (Definitions.text_at (codes "resume") (rows_of (found_of matches.now)))) }
{
    if let Some(folder) = text_of(alloc, matches, "records")? {
        return Ok(Some(RecordPlace::Folder(folder)));
    }
    let resume = text_of(alloc, matches, "resume")?;
    match text_of(alloc, matches, "record")? {
        Some(path) => Ok(Some(RecordPlace::File { path, resume })),
        None => Ok(None),
    }
}

/// Whether an option is there that has a value.
#[tactic(auto, using(crate::proofs::Found::text_found))]
fn has(matches: &ArgMatches<'_>, name: &str) -> bool
    ensures { result ≡ is_some (Definitions.text_at name.now (rows_of (found_of matches.now))) }
{
    matches.get_str(name).is_some()
}

/// When what is recorded is put on the disk, by a word that is known.
fn sync_named(word: &str) -> Option<RecordSync>
    ensures { result ≡ Definitions.sync_named word.now }
{
    if word == "each" {
        return Some(RecordSync::Each);
    }
    if word == "second" {
        return Some(RecordSync::Second);
    }
    if word == "never" {
        return Some(RecordSync::Never);
    }
    None
}

/// The same of what is said, if it is a word that is known.
#[tactic(auto, using(crate::proofs::Found::text_found))]
fn sync_said(matches: &ArgMatches<'_>) -> Option<RecordSync>
    ensures { result ≡ Definitions.sync_said (rows_of (found_of matches.now)) }
{
    match matches.get_str("sync") {
        Some(word) => sync_named(word),
        None => Some(RecordSync::Never),
    }
}

/// For how many days records stay in their folder; 0, where nothing is said.
fn days_said(matches: &ArgMatches<'_>) -> u32
    ensures { result ≡ Definitions.days_said (rows_of (found_of matches.now)) }
{
    number_of(matches, "keep").unwrap_or(0)
}

/// Why what is said of where it is recorded doesn't stand together.
fn place_misuse(matches: &ArgMatches<'_>) -> Option<Misuse>
    ensures { result ≡ Definitions.place_misuse (rows_of (found_of matches.now)) }
{
    let file = has(matches, "record");
    let folder = has(matches, "records");
    if file && folder {
        return Some(Misuse::TwoRecords);
    }
    if has(matches, "resume") && !file {
        return Some(Misuse::NoNewRecord);
    }
    if has(matches, "record-fault") && !(file || folder) {
        return Some(Misuse::NoRecord);
    }
    None
}

/// Why what is said of how it is kept doesn't stand together with that.
fn keeping_misuse(matches: &ArgMatches<'_>) -> Option<Misuse>
    ensures { result ≡ Definitions.keeping_misuse (rows_of (found_of matches.now)) }
{
    let folder = has(matches, "records");
    if has(matches, "keep") && !folder {
        return Some(Misuse::NoFolder);
    }
    if has(matches, "sync") && !(has(matches, "record") || folder) {
        return Some(Misuse::NothingSynced);
    }
    None
}

/// What words say of a record.
#[derive(Clone, Copy)]
struct RecordWords {
    fault: RecordFault,
    sync: RecordSync,
}

/// What words say of the record, where what is said of it stands together.
fn record_words(matches: &ArgMatches<'_>) -> Result<RecordWords, Misuse>
    ensures fault { IfOk result (λ words. Definitions.fault_said (rows_of (found_of matches.now)) ≡ Some words.fault) }
    ensures sync { IfOk result (λ words. Definitions.sync_said (rows_of (found_of matches.now)) ≡ Some words.sync) }
    ensures together { IfOk result (λ words. Definitions.serve_misuse (rows_of (found_of matches.now)) ≡ None) }
    ensures misuse { IfErr result (λ why. Definitions.serve_misuse (rows_of (found_of matches.now)) ≡ Some why) }
{
    if let Some(why) = place_misuse(matches) {
        return Err(why);
    }
    if let Some(why) = keeping_misuse(matches) {
        return Err(why);
    }
    let Some(fault) = fault_said(matches) else {
        return Err(Misuse::NoSuchWord);
    };
    let Some(sync) = sync_said(matches) else {
        return Err(Misuse::NoSuchSync);
    };
    Ok(RecordWords { fault, sync })
}

/// How phones are served.
fn serve_call(alloc: Global, matches: &ArgMatches<'_>) -> Result<ProgramCall, Uncalled>
    ensures call { IfOk result (IsFitCall (codes "serve") (rows_of (found_of matches.now))) }
    ensures refused { IfErr result (IsUnfit (codes "serve") (rows_of (found_of matches.now))) }
{
    let words = record_words(matches)?;
    Ok(ProgramCall::Serve(ServeCall {
        config: needed_text(alloc, matches, "config")?,
        turns: number_of(matches, "turns"),
        record: record_place(alloc, matches)?,
        record_fault: words.fault,
        keep: days_said(matches),
        sync: words.sync,
        per_source: number_of(matches, "per-source"),
        status: text_of(alloc, matches, "status")?,
        reload: is_on(matches, "reload"),
    }))
}

/// The decision that a word means, if it is one that is known.
fn verdict_named(word: &str) -> Option<ExpectedDecision>
    ensures { result ≡ Definitions.verdict_named word.now }
{
    if word == "allow" {
        return Some(ExpectedDecision::Allow);
    }
    if word == "deny" {
        return Some(ExpectedDecision::Deny);
    }
    if word == "challenge" {
        return Some(ExpectedDecision::Challenge);
    }
    None
}

/// What is expected to be decided, if that is a word that is known; anything, where nothing is said.
#[tactic(auto, using(crate::proofs::Found::text_found))]
fn expected_said(matches: &ArgMatches<'_>) -> Option<Option<ExpectedDecision>>
    ensures { result ≡ Definitions.expected_said (rows_of (found_of matches.now)) }
{
    match matches.get_str("expect") {
        Some(word) => Some(Some(verdict_named(word)?)),
        None => Some(None),
    }
}

/// Whether something of a question is said.
fn is_asking(matches: &ArgMatches<'_>) -> bool
    ensures { result ≡ Definitions.is_asking (rows_of (found_of matches.now)) }
{
    has(matches, "METHOD")
        || has(matches, "user")
        || has(matches, "minute")
        || has(matches, "expect")
}

/// Whether a whole question is.
fn is_question(matches: &ArgMatches<'_>) -> bool
    ensures { result ≡ Definitions.is_question (rows_of (found_of matches.now)) }
{
    has(matches, "METHOD") && has(matches, "TARGET")
}

/// What is expected to be decided, where what is said to `decide` stands together.
fn expected(matches: &ArgMatches<'_>) -> Result<Option<ExpectedDecision>, Misuse>
    ensures expected { IfOk result (λ expect. (Definitions.expected_said (rows_of (found_of matches.now)) ≡ Some expect) × (Definitions.decide_misuse (rows_of (found_of matches.now)) ≡ None)) }
    ensures misuse { IfErr result (λ why. Definitions.decide_misuse (rows_of (found_of matches.now)) ≡ Some why) }
{
    let log = is_on(matches, "log");
    if log && is_asking(matches) {
        return Err(Misuse::LogAlone);
    }
    if !log && !is_question(matches) {
        return Err(Misuse::NoQuestion);
    }
    expected_said(matches).ok_or(Misuse::NoSuchVerdict)
}

fn question_call(
    alloc: Global,
    matches: &ArgMatches<'_>,
    expect: Option<ExpectedDecision>,
) -> Result<QuestionCall, AllocError>
    requires { Definitions.expected_said (rows_of (found_of matches.now)) ≡ Some expect }
    ensures { IfOk result (Definitions.IsQuestion (rows_of (found_of matches.now))) }
{
    Ok(QuestionCall {
        config: needed_text(alloc, matches, "config")?,
        user: text_of(alloc, matches, "user")?,
        minute: minute_of(matches, "minute"),
        expect,
        method: needed_text(alloc, matches, "METHOD")?,
        target: needed_text(alloc, matches, "TARGET")?,
    })
}

fn decide_call(alloc: Global, matches: &ArgMatches<'_>) -> Result<ProgramCall, Uncalled>
    ensures call { IfOk result (IsFitCall (codes "decide") (rows_of (found_of matches.now))) }
    ensures refused { IfErr result (IsUnfit (codes "decide") (rows_of (found_of matches.now))) }
{
    let expect = expected(matches)?;
    if is_on(matches, "log") {
        let config = needed_text(alloc, matches, "config")?;
        return Ok(ProgramCall::Decide(DecideCall::Log { config }));
    }
    let question = question_call(alloc, matches, expect)?;
    Ok(ProgramCall::Decide(DecideCall::Question(question)))
}

/// Why these options of `matrix` don't stand together: what is told has one form.
fn matrix_misuse(matches: &ArgMatches<'_>) -> Option<Misuse>
    ensures { result ≡ Definitions.matrix_misuse (rows_of (found_of matches.now)) }
{
    let against = has(matches, "against");
    let csv = is_on(matches, "csv");
    let html = is_on(matches, "html");
    if against && csv {
        return Some(Misuse::TwoForms);
    }
    if against && html {
        return Some(Misuse::TwoForms);
    }
    if csv && html {
        return Some(Misuse::TwoForms);
    }
    None
}

fn matrix_call(alloc: Global, matches: &ArgMatches<'_>) -> Result<ProgramCall, Uncalled>
    ensures call { IfOk result (IsFitCall (codes "matrix") (rows_of (found_of matches.now))) }
    ensures refused { IfErr result (IsUnfit (codes "matrix") (rows_of (found_of matches.now))) }
{
    if let Some(why) = matrix_misuse(matches) {
        return Err(Uncalled::Misused(why));
    }
    let against = text_of(alloc, matches, "against")?;
    Ok(ProgramCall::Matrix(MatrixCall {
        config: needed_text(alloc, matches, "config")?,
        method: text_of(alloc, matches, "method")?,
        against,
        csv: is_on(matches, "csv"),
        html: is_on(matches, "html"),
    }))
}

/// Puts what is said of the lines to be shown into its places.
fn put_lines(
    alloc: Global,
    matches: &ArgMatches<'_>,
    chosen: &mut ChosenLines,
) -> Result<(), AllocError>
    ensures { OnOk result (Definitions.IsChosenIn (rows_of (found_of matches.now)) chosen.new) }
{
    put_text(alloc, matches, "since", &mut chosen.since)?;
    put_text(alloc, matches, "until", &mut chosen.until)?;
    put_text(alloc, matches, "user", &mut chosen.user)?;
    put_text(alloc, matches, "target", &mut chosen.target)?;
    put_text(alloc, matches, "outcome", &mut chosen.outcome)?;
    chosen.rule = number_of(matches, "rule");
    chosen.denied = is_on(matches, "denied");
    Ok(())
}

/// Which lines are to be shown.
fn chosen_lines(alloc: Global, matches: &ArgMatches<'_>) -> Result<ChosenLines, AllocError>
    ensures { IfOk result (Definitions.IsChosenIn (rows_of (found_of matches.now))) }
{
    let mut chosen = ChosenLines {
        since: None,
        until: None,
        user: None,
        target: None,
        rule: None,
        denied: false,
        outcome: None,
    };
    put_lines(alloc, matches, &mut chosen)?;
    Ok(chosen)
}

fn report_call(alloc: Global, matches: &ArgMatches<'_>) -> Result<ProgramCall, Uncalled>
    ensures call { IfOk result (IsFitCall (codes "report") (rows_of (found_of matches.now))) }
    ensures refused { IfErr result (IsUnfit (codes "report") (rows_of (found_of matches.now))) }
{
    Ok(ProgramCall::Report(ReportCall {
        config: text_of(alloc, matches, "config")?,
        records: texts_of(alloc, matches, "record")?,
        chosen: chosen_lines(alloc, matches)?,
        csv: is_on(matches, "csv"),
    }))
}

/// Why these options of `user` don't stand together.
fn user_misuse(matches: &ArgMatches<'_>) -> Option<Misuse>
    ensures { result ≡ Definitions.user_misuse (rows_of (found_of matches.now)) }
{
    let config = has(matches, "config");
    if !(config || has(matches, "realm")) {
        return Some(Misuse::NoRealm);
    }
    if config && is_on(matches, "sha256") {
        return Some(Misuse::Sha256Said);
    }
    None
}

fn user_call(alloc: Global, matches: &ArgMatches<'_>) -> Result<ProgramCall, Uncalled>
    ensures call { IfOk result (IsFitCall (codes "user") (rows_of (found_of matches.now))) }
    ensures refused { IfErr result (IsUnfit (codes "user") (rows_of (found_of matches.now))) }
{
    if let Some(why) = user_misuse(matches) {
        return Err(Uncalled::Misused(why));
    }
    Ok(ProgramCall::User(UserCall {
        name: needed_text(alloc, matches, "NAME")?,
        config: text_of(alloc, matches, "config")?,
        realm: text_of(alloc, matches, "realm")?,
        sha256: is_on(matches, "sha256"),
    }))
}

/// Why these options don't stand together: what is written has one form.
fn forms_misuse(matches: &ArgMatches<'_>) -> Option<Misuse>
    ensures { result ≡ Definitions.forms_misuse (rows_of (found_of matches.now)) }
{
    if is_on(matches, "csv") && is_on(matches, "json") {
        return Some(Misuse::CsvAndJson);
    }
    None
}

/// Puts what is said of the calls to be shown into its places.
fn put_chosen(
    alloc: Global,
    matches: &ArgMatches<'_>,
    chosen: &mut ChosenCalls,
) -> Result<(), AllocError>
    ensures { OnOk result (Definitions.IsChosen (rows_of (found_of matches.now)) chosen.new) }
{
    put_text(alloc, matches, "since", &mut chosen.since)?;
    put_text(alloc, matches, "until", &mut chosen.until)?;
    put_text(alloc, matches, "user", &mut chosen.user)?;
    put_text(alloc, matches, "target", &mut chosen.target)?;
    put_text(alloc, matches, "from", &mut chosen.from)?;
    chosen.challenged = is_on(matches, "challenged");
    Ok(())
}

/// Which calls are to be shown.
fn chosen_calls(alloc: Global, matches: &ArgMatches<'_>) -> Result<ChosenCalls, AllocError>
    ensures { IfOk result (Definitions.IsChosen (rows_of (found_of matches.now))) }
{
    let mut chosen = ChosenCalls {
        since: None,
        until: None,
        user: None,
        target: None,
        from: None,
        challenged: false,
    };
    put_chosen(alloc, matches, &mut chosen)?;
    Ok(chosen)
}

/// Which calls of which records are asked for.
fn asked_calls(alloc: Global, matches: &ArgMatches<'_>) -> Result<CallsCall, AllocError>
    ensures { IfOk result (Definitions.IsCalls (rows_of (found_of matches.now))) }
{
    Ok(CallsCall {
        records: texts_of(alloc, matches, "record")?,
        config: text_of(alloc, matches, "config")?,
        chosen: chosen_calls(alloc, matches)?,
        csv: is_on(matches, "csv"),
        json: is_on(matches, "json"),
    })
}

fn calls_call(alloc: Global, matches: &ArgMatches<'_>) -> Result<ProgramCall, Uncalled>
    ensures call { IfOk result (IsFitCall (codes "calls") (rows_of (found_of matches.now))) }
    ensures refused { IfErr result (IsUnfit (codes "calls") (rows_of (found_of matches.now))) }
{
    if let Some(why) = forms_misuse(matches) {
        return Err(Uncalled::Misused(why));
    }
    Ok(ProgramCall::Calls(asked_calls(alloc, matches)?))
}

/// Which day is asked for, and at which time.
fn asked_time(alloc: Global, matches: &ArgMatches<'_>) -> Result<TimeCall, AllocError>
    ensures { IfOk result (Definitions.IsTime (rows_of (found_of matches.now))) }
{
    Ok(TimeCall {
        file: needed_text(alloc, matches, "record")?,
        config: text_of(alloc, matches, "config")?,
        at: text_of(alloc, matches, "at")?,
        csv: is_on(matches, "csv"),
        json: is_on(matches, "json"),
    })
}

/// `phones`.
fn phones_call(alloc: Global, matches: &ArgMatches<'_>) -> Result<ProgramCall, Uncalled>
    ensures call { IfOk result (IsFitCall (codes "phones") (rows_of (found_of matches.now))) }
    ensures refused { IfErr result (IsUnfit (codes "phones") (rows_of (found_of matches.now))) }
{
    if let Some(why) = forms_misuse(matches) {
        return Err(Uncalled::Misused(why));
    }
    Ok(ProgramCall::Phones(asked_time(alloc, matches)?))
}

/// `now`.
fn now_call(alloc: Global, matches: &ArgMatches<'_>) -> Result<ProgramCall, Uncalled>
    ensures call { IfOk result (IsFitCall (codes "now") (rows_of (found_of matches.now))) }
    ensures refused { IfErr result (IsUnfit (codes "now") (rows_of (found_of matches.now))) }
{
    if let Some(why) = forms_misuse(matches) {
        return Err(Uncalled::Misused(why));
    }
    Ok(ProgramCall::Now(asked_time(alloc, matches)?))
}

/// Which days are asked for as a capture, and where it goes.
fn trace_call(alloc: Global, matches: &ArgMatches<'_>) -> Result<ProgramCall, Uncalled>
    ensures call { IfOk result (IsFitCall (codes "trace") (rows_of (found_of matches.now))) }
    ensures refused { IfErr result (IsUnfit (codes "trace") (rows_of (found_of matches.now))) }
{
    Ok(ProgramCall::Trace(TraceCall {
        records: texts_of(alloc, matches, "record")?,
        config: text_of(alloc, matches, "config")?,
        call: text_of(alloc, matches, "CALL")?,
        pcap: needed_text(alloc, matches, "pcap")?,
        hide: is_on(matches, "hide"),
    }))
}

/// Which call of which days is asked for.
fn ladder_call(alloc: Global, matches: &ArgMatches<'_>) -> Result<ProgramCall, Uncalled>
    ensures call { IfOk result (IsFitCall (codes "ladder") (rows_of (found_of matches.now))) }
    ensures refused { IfErr result (IsUnfit (codes "ladder") (rows_of (found_of matches.now))) }
{
    Ok(ProgramCall::Ladder(LadderCall {
        records: texts_of(alloc, matches, "record")?,
        config: text_of(alloc, matches, "config")?,
        call: needed_text(alloc, matches, "CALL")?,
        svg: is_on(matches, "svg"),
    }))
}

/// Which datagrams are to be counted.
fn chosen_sources(alloc: Global, matches: &ArgMatches<'_>) -> Result<ChosenSources, AllocError>
    ensures { IfOk result (Definitions.IsChosenOf (rows_of (found_of matches.now))) }
{
    Ok(ChosenSources {
        since: text_of(alloc, matches, "since")?,
        until: text_of(alloc, matches, "until")?,
        from: text_of(alloc, matches, "from")?,
    })
}

/// Which addresses of which records are asked for.
fn asked_sources(alloc: Global, matches: &ArgMatches<'_>) -> Result<SourcesCall, AllocError>
    ensures { IfOk result (Definitions.IsSources (rows_of (found_of matches.now))) }
{
    Ok(SourcesCall {
        records: texts_of(alloc, matches, "record")?,
        config: text_of(alloc, matches, "config")?,
        chosen: chosen_sources(alloc, matches)?,
        csv: is_on(matches, "csv"),
        json: is_on(matches, "json"),
    })
}

fn sources_call(alloc: Global, matches: &ArgMatches<'_>) -> Result<ProgramCall, Uncalled>
    ensures call { IfOk result (IsFitCall (codes "sources") (rows_of (found_of matches.now))) }
    ensures refused { IfErr result (IsUnfit (codes "sources") (rows_of (found_of matches.now))) }
{
    if let Some(why) = forms_misuse(matches) {
        return Err(Uncalled::Misused(why));
    }
    Ok(ProgramCall::Sources(asked_sources(alloc, matches)?))
}

/// The page of which days is asked for.
fn page_call(alloc: Global, matches: &ArgMatches<'_>) -> Result<ProgramCall, Uncalled>
    ensures call { IfOk result (IsFitCall (codes "page") (rows_of (found_of matches.now))) }
    ensures refused { IfErr result (IsUnfit (codes "page") (rows_of (found_of matches.now))) }
{
    Ok(ProgramCall::Page(PageCall {
        records: texts_of(alloc, matches, "record")?,
        config: text_of(alloc, matches, "config")?,
        log: text_of(alloc, matches, "log")?,
    }))
}

/// What a command with its options asks for.
fn call_named(alloc: Global, name: &str, matches: &ArgMatches<'_>) -> Result<ProgramCall, Uncalled>
    ensures call { IfOk result (λ call. IsCall name.now (rows_of (found_of matches.now)) call × (Definitions.misuse_in name.now (rows_of (found_of matches.now)) ≡ None)) }
    ensures refused { IfErr result (IsWhy (Definitions.misuse_in name.now (rows_of (found_of matches.now)))) }
{
    match name {
        "check" => check_call(alloc, matches),
        "replay" => replay_call(alloc, matches),
        "compact" => compact_call(alloc, matches),
        "serve" => serve_call(alloc, matches),
        "decide" => decide_call(alloc, matches),
        "matrix" => matrix_call(alloc, matches),
        "report" => report_call(alloc, matches),
        "user" => user_call(alloc, matches),
        "calls" => calls_call(alloc, matches),
        "phones" => phones_call(alloc, matches),
        "now" => now_call(alloc, matches),
        "trace" => trace_call(alloc, matches),
        "ladder" => ladder_call(alloc, matches),
        "sources" => sources_call(alloc, matches),
        "page" => page_call(alloc, matches),
        _ => Err(Uncalled::Misused(Misuse::NoCommand)),
    }
}

/// What the command asks for that the words name.
pub(crate) fn call_of(alloc: Global, matches: &ArgMatches<'_>) -> Result<ProgramCall, Uncalled>
    ensures call { IfOk result (λ call. IsCallOf (subcommand_rows_of matches.now) call × (Definitions.misuse_of (subcommand_rows_of matches.now) ≡ None)) }
    ensures refused { IfErr result (IsWhy (Definitions.misuse_of (subcommand_rows_of matches.now))) }
{
    match matches.subcommand() {
        Some((name, inner)) => call_named(alloc, name, inner),
        None => Err(Uncalled::Misused(Misuse::NoCommand)),
    }
}
