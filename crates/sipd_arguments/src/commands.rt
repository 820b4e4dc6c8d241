//! The command line of the program: its commands, their options and their help, and what a line is complained about.
//! What a line asks for is read in `matches`.
ghost use Rattle.std.specs.Prelude.{◌≡◌, false, map, codes, IfOk, string_bytes};
ghost use Rattle.clap.specs.Words.{App, Rule, Shape, app_of, kind_of, rule_of, with_subcommand};
ghost use Rattle.sipd_arguments.specs.CommandLine as Definitions;
ghost use Rattle.sipd_arguments.specs.CommandLine.{EndsExactly, no_commands};
ghost use Rattle.sipd_arguments.specs.Commands.{Answers, IsCommand, more};

use crate::call::ProgramCall;
use crate::endings;
use crate::matches::{Uncalled, call_of};
use crate::misuse::Misuse;
use clap::error::ErrorKind;
use clap::{Arg, ArgAction, Command, value_parser};
use sipd_exit::Exit;
use std::alloc::{AllocError, Global};

/// The date at the head of CHANGELOG, and the kit. Of which commit it is can't stand in its own text: the package's PROOF tells it.
const VERSION: &str = "2026-12-01, rattle-kit-13f logic dac8208d650f15bf";

/// What is said behind a complaint of this crate's own.
const MORE: &str = "\n\nFor more information, try '--help'.\n";

/// What a command line says.
#[derive(Drop)]
pub enum Parsed {
    /// It asks for this text.
    Text(String),
    Call(ProgramCall),
}

/// `--NAME VALUE`.
fn option<'a>(alloc: Global, name: &'a str, value: &'a str, help: &'a str) -> Arg<'a>
    ensures rule { rule_of result ≡ Definitions.option name.entry.now }
    ensures local { result.global ≡ false }
{
    Arg::new(alloc, name)
        .long(name)
        .value_name(value)
        .help(help)
        .action(ArgAction::Set)
}

/// `--NAME`.
fn flag<'a>(alloc: Global, name: &'a str, help: &'a str) -> Arg<'a>
    ensures rule { rule_of result ≡ Definitions.flag name.entry.now }
    ensures local { result.global ≡ false }
{
    Arg::new(alloc, name)
        .long(name)
        .help(help)
        .action(ArgAction::SetTrue)
}

/// A word at its place.
fn word<'a>(alloc: Global, name: &'a str, place: usize, help: &'a str) -> Arg<'a>
    ensures rule { rule_of result ≡ Definitions.word name.entry.now place }
    ensures local { result.global ≡ false }
{
    Arg::new(alloc, name)
        .index(place)
        .value_name(name)
        .help(help)
        .required(true)
        .action(ArgAction::Set)
}

/// A word at its place, if one is said.
fn spare_word<'a>(alloc: Global, name: &'a str, place: usize, help: &'a str) -> Arg<'a>
    ensures rule { rule_of result ≡ Definitions.spare_word name.entry.now place }
    ensures local { result.global ≡ false }
{
    Arg::new(alloc, name)
        .index(place)
        .value_name(name)
        .help(help)
        .action(ArgAction::Set)
}

/// `--config FILE`.
fn config_argument<'a>(alloc: Global) -> Arg<'a>
    ensures rule { rule_of result ≡ Definitions.option (codes "config") }
    ensures local { result.global ≡ false }
{
    option(alloc, "config", "FILE", "The configuration file")
}

/// A command with one option more, if it was made. It stands apart, so that a command of many options has one way through it.
fn with_option<'a>(
    command: Result<Command<'a>, AllocError>,
    option: Arg<'a>,
) -> Result<Command<'a>, AllocError>
    ensures { (shape : Shape) (rule : Rule) → IfOk command.entry (IsCommand shape) → rule_of option.entry ≡ rule → option.entry.global ≡ false
        → IfOk result (IsCommand (more shape rule)) }
{
    match command {
        Ok(command) => command.arg(option),
        Err(e) => Err(e),
    }
}

fn check_command<'a>(alloc: Global) -> Result<Command<'a>, AllocError>
    ensures { IfOk result (IsCommand Definitions.check_command) }
{
    let show = "Print what was understood, or what is wrong and where";
    let against = "Tell what a change from this file or record would do";
    let expect = "Tell which lines of this file the policy isn't as";
    let check = Command::new(alloc, "check").about("Checks a configuration");
    let check = with_option(Ok(check), config_argument(alloc).required(true));
    let check = with_option(check, flag(alloc, "show", show));
    let check = with_option(check, option(alloc, "against", "OLD", against));
    with_option(check, option(alloc, "expect", "FILE", expect))
}

/// `--record PATH`, of a record that is there, or of a folder of them.
fn old_record_argument<'a>(alloc: Global) -> Arg<'a>
    ensures rule { rule_of result ≡ Definitions.option (codes "record") }
    ensures local { result.global ≡ false }
{
    let help = "Replay this record, or those of this folder, instead of standard input";
    option(alloc, "record", "PATH", help)
}

fn replay_command<'a>(alloc: Global) -> Result<Command<'a>, AllocError>
    ensures { IfOk result (IsCommand Definitions.replay_command) }
{
    Command::new(alloc, "replay")
        .about(
            "Replays a script from standard input, with the sample configuration or that of a file",
        )
        .arg(config_argument(alloc))?
        .arg(old_record_argument(alloc))
}

fn compact_command<'a>(alloc: Global) -> Result<Command<'a>, AllocError>
    ensures { IfOk result (IsCommand Definitions.compact_command) }
{
    let about = "Makes a shorter record that leads where another one does";
    let compact = Command::new(alloc, "compact").about(about);
    let compact = with_option(Ok(compact), config_argument(alloc).required(true));
    let compact = with_option(compact, word(alloc, "OLD", 1, "The record"));
    with_option(
        compact,
        word(alloc, "NEW", 2, "The file of the shorter one"),
    )
}

/// `--turns N`.
fn turns_argument<'a>(alloc: Global) -> Arg<'a>
    ensures rule { rule_of result ≡ Definitions.number_from 0 4294967295 (Definitions.option (codes "turns")) }
    ensures local { result.global ≡ false }
{
    let help = "How many turns to serve; until it is ended, if not given";
    option(alloc, "turns", "N", help).value_parser(value_parser!(u32))
}

/// `--record FILE`.
fn record_argument<'a>(alloc: Global) -> Arg<'a>
    ensures rule { rule_of result ≡ Definitions.option (codes "record") }
    ensures local { result.global ≡ false }
{
    let help = "Record what is heard in this new file";
    option(alloc, "record", "FILE", help)
}

/// `--records FOLDER`.
fn records_argument<'a>(alloc: Global) -> Arg<'a>
    ensures rule { rule_of result ≡ Definitions.option (codes "records") }
    ensures local { result.global ≡ false }
{
    let help = "Record it in a new file of this folder, and go on from the newest record there";
    option(alloc, "records", "FOLDER", help)
}

/// `--record-fault WORD`.
fn record_fault_argument<'a>(alloc: Global) -> Arg<'a>
    ensures rule { rule_of result ≡ Definitions.option (codes "record-fault") }
    ensures local { result.global ≡ false }
{
    let help = "What to do where it can't be written: go-on without it, or end";
    option(alloc, "record-fault", "WORD", help)
}

/// `--resume OLD`.
fn resume_argument<'a>(alloc: Global) -> Arg<'a>
    ensures rule { rule_of result ≡ Definitions.option (codes "resume") }
    ensures local { result.global ≡ false }
{
    let help = "Go on from where this record leads, with --record";
    option(alloc, "resume", "OLD", help)
}

/// `--keep DAYS`.
fn keep_argument<'a>(alloc: Global) -> Arg<'a>
    ensures rule { rule_of result ≡ Definitions.number_from 0 36500 (Definitions.option (codes "keep")) }
    ensures local { result.global ≡ false }
{
    let help = "Remove records of that folder that are older than so many days; 0 keeps all";
    option(alloc, "keep", "DAYS", help).value_parser(value_parser!(u32).range(0..=36_500))
}

/// `--sync WORD`.
fn sync_argument<'a>(alloc: Global) -> Arg<'a>
    ensures rule { rule_of result ≡ Definitions.option (codes "sync") }
    ensures local { result.global ≡ false }
{
    let help = "When it is put on the disk: with each event, each second, or never";
    option(alloc, "sync", "WORD", help)
}

/// `--per-source N`.
fn per_source_argument<'a>(alloc: Global) -> Arg<'a>
    ensures rule { rule_of result ≡ Definitions.number_from 1 1000000 (Definitions.option (codes "per-source")) }
    ensures local { result.global ≡ false }
{
    let help = "Hear at most so many datagrams a second from one address";
    option(alloc, "per-source", "N", help).value_parser(value_parser!(u32).range(1..=1_000_000))
}

/// `--status FILE`.
fn status_argument<'a>(alloc: Global) -> Arg<'a>
    ensures rule { rule_of result ≡ Definitions.option (codes "status") }
    ensures local { result.global ≡ false }
{
    let help = "Write how it is there every ten seconds, and say who gives wrong passwords alone";
    option(alloc, "status", "FILE", help)
}

fn serve_command<'a>(alloc: Global) -> Result<Command<'a>, AllocError>
    ensures { IfOk result (IsCommand Definitions.serve_command) }
{
    let reload = "Take the configuration anew when its file changes";
    let serve = Command::new(alloc, "serve").about("Serves at the address of a configuration");
    let serve = with_option(Ok(serve), config_argument(alloc).required(true));
    let serve = with_option(serve, turns_argument(alloc));
    let serve = with_option(serve, record_argument(alloc));
    let serve = with_option(serve, records_argument(alloc));
    let serve = with_option(serve, record_fault_argument(alloc));
    let serve = with_option(serve, resume_argument(alloc));
    let serve = with_option(serve, keep_argument(alloc));
    let serve = with_option(serve, sync_argument(alloc));
    let serve = with_option(serve, per_source_argument(alloc));
    let serve = with_option(serve, status_argument(alloc));
    with_option(serve, flag(alloc, "reload", reload))
}

/// `--minute M`.
fn minute_argument<'a>(alloc: Global) -> Arg<'a>
    ensures rule { rule_of result ≡ Definitions.number_from 0 1439 (Definitions.option (codes "minute")) }
    ensures local { result.global ≡ false }
{
    let help = "The minute of the office's day, 0 to 1439; now, if not given";
    option(alloc, "minute", "M", help).value_parser(value_parser!(u16).range(0..=1439))
}

fn decide_command<'a>(alloc: Global) -> Result<Command<'a>, AllocError>
    ensures { IfOk result (IsCommand Definitions.decide_command) }
{
    let user = "The proven user; nobody, if not given";
    let log = "Tell which requests of the log on standard input would be decided otherwise";
    let expect = "End with status 6 unless this is decided: allow, deny or challenge";
    let about = "Tells which rule would decide, and where a call would go";
    let decide = Command::new(alloc, "decide").about(about);
    let decide = with_option(Ok(decide), config_argument(alloc).required(true));
    let decide = with_option(decide, option(alloc, "user", "NAME", user));
    let decide = with_option(decide, minute_argument(alloc));
    let decide = with_option(decide, option(alloc, "expect", "WORD", expect));
    let decide = with_option(decide, flag(alloc, "log", log));
    let method = spare_word(alloc, "METHOD", 1, "A method, or register or list");
    let target = spare_word(alloc, "TARGET", 2, "USER@HOST or a SIP URI");
    let decide = with_option(decide, method);
    with_option(decide, target)
}

/// `--method M`.
fn method_argument<'a>(alloc: Global) -> Arg<'a>
    ensures rule { rule_of result ≡ Definitions.option (codes "method") }
    ensures local { result.global ≡ false }
{
    let help = "Of this method, or of register or list; of INVITE, if not given";
    option(alloc, "method", "M", help)
}

fn matrix_command<'a>(alloc: Global) -> Result<Command<'a>, AllocError>
    ensures { IfOk result (IsCommand Definitions.matrix_command) }
{
    let against = "Tell the cells alone that change from this file or record";
    let about = "Prints who may ask for whom, by which rule, as a table that is all of it";
    let matrix = Command::new(alloc, "matrix").about(about);
    let matrix = with_option(Ok(matrix), config_argument(alloc).required(true));
    let matrix = with_option(matrix, method_argument(alloc));
    let matrix = with_option(matrix, option(alloc, "against", "OLD", against));
    let matrix = with_option(matrix, flag(alloc, "csv", "Comma-separated values"));
    let html = flag(alloc, "html", "A page of HTML that needs no other file");
    with_option(matrix, html)
}

/// `--rule ID`.
fn rule_argument<'a>(alloc: Global) -> Arg<'a>
    ensures rule { rule_of result ≡ Definitions.number_from 0 4294967295 (Definitions.option (codes "rule")) }
    ensures local { result.global ≡ false }
{
    let help = "Lines that this rule decided";
    option(alloc, "rule", "ID", help).value_parser(value_parser!(u32))
}

/// `--outcome WORD`.
fn outcome_argument<'a>(alloc: Global) -> Arg<'a>
    ensures rule { rule_of result ≡ Definitions.option (codes "outcome") }
    ensures local { result.global ≡ false }
{
    let help = "Lines of this outcome: challenge (else left out), deny, sent or answer";
    option(alloc, "outcome", "WORD", help)
}

/// The options that say which lines of a log are shown.
fn sifting<'a>(alloc: Global, command: Command<'a>) -> Result<Command<'a>, AllocError>
    ensures { (shape : Shape) → IsCommand shape command.entry → IfOk result (IsCommand (Definitions.sifting shape)) }
{
    let since = option(alloc, "since", "TIME", "Lines from this time on");
    let until = option(alloc, "until", "TIME", "Lines before this time");
    let user = option(alloc, "user", "NAME", "Lines of this user");
    let target = option(alloc, "target", "WHOM", "Lines for this USER or USER@HOST");
    let denied = flag(alloc, "denied", "Denials alone");
    let command = with_option(Ok(command), since);
    let command = with_option(command, until);
    let command = with_option(command, user);
    let command = with_option(command, target);
    let command = with_option(command, rule_argument(alloc));
    let command = with_option(command, denied);
    with_option(command, outcome_argument(alloc))
}

fn report_command<'a>(alloc: Global) -> Result<Command<'a>, AllocError>
    ensures { IfOk result (IsCommand Definitions.report_command) }
{
    let set = "Records that say how the office's clock was set, in their order";
    let clocked = Command::new(alloc, "report")
        .about("Makes a table of audit lines from standard input")
        .arg(config_argument(alloc))?
        .arg(days_argument(alloc).help(set))?;
    let sifted = sifting(alloc, clocked)?;
    sifted.arg(flag(alloc, "csv", "Comma-separated values"))
}

/// `--realm R`.
fn realm_argument<'a>(alloc: Global) -> Arg<'a>
    ensures rule { rule_of result ≡ Definitions.option (codes "realm") }
    ensures local { result.global ≡ false }
{
    let help = "The realm of the configuration; needed without --config alone";
    option(alloc, "realm", "R", help)
}

/// `--sha256`.
fn sha256_argument<'a>(alloc: Global) -> Arg<'a>
    ensures rule { rule_of result ≡ Definitions.flag (codes "sha256") }
    ensures local { result.global ≡ false }
{
    let help = "The digest by SHA-256, too; with --config its users say whether";
    flag(alloc, "sha256", help)
}

fn user_command<'a>(alloc: Global) -> Result<Command<'a>, AllocError>
    ensures { IfOk result (IsCommand Definitions.user_command) }
{
    let about = "Makes a user's table, with the password from standard input";
    let user = Command::new(alloc, "user").about(about);
    let user = with_option(Ok(user), word(alloc, "NAME", 1, "The user"));
    let user = with_option(user, config_argument(alloc));
    let user = with_option(user, realm_argument(alloc));
    with_option(user, sha256_argument(alloc))
}

/// `--record FILE ..`, of records that are there, or of folders of them.
fn days_argument<'a>(alloc: Global) -> Arg<'a>
    ensures rule { rule_of result ≡ Definitions.several (Definitions.option (codes "record")) }
    ensures local { result.global ≡ false }
{
    let help = "The records, in their order, or folders of them";
    option(alloc, "record", "FILE", help)
        .num_args(1..)
        .action(ArgAction::Append)
}

/// `--config FILE`, of records that hold none.
fn old_config_argument<'a>(alloc: Global) -> Arg<'a>
    ensures rule { rule_of result ≡ Definitions.option (codes "config") }
    ensures local { result.global ≡ false }
{
    let help = "The configuration of an older record, which holds none";
    option(alloc, "config", "FILE", help)
}

/// `--challenged`.
fn challenged_argument<'a>(alloc: Global) -> Arg<'a>
    ensures rule { rule_of result ≡ Definitions.flag (codes "challenged") }
    ensures local { result.global ≡ false }
{
    let help = "Those that were asked for a credential, too";
    flag(alloc, "challenged", help)
}

/// The options that say which calls are shown.
fn choosing<'a>(alloc: Global, command: Command<'a>) -> Result<Command<'a>, AllocError>
    ensures { (shape : Shape) → IsCommand shape command.entry → IfOk result (IsCommand (Definitions.choosing shape)) }
{
    let since = option(alloc, "since", "TIME", "Calls from this time on");
    let until = option(alloc, "until", "TIME", "Calls before this time");
    let user = option(alloc, "user", "NAME", "Calls of this proven user");
    let target = option(alloc, "target", "WHOM", "Calls to this USER or USER@HOST");
    let from = option(alloc, "from", "ADDRESS", "Calls from this IP or IP:PORT");
    let command = with_option(Ok(command), since);
    let command = with_option(command, until);
    let command = with_option(command, user);
    let command = with_option(command, target);
    with_option(command, from)
}

/// The options that say for which programs something is written.
fn forms<'a>(alloc: Global, command: Command<'a>) -> Result<Command<'a>, AllocError>
    ensures { (shape : Shape) → IsCommand shape command.entry → IfOk result (IsCommand (Definitions.with_forms shape)) }
{
    command
        .arg(flag(alloc, "csv", "Comma-separated values"))?
        .arg(flag(alloc, "json", "An object of JSON a line"))
}

/// A command that tells the calls of recorded days, without the options that say which and how.
fn day_command<'a>(alloc: Global) -> Result<Command<'a>, AllocError>
    ensures { IfOk result (IsCommand Definitions.day_command) }
{
    Command::new(alloc, "calls")
        .about(
            "Tells the calls of recorded days: who called whom, what came of it, and for how long",
        )
        .arg(days_argument(alloc).required(true))?
        .arg(old_config_argument(alloc))
}

fn calls_command<'a>(alloc: Global) -> Result<Command<'a>, AllocError>
    ensures { IfOk result (IsCommand Definitions.calls_command) }
{
    let command = day_command(alloc)?;
    let chosen = choosing(alloc, command)?;
    let all_chosen = chosen.arg(challenged_argument(alloc))?;
    forms(alloc, all_chosen)
}

/// `--record FILE`, of one record that is there, or of its folder.
fn one_day_argument<'a>(alloc: Global) -> Arg<'a>
    ensures rule { rule_of result ≡ Definitions.option (codes "record") }
    ensures local { result.global ≡ false }
{
    option(alloc, "record", "FILE", "The record, or its folder")
}

/// `--at TIME`.
fn at_argument<'a>(alloc: Global) -> Arg<'a>
    ensures rule { rule_of result ≡ Definitions.option (codes "at") }
    ensures local { result.global ≡ false }
{
    let help = "At this time; at the record's end, if not given";
    option(alloc, "at", "TIME", help)
}

/// The options that say which day at which time.
fn at_a_time<'a>(alloc: Global, command: Command<'a>) -> Result<Command<'a>, AllocError>
    ensures { (shape : Shape) → IsCommand shape command.entry → IfOk result (IsCommand (Definitions.at_a_time shape)) }
{
    let command = with_option(Ok(command), one_day_argument(alloc).required(true));
    let command = with_option(command, old_config_argument(alloc));
    with_option(command, at_argument(alloc))
}

fn phones_command<'a>(alloc: Global) -> Result<Command<'a>, AllocError>
    ensures { IfOk result (IsCommand Definitions.phones_command) }
{
    let about =
        "Tells who was registered at a time of a recorded day: contact, time left, since when";
    let timed = at_a_time(alloc, Command::new(alloc, "phones").about(about))?;
    forms(alloc, timed)
}

fn now_command<'a>(alloc: Global) -> Result<Command<'a>, AllocError>
    ensures { IfOk result (IsCommand Definitions.now_command) }
{
    let about = "Tells the calls that rang or were talked at a time of a recorded day";
    let timed = at_a_time(alloc, Command::new(alloc, "now").about(about))?;
    forms(alloc, timed)
}

/// The options that name recorded days, with the configuration of those that hold none.
fn of_days<'a>(alloc: Global, command: Command<'a>) -> Result<Command<'a>, AllocError>
    ensures { (shape : Shape) → IsCommand shape command.entry → IfOk result (IsCommand (Definitions.of_days shape)) }
{
    command
        .arg(days_argument(alloc).required(true))?
        .arg(old_config_argument(alloc))
}

fn trace_command<'a>(alloc: Global) -> Result<Command<'a>, AllocError>
    ensures { IfOk result (IsCommand Definitions.trace_command) }
{
    let about = "Writes what came and went on recorded days as a capture";
    let call = "The datagram's number or the Call-ID of a call; all, if not given";
    let pcap = "The new file of the capture; - is standard output";
    let hide = "Write x in the place of credentials and bodies";
    let told = of_days(
        alloc,
        Command::new(alloc, "trace")
            .about(about)
            .override_usage(endings::TRACE_LINES),
    )?;
    told.arg(option(alloc, "pcap", "OUT", pcap).required(true))?
        .arg(flag(alloc, "hide", hide))?
        .arg(spare_word(alloc, "CALL", 1, call))
}

fn ladder_command<'a>(alloc: Global) -> Result<Command<'a>, AllocError>
    ensures { IfOk result (IsCommand Definitions.ladder_command) }
{
    let about = "Draws a call of recorded days: who sent what to whom, and what was decided";
    let svg = "Print a drawing of SVG in place of text";
    let call = "The datagram's number, or the Call-ID";
    let told = of_days(
        alloc,
        Command::new(alloc, "ladder")
            .about(about)
            .override_usage(endings::LADDER_LINES),
    )?;
    told.arg(flag(alloc, "svg", svg))?
        .arg(word(alloc, "CALL", 1, call))
}

/// The options that say which datagrams are counted.
fn counting<'a>(alloc: Global, command: Command<'a>) -> Result<Command<'a>, AllocError>
    ensures { (shape : Shape) → IsCommand shape command.entry → IfOk result (IsCommand (Definitions.counting shape)) }
{
    let since = option(alloc, "since", "TIME", "Datagrams from this time on");
    let until = option(alloc, "until", "TIME", "Datagrams before this time");
    let from = option(alloc, "from", "ADDRESS", "Datagrams from this IP");
    let command = with_option(Ok(command), since);
    let command = with_option(command, until);
    with_option(command, from)
}

fn sources_command<'a>(alloc: Global) -> Result<Command<'a>, AllocError>
    ensures { IfOk result (IsCommand Definitions.sources_command) }
{
    let about = "Tells what each address did on recorded days: asked, proven, wrong, names tried";
    let told = of_days(alloc, Command::new(alloc, "sources").about(about))?;
    let counted = counting(alloc, told)?;
    forms(alloc, counted)
}

fn page_command<'a>(alloc: Global) -> Result<Command<'a>, AllocError>
    ensures { IfOk result (IsCommand Definitions.page_command) }
{
    let about = "Prints recorded days as one page of HTML for whoever answers for the server";
    let log = "The log of these days, held against them line by line";
    let told = of_days(alloc, Command::new(alloc, "page").about(about))?;
    told.arg(option(alloc, "log", "FILE", log))
}

/// A command whose help ends with a text.
fn ended<'a>(command: Command<'a>, text: &'a str) -> Command<'a>
    ensures { (shape : Shape) → IsCommand shape command.entry → IsCommand shape result }
{
    command.after_help(text)
}

/// The program without its commands.
fn program<'a>(alloc: Global) -> Command<'a>
    ensures { app_of result ≡ no_commands }
{
    Command::new(alloc, "sipd")
        .version(VERSION)
        .about("A SIP registrar and proxy")
        .after_help(endings::PROGRAM)
        .subcommand_required(true)
}

/// A program with one command more, if that was made, whose help ends with a text. It stands apart, so that a program which isn't
/// finished is dropped here alone.
fn with_command<'a>(
    program: Command<'a>,
    command: Result<Command<'a>, AllocError>,
    text: &'a str,
) -> Result<Command<'a>, AllocError>
    ensures { (app : App) (shape : Shape) → app_of program.entry ≡ app → IfOk command.entry (IsCommand shape)
        → IfOk result (λ c. app_of c ≡ with_subcommand app shape) }
{
    match command {
        Ok(command) => program.subcommand(ended(command, text)),
        Err(e) => Err(e),
    }
}

/// The same of a program that may not have been made, so that a program of many commands has one way through it.
fn and_command<'a>(
    program: Result<Command<'a>, AllocError>,
    command: Result<Command<'a>, AllocError>,
    text: &'a str,
) -> Result<Command<'a>, AllocError>
    ensures { (app : App) (shape : Shape) → IfOk program.entry (λ p. app_of p ≡ app) → IfOk command.entry (IsCommand shape)
        → IfOk result (λ c. app_of c ≡ with_subcommand app shape) }
{
    match program {
        Ok(program) => with_command(program, command, text),
        Err(e) => Err(e),
    }
}

/// The commands that the program knows. None of their options is tied to another, and none has a list of words: of such commands alone the
/// parse says of each line whether it takes it. What doesn't stand together is looked at behind it (`Misuse`).
fn commands<'a>(alloc: Global) -> Result<Command<'a>, AllocError>
    ensures { IfOk result (λ c. app_of c ≡ Definitions.program) }
{
    let known = program(alloc);
    let known = and_command(Ok(known), check_command(alloc), endings::CHECK);
    let known = and_command(known, replay_command(alloc), endings::REPLAY);
    let known = and_command(known, compact_command(alloc), endings::COMPACT);
    let known = and_command(known, serve_command(alloc), endings::SERVE);
    let known = and_command(known, decide_command(alloc), endings::DECIDE);
    let known = and_command(known, matrix_command(alloc), endings::MATRIX);
    let known = and_command(known, report_command(alloc), endings::REPORT);
    let known = and_command(known, user_command(alloc), endings::USER);
    let known = and_command(known, calls_command(alloc), endings::CALLS);
    let known = and_command(known, phones_command(alloc), endings::PHONES);
    let known = and_command(known, now_command(alloc), endings::NOW);
    let known = and_command(known, trace_command(alloc), endings::TRACE);
    let known = and_command(known, ladder_command(alloc), endings::LADDER);
    let known = and_command(known, sources_command(alloc), endings::SOURCES);
    and_command(known, page_command(alloc), endings::PAGE)
}

/// Why a command line isn't taken, or the text that it asks for.
fn answer_to(alloc: Global, e: &clap::Error) -> Result<Parsed, Exit>
    ensures { Answers (kind_of e.now) result }
{
    let text = e.to_string(alloc)?;
    match e.kind() {
        ErrorKind::OutOfMemory => Err(Exit::Memory),
        ErrorKind::DisplayHelp | ErrorKind::DisplayVersion => Ok(Parsed::Text(text)),
        _ => Err(Exit::Usage(text)),
    }
}

/// What is complained about where a line is no call.
fn complaint_of(alloc: Global, why: Misuse) -> Result<String, AllocError>
    ensures { IfOk result (λ text. string_bytes text ≡ Definitions.complaint_of why) }
{
    let mut text = String::from_str(alloc, why.line())?;
    text.push_str(MORE)?;
    Ok(text)
}

/// What the words say, the program's own name first, by the commands and options that the program has (`specs/CommandLine`): a call, or
/// the text of help or of the version. Refusals: `Usage`, with a complaint; `Memory`. Of each line it is said exactly which of these it is.
pub fn parse(alloc: Global, words: &[String]) -> Result<Parsed, Exit>
    ensures { EndsExactly (map string_bytes words.now) result }
{
    let matches = match commands(alloc)?.try_get_matches_from(words) {
        Ok(matches) => matches,
        Err(e) => return answer_to(alloc, &e),
    };
    match call_of(alloc, &matches) {
        Ok(call) => Ok(Parsed::Call(call)),
        Err(Uncalled::NoMemory) => Err(Exit::Memory),
        Err(Uncalled::Misused(why)) => Err(Exit::Usage(complaint_of(alloc, why)?)),
    }
}
