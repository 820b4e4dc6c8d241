//! The command `page`.
ghost use Rattle.std.specs.Prelude.{◌≡◌, ◌++◌, [], is_some, length, map, string_bytes, IfOk, OnOk};
ghost use Rattle.sipd_page.specs.Page as Definitions;
ghost use Rattle.sipd_page.specs.Page.{AddsSection, AddsSections, AddsTold, PrintsPage};
ghost use Rattle.sipd_page.specs.History.{AreOfHistory};

use crate::history::{History, rows_of};
use crate::log::log_lines;
use crate::opening::tell_file;
use sip_days::laws::calls_grow_by_a_step;
use sip_policy::Rules;
use sip_text::{Bytes, Items};
use sip_timers::Timers;
use sipd_arguments::PageCall;
use sipd_calls::Notation;
use sipd_days::sources_in_file;
use sipd_exit::{Exit, print};
use sipd_page_sections::{Notes, put_calls, put_section, put_verdict};
use sipd_record_files::record_files;
use sipd_telling::{DayReading, Onward, reading_of, tell_files};
use std::alloc::{AllocError, Global};
use std::fs;
use std::io::Write;
use std::rt::{Clock, Files};

/// Before all texts: nothing may be loaded or run, and how it looks.
const PAGE_BEGIN: &[u8] = b"\
    <!DOCTYPE html>\n<html lang=\"en\">\n<head>\n<meta charset=\"utf-8\">\n\
    <meta http-equiv=\"Content-Security-Policy\" content=\"default-src 'none'; style-src 'unsafe-inline'\">\n\
    <title>Recorded days</title>\n<style>\n\
    body { font: 14px/1.45 sans-serif; margin: 2em auto; max-width: 82em; padding: 0 1em; color: #1f2328; }\n\
    h2 { border-bottom: 1px solid #888; margin-top: 2em; word-break: break-all; }\n\
    table { border-collapse: collapse; font-size: 13px; }\n\
    th, td { border: 1px solid #d0d7de; padding: 0.2em 0.6em; text-align: left; }\n\
    td.n { text-align: right; }\npre, code { font-size: 12px; }\npre { white-space: pre-wrap; word-break: break-all; }\n\
    .allow, .via { background: #d8f0d8; }\n.deny { background: #f4d0d0; }\n\
    .challenge { background: #f8f0c8; }\n.nobody { background: #e0e0e0; }\np.allow, p.deny { padding: 0.6em 1em; font-weight: bold; }\n\
    svg { max-width: 100%; height: auto; }\nsvg text { font-size: 11px; fill: #57606a; }\nsvg text.end { text-anchor: end; }\n\
    svg path { fill: none; stroke: #d0d7de; }\nsvg path.live { stroke: #0969da; stroke-width: 1.5; }\n\
    </style>\n</head>\n<body>\n<h1>Recorded days</h1>\n";

/// Adds what the page says of the record in a file, beside the rows of its addresses.
fn put_told<T: Timers, P: Rules, R: Files + Clock + Eprint + AllocGlobal, C: Write>(
    rt: &R,
    path: &str,
    reading: &DayReading,
    sources: &[u8],
    body: &mut Bytes,
    complaints: &mut C,
) -> Result<(), Exit>
    ensures { OnOk result (AddsTold path.now sources.now body.old body.new) }
{
    let mut notes = Notes::new(rt.alloc());
    let told = tell_file::<T, P, R, C>(rt, path, reading, &mut notes, complaints)?;
    put_section(body, path.as_bytes(), &told, sources, &notes)?;
    Ok(())
}

/// Adds all that the page says of it.
fn put_record<T: Timers, P: Rules, R: Files + Clock + Eprint + AllocGlobal, C: Write>(
    rt: &R,
    path: &str,
    config: Option<&str>,
    reading: &DayReading,
    body: &mut Bytes,
    complaints: &mut C,
) -> Result<(), Exit>
    ensures { OnOk result (AddsSection path.now body.old body.new) }
{
    let html = Some(Notation::Html);
    let sources = sources_in_file::<T, P, R, C>(rt, path, config, html, reading.seen, complaints)?;
    put_told::<T, P, R, C>(rt, path, reading, sources.as_slice(), body, complaints)
}

/// The same of records, one after the other.
fn put_records<T: Timers, P: Rules, R: Files + Clock + Eprint + AllocGlobal, C: Write>(
    rt: &R,
    paths: &[String],
    config: Option<&str>,
    reading: &DayReading,
    body: &mut Bytes,
    complaints: &mut C,
) -> Result<(), Exit>
    ensures { OnOk result (AddsSections (map string_bytes paths.now) body.old body.new) }
{
    for path in paths {
        put_record::<T, P, R, C>(rt, path.as_str(), config, reading, body, complaints)?;
    }
    Ok(())
}

/// What the page says of records, one after the other.
fn sections_of<T: Timers, P: Rules, R: Files + Clock + Eprint + AllocGlobal, C: Write>(
    rt: &R,
    paths: &[String],
    config: &Option<String>,
    reading: &DayReading,
    complaints: &mut C,
) -> Result<Bytes, Exit>
    ensures { IfOk result (λ body. AddsSections (map string_bytes paths.now) [] body) }
{
    let mut body = Bytes::new(rt.alloc());
    let config = config.as_ref().map(String::as_str);
    put_records::<T, P, R, C>(rt, paths, config, reading, &mut body, complaints)?;
    Ok(body)
}

/// What is kept of records as one history.
fn history_of<T: Timers, P: Rules, R: Files + Clock + Eprint + AllocGlobal, C: Write>(
    rt: &R,
    paths: &[String],
    reading: &DayReading,
    complaints: &mut C,
) -> Result<Onward<History>, Exit>
    ensures { IfOk result (λ onward. AreOfHistory (length paths.now) onward.listener.lines onward.listener.calls) }
{
    calls_grow_by_a_step();
    let mut onward = Onward::new(History::new(rt.alloc()));
    tell_files::<T, P, R, History, C>(rt, paths, reading, &mut onward, complaints)?;
    Ok(onward)
}

/// The lines of the log in a file.
fn lines_of_file<R: Files + AllocGlobal>(rt: &R, path: &str) -> Result<Items<Bytes>, Exit>
    ensures { IfOk result (λ lines. Definitions.AreLines lines) }
{
    let text = fs::read(rt, path)?;
    Ok(log_lines(rt.alloc(), text.as_slice())?)
}

/// The lines of the log that is named, if one is.
fn log_of<R: Files + AllocGlobal>(
    rt: &R,
    path: &Option<String>,
) -> Result<Option<Items<Bytes>>, Exit>
    ensures { IfOk result (Definitions.IsLog (is_some path.now)) }
{
    match path {
        Some(path) => Ok(Some(lines_of_file(rt, path.as_str())?)),
        None => Ok(None),
    }
}

/// Adds whether a log comes out of the records again, if one is held against them.
fn put_log(out: &mut Bytes, log: &Option<Items<Bytes>>, lines: &[Bytes]) -> Result<(), AllocError>
    ensures { OnOk result (out.new ≡ out.old ++ Definitions.log_text log.now lines.now) }
{
    match log {
        Some(log) => put_verdict(out, log.as_slice(), lines),
        None => out.extend(b"<p>No log was held against the records.</p>\n"),
    }
}

/// Adds what stands before all texts.
fn put_begin(out: &mut Bytes) -> Result<(), AllocError>
    ensures { OnOk result (out.new ≡ out.old ++ Definitions.page_begin) }
{
    out.extend(PAGE_BEGIN)
}

/// The page.
fn page_of(
    alloc: Global,
    log: &Option<Items<Bytes>>,
    lines: &[Bytes],
    calls: &[u8],
    body: &[u8],
) -> Result<Bytes, AllocError>
    ensures { IfOk result (λ text. text ≡ Definitions.page_text log.now lines.now calls.now body.now) }
{
    let mut out = Bytes::new(alloc);
    put_begin(&mut out)?;
    put_log(&mut out, log, lines)?;
    put_calls(&mut out, calls)?;
    out.extend(body)?;
    out.extend(b"</body>\n</html>\n")?;
    Ok(out)
}

/// The page of what is kept.
fn page_by(
    alloc: Global,
    log: &Option<Items<Bytes>>,
    history: &History,
    body: &Bytes,
) -> Result<Bytes, AllocError>
    ensures { IfOk result (λ text. text ≡ Definitions.page_by log.now history.now.lines history.now.calls body.now) }
{
    let rows = rows_of(alloc, history.calls.as_slice())?;
    page_of(
        alloc,
        log,
        history.lines.as_slice(),
        rows.as_slice(),
        body.as_slice(),
    )
}

/// The page of records that are read so, against which a log is held, if there is one.
fn page_told<T: Timers, P: Rules, R: Files + Clock + Eprint + AllocGlobal, C: Write>(
    rt: &R,
    paths: &[String],
    config: &Option<String>,
    reading: &DayReading,
    log: &Option<Items<Bytes>>,
    complaints: &mut C,
) -> Result<Bytes, Exit>
    ensures { IfOk result (Definitions.IsPageOver log.now (map string_bytes paths.now)) }
{
    let history = history_of::<T, P, R, C>(rt, paths, reading, complaints)?;
    let body = sections_of::<T, P, R, C>(rt, paths, config, reading, complaints)?;
    let page = page_by(rt.alloc(), log, &history.listener, &body)?;
    Ok(page)
}

/// The same of records of which those that hold no configuration have that of a file.
fn page_over<T: Timers, P: Rules, R: Files + Clock + Eprint + AllocGlobal, C: Write>(
    rt: &R,
    paths: &[String],
    config: &Option<String>,
    log: &Option<Items<Bytes>>,
    seen: bool,
    complaints: &mut C,
) -> Result<Bytes, Exit>
    ensures { IfOk result (Definitions.IsPageOver log.now (map string_bytes paths.now)) }
{
    let reading = reading_of(rt, config, seen)?;
    page_told::<T, P, R, C>(rt, paths, config, &reading, log, complaints)
}

/// The page that is asked for.
fn page_for<T: Timers, P: Rules, R: Files + Clock + Eprint + AllocGlobal, C: Write>(
    rt: &R,
    call: &PageCall,
    seen: bool,
    complaints: &mut C,
) -> Result<Bytes, Exit>
    ensures { IfOk result (Definitions.IsPageOf call.now) }
{
    let log = log_of(rt, &call.log)?;
    let files = record_files(rt, call.records.as_slice())?;
    page_over::<T, P, R, C>(rt, files.as_slice(), &call.config, &log, seen, complaints)
}

/// Prints recorded days as one page of HTML, without a script and without anything of the net; and whether a log comes out of them again, byte for
/// byte, if one is named. Records that go on from one another, in the order in which they are named or have their numbers in a folder, are one
/// history, in which a call has one row, and a line of the log is one. A record that is being written may be among them.
///
/// Where one is damaged, or memory runs out while they are told, nothing is printed, and the program ends as that says. Refused as
/// `sipd_telling::tell_files` is; with `Device`, where the log, a folder or the file of a configuration can't be read, with `LongConfiguration`,
/// where that is too long, and with `Memory`; and as `print` is, where a front of the page may be printed.
///
/// `seen`: whether somebody looks at standard error, where it is said then how far it is.
pub fn print_page<T: Timers, P: Rules, R: Files + Clock + Eprint + AllocGlobal, W: Write, C: Write>(
    rt: &R,
    call: &PageCall,
    seen: bool,
    output: &mut W,
    complaints: &mut C,
) -> Result<(), Exit>
    ensures { OnOk result (PrintsPage call.now (W.contents output.old) (W.contents output.new)) }
{
    let page = page_for::<T, P, R, C>(rt, call, seen, complaints)?;
    print(page.as_slice(), output)
}
