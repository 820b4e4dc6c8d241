//! The names of a new record and of the copy of its configuration in a folder of records, and the newest record that stands there; and which of them
//! are too old to stay.
ghost use Rattle.std.specs.Prelude.{◌≡◌, ◌<◌, ◌-◌, ◌*◌, ◌^◌, IfOk, IfSome, string_bytes};
ghost use Rattle.std.specs.List.{list_any};
ghost use Rattle.sipd_record_files.specs.Places.{AreFolderFiles};
ghost use Rattle.sipd_record_files.specs.RecordNames;

use sip_text::{plain_decimal, same_bytes, split_once};
use std::alloc::AllocError;
use std::io::{ErrorKind, Write};
use std::rt::{Clock, Files};
use std::time::{SystemTime, UNIX_EPOCH};
use std::{fs, io};

/// The milliseconds of a day.
const DAY: u64 = 86_400_000;

/// The files of a start that records in a folder: those of the new record and of its configuration, and the newest record that is
/// there, if there is any.
#[derive(Drop)]
pub struct FolderFiles {
    pub path: String,
    pub copy: String,
    pub newest: Option<String>,
}

/// The number of a file of this kind.
fn file_number(name: &[u8], kind: &[u8]) -> Option<u64>
    ensures { result ≡ RecordNames.file_number kind.now name.now }
{
    let (number, ending) = split_once(name, b'.')?;
    if same_bytes(ending, kind) {
        plain_decimal(number)
    } else {
        None
    }
}

/// The newer one of two files, by their numbers.
fn newer(one: Option<u64>, other: Option<u64>) -> Option<u64>
    ensures { result ≡ RecordNames.newer one other }
{
    match (one, other) {
        (Some(n), Some(m)) => Some(n.max(m)),
        (Some(n), None) => Some(n),
        (None, other) => other,
    }
}

/// The number of a new record beside files of which this is the newest: greater than each, whatever the clock says.
fn next_number(newest: Option<u64>, now: u64) -> u64
    ensures number { result ≡ RecordNames.next_number newest now }
    ensures newer { IfSome newest (λ n. n < 2 ^ 64 - 1 → n < result) }
{
    match newest {
        Some(newest) => now.max(newest.saturating_add(1)),
        None => now,
    }
}

/// The newest number so far, and that of one more name, if it is one of a file of this kind.
fn with_name(newest: Option<u64>, name: &[u8], kind: &[u8]) -> Option<u64>
    ensures { result ≡ RecordNames.newer newest (RecordNames.file_number kind.now name.now) }
{
    newer(newest, file_number(name, kind))
}

/// The number of the newest file of this kind in a folder. Which names stand there no clause can say.
fn newest_in<R: Files + AllocGlobal>(rt: &R, folder: &str, kind: &[u8]) -> io::Result<Option<u64>> {
    let mut newest = None;
    for entry in fs::read_dir(&rt, folder)? {
        match entry {
            Ok(entry) => newest = with_name(newest, entry.file_name().as_bytes(), kind),
            // A name that is no text is none of a record.
            Err(e) if e.kind() == ErrorKind::InvalidFilename => {}
            Err(e) => return Err(e),
        }
    }
    Ok(newest)
}

/// The numbers of the files of this kind in a folder, the oldest first. Which names stand there no clause can say.
pub fn numbers_in<R: Files + AllocGlobal>(
    rt: &R,
    folder: &str,
    kind: &[u8],
) -> io::Result<Vec<u64>> {
    let mut numbers = Vec::new(rt.alloc());
    for entry in fs::read_dir(&rt, folder)? {
        match entry {
            Ok(entry) => push_number(&mut numbers, entry.file_name().as_bytes(), kind)?,
            Err(e) if e.kind() == ErrorKind::InvalidFilename => {}
            Err(e) => return Err(e),
        }
    }
    numbers.sort()?;
    Ok(numbers)
}

/// Adds the number of a file of this kind.
fn push_number(numbers: &mut Vec<u64>, name: &[u8], kind: &[u8]) -> Result<(), AllocError> {
    if let Some(number) = file_number(name, kind) {
        numbers.push(number)?;
    }
    Ok(())
}

/// Whether another record is newer than a file of this number, and began at a moment or before it.
fn has_begun(number: u64, moment: u64, other: u64) -> bool
    ensures { result ≡ RecordNames.has_begun number moment other }
{
    number < other && other <= moment
}

/// Whether of records of these numbers one is newer than a file of this number, and began at a moment or before it.
fn one_has_begun(numbers: &[u64], number: u64, moment: u64) -> bool
    ensures { result ≡ list_any (RecordNames.has_begun number moment) numbers.now }
{
    numbers
        .iter()
        .any(|other| has_begun(number, moment, *other))
}

/// The moment so many days before another one, or the first of all.
fn days_before(now: u64, days: u32) -> u64
    ensures { result ≡ now - days * 86400000 }
{
    now.saturating_sub(u64::from(days) * DAY)
}

/// Whether a file of this number goes, where records of these numbers are kept for so many days: a newer one began before these.
fn goes(days: u32, now: u64, numbers: &[u64], number: u64) -> bool
    ensures { result ≡ RecordNames.goes days now numbers.now number }
{
    if days == 0 {
        return false;
    }
    one_has_begun(numbers, number, days_before(now, days))
}

/// The milliseconds of UTC since 1970; 0 where they can't be had.
fn wall_clock<R: Clock>(rt: &R) -> u64 {
    let Ok(now) = SystemTime::now(rt) else {
        return 0;
    };
    match now.duration_since(UNIX_EPOCH) {
        Ok(since) => u64::try_from(since.as_millis()).unwrap_or(0),
        Err(_) => 0,
    }
}

/// The name of a file of a record.
pub fn name_of<R: AllocGlobal>(
    rt: &R,
    folder: &str,
    number: u64,
    kind: &str,
) -> Result<String, AllocError>
    ensures { IfOk result (λ name. string_bytes name ≡ RecordNames.name_of folder.now number kind.now) }
{
    format!(in rt.alloc(); "{folder}/{number}.{kind}")
}

/// The files of a new start that records in a folder.
pub fn files_in<R: Files + Clock + AllocGlobal>(rt: &R, folder: &str) -> io::Result<FolderFiles>
    ensures { IfOk result (AreFolderFiles folder.now) }
{
    let newest = newest_in(rt, folder, b"record")?;
    // A configuration may stand there whose record was taken away.
    let copies = newest_in(rt, folder, b"toml")?;
    let number = next_number(newer(newest, copies), wall_clock(rt));
    Ok(FolderFiles {
        path: name_of(rt, folder, number, "record")?,
        copy: name_of(rt, folder, number, "toml")?,
        newest: match newest {
            Some(newest) => Some(name_of(rt, folder, newest, "record")?),
            None => None,
        },
    })
}

/// Takes away a file of a record.
fn remove_named<R: Files + AllocGlobal>(
    rt: &R,
    folder: &str,
    number: u64,
    kind: &str,
) -> io::Result<()> {
    let name = name_of(rt, folder, number, kind)?;
    fs::remove_file(rt, name.as_str())
}

/// Takes away the files of a kind in a folder that are older than so many days at a moment, where records of these numbers stand there. Where one can't
/// be, the others are.
fn remove_kind<R: Files + AllocGlobal>(
    rt: &R,
    folder: &str,
    kind: &str,
    records: &[u64],
    days: u32,
    now: u64,
) -> io::Result<()> {
    let numbers = numbers_in(rt, folder, kind.as_bytes())?;
    let mut outcome: io::Result<()> = Ok(());
    for number in numbers.iter() {
        if goes(days, now, records, *number) {
            let removed = remove_named(rt, folder, *number, kind);
            if removed.is_err() {
                outcome = removed;
            }
        }
    }
    outcome
}

/// Takes away the records of a folder all of whose events came more than so many days before a moment, in milliseconds of UTC since 1970, with the
/// copies of their configurations, and such copies that have no record. A record's events end where the next newer one begins, so the newest stays;
/// 0 days keep all. What can't be taken away is told, and changes nothing else.
pub fn remove_older<R: Files + AllocGlobal, C: Write>(
    rt: &R,
    folder: &str,
    days: u32,
    now: u64,
    complaints: &mut C,
) {
    if days == 0 {
        return;
    }
    if remove_both(rt, folder, days, now).is_err() {
        let _ = writeln!(
            complaints,
            "sipd: records of {folder} that are older than {days} days can't be removed"
        );
    }
}

/// The same of records, and of the copies of their configurations.
fn remove_both<R: Files + AllocGlobal>(
    rt: &R,
    folder: &str,
    days: u32,
    now: u64,
) -> io::Result<()> {
    let records = numbers_in(rt, folder, b"record")?;
    let copies = remove_kind(rt, folder, "toml", records.as_slice(), days, now);
    remove_kind(rt, folder, "record", records.as_slice(), days, now)?;
    copies
}

/// The same at this moment.
pub fn remove_old<R: Files + Clock + AllocGlobal, C: Write>(
    rt: &R,
    folder: &str,
    days: u32,
    complaints: &mut C,
) {
    remove_older(rt, folder, days, wall_clock(rt), complaints);
}
