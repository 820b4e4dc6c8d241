//! The command `replay --record` of a folder: its records one behind the other, and whether each is there, as it was when the next one was begun.
use crate::replayed_record::{replay_file, replay_record};
use sip_policy::Rules;
use sip_record_sealed::Follows;
use sip_text::same_bytes;
use sip_timers::Timers;
use sipd_exit::Exit;
use sipd_record_files::{follows_in, is_folder, name_of, numbers_in};
use std::io::Write;
use std::rt::{Clock, Files};

/// The record that was replayed last.
#[derive(Clone, Copy)]
struct Last {
    number: u64,
    /// The digest in its last line; none, where that holds none, or wasn't read.
    digest: Option<[u8; 32]>,
}

/// A folder whose records are replayed.
#[derive(Drop)]
struct ReplayedFolder<'a, R> {
    rt: &'a R,
    path: &'a str,
    /// The numbers of its records, the oldest first.
    numbers: &'a [u64],
    last: Option<Last>,
    /// Whether one isn't there, or isn't as it was.
    is_incomplete: bool,
}

/// What is wrong of the record that another one follows, beside the last one; nothing, where that is it, as it was then.
fn fault_of(follows: &Follows, before: &[u8], last: &Last, is_there: bool) -> &'static str {
    if same_bytes(follows.name.as_slice(), before) {
        return match last.digest {
            Some(digest) if digest == follows.digest => "",
            _ => "which was changed",
        };
    }
    if is_there {
        "which doesn't stand next to it"
    } else {
        "which isn't there"
    }
}

/// A file's name as it is printed.
fn shown(name: &[u8]) -> &str {
    if name.iter().any(|byte| *byte < 32 || *byte == 127) {
        return "another file";
    }
    match str::from_utf8(name) {
        Ok(text) => text,
        Err(_) => "another file",
    }
}

impl<'a, R: Files + Clock + Eprint + AllocGlobal> ReplayedFolder<'a, R> {
    /// Whether a record of this name is one of them.
    fn has(&self, name: &[u8]) -> Result<bool, Exit> {
        for number in self.numbers.iter() {
            let number = *number;
            let other = format!(in self.rt.alloc(); "{number}.record")?;
            if same_bytes(other.as_bytes(), name) {
                return Ok(true);
            }
        }
        Ok(false)
    }

    /// Says what is wrong of the record that this one follows, if anything is. Of the first one it isn't asked.
    fn check<C: Write>(&mut self, number: u64, path: &str, complaints: &mut C) -> Result<(), Exit> {
        let Some(last) = self.last else {
            return Ok(());
        };
        let Some(follows) = follows_in(self.rt, path) else {
            return Ok(());
        };
        let Last {
            number: before,
            digest: _,
        } = last;
        let before = format!(in self.rt.alloc(); "{before}.record")?;
        let is_there = self.has(follows.name.as_slice())?;
        let fault = fault_of(&follows, before.as_bytes(), &last, is_there);
        if !fault.is_empty() {
            self.is_incomplete = true;
            let folder = self.path;
            let name = shown(follows.name.as_slice());
            let _ = writeln!(
                complaints,
                "sipd: {folder}: {number}.record follows {name}, {fault}"
            );
        }
        Ok(())
    }

    /// What becomes of the others where one isn't replayed to its end: where that was changed, or is damaged, it is told, and they are replayed.
    fn settle<C: Write>(
        &mut self,
        number: u64,
        exit: Exit,
        complaints: &mut C,
    ) -> Result<(), Exit> {
        let path = self.path;
        match exit {
            Exit::Changed(line, ..) => {
                let _ = writeln!(
                    complaints,
                    "sipd: {path}: {number}.record was changed: its line {line} has the digest of other bytes"
                );
            }
            Exit::Script(line, ..) => {
                let _ = writeln!(
                    complaints,
                    "sipd: {path}: {number}.record is damaged from its line {line} on"
                );
            }
            exit => return Err(exit),
        }
        self.is_incomplete = true;
        Ok(())
    }

    /// Replays one of them.
    fn replay_one<T: Timers, P: Rules, W: Write, C: Write>(
        &mut self,
        config: Option<&str>,
        number: u64,
        seen: bool,
        output: &mut W,
        complaints: &mut C,
    ) -> Result<(), Exit> {
        let path = name_of(self.rt, self.path, number, "record")?;
        self.check(number, path.as_str(), complaints)?;
        let replayed = replay_file::<T, P, R, W, C>(
            self.rt,
            config,
            path.as_str(),
            seen,
            output,
            complaints,
        );
        let digest = match replayed {
            Ok(digest) => digest,
            Err(exit) => {
                self.settle(number, exit, complaints)?;
                None
            }
        };
        self.last = Some(Last { number, digest });
        Ok(())
    }
}

/// Replays the records of a folder in the order of their numbers, each as one record is. Says of each that follows another one where that isn't the
/// one before it, as it was then: `Missing` at the end, where that was said.
fn replay_folder<T: Timers, P: Rules, R: Files + Clock + Eprint + AllocGlobal, W: Write, C: Write>(
    rt: &R,
    config: Option<&str>,
    path: &str,
    seen: bool,
    output: &mut W,
    complaints: &mut C,
) -> Result<(), Exit> {
    let numbers = numbers_in(rt, path, b"record")?;
    let mut folder = ReplayedFolder {
        rt,
        path,
        numbers: numbers.as_slice(),
        last: None,
        is_incomplete: false,
    };
    for number in numbers.iter() {
        folder.replay_one::<T, P, W, C>(config, *number, seen, output, complaints)?;
    }
    if folder.is_incomplete {
        return Err(Exit::Missing);
    }
    Ok(())
}

/// Replays a record, or those of a folder.
pub fn replay_records<
    T: Timers,
    P: Rules,
    R: Files + Clock + Eprint + AllocGlobal,
    W: Write,
    C: Write,
>(
    rt: &R,
    config: Option<&str>,
    path: &str,
    seen: bool,
    output: &mut W,
    complaints: &mut C,
) -> Result<(), Exit> {
    if is_folder(rt, path) {
        return replay_folder::<T, P, R, W, C>(rt, config, path, seen, output, complaints);
    }
    replay_record::<T, P, R, W, C>(rt, config, path, seen, output, complaints)
}
