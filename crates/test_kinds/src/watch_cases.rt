//! Cases of a watch of a configuration's file, over memory and over a path of the system.
use crate::case::{Case, Trial};
use sip_text::Bytes;
use sipd_reload::{
    FileAnswer, FileFault, FileState, Look, MemoryFile, PathFile, Stamp, Watch, WatchedFile,
};
use std::alloc::{AllocError, Global};
use std::fs;
use std::rt::Files;

/// What is in force at first.
const OLD: &str = "the configuration in force";

/// What is refused.
const BAD: &str = "what is no configuration";

/// What a file holds.
#[derive(Clone, Copy)]
pub(crate) enum FileHeld {
    Text(&'static str),
    /// It is there, and can't be read.
    Unreadable(FileFault),
    /// It can't be looked at.
    Fault(FileFault),
}

/// What a look comes to.
#[derive(Clone, Copy)]
pub(crate) enum Wanted {
    Nothing,
    Unsettled,
    /// These bytes are offered, and taken.
    Taken(&'static str),
    /// These bytes are offered, and refused.
    Refused(&'static str),
    Unread(FileFault),
}

/// A look: its moment, the second at which the file was changed, what it holds, and what that comes to.
pub(crate) type Row = (u64, u64, FileHeld, Wanted);

/// How a watch of a case is asked.
#[derive(Clone, Copy)]
pub(crate) enum Asked {
    /// At the moment of each row, and a millisecond before.
    AtRows,
    /// Each millisecond for ten seconds.
    Always,
}

/// What is tried over memory.
pub(crate) const CASES: &[Case] = &[
    // A file that is written in pieces isn't offered while it changes each second, and is once it stays; one that changes endlessly never is.
    Case {
        name: "written_in_pieces",
        trial: Trial::Watch(
            Asked::AtRows,
            &[
                (1000, 1, FileHeld::Text("the conf"), Wanted::Unsettled),
                (
                    2000,
                    2,
                    FileHeld::Text("the configuration th"),
                    Wanted::Unsettled,
                ),
                (
                    3000,
                    3,
                    FileHeld::Text("the configuration that is new"),
                    Wanted::Unsettled,
                ),
                (
                    4000,
                    3,
                    FileHeld::Text("the configuration that is new"),
                    Wanted::Taken("the configuration that is new"),
                ),
                (
                    5000,
                    3,
                    FileHeld::Text("the configuration that is new"),
                    Wanted::Nothing,
                ),
                (6000, 6, FileHeld::Text("one"), Wanted::Unsettled),
                (7000, 7, FileHeld::Text("another"), Wanted::Unsettled),
                (8000, 8, FileHeld::Text("one"), Wanted::Unsettled),
                (9000, 9, FileHeld::Text("another"), Wanted::Unsettled),
            ],
        ),
    },
    // A file that is gone is told once; back with the same bytes it is nothing, with others they are offered, though it was changed at the same
    // second, and the same bytes at another second are nothing.
    Case {
        name: "gone_and_back",
        trial: Trial::Watch(
            Asked::AtRows,
            &[
                (1000, 1, FileHeld::Text(OLD), Wanted::Nothing),
                (
                    2000,
                    1,
                    FileHeld::Fault(FileFault::Gone),
                    Wanted::Unread(FileFault::Gone),
                ),
                (3000, 1, FileHeld::Fault(FileFault::Gone), Wanted::Nothing),
                (4000, 1, FileHeld::Text(OLD), Wanted::Nothing),
                (5000, 5, FileHeld::Text(OLD), Wanted::Nothing),
                (
                    6000,
                    5,
                    FileHeld::Fault(FileFault::Gone),
                    Wanted::Unread(FileFault::Gone),
                ),
                (
                    7000,
                    5,
                    FileHeld::Text("what came in its place"),
                    Wanted::Unsettled,
                ),
                (
                    8000,
                    5,
                    FileHeld::Text("what came in its place"),
                    Wanted::Taken("what came in its place"),
                ),
            ],
        ),
    },
    // What is refused isn't offered again until the file held other bytes.
    Case {
        name: "refused_once",
        trial: Trial::Watch(
            Asked::AtRows,
            &[
                (1000, 1, FileHeld::Text(BAD), Wanted::Unsettled),
                (2000, 1, FileHeld::Text(BAD), Wanted::Refused(BAD)),
                (3000, 3, FileHeld::Text(BAD), Wanted::Nothing),
                (
                    4000,
                    3,
                    FileHeld::Fault(FileFault::Device),
                    Wanted::Unread(FileFault::Device),
                ),
                (5000, 3, FileHeld::Text(BAD), Wanted::Nothing),
                (6000, 6, FileHeld::Text(OLD), Wanted::Nothing),
                (7000, 7, FileHeld::Text(BAD), Wanted::Unsettled),
                (8000, 7, FileHeld::Text(BAD), Wanted::Refused(BAD)),
            ],
        ),
    },
    // Want of memory is told once, and what was seen before counts still; a file that is too long is told once, and isn't read.
    Case {
        name: "without_memory",
        trial: Trial::Watch(
            Asked::AtRows,
            &[
                (1000, 1, FileHeld::Text("what is new"), Wanted::Unsettled),
                (
                    2000,
                    1,
                    FileHeld::Unreadable(FileFault::NoMemory),
                    Wanted::Unread(FileFault::NoMemory),
                ),
                (
                    3000,
                    1,
                    FileHeld::Unreadable(FileFault::NoMemory),
                    Wanted::Nothing,
                ),
                (
                    4000,
                    1,
                    FileHeld::Text("what is new"),
                    Wanted::Refused("what is new"),
                ),
                (
                    5000,
                    5,
                    FileHeld::Fault(FileFault::TooLong),
                    Wanted::Unread(FileFault::TooLong),
                ),
                (
                    6000,
                    6,
                    FileHeld::Fault(FileFault::TooLong),
                    Wanted::Nothing,
                ),
            ],
        ),
    },
    // A file that stays as it is is read at two looks, and asked for its stamp once a second from then on.
    Case {
        name: "seldom_read",
        trial: Trial::Watch(
            Asked::Always,
            &[(1000, 1, FileHeld::Text(OLD), Wanted::Nothing)],
        ),
    },
];

/// The file of a look.
fn state_of(alloc: Global, row: &Row) -> Result<FileState, AllocError> {
    let stamp = Stamp {
        inode: 7,
        seconds: row.1,
        nanoseconds: 0,
        length: 20,
    };
    Ok(match row.2 {
        FileHeld::Text(text) => FileState {
            stamp: Ok(stamp),
            bytes: Ok(Bytes::copy(alloc, text.as_bytes())?),
        },
        FileHeld::Unreadable(fault) => FileState {
            stamp: Ok(stamp),
            bytes: Err(fault),
        },
        FileHeld::Fault(fault) => FileState {
            stamp: Err(fault),
            bytes: Err(fault),
        },
    })
}

/// A watch, whose end is proved once and not wherever it is dropped.
struct Watched<F: WatchedFile> {
    watch: Watch<F>,
}

impl<F: WatchedFile> Drop for Watched<F> {
    fn drop(self) {
        let Watched { watch: _ } = self;
    }
}

fn push_states(alloc: Global, states: &mut Vec<FileState>, rows: &[Row]) -> Result<(), AllocError> {
    for row in rows {
        states.push(state_of(alloc, row)?)?;
    }
    Ok(())
}

/// A watch of a file that is so at these looks, one after the other.
fn watch_of(alloc: Global, rows: &[Row]) -> Result<Watched<MemoryFile>, AllocError> {
    let in_force = Bytes::copy(alloc, OLD.as_bytes())?;
    let mut states = Vec::new(alloc);
    push_states(alloc, &mut states, rows)?;
    let watch = Watch::new(MemoryFile::new(alloc, states), in_force, 0);
    Ok(Watched { watch })
}

/// Takes what is offered, or refuses it, as is wanted. Whether it is the text that is wanted, and is in force then, or the old one
/// stays.
fn is_settled<F: WatchedFile>(watch: &mut Watch<F>, bytes: Bytes, wanted: Wanted) -> bool {
    let (text, in_force) = match wanted {
        Wanted::Taken(text) => (text, text),
        Wanted::Refused(text) => (text, OLD),
        _ => return false,
    };
    let is_same = bytes.as_slice() == text.as_bytes();
    match wanted {
        Wanted::Taken(_) => watch.take(bytes),
        _ => watch.refuse(bytes),
    }
    is_same && watch.in_force() == in_force.as_bytes()
}

/// Whether a look comes to this; what is offered is taken, or refused.
fn comes_to<F: WatchedFile>(watch: &mut Watch<F>, now: u64, wanted: Wanted) -> bool {
    match watch.look(now) {
        Look::Nothing => matches!(wanted, Wanted::Nothing),
        Look::Unsettled => matches!(wanted, Wanted::Unsettled),
        Look::Settled(bytes) => is_settled(watch, bytes, wanted),
        Look::Unread(fault) => match wanted {
            Wanted::Unread(other) => fault == other,
            _ => false,
        },
    }
}

/// Whether each look comes to what is wanted, and each moment in between to nothing.
fn all_come<F: WatchedFile>(watch: &mut Watch<F>, rows: &[Row]) -> bool {
    for row in rows {
        if !comes_to(watch, row.0.saturating_sub(1), Wanted::Nothing)
            || !comes_to(watch, row.0, row.3)
        {
            return false;
        }
    }
    true
}

/// How often a file told its stamp, and how often its bytes.
fn told_by(file: &MemoryFile) -> Option<(usize, usize)> {
    let told = file.told()?;
    let mut stamps = 0usize;
    for told in told {
        if let FileAnswer::Stamped(_) = told {
            stamps = stamps.saturating_add(1);
        }
    }
    Some((stamps, told.len().saturating_sub(stamps)))
}

/// Whether a file is read at two looks of ten seconds, and asked for its stamp once a second.
fn is_seldom_read(watch: &mut Watch<MemoryFile>) -> bool {
    for now in 0..10_000 {
        if !comes_to(watch, now, Wanted::Nothing) {
            return false;
        }
    }
    told_by(watch.file()) == Some((9, 2))
}

fn is_as_wanted(watch: &mut Watch<MemoryFile>, asked: Asked, rows: &[Row]) -> bool {
    match asked {
        Asked::AtRows => all_come(watch, rows),
        Asked::Always => is_seldom_read(watch),
    }
}

/// Whether a watch over memory comes to what is wanted.
pub(crate) fn hold(alloc: Global, asked: Asked, rows: &[Row]) -> bool {
    match watch_of(alloc, rows) {
        Ok(mut watched) => is_as_wanted(&mut watched.watch, asked, rows),
        Err(_) => false,
    }
}

/// What is tried at paths, one of them that of a file which lies where the cases are tried.
pub(crate) const PATH_CASES: &[Case] = &[
    Case {
        name: "file_offered",
        trial: Trial::FileOffered("registered.script"),
    },
    Case {
        name: "no_file",
        trial: Trial::NoFile,
    },
];

/// What a watch of the file of a path is asked, while it may lack memory.
const LOOKS: &[u64] = &[1000, 2000, 3000, 4000];

/// What a watch of the file of a path offers within four looks, of which some may lack memory.
fn offered_within<F: WatchedFile>(watch: &mut Watch<F>) -> Option<Bytes> {
    for now in LOOKS {
        match watch.look(*now) {
            Look::Settled(bytes) => return Some(bytes),
            Look::Unsettled | Look::Unread(FileFault::NoMemory) => {}
            Look::Nothing | Look::Unread(_) => return None,
        }
    }
    None
}

/// The bytes of a file are offered, and once they are taken they are nothing.
fn is_offered<F: WatchedFile>(watch: &mut Watch<F>, bytes: &[u8]) -> bool {
    let Some(found) = offered_within(watch) else {
        return false;
    };
    let is_same = found.as_slice() == bytes;
    watch.take(found);
    is_same && comes_to(watch, 9000, Wanted::Nothing) && comes_to(watch, 10_000, Wanted::Nothing)
}

/// Whether the first look tells this fault, and the next one nothing.
fn is_told_once<F: WatchedFile>(watch: &mut Watch<F>, fault: FileFault) -> bool {
    comes_to(watch, 1000, Wanted::Unread(fault)) && comes_to(watch, 2000, Wanted::Nothing)
}

/// A watch of the file of a path, while other bytes are in force.
fn path_watch<'a, R: Files + AllocGlobal>(
    rt: &'a R,
    path: &'a str,
) -> Result<Watched<PathFile<'a, R>>, AllocError> {
    let old = Bytes::copy(rt.alloc(), OLD.as_bytes())?;
    let watch = Watch::new(PathFile::new(rt, path), old, 0);
    Ok(Watched { watch })
}

/// Whether a watch finds these bytes, or this fault.
fn finds<F: WatchedFile>(watch: &mut Watch<F>, found: Result<&[u8], FileFault>) -> bool {
    match found {
        Ok(bytes) => is_offered(watch, bytes),
        Err(fault) => is_told_once(watch, fault),
    }
}

/// Whether a watch of the file of a path does.
fn finds_at<R: Files + AllocGlobal>(rt: &R, path: &str, found: Result<&[u8], FileFault>) -> bool {
    match path_watch(rt, path) {
        Ok(mut watched) => finds(&mut watched.watch, found),
        Err(_) => false,
    }
}

/// A file of the system that holds other bytes than are in force is offered, byte for byte.
pub(crate) fn file_offered<R: Files + AllocGlobal>(rt: &R, path: &str) -> bool {
    match fs::read(rt, path) {
        Ok(bytes) => finds_at(rt, path, Ok(bytes.as_slice())),
        Err(_) => false,
    }
}

/// A path without a file is gone, and a folder is no file.
pub(crate) fn no_file<R: Files + AllocGlobal>(rt: &R) -> bool {
    finds_at(rt, "no file has this name", Err(FileFault::Gone))
        && finds_at(rt, ".", Err(FileFault::Device))
}
