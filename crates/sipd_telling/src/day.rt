//! The file of a record that is told: opened, and how the program ends at a line of it.

use sip_journal::RecordMark;
use sip_record_omitted::Expanding;
use sip_record_sealed::Unsealing;
use sipd_exit::Exit;
use sipd_old_record::{OldRecord, exit_in_file, open_any_record};
use sipd_progress::{Watched, size_of_file};
use std::io::{BufReader, Write};
use std::rt::{Clock, Files};

/// The record in a file, whatever became of it: without the lines that hold digests, and with the datagrams for which lines stand. Complains
/// where it lacks events. Refusals: `NoRecord`, where it has no first line of a record; `Memory`; `Device`, where it can't be opened or read.
///
/// `seen`: whether somebody looks at standard error, where it is said then how far it is.
pub fn open_day<'p, R: Files + Clock + Eprint + AllocGlobal, C: Write>(
    rt: &'p R,
    path: &'p str,
    seen: bool,
    complaints: &mut C,
) -> Result<OldRecord<Expanding<Watched<'p, R, Unsealing<BufReader<R::File>>>>>, Exit> {
    let alloc = rt.alloc();
    let OldRecord { head, events } = open_any_record(rt, alloc, path)?;
    if head.mark == RecordMark::Broken {
        let _ = writeln!(
            complaints,
            "sipd: the writing of {path} failed: it lacks what came behind"
        );
    }
    let watched = Watched::new(rt, events, path, size_of_file(rt, path), seen);
    match Expanding::new(alloc, watched) {
        Ok(events) => Ok(OldRecord { head, events }),
        Err(_) => Err(Exit::Memory),
    }
}

/// Complains of a record without a configuration, for which no file is named.
pub fn complain_of_older<C: Write>(exit: Exit, complaints: &mut C) -> Exit {
    if let Exit::BareRecord = &exit {
        let _ = writeln!(
            complaints,
            "sipd: an older record: name its file with --config"
        );
    }
    exit
}

/// How the program ends where a record wasn't told to its end: at that line of its file; with `Changed`, where a line has the digest of other bytes.
pub fn exit_of_day<R: Files + Clock + Eprint + AllocGlobal>(
    exit: Exit,
    events: &Expanding<Watched<'_, R, Unsealing<BufReader<R::File>>>>,
) -> Exit {
    exit_in_file(exit, &events.inner.reader, events.added())
}

/// The same, and complains of a record without a configuration, for which no file is named.
pub fn exit_of_file<R: Files + Clock + Eprint + AllocGlobal, C: Write>(
    exit: Exit,
    events: &Expanding<Watched<'_, R, Unsealing<BufReader<R::File>>>>,
    complaints: &mut C,
) -> Exit {
    complain_of_older(exit_of_day(exit, events), complaints)
}
