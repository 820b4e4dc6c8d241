//! What a recorder writes of configurations, and of what is taken under them, read again.

use sip_journal::{
    ConfigurationStop, Journal, OnFault, Recorder, Upcoming, look_ahead, next_configuration,
};
use sip_replay_script::{ScriptLines, next_recorded};
use sip_text::Buffer;
use std::alloc::{AllocError, Global};

/// As many bytes as a configuration of these cases has at most.
const LONGEST: usize = 400_000;

/// What is written of a configuration whose last line has no end, and of one without bytes. The digests are those of `sha256sum`.
const WRITTEN: &[u8] =
    b"= version = 2\n+ end\nconfiguration f07071f21d776259d7b5c47ab184f0a0ba316bfebee73a131398187bddfc238c\n\
    configuration e3b0c44298fc1c149afbf4c8996fb92427ae41e4649b934ca495991b7852b855\n";

/// Configurations, whatever their bytes are: with other ends of lines, none, and what looks like lines of a record.
const TEXTS: [&[u8]; 5] = [
    b"",
    b"\n",
    b"a\r\n\nb",
    b"= a\n+ b\nconfiguration c\ntime 5\n",
    b"\0\xff\n",
];

/// A recorder that has no bytes yet.
fn recorder(alloc: Global) -> Result<Recorder<Vec<u8>>, AllocError> {
    Recorder::new(alloc, Vec::new(alloc), OnFault::End)
}

/// Whether two configurations are written so into a record, byte for byte.
pub fn configurations_written(alloc: Global) -> Result<bool, AllocError> {
    let mut record = recorder(alloc)?;
    Ok(
        record.configured(b"version = 2\nend").is_ok()
            && record.configured(b"").is_ok()
            && record.writer.as_slice() == WRITTEN,
    )
}

/// Whether a configuration comes next, and is this one.
fn is_configured(alloc: Global, lines: &mut ScriptLines, rest: &mut &[u8], text: &[u8]) -> bool {
    if !matches!(look_ahead(lines, rest), Ok(Upcoming::Configuration)) {
        return false;
    }
    match next_configuration(alloc, lines, rest, LONGEST) {
        Ok(Some(read)) => read.as_slice() == text,
        Ok(None) => false,
        Err(_) => false,
    }
}

/// Whether an event comes next.
fn is_event(alloc: Global, lines: &mut ScriptLines, rest: &mut &[u8]) -> bool {
    if !matches!(look_ahead(lines, rest), Ok(Upcoming::Event)) {
        return false;
    }
    matches!(next_recorded(alloc, lines, rest), Ok(Some(_)))
}

/// Whether a configuration and the moment behind it are read as they were recorded, and nothing else.
fn is_read_again(alloc: Global, text: &[u8]) -> Result<bool, AllocError> {
    let mut record = recorder(alloc)?;
    if record.configured(text).is_err() || record.passed(5).is_err() {
        return Ok(false);
    }
    let mut lines = ScriptLines::new(alloc)?;
    let mut rest = record.writer.as_slice();
    Ok(
        is_configured(alloc, &mut lines, &mut rest, text)
            && is_event(alloc, &mut lines, &mut rest)
            && matches!(look_ahead(&mut lines, &mut rest), Ok(Upcoming::Over)),
    )
}

/// So many bytes without an end of a line.
fn long_text(alloc: Global, count: usize) -> Result<Vec<u8>, AllocError> {
    vec![in alloc; b'x'; count]
}

/// Whether one with a line longer than a line of a record may be is read again.
fn long_is_read(alloc: Global) -> Result<bool, AllocError> {
    let text = long_text(alloc, 300_000)?;
    is_read_again(alloc, text.as_slice())
}

/// Configurations that are read as they were recorded, whatever their bytes are, and how long their lines.
pub fn configurations_read(alloc: Global) -> bool {
    for text in TEXTS {
        if is_read_again(alloc, text) != Ok(true) {
            return false;
        }
    }
    long_is_read(alloc) == Ok(true)
}

/// What comes of a record in which a configuration of at most three bytes is to stand next; nothing where there is no memory for it.
fn next_of(alloc: Global, mut record: &[u8]) -> Result<Option<Buffer>, ConfigurationStop> {
    let mut lines = ScriptLines::new(alloc)?;
    next_configuration(alloc, &mut lines, &mut record, 3)
}

/// Records that were cut within a configuration.
const CUT: &[&[u8]] = &[b"=", b"= ab", b"= ab\n", b"+ abc\nconfiguration ba7816bf"];

/// Records that are damaged there, also by the digest of other bytes.
const DAMAGED: &[&[u8]] = &[
    b"=ab\n",
    b"+ abc\nconfiguration e3b0",
    b"+ abc\nconfiguration e3b0c44298fc1c149afbf4c8996fb92427ae41e4649b934ca495991b7852b855\n",
    b"time 5\n",
];

fn is_cut(alloc: Global, record: &[u8]) -> bool {
    matches!(next_of(alloc, record), Err(ConfigurationStop::Cut))
}

fn is_damaged(alloc: Global, record: &[u8]) -> bool {
    matches!(next_of(alloc, record), Err(ConfigurationStop::Damaged))
}

/// Records that were cut within a configuration, or are damaged there; one that is too long; and none.
pub fn configurations_refused(alloc: Global) -> bool {
    for record in CUT {
        if !is_cut(alloc, record) {
            return false;
        }
    }
    for record in DAMAGED {
        if !is_damaged(alloc, record) {
            return false;
        }
    }
    matches!(next_of(alloc, b"= abc\n"), Err(ConfigurationStop::TooLong))
        && matches!(next_of(alloc, b""), Ok(None))
}
