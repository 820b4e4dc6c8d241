//! Records that a server is to go on from: cut, damaged, and with configurations.

use crate::serving::LATER;
use crate::trial::{Fails, LONGEST, over_memory};
use sip_config::ConfigError;
use sip_config_change::FrameKey;
use sip_resume::RecordError;
use std::alloc::{AllocError, Global};

/// A record, and what it comes to.
#[derive(Clone, Copy)]
pub(crate) enum Row {
    /// So many of its lines are taken, and what stands behind them, where something does, isn't.
    Cut(&'static [u8], u64),
    /// It is damaged in this line.
    Damaged(&'static [u8], u64),
    /// Its parts, how many bytes a configuration of it has at most, how many lines of it are taken, or how it is refused, and whether
    /// all of it is told.
    Changed(&'static [&'static [u8]], usize, Result<u64, RecordError>, bool),
}

/// A configuration with the frame of the sample, as a record holds it, of 11 lines.
const CONFIGURED: &[u8] =
    b"= version = 1\n= realm = \"testrealm@host.com\"\n= host = \"sip.host.com\"\n= port = 5060\n= address = \"127.0.0.1:5060\"\n= domains = [\"host.com\"]\n= \n= [[user]]\n= name = \"alice\"\n= a1 = \"11111111111111111111111111111111\"\nconfiguration 879ca4df1cc2c48eef2f3cca07f4d024f56cb8f7ff40f2ee061c229083d8354f\n";

/// One that was cut within its realm.
const CONFIGURED_CUT: &[u8] = b"= version = 1\n= realm = \"testrealm@host.";

/// A datagram with bytes of each kind that has an escape, and with `~` and blanks, as a record has it.
const ESCAPED: &[u8] =
    b"text 6 127.0.0.1:5082 00000000000000000000000000000001 \\00\\09 O\\\\K~\\7f\\c3\\a9\\r\\nOPTIONS sip:alice@host.com SIP/2.0\n";

/// One as an older record has it.
const IN_DIGITS: &[u8] = b"hex 6 127.0.0.1:5082 00000000000000000000000000000001 4f4b\n";

/// One in another realm.
const OTHER_REALM: &[u8] =
    b"= version = 1\n= realm = \"office\"\n= host = \"sip.host.com\"\n= port = 5060\n= address = \"127.0.0.1:5060\"\n= domains = [\"host.com\"]\n= \n= [[user]]\n= name = \"alice\"\n= a1 = \"11111111111111111111111111111111\"\nconfiguration 062e3e168f8d55cbd1160b528154fb131c39462569028ba8c383eea5125381a3\n";

/// One of a version that isn't known.
const NO_VERSION: &[u8] =
    b"= version = 3\nconfiguration a6302849064e016e520e513a22aef99a2d874333e7fcbf0b2c2260cb6ffb42f6\n";

/// A record that was cut in its last event is taken up to the last whole one: in its word, its moment, its digits, its text, also
/// within an escape of that, or its lines.
pub(crate) const CUT_RECORD: &[Row] = &[
    Row::Cut(b"", 0),
    Row::Cut(b"t", 0),
    Row::Cut(b"time 5\ntime 7\ntim", 2),
    Row::Cut(b"time 5\ntime 4611686018427387903", 1),
    Row::Cut(
        b"time 5\nhex 6 127.0.0.1:5082 00000000000000000000000000000001 4f5",
        1,
    ),
    Row::Cut(
        b"time 5\ntext 6 127.0.0.1:5082 00000000000000000000000000000001 OK",
        1,
    ),
    Row::Cut(
        b"time 5\ntext 6 127.0.0.1:5082 00000000000000000000000000000001 OK\\",
        1,
    ),
    Row::Cut(
        b"time 5\ntext 6 127.0.0.1:5082 00000000000000000000000000000001 OK\\c",
        1,
    ),
    Row::Cut(
        b"time 5\ntext 6 127.0.0.1:5082 00000000000000000000000000000001 OK\\7",
        1,
    ),
    Row::Cut(
        b"time 5\ndatagram 6 127.0.0.1:5082 00000000000000000000000000000001\n",
        1,
    ),
    Row::Cut(
        b"time 5\ndatagram 6 127.0.0.1:5082 00000000000000000000000000000001\n.",
        1,
    ),
];

/// A record that is damaged is refused with the line, within and at its end, with LF and without: also where a moment is 2^62, a
/// datagram's port 0, its text another one than is written, or its bytes stand in lines, as those of no record do.
pub(crate) const DAMAGED_RECORD: &[Row] = &[
    Row::Damaged(b"xyz", 1),
    Row::Damaged(b"time 5\nxyz", 2),
    Row::Damaged(b"time 5\nxyz\n", 2),
    Row::Damaged(b"time 5\ntim\ntime 7\n", 2),
    Row::Damaged(b"time 5\ntime 07", 2),
    Row::Damaged(b"time 5\ntime 4611686018427387904", 2),
    Row::Damaged(b"time 5\nhex 6 127.0.0.1:0", 2),
    Row::Damaged(
        b"time 5\ntext 6 127.0.0.1:5082 00000000000000000000000000000001 O\\4",
        2,
    ),
    Row::Damaged(
        b"time 5\ntext 6 127.0.0.1:5082 00000000000000000000000000000001 O\\4b\ntime 7\n",
        2,
    ),
    Row::Damaged(
        b"time 5\ntext 6 127.0.0.1:5082 00000000000000000000000000000001 \ntime 7\n",
        2,
    ),
    Row::Damaged(
        b"time 5\ndatagram 6 127.0.0.1:5082 00000000000000000000000000000001\nOPTIONS\n.",
        2,
    ),
];

/// So is one in which the dot of a datagram without bytes was changed: at its end, cut there too, and in front of others, of which one
/// is such a datagram.
pub(crate) const DAMAGED_DOT: &[Row] = &[
    Row::Damaged(
        b"datagram 6 127.0.0.1:5082 00000000000000000000000000000001\n/\n",
        1,
    ),
    Row::Damaged(
        b"datagram 6 127.0.0.1:5082 00000000000000000000000000000001\n/",
        1,
    ),
    Row::Damaged(
        b"datagram 6 127.0.0.1:5082 00000000000000000000000000000001\n/\ntime 7\n",
        1,
    ),
    Row::Damaged(
        b"time 5\ndatagram 6 127.0.0.1:5082 00000000000000000000000000000001\n/\ndatagram 7 127.0.0.1:5082 00000000000000000000000000000002\n.\n",
        2,
    ),
];

/// A record that holds configurations is taken under them, and told as it stands, whatever bytes its datagrams have; one with the lines
/// of an older one is told in those of now, and one that was cut within a configuration is taken up to it. It is refused with the line
/// where a configuration is damaged, too long, none, or another server's.
pub(crate) const CHANGED_RECORD: &[Row] = &[
    Row::Changed(
        &[b"time 5\n", CONFIGURED, b"time 7\n", CONFIGURED],
        1_000,
        Ok(24),
        true,
    ),
    Row::Changed(&[b"time 5\n", ESCAPED, b"time 7\n"], 1_000, Ok(3), true),
    Row::Changed(&[b"time 5\n", IN_DIGITS], 1_000, Ok(2), false),
    Row::Changed(&[b"time 5\n", CONFIGURED_CUT], 1_000, Ok(1), false),
    Row::Damaged(b"time 5\n= a\ntime 7\n", 2),
    Row::Changed(
        &[b"time 5\n", CONFIGURED],
        100,
        Err(RecordError::TooLong(2)),
        false,
    ),
    Row::Changed(
        &[b"time 5\n", NO_VERSION],
        1_000,
        Err(RecordError::NoConfiguration(2, ConfigError::BadValue)),
        false,
    ),
    Row::Changed(
        &[b"time 5\n", OTHER_REALM],
        1_000,
        Err(RecordError::OtherFrame(2, FrameKey::Realm)),
        false,
    ),
];

/// What a record comes to, and whether all of it is told.
fn resumed(
    alloc: Global,
    record: &[u8],
    longest: usize,
) -> Result<(Result<u64, RecordError>, bool), AllocError> {
    let mut trial = over_memory(alloc, LATER, Fails::Never)?;
    let taken = trial.resume(record, longest);
    Ok((taken, trial.recorded() == record))
}

/// Whether a record of these parts comes to this.
fn is_taken(
    alloc: Global,
    parts: &[&[u8]],
    longest: usize,
    wanted: (Result<u64, RecordError>, bool),
) -> bool {
    match parts.concat(alloc) {
        Ok(record) => resumed(alloc, record.as_slice(), longest) == Ok(wanted),
        Err(_) => false,
    }
}

fn is_resumed(alloc: Global, row: &Row) -> bool {
    match *row {
        Row::Cut(record, lines) => resumed(alloc, record, LONGEST)
            == Ok((Ok(lines), record.is_empty())),
        Row::Damaged(record, line) => resumed(alloc, record, LONGEST)
            == Ok((Err(RecordError::Damaged(line)), false)),
        Row::Changed(parts, longest, taken, is_told) => is_taken(
            alloc,
            parts,
            longest,
            (taken, is_told),
        ),
    }
}

/// Whether records come to this.
pub(crate) fn are_resumed(alloc: Global, rows: &[Row]) -> bool {
    for row in rows {
        if !is_resumed(alloc, row) {
            return false;
        }
    }
    true
}
