//! Replays with the sample configuration: of a script on devices that fail once, or don't, and of others.

use crate::devices::{FailingReader, FailingWriter};
use crate::kinds::{BOOT, ServerRules, ServerTimers};
use crate::registers::{REGISTERED_PRINT, REGISTERED_SCRIPT};
use sip_config_types::sample;
use sip_replay::{ReplayError, replay};
use std::alloc::{AllocError, Global};
use std::io::ErrorKind;

/// Which read, write or flush fails, by its number from 0, and how.
#[derive(Clone, Copy)]
struct Failing {
    read: Option<u32>,
    write: Option<u32>,
    flush: Option<u32>,
    kind: ErrorKind,
}

/// Nothing fails.
const SOUND: Failing = Failing {
    read: None,
    write: None,
    flush: None,
    kind: ErrorKind::Other,
};

/// What fails.
#[derive(Clone, Copy)]
pub(crate) enum Device {
    Reader,
    Writer,
    Flush,
}

impl Device {
    /// The call of this number fails.
    fn failing(self, call: u32, kind: ErrorKind) -> Failing {
        let call = Some(call);
        match self {
            Device::Reader => Failing {
                read: call,
                write: None,
                flush: None,
                kind,
            },
            Device::Writer => Failing {
                read: None,
                write: call,
                flush: None,
                kind,
            },
            Device::Flush => Failing {
                read: None,
                write: None,
                flush: call,
                kind,
            },
        }
    }
}

/// How a replay ended, and whether it printed a front of a print, and the whole.
type Ended = (Result<(), ReplayError>, bool, bool);

const DONE: Ended = (Ok(()), true, true);

const READ_FAILED: Ended = (Err(ReplayError::Read), true, false);

const WRITE_FAILED: Ended = (Err(ReplayError::Write), true, false);

const FLUSH_FAILED: Ended = (Err(ReplayError::Write), true, true);

/// Which calls fail, so many of the first ones in turn, how, and what that comes to.
pub(crate) type FailingRow = (Device, u32, ErrorKind, Ended);

/// A reader that fails at each of its first calls answers Read, and one that is interrupted there is asked again.
pub(crate) const FAILING_READS: &[FailingRow] = &[
    (Device::Reader, 40, ErrorKind::Other, READ_FAILED),
    (Device::Reader, 40, ErrorKind::Interrupted, DONE),
];

/// The same of writes, and of the flush: all was written then.
pub(crate) const FAILING_WRITES: &[FailingRow] = &[
    (Device::Writer, 100, ErrorKind::Other, WRITE_FAILED),
    (Device::Writer, 100, ErrorKind::Interrupted, DONE),
    (Device::Flush, 1, ErrorKind::Other, FLUSH_FAILED),
    (Device::Flush, 1, ErrorKind::Interrupted, DONE),
];

/// How a replay of a script ends, which is written so.
fn written(
    alloc: Global,
    script: &[u8],
    failing: Failing,
    writer: &mut FailingWriter,
) -> Result<(), ReplayError> {
    let Ok(config) = sample(alloc) else {
        return Err(ReplayError::NoMemory);
    };
    let mut reader = FailingReader {
        script,
        fails: failing.read,
        kind: failing.kind,
    };
    replay::<ServerTimers, ServerRules, _, _>(alloc, config, BOOT, &mut reader, writer)
}

fn writer(alloc: Global, failing: Failing) -> FailingWriter {
    FailingWriter {
        text: Vec::new(alloc),
        write_fails: failing.write,
        flush_fails: failing.flush,
        kind: failing.kind,
    }
}

/// How a replay of a script ends, held against a print.
fn end_of(alloc: Global, script: &[u8], failing: Failing, print: &[u8]) -> Ended {
    let mut writer = writer(alloc, failing);
    let answer = written(alloc, script, failing, &mut writer);
    let text = writer.text.as_slice();
    (answer, print.starts_with(text), print == text)
}

fn is_ended(alloc: Global, row: &FailingRow) -> bool {
    let (device, calls, kind, wanted) = *row;
    for call in 0..calls {
        let failing = device.failing(call, kind);
        if end_of(alloc, REGISTERED_SCRIPT, failing, REGISTERED_PRINT) != wanted {
            return false;
        }
    }
    true
}

/// Whether replays of both REGISTERs end so.
pub(crate) fn are_ended(alloc: Global, rows: &[FailingRow]) -> bool {
    for row in rows {
        if !is_ended(alloc, row) {
            return false;
        }
    }
    true
}

/// This holds whichever allocation of the process is refused: a replay of both REGISTERs prints all, or ends with NoMemory and
/// has printed a part. A writer over memory answers want of memory as a fault of its own.
pub(crate) fn refused_inside_replay(alloc: Global) -> bool {
    let (answer, is_front, is_whole) = end_of(alloc, REGISTERED_SCRIPT, SOUND, REGISTERED_PRINT);
    match answer {
        Ok(()) => is_whole,
        Err(e) => is_front && (e == ReplayError::NoMemory || e == ReplayError::Write),
    }
}

/// First lines that begin no event.
const REFUSED: &[&[u8]] = &[
    b"\n",
    b"time 1",
    b"time 1\r\n",
    b"time  1\n",
    b"time 4611686018427387904\n",
    b"fault 1 18446744073709551616/0\n",
    b"fault 1 1/4294967296\n",
    b"hex 1 127.0.0.1:5062 00000000000000000000000000000002 abc\n",
    b"hex 1 127.0.0.1:5062 00000000000000000000000000000002 \n",
    b"hex 1 127.0.0.256:5062 00000000000000000000000000000002 ab\n",
    b"hex 1 127.0.0.1:0 00000000000000000000000000000002 ab\n",
    b"hex 1 127.0.0.1:5062 0000000000000000000000000000000A ab\n",
    b"text 1 127.0.0.1:5062 00000000000000000000000000000002 \n",
    b"text 1 127.0.0.1:5062 00000000000000000000000000000002 ab\\\n",
    b"text 1 127.0.0.1:5062 00000000000000000000000000000002 ab\\0d\n",
    b"text 1 127.0.0.1:5062 00000000000000000000000000000002 ab\\61\n",
    b"text 1 127.0.0.1:5062 00000000000000000000000000000002 ab\\C3\n",
    b"text 1 127.0.0.1:5062 00000000000000000000000000000002 ab\r\n",
];

/// Each of these first lines is refused, and nothing is printed.
pub(crate) fn refused_first_lines(alloc: Global) -> bool {
    for script in REFUSED {
        if end_of(alloc, script, SOUND, b"") != (Err(ReplayError::Script(1)), true, true) {
            return false;
        }
    }
    true
}

/// Adds the REGISTER of a number, with a branch of its own.
fn push_register(alloc: Global, script: &mut String, number: u64) -> Result<(), AllocError> {
    let at = number.saturating_mul(50);
    let event = format!(in alloc;
        "datagram {at} 127.0.0.1:5062 {number:032x}\nREGISTER sip:host.com SIP/2.0\nVia: SIP/2.0/UDP 127.0.0.1:5062;branch=z9hG4bK{number}\nFrom: <sip:Mufasa@host.com>;tag=a1\nTo: <sip:Mufasa@host.com>\nCall-ID: c1@127.0.0.1\nCSeq: 1 REGISTER\nContact: <sip:Mufasa@127.0.0.1:5062>\n\n.\n"
    )?;
    script.push_str(event.as_str())
}

/// 5,000 REGISTERs, 50 ms apart.
fn registers(alloc: Global) -> Result<String, AllocError> {
    let mut script = String::new(alloc);
    for number in 0..5_000u64 {
        push_register(alloc, &mut script, number)?;
    }
    Ok(script)
}

const CHALLENGED: &[u8] = b"SIP/2.0 401 Unauthorized";

fn challenges(print: &[u8]) -> usize {
    let mut count = 0usize;
    for text in print.windows(24) {
        if text == CHALLENGED {
            count = count.saturating_add(1);
        }
    }
    count
}

/// Whether a replay of a script goes well, and prints so many challenges.
fn challenges_all(alloc: Global, script: &[u8], wanted: usize) -> bool {
    let mut writer = writer(alloc, SOUND);
    written(alloc, script, SOUND, &mut writer).is_ok()
        && challenges(writer.text.as_slice()) == wanted
}

/// At most 640 of them are open at a time, and each is challenged.
pub(crate) fn many_registers(alloc: Global) -> bool {
    match registers(alloc) {
        Ok(script) => challenges_all(alloc, script.as_bytes(), 5_000),
        Err(_) => false,
    }
}
