//! The files of a stored run NAME, in the folder that the program runs in:
//!
//! - NAME.args: the words of the command line, one a line;
//! - NAME.script: standard input; empty, where it is absent;
//! - NAME.damage: a datagram, in place of a script: that of all its proper prefixes, and of it with each byte replaced;
//! - NAME.input: standard input of a run that replays no script;
//! - NAME.toml: a configuration that the words name;
//! - NAME.out: what must be written; nothing, where it is absent;
//! - NAME.md5: MD5 of what must be written, in hexadecimal digits, in place of NAME.out, where that would be long;
//! - NAME.err: the complaint; none, where it is absent;
//! - NAME.status: the exit status; 0, where it is absent.
use crate::damage::damaged;
use crate::names::push_word;
use hex::encode_to_slice;
use md5::{Digest, Md5};
use std::alloc::{AllocError, Global};
use std::fs;
use std::rt::Files;

/// The bytes of a run's file, where it can be read.
pub fn file_of<R: Files + AllocGlobal>(rt: &R, name: &str, kind: &str) -> Option<Vec<u8>> {
    let path = format!(in rt.alloc(); "{name}.{kind}").ok()?;
    fs::read(rt, path.as_str()).ok()
}

/// Whether a run's file has these bytes; an absent one stands for others.
fn says<R: Files + AllocGlobal>(
    rt: &R,
    name: &str,
    kind: &str,
    absent: &[u8],
    wanted: &[u8],
) -> bool {
    match file_of(rt, name, kind) {
        Some(bytes) => bytes.as_slice() == wanted,
        None => absent == wanted,
    }
}

/// MD5 of what was written, in hexadecimal digits, and LF.
fn digest_of(alloc: Global, output: &[u8]) -> Result<Vec<u8>, AllocError> {
    let mut hasher = Md5::new();
    hasher.update(output);
    let mut digits = [0u8; 32];
    let _ = encode_to_slice(hasher.finalize().as_slice(), &mut digits);
    let mut text = Vec::from_slice(alloc, digits.as_slice())?;
    text.push(b'\n')?;
    Ok(text)
}

/// Whether what was written is what a run's file says, or has the digest that another one says.
fn is_output<R: Files + AllocGlobal>(rt: &R, name: &str, output: &[u8]) -> bool {
    let Some(wanted) = file_of(rt, name, "md5") else {
        return says(rt, name, "out", b"", output);
    };
    match digest_of(rt.alloc(), output) {
        Ok(digest) => digest.as_slice() == wanted.as_slice(),
        Err(_) => false,
    }
}

/// The program's name, and the lines of a text, as the words of a command line.
fn words_in(alloc: Global, text: &str) -> Result<Vec<String>, AllocError> {
    let mut words = Vec::new(alloc);
    push_word(alloc, &mut words, "sipd")?;
    for line in text.lines() {
        push_word(alloc, &mut words, line)?;
    }
    Ok(words)
}

/// The words of a run's command line.
pub fn words_of<R: Files + AllocGlobal>(rt: &R, name: &str) -> Option<Vec<String>> {
    let bytes = file_of(rt, name, "args")?;
    let text = str::from_utf8(bytes.as_slice()).ok()?;
    words_in(rt.alloc(), text).ok()
}

/// Whether a status is the one that a run's file says.
fn is_status<R: Files + AllocGlobal>(rt: &R, name: &str, status: u8) -> bool {
    let digit = b'0'.saturating_add(status);
    says(rt, name, "status", b"0\n", &[digit, b'\n'])
}

/// A run's standard input.
pub fn script_of<R: Files + AllocGlobal>(rt: &R, name: &str) -> Option<Vec<u8>> {
    if let Some(datagram) = file_of(rt, name, "damage") {
        let script = damaged(rt.alloc(), datagram.as_slice()).ok()?;
        return Some(script.into_bytes());
    }
    file_of(rt, name, "script")
}

/// What a run that replays no script reads from its standard input.
pub fn input_of<R: Files + AllocGlobal>(rt: &R, name: &str) -> Vec<u8> {
    match file_of(rt, name, "input") {
        Some(input) => input,
        None => Vec::new(rt.alloc()),
    }
}

/// Whether a run that wrote this, complained so and ended with this status agrees with its files.
pub fn agrees<R: Files + AllocGlobal>(
    rt: &R,
    name: &str,
    output: &[u8],
    complaints: &[u8],
    status: u8,
) -> bool {
    is_output(rt, name, output)
        && says(rt, name, "err", b"", complaints)
        && is_status(rt, name, status)
}
