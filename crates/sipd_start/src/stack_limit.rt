ghost use Rattle.std.specs.Prelude.{◌≡◌, ℕ, List, Err, IfErr, option_map};
ghost use Rattle.sipd_start.specs.StackLimit;

use sip_text::{plain_decimal, split_once, without_front_blanks};
use sipd_exit::Exit;
use std::fs;
use std::rt::Files;

/// Where the kernel says what a process may have (proc(5)).
const LIMITS: &str = "/proc/self/limits";

/// The least stack with which the server runs, in bytes; under some 460 kB it ended by a fault of the processor.
const LEAST: u64 = 524_288;

/// What stands behind a front of a line, where the line begins with it.
fn behind<'a>(line: &'a [u8], front: &[u8]) -> Option<&'a [u8]>
    ensures { option_map (λ rest. rest.now) result ≡ StackLimit.behind front.now line.now }
{
    if line.starts_with(front) {
        Some(&line[front.len()..])
    } else {
        None
    }
}

/// The soft limit of the stack in bytes, where a line says it; none where there is no limit.
fn soft_limit(line: &[u8]) -> Option<u64>
    ensures { result ≡ StackLimit.soft_limit line.now }
{
    let rest = behind(line, b"Max stack size")?;
    let (limit, _) = split_once(without_front_blanks(rest), b' ')?;
    plain_decimal(limit)
}

/// The soft limit of the stack in bytes, where a line says one that is too small.
fn too_small(line: &[u8]) -> Option<u64>
    ensures { result ≡ StackLimit.too_small line.now }
{
    let bytes = soft_limit(line)?;
    if bytes < LEAST { Some(bytes) } else { None }
}

/// The soft limit of the stack in bytes, where the first of these limits' lines that says one which is too small says it.
#[tactic(auto, using(crate::proofs::StackLines::small_at_end))]
fn small_stack(limits: &[u8]) -> Option<u64>
    ensures { result ≡ StackLimit.small_stack limits.now }
{
    let mut rest = limits;
    while let Some((line, behind)) = split_once(rest, b'\n') {
        match too_small(line) {
            Some(bytes) => return Some(bytes),
            None => rest = behind,
        }
    }
    too_small(rest)
}

/// Refuses to start where the limits of a process say that its stack is too small.
fn check_limits(limits: &[u8]) -> Result<(), Exit>
    ensures { result ≡ StackLimit.exit_of_small (StackLimit.small_stack limits.now) }
{
    match small_stack(limits) {
        Some(bytes) => Err(Exit::Stack {
            bytes,
            needed: LEAST,
        }),
        None => Ok(()),
    }
}

/// Refuses to start with a stack that is too small, where that can be told. What the system says no clause can.
pub fn check_stack<R: Files + AllocGlobal>(rt: &R) -> Result<(), Exit>
    ensures { IfErr result (λ exit. (limits : List ℕ) × (StackLimit.exit_of_small (StackLimit.small_stack limits) ≡ Err exit)) }
{
    match fs::read(rt, LIMITS) {
        Ok(limits) => check_limits(limits.as_slice()),
        Err(_) => Ok(()),
    }
}
