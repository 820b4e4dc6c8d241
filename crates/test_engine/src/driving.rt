//! Datagrams that a phone sends to an engine.

use crate::kinds::TestServer;
use sip_event::StepOut;
use sip_replay::engine::StepError;
use sip_replay::run::fire_next;
use sip_uri::Addr;

/// Where the datagrams come from.
pub const PHONE: Addr = Addr {
    ip: [127, 0, 0, 1],
    port: 5062,
};

/// Delivers a datagram; nothing is due by its moment.
fn delivered(
    engine: &mut TestServer,
    at: u64,
    word: u128,
    bytes: &[u8],
) -> Result<StepOut, StepError> {
    if fire_next(engine, at)?.is_some() {
        return Err(StepError::MomentTooLarge);
    }
    engine.deliver(at, word, PHONE, bytes)
}

/// Delivers a datagram, by whose moment nothing is due. Answers how long the packet is that goes out for it; 0, where there
/// is none, or more than one.
pub fn hear(
    engine: &mut TestServer,
    at: u64,
    word: u128,
    bytes: &[u8],
) -> Result<usize, StepError> {
    let out = delivered(engine, at, word, bytes)?;
    match out.packets.as_slice() {
        [packet] => Ok(packet.bytes.as_slice().len()),
        _ => Ok(0),
    }
}

/// Whether one packet goes out for a datagram, by whose moment nothing is due, and begins so.
pub fn begins(engine: &mut TestServer, at: u64, word: u128, bytes: &[u8], front: &[u8]) -> bool {
    match delivered(engine, at, word, bytes) {
        Ok(out) => match out.packets.as_slice() {
            [packet] => packet.bytes.as_slice().starts_with(front),
            _ => false,
        },
        Err(_) => false,
    }
}
