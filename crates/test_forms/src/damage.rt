use std::alloc::{AllocError, Global};

/// What each byte is replaced by: NUL, CR, LF, comma and quote.
const MARKS: [u8; 5] = [0, 13, 10, 44, 34];

/// How many milliseconds apart the datagrams come: longer than a request stays open that was answered.
const APART: u64 = 40_000;

/// Where all of them come from, and the word of each nonce.
const SOURCE: &str = "127.0.0.1:5070 00000000000000000000000000000001";

/// Adds the datagram of a number, counted from 1, to a script.
fn put_datagram(
    alloc: Global,
    script: &mut String,
    number: u64,
    datagram: &[u8],
) -> Result<(), AllocError> {
    let at = number.saturating_mul(APART);
    let moment = format!(in alloc; "{at} ")?;
    let digits = hex::encode(alloc, datagram)?;
    let (kind, mark, body) = if datagram.is_empty() {
        ("datagram ", "\n", ".")
    } else {
        ("hex ", " ", digits.as_str())
    };
    let event = [kind, moment.as_str(), SOURCE, mark, body, "\n"].concat(alloc)?;
    script.push_str(event.as_str())
}

/// Adds each proper prefix of a datagram; how many datagrams there are then.
fn put_prefixes(alloc: Global, script: &mut String, datagram: &[u8]) -> Result<u64, AllocError> {
    let mut number = 0u64;
    for length in 0..datagram.len() {
        number = number.saturating_add(1);
        put_datagram(alloc, script, number, &datagram[..length])?;
    }
    Ok(number)
}

/// Adds a datagram with the byte at this place replaced by each mark; how many datagrams there are then.
fn put_marked(
    alloc: Global,
    script: &mut String,
    before: u64,
    datagram: &[u8],
    place: usize,
) -> Result<u64, AllocError> {
    let mut number = before;
    for mark in MARKS {
        number = number.saturating_add(1);
        let mut marked = Vec::from_slice(alloc, datagram)?;
        if let Some(byte) = marked.get_mut(place) {
            *byte = mark;
        }
        put_datagram(alloc, script, number, marked.as_slice())?;
    }
    Ok(number)
}

/// The script of a damaged datagram: each proper prefix of it, and it with each byte in turn replaced by each of NUL, CR, LF,
/// comma and quote, so far apart that nothing of one is left when the next comes.
pub fn damaged(alloc: Global, datagram: &[u8]) -> Result<String, AllocError> {
    let mut script = String::new(alloc);
    let mut number = put_prefixes(alloc, &mut script, datagram)?;
    for place in 0..datagram.len() {
        number = put_marked(alloc, &mut script, number, datagram, place)?;
    }
    Ok(script)
}
