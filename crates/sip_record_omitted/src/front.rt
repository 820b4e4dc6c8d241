//! What the bytes at the front of a line say of it, before all of the line is read.
ghost use Rattle.std.specs.Prelude.{◌≡◌, ◌<◌, take, count_by, MatchOption};
ghost use Rattle.sip_replay_script.specs.Lines.{is_end, BeginsWith};
ghost use Rattle.sip_record_omitted.specs.Fronts.{IsFront, IsSaidBy};

use crate::line::omitted_of;
use sip_replay_script::end_of_line;

/// So many bytes without LF are enough to know that a line stands for no datagrams: one more than the longest that does has.
const ENOUGH: usize = 28;

/// What the bytes at the front of a line say of it.
#[derive(Clone, Copy)]
pub(crate) enum Front {
    /// It stands for so many datagrams that were left out, and has so many bytes without its LF.
    Omitted { count: u64, size: usize },
    /// It stays as it is.
    Stays,
    /// Too few stand there.
    Short,
}

/// The place of the first LF, if it is one of the first 28 bytes.
#[tactic(auto, using(crate::proofs::Begins::none_among, crate::proofs::Begins::ends_among))]
fn first_end(bytes: &[u8]) -> Option<usize>
    ensures { MatchOption result (count_by is_end (take 28 bytes.now) ≡ 0)
        (λ place. (place < 28) × BeginsWith bytes.now (take place bytes.now)) }
{
    let count = ENOUGH.min(bytes.len());
    end_of_line(&bytes[..count])
}

/// What a whole line says, without its LF.
fn said_by(line: &[u8]) -> Front
    ensures { IsSaidBy result line.now }
{
    match omitted_of(line) {
        Some(count) => Front::Omitted {
            count,
            size: line.len(),
        },
        None => Front::Stays,
    }
}

/// What the bytes at the front of a line say of it.
#[tactic(auto, using(crate::proofs::Begins::front_said, crate::proofs::Begins::front_long, crate::proofs::Begins::front_short))]
pub(crate) fn front_of(bytes: &[u8]) -> Front
    ensures { IsFront result bytes.now }
{
    match first_end(bytes) {
        Some(place) => said_by(&bytes[..place]),
        None if bytes.len() < ENOUGH => Front::Short,
        None => Front::Stays,
    }
}
