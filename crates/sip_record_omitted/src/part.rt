//! How much of a line is given at a time.
ghost use Rattle.std.specs.Prelude.{◌≡◌, ◌≤◌, ◌-◌, length, take, drop};
ghost use Rattle.sip_record_omitted.specs.Fronts.{IsPart};

use sip_replay_script::end_of_line;

/// So many bytes at the front of some, and whether they end with LF.
#[derive(Clone, Copy)]
pub(crate) struct Part {
    pub count: usize,
    pub ends: bool,
}

/// At most so many bytes of the first line of some, with its LF where that is one of them.
#[tactic(auto, using(crate::proofs::Parts::whole_part, crate::proofs::Parts::long_part, crate::proofs::Parts::open_part))]
pub(crate) fn part_of_line(bytes: &[u8], most: usize) -> Part
    ensures { IsPart bytes.now most result }
{
    match end_of_line(bytes) {
        Some(place) if place < most => Part {
            count: place + 1,
            ends: true,
        },
        _ => Part {
            count: most.min(bytes.len()),
            ends: false,
        },
    }
}

/// Puts bytes at the front of a room.
pub(crate) fn put_front(room: &mut [u8], bytes: &[u8])
    requires { length bytes.now ≤ length room.old }
    ensures put { take (length bytes.now) room.new ≡ bytes.now }
    ensures len { length room.new ≡ length room.old }
{
    room[..bytes.len()].copy_from_slice(bytes);
}

/// Moves the bytes from a place up to another to the front of a room.
#[tactic(auto, using(crate::proofs::Parts::moved_front))]
pub(crate) fn move_front(room: &mut [u8], start: usize, end: usize)
    requires { (start ≤ end) × (end ≤ length room.old) }
    ensures moved { take (end - start) room.new ≡ take (end - start) (drop start room.old) }
    ensures len { length room.new ≡ length room.old }
{
    room.copy_within(start..end, 0);
}
