ghost use Rattle.std.specs.Prelude.{◌≡◌, ◌<◌, ◌+◌, ◌^◌, true};
ghost use Rattle.sip_timers_wheel.specs.Places as Definitions;

/// The slots of a level.
pub const SLOTS: usize = 64;

/// The levels.
pub const LEVELS: usize = 5;

/// The slot behind those of the levels: of all that is due by the greatest moment that was given to
/// `pop_due`.
pub const LATE: usize = 320;

/// How long a slot of a level is, in milliseconds.
pub fn width(level: usize) -> u64
    ensures { result ≡ Definitions.width level }
{
    match level {
        0 => 1,
        1 => 64,
        2 => 4096,
        3 => 262_144,
        _ => 16_777_216,
    }
}

/// How many slots of a level end by a moment, from moment 0 on.
pub fn position(level: usize, moment: u64) -> u64
    ensures { result ≡ Definitions.position level moment }
{
    match level {
        0 => moment,
        1 => moment / 64,
        2 => moment / 4096,
        3 => moment / 262_144,
        _ => moment / 16_777_216,
    }
}

/// The level of what is due at a moment.
fn level_of(reached: u64, due: u64) -> usize
    ensures { result ≡ Definitions.level_of reached due }
{
    if due / 64 == reached / 64 {
        0
    } else if due / 4096 == reached / 4096 {
        1
    } else if due / 262_144 == reached / 262_144 {
        2
    } else if due / 16_777_216 == reached / 16_777_216 {
        3
    } else {
        4
    }
}

/// Whether a moment comes before the slot begins that has what is due at another one.
pub fn is_ahead(reached: u64, due: u64, now: u64) -> bool
    ensures { result ≡ true → now < Definitions.start_of reached due }
{
    let level = level_of(reached, due);
    now < position(level, due) * width(level)
}

/// The slot of what is due at a moment, less than 2^30 ms past the one that was reached.
pub fn slot_of(reached: u64, due: u64) -> usize
    requires { due < reached + 2 ^ 30 }
    ensures { result ≡ Definitions.slot_of reached due }
{
    if due <= reached {
        return LATE;
    }
    let level = level_of(reached, due);
    level * SLOTS + (position(level, due) % 64) as usize
}
