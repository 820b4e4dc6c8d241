//! The clock that the program serves by. A clock over memory, which tells its readings, is in `memory_clock`.
ghost use Rattle.std.specs.Prelude.{◌≡◌, ◌≤◌, None};
ghost use Rattle.sip_transport.specs.SteadyClock.{start_moment, moment_after, reading_of, behind_by};

use crate::clock::Clock;
use std::marker::Model;
use std::rt;
use std::time::{Instant, SystemTime, UNIX_EPOCH};

/// The runtime's clock, in milliseconds of UTC since 1970. It starts at what its wall clock says once, at the start, or at the least
/// moment that it was told, where that is later or the wall clock can't be read. It goes on by what its monotonic clock says has
/// passed since, so that it neither goes back nor jumps where the wall clock is set; where the monotonic clock can't be read it gives
/// its last reading, at first its start. It tells nothing of its readings.
#[derive(Drop)]
pub struct SteadyClock<'a, R> {
    rt: &'a R,
    /// What the wall clock said at the start, where it could be read.
    wall: Option<u64>,
    /// The least moment.
    least: u64,
    /// The monotonic clock's moment at the start, once it can be read.
    start: Option<Instant>,
    /// The most milliseconds that it said have passed since.
    passed: u64,
}

impl<'a, R> Model for SteadyClock<'a, R> {
    ghost use Rattle.sip_transport.specs.SteadyClock.{SteadyState};

    ghost Value = { SteadyState };

    ghost view = { λ c. record { wall = c.wall; least = c.least; passed = c.passed } };
}

/// What the wall clock says, where it can be read.
fn wall_reading<R: rt::Clock>(rt: &R) -> Option<u64> {
    let since = SystemTime::now(rt).ok()?.duration_since(UNIX_EPOCH).ok()?;
    u64::try_from(since.as_millis()).ok()
}

/// How many milliseconds have passed since a moment of the monotonic clock, where it can be read.
fn passed_since<R: rt::Clock>(rt: &R, start: Instant) -> Option<u64> {
    let passed = start.elapsed(rt).ok()?;
    u64::try_from(passed.as_millis()).ok()
}

/// The moment at which a clock starts, whose wall clock says this and whose least moment is that.
fn start_moment(wall: Option<u64>, least: u64) -> u64
    ensures { result ≡ start_moment wall least }
{
    wall.unwrap_or(least).max(least)
}

/// The moment when so many milliseconds have passed since such a start; 2^64 - 1 is the last one.
fn moment_after(wall: Option<u64>, least: u64, passed: u64) -> u64
    ensures after { result ≡ moment_after wall least passed }
    ensures least { least ≤ result }
{
    start_moment(wall, least).saturating_add(passed)
}

impl<'a, R: rt::Clock> SteadyClock<'a, R> {
    /// A clock that starts now.
    pub fn new(rt: &'a R) -> Self
        ensures { result ≡ record { wall = result.wall; least = 0; passed = 0 } }
    {
        SteadyClock::from(rt, 0)
    }

    /// A clock that starts now, none of whose readings is earlier than the least moment.
    pub fn from(rt: &'a R, least: u64) -> Self
        ensures { result ≡ record { wall = result.wall; least = least; passed = 0 } }
    {
        SteadyClock {
            rt,
            wall: wall_reading(rt),
            least,
            start: Instant::now(rt).ok(),
            passed: 0,
        }
    }

    /// By how many milliseconds the wall clock was behind the least moment at the start: 0 where it wasn't, or couldn't be read.
    pub fn behind(&self) -> u64
        ensures { result ≡ behind_by self.now.wall self.now.least }
    {
        match self.wall {
            Some(wall) => self.least.saturating_sub(wall),
            None => 0,
        }
    }
}

impl<'a, R: rt::Clock> Clock for SteadyClock<'a, R> {
    ghost readings = { λ _. None };

    fn now(&mut self) -> u64
        ensures reading { result ≡ reading_of self.new }
        ensures start { self.new ≡ record self.old { passed = self.new.passed } }
        ensures grows { self.old.passed ≤ self.new.passed }
        ensures forward { reading_of self.old ≤ result }
        ensures least { self.old.least ≤ result }
    {
        if self.start.is_none() {
            self.start = Instant::now(self.rt).ok();
        }
        if let Some(start) = self.start
            && let Some(passed) = passed_since(self.rt, start)
        {
            self.passed = self.passed.max(passed);
        }
        moment_after(self.wall, self.least, self.passed)
    }
}
