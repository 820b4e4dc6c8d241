ghost use Rattle.std.specs.Prelude.{◌≡◌, [], Some};
ghost use Rattle.sip_transport.specs.Told.{counted, and_counted};
ghost use Rattle.sip_transport.specs.MemoryClock.{reading_at};

use crate::clock::Clock;
use std::marker::Model;

/// A clock over memory: it gives the readings of a list one after the other, then the last one again; 0 where there is none.
#[derive(Drop)]
pub struct MemoryClock {
    list: Vec<u64>,
    reads: u64,
    /// Whether it was read more often than can be counted.
    is_past: bool,
}

impl Model for MemoryClock {
    ghost use Rattle.std.specs.Prelude.{◌≡◌, true};
    ghost use Rattle.sip_transport.specs.Told.{most};
    ghost use Rattle.sip_transport.specs.MemoryClock.{ClockState, readings_of, told_readings};

    ghost Value = { ClockState };

    ghost view = { λ c. record { list = c.list.items; reads = c.reads; readings = told_readings c.is_past (readings_of 0 c.list.items c.reads) } };

    ghost invariant = { λ c. c.is_past ≡ true → c.reads ≡ most };
}

/// The reading of that number, from 0: past the end the last one, 0 where there is none.
#[tactic(auto, using(crate::proofs::Readings::reading_there, crate::proofs::Readings::reading_last, crate::proofs::Readings::reading_none))]
fn reading_at(list: &[u64], number: u64) -> u64
    ensures { result ≡ reading_at 0 list.now number }
{
    if number < list.len() as u64 {
        return list[number as usize];
    }
    match list.len().checked_sub(1) {
        Some(last) => list[last],
        None => 0,
    }
}

impl MemoryClock {
    /// A clock that gives these readings.
    pub fn new(list: Vec<u64>) -> Self
        ensures { result ≡ record { list = list.items; reads = 0; readings = Some [] } }
    {
        MemoryClock {
            list,
            reads: 0,
            is_past: false,
        }
    }
}

impl Clock for MemoryClock {
    ghost readings = { λ c. c.readings };

    #[tactic(auto, using(crate::proofs::Readings::readings_next, crate::proofs::Readings::length_readings))]
    fn now(&mut self) -> u64
        ensures readings { self.new.readings ≡ and_counted self.old.readings result }
        ensures reading { result ≡ reading_at 0 self.old.list self.old.reads }
        ensures list { self.new.list ≡ self.old.list }
        ensures reads { self.new.reads ≡ counted self.old.reads }
    {
        let reading = reading_at(self.list.as_slice(), self.reads);
        if self.reads == u64::MAX {
            self.is_past = true;
        } else {
            self.reads += 1;
        }
        reading
    }
}
