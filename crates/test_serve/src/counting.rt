ghost use Rattle.std.specs.Prelude.{ℕ, ◌+◌, ◌*◌, ◌/◌, ◌%◌, ◌^◌};
ghost use Rattle.rand_core.specs.Steps.{stream_of, steps_u64_low};

use rand_core::utils::NextWord;
use rand_core::{Rng, utils};
use std::marker::Model;

/// Numbers of which each pair, the high half first, is a word of a script: 1, then 2, and so on.
#[derive(Drop)]
pub struct Counting(u64);

impl Model for Counting {
    ghost Value = { ℕ };

    ghost view = { λ c. c.0 };
}

impl Counting {
    pub fn new() -> Self {
        Counting(0)
    }
}

impl NextWord<u64> for Counting {
    ghost step = { λ s. (((s % 2) * (s / 2 + 1)) % 2 ^ 64, (s + 1) % 2 ^ 64) };

    fn next_word(&mut self) -> u64 {
        let number = (self.0 % 2).wrapping_mul(self.0 / 2 + 1);
        self.0 = self.0.wrapping_add(1);
        number
    }
}

impl Rng for Counting {
    ghost stream = { stream_of (steps_u64_low (λ s. (((s % 2) * (s / 2 + 1)) % 2 ^ 64, (s + 1) % 2 ^ 64))) };

    fn next_u32(&mut self) -> u32 {
        (self.next_word() % (1 << 32)) as u32
    }

    fn next_u64(&mut self) -> u64 {
        self.next_word()
    }

    fn fill_bytes(&mut self, dst: &mut [u8]) {
        utils::fill_bytes_via_u64(self, dst)
    }
}
