ghost use Rattle.std.specs.Prelude.{◌≡◌, ℕ, Option, List};
ghost use Rattle.sip_transport.specs.Told.{and_counted};

/// What tells the moment, in milliseconds. It may tell its readings, oldest first, no more than 2^64 - 1 of them.
pub trait Clock: Drop {
    ghost readings: { Self → Option (List ℕ) };

    /// The moment. Never a fault.
    fn now(&mut self) -> u64
        ensures { readings self.new ≡ and_counted (readings self.old) result };
}
