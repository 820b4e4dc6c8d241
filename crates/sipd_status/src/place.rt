//! Where the numbers of a server are put for those who read them.
ghost use Rattle.std.specs.Prelude.{◌≡◌, ℕ, List, Option, OnErr, OnOk};
ghost use Rattle.sipd_status.specs.Place.{with_text};

/// That a text couldn't be put there.
#[derive(Clone, Copy)]
pub enum StatusFault {
    /// Memory ran out.
    NoMemory,
    /// What holds it refused.
    Device,
}

/// What holds one text at a time for those who read it: each takes the place of the one before, whole.
pub trait StatusPlace: Drop {
    // the texts that were put there, in their order, if it tells them
    ghost texts: { Self → Option (List (List ℕ)) };

    /// Puts a text there. Where that is refused, the text before stays.
    fn put(&mut self, text: &[u8]) -> Result<(), StatusFault>
        ensures put { OnOk result (texts self.new ≡ with_text text.now (texts self.old)) }
        ensures refused { OnErr result (texts self.new ≡ texts self.old) };

    /// How many bytes of memory the process has, where that is known.
    fn memory(&mut self) -> Option<u64>
        ensures { texts self.new ≡ texts self.old };
}
