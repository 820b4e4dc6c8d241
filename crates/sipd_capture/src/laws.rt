ghost use Rattle.std.specs.Prelude.{◌≡◌, ℕ, List, length};
ghost use Rattle.sipd_capture.specs.Hiding.{hidden};

/// What is hidden of a datagram is as long as it is, whatever it holds.
pub fn hiding_keeps_lengths()
    ensures { (bytes : List ℕ) → length (hidden bytes) ≡ length bytes }
{}
