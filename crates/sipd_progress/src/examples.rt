//! Worked examples, as contracts that compute.
ghost use Rattle.std.specs.Prelude.{◌≡◌, codes, Some, None, true, false};
ghost use Rattle.sipd_progress.specs.Pace.{begun_at, is_said, line_of, read_more};

/// A reading that begins at the fifth second says nothing before the sixth; then it says how far it is, and the next time a second later.
pub fn paces()
    ensures first { is_said 5999 (begun_at 5000) ≡ false }
    ensures second { is_said 6000 (read_more 8192 5999 (begun_at 5000)) ≡ true }
    ensures more { read_more 8192 6500 (read_more 8192 5999 (begun_at 5000)) ≡ record { read = 16384; due = 7500 } }
{}

/// What is said.
pub fn lines()
    ensures whole { line_of (codes "1.record") 16384 (Some 20000) ≡ codes "sipd: 1.record: 16384 of 20000 bytes are read" }
    ensures unknown { line_of (codes "standard input") 16384 None ≡ codes "sipd: standard input: 16384 bytes are read" }
{}
