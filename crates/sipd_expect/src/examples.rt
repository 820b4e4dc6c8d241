//! Worked examples of lines, as contracts that compute.
ghost use Rattle.sipd_expect.specs.Examples.{AreLines};

/// Lines that are expectations of the sample, and lines that aren't.
pub fn line_examples()
    ensures { AreLines }
{}
