//! Lines that are taken, and lines that aren't; what doesn't stand together; what is said where an option isn't there.
ghost use Rattle.sipd_arguments.specs.Examples.{AreLines, AreMisuses, AreSaid};

/// Lines of the commands, with the first faults of each.
pub fn line_example()
    ensures { AreLines }
{}

/// Lines without such a fault.
pub fn misuse_example()
    ensures { AreMisuses }
{}

/// What lines say.
pub fn said_example()
    ensures { AreSaid }
{}
