ghost use Rattle.std.specs.Prelude.{◌≡◌, ℕ, List, Some};
ghost use Rattle.sip_audit.specs.Lines.{IsOfRequest, IsInRange, IsLineOf, line_of};
ghost use Rattle.sip_audit.specs.Reading.{record_of};

use crate::record::Record;

/// The line of each record of a request is read as that record, and no other text is read.
pub fn lines_are_read()
    ensures read { (r : Record) → IsInRange r → IsOfRequest r → record_of (line_of r) ≡ Some r }
    ensures written { (line : List ℕ) → (r : Record) → record_of line ≡ Some r → IsLineOf line r }
{}
