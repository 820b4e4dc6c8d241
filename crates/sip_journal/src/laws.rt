ghost use Rattle.std.specs.Prelude.{◌≡◌, ℕ, List, [], ◌∷◌, ◌++◌, Option, Some};
ghost use Rattle.sip_event.specs.declared.event.Event.{Event};
ghost use Rattle.sip_replay_script.specs.Lines.{IsLine};
ghost use Rattle.sip_journal.specs.Segments.{Segment};
ghost use Rattle.sip_journal.specs.Record.{Notes, NotesConfiguration, NotesSegments};
ghost use Rattle.sip_journal.specs.RecordHead.{head_line, head_of, head_text, HasHeadTypes};

use crate::record_head::RecordHead;
use crate::segment_laws::segments_join;

/// What was noted of some events, and then of others, was noted of both; and where nothing was written, nothing was noted.
pub fn notes_join()
    ensures nothing { (old : Option (Option (List ℕ))) → Notes old old [] }
    ensures both { (old mid new : Option (Option (List ℕ))) (events more : List Event) → Notes old mid events → Notes mid new more
        → Notes old new (events ++ more) }
{}

/// A configuration that was noted, and the events behind it, are a segment; events behind segments go to the last of them; and segments
/// join.
pub fn noted_segments_join()
    ensures begun { (old mid new : Option (Option (List ℕ))) (segment : Segment) → NotesConfiguration old mid segment.configuration
        → Notes mid new segment.events → NotesSegments old new (segment ∷ []) }
    ensures further { (old mid new : Option (Option (List ℕ))) (segments : List Segment) (segment : Segment) (events : List Event)
        → NotesSegments old mid (segments ++ segment ∷ []) → Notes mid new events
        → NotesSegments old new (segments ++ record { configuration = segment.configuration; events = segment.events ++ events } ∷ []) }
    ensures both { (old mid new : Option (Option (List ℕ))) (segments others : List Segment) → NotesSegments old mid segments
        → NotesSegments mid new others → NotesSegments old new (segments ++ others) }
{
    segments_join();
}

/// What is written of a record's head is one line, which is read back as it.
pub fn written_head_is_read()
    ensures text { (head : RecordHead) → head_text head ≡ head_line head ++ 10 ∷ [] }
    ensures line { (head : RecordHead) → HasHeadTypes head → IsLine (head_line head) }
    ensures read { (head : RecordHead) → HasHeadTypes head → head_of (head_line head) ≡ Some head }
{}
