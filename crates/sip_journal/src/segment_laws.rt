ghost use Rattle.std.specs.Prelude.{◌≡◌, ◌∷◌, ◌++◌, ℕ, List, []};
ghost use Rattle.sip_event.specs.declared.event.Event.{Event};
ghost use Rattle.sip_replay_script.specs.Events.{SaysEvent};
ghost use Rattle.sip_replay_script.specs.Recorded.{SaysRecord};
ghost use Rattle.sip_journal.specs.Segments.{SaysConfiguration, SaysSegments, SaysWhole, Segment};

/// A record says one list of events and one of segments: what stands behind its first line has one reading.
pub fn record_says_one_list()
    ensures events { (events others : List Event) (text : List ℕ) → SaysRecord events text → SaysRecord others text → events ≡ others }
    ensures segments { (segments others : List Segment) (text : List ℕ) → SaysSegments segments text → SaysSegments others text → segments ≡ others }
    ensures whole { (events taken : List Event) (segments others : List Segment) (text : List ℕ) → SaysWhole events segments text
        → SaysWhole taken others text → (events ≡ taken) × (segments ≡ others) }
{}

/// A configuration stands next in one way: where a text begins with one that says a configuration, no other text that it begins
/// with says a configuration, this one says no other, and none says an event. So no line of an event is one of a configuration.
pub fn next_configuration_is_one()
    ensures one { (text other more further configuration second : List ℕ) → SaysConfiguration text configuration → SaysConfiguration other second
        → text ++ more ≡ other ++ further → (text ≡ other) × (configuration ≡ second) }
    ensures no_event { (text other more further configuration : List ℕ) (event : Event) → SaysConfiguration text configuration → SaysEvent other event
        → text ++ more ≡ other ++ further → ⊥ }
{}

/// Segments in front of others are segments; a configuration and the events behind it are one; and events behind segments go to the
/// last of them.
pub fn segments_join()
    ensures both { (segments others : List Segment) (text more : List ℕ) → SaysSegments segments text → SaysSegments others more
        → SaysSegments (segments ++ others) (text ++ more) }
    ensures one { (segment : Segment) (text taken : List ℕ) → SaysConfiguration text segment.configuration → SaysRecord segment.events taken
        → SaysSegments (segment ∷ []) (text ++ taken) }
    ensures further { (segments : List Segment) (segment : Segment) (events : List Event) (text taken : List ℕ) → SaysSegments (segments ++ segment ∷ []) text
        → SaysRecord events taken
        → SaysSegments (segments ++ record { configuration = segment.configuration; events = segment.events ++ events } ∷ []) (text ++ taken) }
{}

/// Some text says it, whatever bytes a configuration has.
pub fn each_configuration_is_said()
    ensures { (configuration : List ℕ) → (text : List ℕ) × SaysConfiguration text configuration }
{}
