ghost use Rattle.std.specs.Prelude.{◌≡◌, ◌≢◌, ◌<◌, ◌∷◌, ◌++◌, ℕ, List, [], true, length, Some};
ghost use Rattle.std.specs.List.{list_all};
ghost use Rattle.hex.specs.Hex.{IsBytes};
ghost use Rattle.sip_event.specs.declared.event.Event.{Event};
ghost use Rattle.sip_event.specs.declared.event.Event.TheVariants.{Datagram};
ghost use Rattle.sip_uri.specs.declared.addr.Addr.{Addr};
ghost use Rattle.sip_replay_script.specs.Escaped.{escaped, is_plain, text_bytes_of};
ghost use Rattle.sip_replay_script.specs.EventText.{event_text, is_sayable, older_text, HasTypes};
ghost use Rattle.sip_replay_script.specs.Events.{SaysEvent, SaysEvents, IsNoEvent};
ghost use Rattle.sip_replay_script.specs.Recorded.{SaysRecord, SaysRecorded};

/// A script says its next event in one way: where it begins with a text that says one, no other text that it
/// begins with says an event, and this text no other event.
pub fn next_event_is_one()
    ensures one { (text other more further : List ℕ) (event second : Event) → SaysEvent text event → SaysEvent other second
        → text ++ more ≡ other ++ further → (text ≡ other) × (event ≡ second) }
    ensures something { (text : List ℕ) (event : Event) → SaysEvent text event → text ≢ [] }
{}

/// Where a script says an event next, that isn't refused: a script is refused only where it says none.
pub fn event_is_no_refusal()
    ensures none { (text more : List ℕ) (event : Event) → SaysEvent text event → IsNoEvent (text ++ more) → ⊥ }
    ensures something { (rest : List ℕ) → IsNoEvent rest → rest ≢ [] }
{}

/// What says an event, cut before its end, says none: a script that ends so is refused there.
pub fn cut_event_is_none()
    ensures { (event : Event) (front rest : List ℕ) → SaysEvent (front ++ rest) event → front ≢ [] → rest ≢ [] → IsNoEvent front }
{}

/// A text that says some events, in front of one that says others, says both. What says an event says it alone.
pub fn texts_join()
    ensures both { (events others : List Event) (text more : List ℕ) → SaysEvents events text → SaysEvents others more
        → SaysEvents (events ++ others) (text ++ more) }
    ensures one { (text : List ℕ) (event : Event) → SaysEvent text event → SaysEvents (event ∷ []) text }
{}

/// What is written of an event says that event, and so no other.
pub fn written_event_is_read()
    ensures { (event : Event) → HasTypes event → is_sayable event ≡ true → SaysEvent (event_text event) event }
{}

/// It says it as a record does, and what says events so says them.
pub fn written_event_is_recorded()
    ensures written { (event : Event) → HasTypes event → is_sayable event ≡ true → SaysRecorded (event_text event) event }
    ensures one { (text : List ℕ) (event : Event) → SaysRecorded text event → SaysEvent text event }
    ensures all { (events : List Event) (text : List ℕ) → SaysRecord events text → SaysEvents events text }
{}

/// In a line `text` each datagram has one text, and each text says one datagram at most: what is written of its bytes is read as
/// them, and what is read as them is what is written of them. Bytes that are printable, and none of them `\`, stand there as they are.
pub fn each_datagram_has_one_text()
    ensures read { (bytes : List ℕ) → IsBytes bytes → 0 < length bytes → text_bytes_of (escaped bytes) ≡ Some bytes }
    ensures written { (text bytes : List ℕ) → text_bytes_of text ≡ Some bytes → text ≡ escaped bytes }
    ensures plain { (bytes : List ℕ) → list_all is_plain bytes ≡ true → escaped bytes ≡ bytes }
{}

/// An older record has its datagrams in lines `hex`: what was written of one says it still, as a record does.
pub fn older_line_is_recorded()
    ensures { (moment word : ℕ) (source : Addr) (b : ℕ) (bytes : List ℕ) → HasTypes (Datagram moment word source (b ∷ bytes))
        → is_sayable (Datagram moment word source (b ∷ bytes)) ≡ true
        → SaysRecorded (older_text moment word source (b ∷ bytes)) (Datagram moment word source (b ∷ bytes)) }
{}
