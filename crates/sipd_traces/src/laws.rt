ghost use Rattle.std.specs.Prelude.{◌≡◌, ℕ, List, Option};
ghost use Rattle.std.specs.Io.KnownBytes.{Appends};
ghost use Rattle.std.specs.List.{flat_map};
ghost use Rattle.sip_model.specs.Run.{Link};
ghost use Rattle.sip_listener.specs.Heard.{Heard, Tells, heard_of};
ghost use Rattle.sipd_capture.specs.declared.choice.CaptureChoice.{CaptureChoice};
ghost use Rattle.sipd_telling.specs.Onward.{HearsAll};
ghost use Rattle.sipd_ladder.specs.declared.hearing.Ladder.{Ladder};
ghost use Rattle.sipd_traces.specs.Ladders.{AddsRungs, ladder_behind};
ghost use Rattle.sipd_traces.specs.Traces.{adds_frames, step_frames};

/// What a writer gets of a history, or of steps of several, are their frames, from the first on, in their order, and nothing else.
pub fn capture_is_the_frames()
    ensures history { (choice : CaptureChoice) (old new : Option (List ℕ)) (history : List Link) → Tells (adds_frames choice) old new history
        → Appends old new (flat_map (step_frames choice) (heard_of history)) }
    ensures steps { (choice : CaptureChoice) (old new : Option (List ℕ)) (steps : List Heard) → HearsAll (adds_frames choice) old new steps
        → Appends old new (flat_map (step_frames choice) steps) }
{}

/// What a ladder has of a history, or of steps of several, are their rungs, from the first on, in their order, and nothing else.
pub fn ladder_is_the_rungs()
    ensures history { (old new : Ladder) (history : List Link) → Tells AddsRungs old new history
        → new ≡ ladder_behind old (heard_of history) }
    ensures steps { (old new : Ladder) (steps : List Heard) → HearsAll AddsRungs old new steps
        → new ≡ ladder_behind old steps }
{}
