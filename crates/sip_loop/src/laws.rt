ghost use Rattle.std.specs.Prelude.{◌≡◌, ℕ, List, None, Some};
ghost use Rattle.sip_model.specs.TimerOrder.{Standing};
ghost use Rattle.sip_model.specs.state.declared.server.Server.{Server};
ghost use Rattle.sip_loop.specs.Replays.{ReplaysTo};
ghost use Rattle.sip_loop.specs.Serving.{IsServed, IsUnserved, Told, ahead, gathered, steps_taken};
ghost use Rattle.sip_loop.specs.declared.serve_error.ServeError.{ServeError};

/// What a record replays is what was served: where the journal tells its bytes, these grew by a text that says exactly the events that
/// were taken, and the steps that were taken, from the state in which the engine was to the one in which it is, are a run over these
/// events, each in its turn. Where serving was refused, time may have passed behind them, up to the moment of an event that wasn't taken.
/// A text says one list of events alone (`script_says_one_list` of `sip_replay`), and a replay of it, or a server that goes on from it,
/// takes a run over that list from there.
pub fn replayed_is_served()
    ensures served { (turns : ℕ) (server : Server) (old new : Standing) (before after : Told) (front all : List ℕ)
        → (served : IsServed turns server old new before after) → before.journal.bytes ≡ Some (Some front) → after.journal.bytes ≡ Some (Some all)
        → ReplaysTo server old new front all None (gathered steps_taken served.done) }
    ensures unserved { (turns : ℕ) (server : Server) (old new : Standing) (before after : Told) (e : ServeError) (front all : List ℕ)
        → (unserved : IsUnserved turns server old new before after e) → before.journal.bytes ≡ Some (Some front)
        → after.journal.bytes ≡ Some (Some all) → ReplaysTo server old new front all (ahead unserved.done) (gathered steps_taken unserved.done) }
{}
