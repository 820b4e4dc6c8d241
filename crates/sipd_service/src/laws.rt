//! What a new record leaves of a server that serves: its configuration and its word, since it is begun under the configuration in force.
ghost use Rattle.std.specs.Prelude.{◌≡◌, ℕ, List};
ghost use Rattle.sip_config.specs.Stated.{States};
ghost use Rattle.sip_loop.specs.run.engine.Engine.{Engine};
ghost use Rattle.sipd_service.specs.NextRecords.{MayGoOver};
ghost use Rattle.sipd_service.specs.Reloads.{Written};
ghost use Rattle.sipd_service.specs.Turns.{AreTurns, IsAsTold, ServiceSeen};

/// A service whose server is under the configuration in force is so behind any turns; and a new record that is begun by such a one leads to the
/// same server, in a state that is the same ahead.
pub fn new_record_is_of_the_same()
    ensures kept { (n : ℕ) (before after : ServiceSeen) → AreTurns n before after → IsAsTold before → IsAsTold after }
    ensures same { (bytes : List ℕ) (before after : Engine) (written written_then : Written)
        → States bytes before.server.config → MayGoOver bytes before after written written_then → after.server ≡ before.server }
{}
