ghost use Rattle.std.specs.Prelude.{◌≡◌, ◌≤◌, List, [], ◌∷◌, length};
ghost use Rattle.sip_model.specs.state.declared.server.Server.{Server};
ghost use Rattle.sip_model.specs.steps_model.Step.{originals};
ghost use Rattle.sip_model.specs.Run.{Link, under};
ghost use Rattle.sip_model.specs.Access.{sent_for, Access};

/// Where no request is open, a step sends for the first time what its datagram gets by the verdict on it, by the configuration of the
/// step, and nothing beside; so it sends nothing as time passes. And no step makes two records.
pub fn steps_send_nothing_beside()
    ensures alone { (server : Server) (earlier : List Link) (link : Link) → link.before.requests ≡ [] → Access server (link ∷ earlier)
        → originals link.out.packets ≡ sent_for (under server link.config) link.before link.act }
    ensures recorded { (server : Server) (earlier : List Link) (link : Link) → Access server (link ∷ earlier) → length link.out.records ≤ 1 }
{}
