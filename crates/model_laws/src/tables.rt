ghost use Rattle.std.specs.Prelude.{◌≡◌, ◌≤◌, ◌↔◌, ℕ, true, List, length};
ghost use Rattle.sip_model.specs.state.declared.server.Server.{Server};
ghost use Rattle.sip_model.specs.state.declared.proxy_state.ProxyState.{ProxyState};
ghost use Rattle.sip_model.specs.state.State.{first_state};
ghost use Rattle.sip_model.specs.verdict_model.Verdict.{is_full};
ghost use Rattle.sip_model.specs.Run.{Link, IsChain};

/// The table of open requests is full with 1,024 of them, and over no history has it more: what comes then is turned
/// away (this project's profile).
pub fn full_table_has_1024()
    ensures full { (state : ProxyState) → (is_full state ≡ true) ↔ (1024 ≤ length state.requests) }
    ensures most { (server : Server) (first : ℕ) (history : List Link) (last : ProxyState) → IsChain server (first_state first) history last
        → length last.requests ≤ 1024 }
{}
