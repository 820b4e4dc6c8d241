ghost use Rattle.std.specs.Prelude.{◌↔◌, [], ◌∷◌, ℕ, List, Option};
ghost use Rattle.sip_event.specs.declared.event.Event.{Event};
ghost use Rattle.sip_event.specs.declared.event.StepOut.{StepOut};
ghost use Rattle.sip_config_types.specs.declared.config.Config.{Config};
ghost use Rattle.model_steps.specs.state.declared.server.Server.{Server};
ghost use Rattle.model_steps.specs.state.declared.proxy_state.ProxyState.{ProxyState};
ghost use Rattle.model_steps.specs.state.State.{first_state};
ghost use Rattle.sip_model.specs.Run.{Link, IsChain, IsRun, under};
ghost use Rattle.sip_model.specs.Periods.{Period, events_in, HasRunUnder, IsOneHistory, IsRunUnder};
ghost use Rattle.sip_model.specs.Access.{Access};

/// A run over periods, each under a configuration of its own, is one history: each step goes on from where the one before it led, and
/// is taken by the configuration in force then, whichever were in force before. So each step is lawful by all that went before: each
/// valid new request outside a dialog is sent to exactly the unexpired bindings or the configured hop that the first matching rule of
/// the configuration in force at that step gives its proven user; bindings change or are listed exactly as a REGISTER says that the
/// configuration of its step allowed; every policy denial is a 403 whose Warning names that configuration's rule; all else sent belongs
/// to an open request or known dialog, whichever configuration was in force when it was opened.
pub fn runs_under_are_one()
    ensures one { (server : Server) (first : ProxyState) (periods : List Period) (until : Option ℕ) (steps : List StepOut)
        (history : List Link) (last : ProxyState)
        → IsRunUnder server first periods until steps history last
        → IsOneHistory server first (events_in periods) until steps history last }
    ensures access { (server : Server) (first : ℕ) (periods : List Period) (until : Option ℕ) (steps : List StepOut)
        (history : List Link) (last : ProxyState)
        → IsRunUnder server (first_state first) periods until steps history last → Access server history }
{}

/// Where one configuration is in force all the time, that is a run of a server of this configuration, and each such run is one.
pub fn under_one_is_a_run()
    ensures { (server : Server) (first : ProxyState) (config : Config) (events : List Event) (until : Option ℕ) (steps : List StepOut)
        (history : List Link) (last : ProxyState)
        → (IsRunUnder server first (record { config = config; events = events } ∷ []) until steps history last
        ↔ IsRun (under server config) first events until steps history last) }
{}

/// Every list of periods has a run, from wherever a history from a first state leads to: a change of the configuration is never in
/// the way of what stands.
pub fn every_list_of_periods_has_a_run()
    ensures { (server : Server) (first : ℕ) (history : List Link) (state : ProxyState) (periods : List Period) (until : Option ℕ)
        → IsChain server (first_state first) history state → HasRunUnder server state periods until }
{}

/// A history of a server is one of the server under another configuration: what was reached before a change stays reached behind it.
pub fn histories_are_under_each()
    ensures { (server : Server) (config : Config) (first : ProxyState) (history : List Link) (last : ProxyState)
        → (IsChain server first history last ↔ IsChain (under server config) first history last) }
{}
