ghost use Rattle.std.specs.Prelude.{◌≡◌, ℕ, false, [], ◌∷◌, ◌++◌, List, filter, option_map};
ghost use Rattle.sip_model.specs.Run.{Link};
ghost use Rattle.sip_auth.specs.Proof.{first_for_realm};
ghost use Rattle.sip_header_credentials.specs.declared.credentials.Credentials.{Credentials};
ghost use Rattle.sip_listener.specs.Heard.{Heard, Tells, heard_of};
ghost use Rattle.sipd_sources.specs.Claims.{given_among};
ghost use Rattle.sipd_sources.specs.Told.{Known, adds_sources, known_with, none, sources_of};
ghost use Rattle.sipd_sources.specs.Own.{HasAddress, HaveAddresses, IsAddress, is_own, source_by, source_in};
ghost use Rattle.sipd_sources.specs.declared.filter.SourceFilter.{SourceFilter};

/// The credentials that are looked at are those by which a server judges who is proven.
pub fn what_is_given_is_what_is_judged()
    ensures { (realm : List ℕ) (values : List (List ℕ))
        → given_among realm values ≡ option_map (λ (c : Credentials). c.username) (first_for_realm realm values) }
{}

/// One more step tells of the addresses what the definition of the longer day says; so a listener that began with none has the addresses of
/// all that it was told.
pub fn sources_grow_by_a_step()
    ensures more { (filter : SourceFilter) (day : List Heard) (step : Heard)
        → sources_of filter (day ++ step ∷ []) ≡ known_with step (sources_of filter day) }
    ensures told { (filter : SourceFilter) (known : Known) (history : List Link)
        → Tells adds_sources (none filter) known history → known ≡ sources_of filter (heard_of history) }
{}

/// What is told of an address is what its own datagrams did that count, and nothing else: how many there are, were asked for a credential, proved
/// a user, or gave a wrong credential, how many different names they tried, and when the first and the last came. Another one's datagram changes
/// nothing of it.
pub fn an_address_is_told_by_its_own_datagrams()
    ensures day { (chosen : SourceFilter) (day : List Heard) (ip : List ℕ) → HaveAddresses day → IsAddress ip
        → source_in ip (sources_of chosen day) ≡ source_by ip (filter (is_own chosen ip) day) }
    ensures others { (known : Known) (step : Heard) (ip : List ℕ) → HasAddress step.event → IsAddress ip → is_own known.filter ip step ≡ false
        → source_in ip (known_with step known) ≡ source_in ip known }
{}
