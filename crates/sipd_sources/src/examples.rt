ghost use Rattle.std.specs.Prelude.{◌≡◌, ℕ, [], ◌∷◌, List, codes, map};
ghost use Rattle.sip_config_types.specs.declared.config.Config.{Config};
ghost use Rattle.sipd_calls.specs.declared.notation.Notation.TheVariants.{Csv, Json};
ghost use Rattle.sipd_sources.specs.declared.source.Source.{Source};
ghost use Rattle.sipd_sources.specs.Cells.{names, source_row};
ghost use Rattle.sipd_sources.specs.Example as Days;
ghost use Rattle.sipd_sources.specs.Program.{source_text};
ghost use Rattle.sipd_sources.specs.Ranking.{ranked_of};
ghost use Rattle.sipd_sources.specs.Told.{sources_of};

/// A phone that is well, one with an old password, and a scanner, in the order in which they are shown: the second has three wrong credentials
/// and one name, the third three names. A credential whose nonce alone was wrong is none of the wrong ones, nor is one for another realm.
pub fn sources_example()
    ensures numbers { (config : Config) → map (λ (row : ℕ × Source). Days.numbers_of row.1) (ranked_of (sources_of Days.everything (Days.day config)).rows)
        ≡ (4 ∷ 4 ∷ 0 ∷ 3 ∷ 1 ∷ []) ∷ (3 ∷ 3 ∷ 0 ∷ 1 ∷ 3 ∷ []) ∷ (4 ∷ 2 ∷ 2 ∷ 0 ∷ 1 ∷ []) ∷ [] }
    ensures times { (config : Config) → map (λ (row : ℕ × Source). Days.times_of row.1) (ranked_of (sources_of Days.everything (Days.day config)).rows)
        ≡ (3000 ∷ 6000 ∷ []) ∷ (7000 ∷ 9000 ∷ []) ∷ (1000 ∷ 3601000 ∷ []) ∷ [] }
    ensures chosen { (config : Config) → map (λ (row : ℕ × Source). Days.numbers_of row.1) (sources_of (Days.from_phone 6) (Days.day config)).rows
        ≡ (4 ∷ 4 ∷ 0 ∷ 3 ∷ 1 ∷ []) ∷ [] }
    ensures in_time { (config : Config) → (sources_of Days.first_hour (Days.day config)).rows ≡ [] }
{}

/// Of two addresses with as many wrong credentials the lower one comes first.
pub fn order_example()
    ensures { map (λ (row : ℕ × Source). row.1.heard) (ranked_of (Days.gave 1 2 ∷ Days.gave 2 7 ∷ Days.gave 3 2 ∷ [])) ≡ 2 ∷ 1 ∷ 3 ∷ [] }
{}

/// How an address is written.
pub fn source_row_example()
    ensures head { names ≡ codes "address         heard    asked  proven wrong names first          last\n" }
    ensures row { source_row Days.old_password
        ≡ codes "192.0.2.6       2880     1440   0      1440  1     01-01 01:00:01 01-02 00:59:59\n" }
    ensures csv { source_text Csv Days.old_password
        ≡ codes "192.0.2.6,2880,1440,0,1440,1,1970-01-01T01:00:01+01:00,1970-01-02T00:59:59+01:00\r\n" }
    ensures json { source_text Json Days.old_password
        ≡ codes "{\"address\":\"192.0.2.6\",\"heard\":2880,\"asked\":1440,\"proven\":0,\"wrong\":1440,\"names\":1,\"first\":\"1970-01-01T01:00:01+01:00\",\"last\":\"1970-01-02T00:59:59+01:00\"}\n" }
{}
