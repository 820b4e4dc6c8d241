ghost use Rattle.std.specs.Prelude.{◌≡◌, ℕ, ◌<◌, ◌++◌, true, List, Option, count_by};
ghost use Rattle.std.specs.List.{flat_map};
ghost use Rattle.sip_uri.specs.declared.aor.Aor.{Aor};
ghost use Rattle.sip_policy.specs.declared.decision.Decision.{Decision};
ghost use Rattle.sip_policy.specs.declared.operation.Operation.{Operation};
ghost use Rattle.sip_policy.specs.Decision.{deciding_rule};
ghost use Rattle.sip_policy.specs.User.{is_users_address};
ghost use Rattle.sip_config_types.specs.declared.config.Config.{Config};
ghost use Rattle.sip_matrix.specs.declared.table.PolicyTable.{PolicyTable};
ghost use Rattle.sip_matrix.specs.Expected.{is_asker};
ghost use Rattle.sip_matrix.specs.Table.{columns_of, table_of};
ghost use Rattle.sipd_ask.specs.Destination.{destination_of};
ghost use Rattle.sipd_matrix.specs.Cells.{mark_of, number_at, number_of};
ghost use Rattle.sipd_matrix_forms.specs.Cells.{Cell, cells_of, is_of};
ghost use Rattle.sipd_matrix_forms.specs.Destinations.{place_by, sign_by};
ghost use Rattle.sipd_matrix_forms.specs.Outcome.{place_of};
ghost use Rattle.sipd_matrix_forms.specs.Csv.{csv_of, header, line_of, own_at};

/// Each question, of nobody or a configured user, for whatever address at whatever minute of the day, is of exactly one cell.
pub fn each_question_has_one_cell()
    ensures { (config : Config) (operation : Operation) (proven : Option (List ℕ)) (aor : Aor) (minute : ℕ)
        → is_asker config.users proven ≡ true → minute < 1440
        → count_by (is_of config operation (columns_of config.rules config.users config.own.domains) proven aor minute)
        (cells_of config operation (table_of config.rules config.users config.own.domains)) ≡ 1 }
{}

/// The rule that decides about a question is the one in the line of its cell.
pub fn its_line_decides()
    ensures { (config : Config) (operation : Operation) (proven : Option (List ℕ)) (aor : Aor) (minute : ℕ) (cell : Cell)
        → is_asker config.users proven ≡ true
        → is_of config operation (columns_of config.rules config.users config.own.domains) proven aor minute cell ≡ true
        → number_of (deciding_rule config.rules config.users config.own.domains proven operation aor minute)
        ≡ number_at config operation cell.row cell.class (own_at config cell.class cell.row cell.second) cell.piece }
{}

/// What comes of a decision is in a cell, and in the last field of its line, where `decide` says that the request goes, which by its law
/// leads to the targets of the model: to the registrar or to bindings, by a hop, to nobody, or nowhere, where it is denied or asked for a
/// proof.
pub fn places_are_the_destinations()
    ensures sign { (config : Config) (operation : Operation) (aor : Aor) (decision : Decision)
        → mark_of operation config.hops (is_users_address config.users config.own.domains aor) decision
        ≡ sign_by config.hops decision (destination_of config operation aor decision) }
    ensures place { (config : Config) (operation : Operation) (aor : Aor) (decision : Decision)
        → place_of operation config.hops (is_users_address config.users config.own.domains aor) decision
        ≡ place_by config.hops (destination_of config operation aor decision) }
{}

/// Behind the names of the fields there is a line for each cell, and no other.
pub fn each_cell_has_one_line()
    ensures { (config : Config) (operation : Operation) (table : PolicyTable)
        → csv_of config operation table ≡ header ++ flat_map (line_of config operation table) (cells_of config operation table) }
{}
