ghost use Rattle.std.specs.Prelude.{◌≡◌, ℕ, ◌<◌, ◌==◌, true, List, Option};
ghost use Rattle.std.specs.List.{list_any};
ghost use Rattle.sip_uri.specs.declared.aor.Aor.{Aor};
ghost use Rattle.sip_policy.specs.declared.operation.Operation.{Operation};
ghost use Rattle.sip_policy.specs.Decision.{deciding_rule};
ghost use Rattle.sip_policy.specs.User.{is_in_group};
ghost use Rattle.sip_config_types.specs.declared.config.Config.{Config};
ghost use Rattle.sip_matrix.specs.Asker.{ask_alike};
ghost use Rattle.sip_matrix.specs.Expected.{is_asker};
ghost use Rattle.sip_matrix.specs.Table.{table_of};
ghost use Rattle.sipd_matrix.specs.Cells.{number_of, numbers_of};
ghost use Rattle.sipd_matrix.specs.Unused.{is_named};

/// Whoever asks for whatever, nobody or a configured user, for whatever address at whatever minute of the day: the number of the rule that
/// decides is among those that are told to decide something. So no rule is said to decide nothing by which a question is decided.
pub fn deciding_rules_are_numbered()
    ensures { (config : Config) (operation : Operation) (proven : Option (List ℕ)) (aor : Aor) (minute : ℕ)
        → is_asker config.users proven ≡ true → minute < 1440
        → list_any (λ number. number == number_of (deciding_rule config.rules config.users config.own.domains proven operation aor minute))
        (numbers_of config operation (table_of config.rules config.users config.own.domains)) ≡ true }
{}

/// A user of a row is of a group that some rule names exactly where the first of the row is. So the groups that are told of one are those of
/// all.
pub fn users_of_a_row_are_of_its_groups()
    ensures { (config : Config) (row name group : List ℕ)
        → ask_alike config.rules config.users row name ≡ true → is_named config.rules group ≡ true
        → is_in_group config.users row group ≡ is_in_group config.users name group }
{}
