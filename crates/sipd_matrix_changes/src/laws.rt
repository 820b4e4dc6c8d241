ghost use Rattle.std.specs.Prelude.{◌≡◌, ℕ, ◌<◌, true, false, nat_eq, List, [], Option, count_by};
ghost use Rattle.sip_uri.specs.declared.aor.Aor.{Aor};
ghost use Rattle.sip_policy.specs.declared.operation.Operation.{Operation};
ghost use Rattle.sip_policy.specs.User.{is_users_name};
ghost use Rattle.sip_config_types.specs.declared.config.Config.{Config};
ghost use Rattle.sip_matrix.specs.declared.column.Column.{Column};
ghost use Rattle.sip_matrix.specs.Expected.{is_asker};
ghost use Rattle.sipd_matrix_changes.specs.Both.{are_asked_alike_by_both, ask_alike_of_both, asks_own, column_of, is_in_row, piece_of, table_of, users_of};
ghost use Rattle.sipd_matrix_changes.specs.Change.{is_changed, is_changed_in, is_told};
ghost use Rattle.sipd_matrix_changes.specs.Lines.{changes_text};

/// Whoever asks for whatever, whoever is called and whenever: two configurations make something else of a question exactly where they do in
/// the cell of any row that the asker is of, of any class that is asked about as the address's column, and of the minute's piece of the
/// day. So of the questions of a cell all are decided otherwise, or none is.
pub fn cells_change()
    ensures { (old new : Config) (operation : Operation) (proven row : Option (List ℕ)) (aor : Aor) (class : Column) (minute : ℕ)
        → is_in_row old new proven row ≡ true
        → are_asked_alike_by_both old new (column_of old new aor) class ≡ true
        → is_changed old new operation proven aor minute
        ≡ is_changed_in old new operation row class (asks_own old new proven aor) (piece_of old new minute) }
{}

/// Each user of one of two configurations is of exactly one row of both together, each address of record of exactly one class of columns,
/// and each minute of the day of exactly one piece; who is nobody, or a user of neither, is of nobody's row.
pub fn every_question_has_a_cell()
    ensures row { (old new : Config) (name : List ℕ) → is_users_name (users_of old new) name ≡ true
        → count_by (ask_alike_of_both old new name) (table_of old new).rows ≡ 1 }
    ensures class { (old new : Config) (aor : Aor)
        → count_by (are_asked_alike_by_both old new (column_of old new aor)) (table_of old new).classes ≡ 1 }
    ensures piece { (old new : Config) (minute : ℕ) → minute < 1440
        → count_by (nat_eq (piece_of old new minute)) (table_of old new).pieces ≡ 1 }
{}

/// The cell of a question, in nobody's row or in that of a user of one of both, is told exactly where the two make something else of the
/// question.
pub fn told_where_changed()
    ensures { (old new : Config) (operation : Operation) (proven row : Option (List ℕ)) (aor : Aor) (class : Column) (minute : ℕ)
        → is_asker (users_of old new) row ≡ true
        → is_in_row old new proven row ≡ true
        → are_asked_alike_by_both old new (column_of old new aor) class ≡ true
        → is_told old new operation (table_of old new).columns (piece_of old new minute) class row (asks_own old new proven aor)
        ≡ is_changed old new operation proven aor minute }
{}

/// Where no line is told, nothing changes: whoever asks for whatever at whatever minute of the day, both make the same of it.
pub fn nothing_told_nothing_changes()
    ensures { (old new : Config) (operation : Operation) → changes_text old new operation ≡ []
        → (proven : Option (List ℕ)) (aor : Aor) (minute : ℕ) → minute < 1440 → is_changed old new operation proven aor minute ≡ false }
{}
