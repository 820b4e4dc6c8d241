//! Laws on the table of a policy: that its cells are all of it, each question has one, and what a cell says is what is decided.
ghost use Rattle.std.specs.Prelude.{◌≡◌, ℕ, ◌<◌, true, false, nat_eq, List, ◌∷◌, Option, Some, None, count_by};
ghost use Rattle.sip_uri.specs.declared.aor.Aor.{Aor};
ghost use Rattle.sip_policy.specs.declared.operation.Operation.{Operation};
ghost use Rattle.sip_policy.specs.declared.user.User.{User};
ghost use Rattle.sip_policy.specs.declared.rule.Rule.{Rule};
ghost use Rattle.sip_policy.specs.User.{is_users_name, is_users_address};
ghost use Rattle.sip_policy.specs.Decision.{deciding_rule, decision_of};
ghost use Rattle.sip_matrix.specs.declared.column.Column.{Column};
ghost use Rattle.sip_matrix.specs.declared.expectation.Expectation.{Expectation};
ghost use Rattle.sip_matrix.specs.Asker.{ask_alike, is_in_row, is_own, rows_of};
ghost use Rattle.sip_matrix.specs.Column.{are_asked_alike, is_known};
ghost use Rattle.sip_matrix.specs.Address.{column_of};
ghost use Rattle.sip_matrix.specs.Day.{piece_of, pieces_of};
ghost use Rattle.sip_matrix.specs.Cell.{decision_in, rule_in};
ghost use Rattle.sip_matrix.specs.Finer.{AreAmong};
ghost use Rattle.sip_matrix.specs.Own.{has_others, has_own, AsksForOther, AsksForOwn};
ghost use Rattle.sip_matrix.specs.Table.{classes_of, columns_of};
ghost use Rattle.sip_matrix.specs.Example.{are_plain};
ghost use Rattle.sip_matrix.specs.Expected.{is_fault, is_free, pattern_of};

/// Whoever asks for whatever, whoever is called and whenever: the rule that decides, and the decision, are those
/// of the cell of any row that the asker is of, of any column that is asked about as the address's own, and of the
/// minute's piece of the day, where the address is the asker's own as it is in the question. So two questions of
/// one cell are decided alike.
pub fn cells_decide()
    ensures rule { (rules : List Rule) (users : List User) (domains : List (List ℕ)) (proven row : Option (List ℕ))
        (operation : Operation) (aor : Aor) (column : Column) (minute : ℕ)
        → is_in_row rules users proven row ≡ true
        → are_asked_alike rules users domains (column_of rules users domains aor) column ≡ true
        → deciding_rule rules users domains proven operation aor minute
        ≡ rule_in rules users row operation column (is_own users domains proven aor) (piece_of rules minute) }
    ensures decision { (rules : List Rule) (users : List User) (domains : List (List ℕ)) (proven row : Option (List ℕ))
        (operation : Operation) (aor : Aor) (column : Column) (minute : ℕ)
        → is_in_row rules users proven row ≡ true
        → are_asked_alike rules users domains (column_of rules users domains aor) column ≡ true
        → decision_of rules users domains proven operation aor minute
        ≡ decision_in rules users row operation column (is_own users domains proven aor) (piece_of rules minute) }
    ensures known { (rules : List Rule) (users : List User) (domains : List (List ℕ)) (aor : Aor) (column : Column)
        → are_asked_alike rules users domains (column_of rules users domains aor) column ≡ true
        → is_users_address users domains aor ≡ is_known users domains column }
{}

/// The same in the cells of a finer table, whose columns and pieces are told apart by more rules, users and own domains, among which
/// these are.
pub fn finer_cells_decide()
    ensures rule { (rules all : List Rule) (users everybody : List User) (domains further : List (List ℕ)) (proven row : Option (List ℕ))
        (operation : Operation) (aor : Aor) (column : Column) (minute : ℕ)
        → AreAmong rules all
        → is_in_row rules users proven row ≡ true
        → are_asked_alike rules users domains (column_of all everybody further aor) column ≡ true
        → deciding_rule rules users domains proven operation aor minute
        ≡ rule_in rules users row operation column (is_own users domains proven aor) (piece_of all minute) }
    ensures decision { (rules all : List Rule) (users everybody : List User) (domains further : List (List ℕ)) (proven row : Option (List ℕ))
        (operation : Operation) (aor : Aor) (column : Column) (minute : ℕ)
        → AreAmong rules all
        → is_in_row rules users proven row ≡ true
        → are_asked_alike rules users domains (column_of all everybody further aor) column ≡ true
        → decision_of rules users domains proven operation aor minute
        ≡ decision_in rules users row operation column (is_own users domains proven aor) (piece_of all minute) }
    ensures known { (rules all : List Rule) (users everybody : List User) (domains further : List (List ℕ)) (aor : Aor) (column : Column)
        → AreAmong users everybody → AreAmong domains further
        → are_asked_alike rules users domains (column_of all everybody further aor) column ≡ true
        → is_users_address users domains aor ≡ is_known users domains column }
{}

/// Each configured user is of exactly one row of the table, each address of record of exactly one class of columns,
/// and each minute of the day of exactly one piece. So each question has exactly one cell; who is nobody is of
/// nobody's row.
pub fn every_question_has_a_cell()
    ensures row { (rules : List Rule) (users : List User) (name : List ℕ) → is_users_name users name ≡ true
        → count_by (ask_alike rules users name) (rows_of rules users) ≡ 1 }
    ensures column { (rules : List Rule) (users : List User) (domains : List (List ℕ)) (aor : Aor)
        → count_by (are_asked_alike rules users domains (column_of rules users domains aor)) (classes_of rules users domains) ≡ 1 }
    ensures piece { (rules : List Rule) (minute : ℕ) → minute < 1440
        → count_by (nat_eq (piece_of rules minute)) (pieces_of rules) ≡ 1 }
{}

/// A user's own address, as `self` means it, is a configured user's in an own domain; with nobody proven each such address is taken
/// for the asker's own, and no other. So a cell has a second value for such addresses alone.
pub fn own_addresses_are_known()
    ensures user { (users : List User) (domains : List (List ℕ)) (name : List ℕ) (aor : Aor) → is_users_name users name ≡ true
        → is_own users domains (Some name) aor ≡ true → is_users_address users domains aor ≡ true }
    ensures nobody { (users : List User) (domains : List (List ℕ)) (aor : Aor)
        → is_own users domains None aor ≡ is_users_address users domains aor }
{}

/// Users of a row may ask for addresses of their own in a class exactly where a cell has a value for these: some user of the row has one that is
/// asked about as the class.
pub fn own_values_are_asked()
    ensures asked { (rules : List Rule) (users : List User) (domains : List (List ℕ)) (class : Column) (row : List ℕ)
        → AsksForOwn rules users domains class row → has_own rules users domains (columns_of rules users domains) class row ≡ true }
    ensures only { (rules : List Rule) (users : List User) (domains : List (List ℕ)) (class : Column) (row : List ℕ)
        → has_own rules users domains (columns_of rules users domains) class row ≡ true → AsksForOwn rules users domains class row }
{}

/// Where a user of a row asks for an address in a class that isn't his own, the class is said to have one for the row. So the rule that
/// decides about it isn't told as one that decides nothing.
pub fn others_are_asked_for()
    ensures { (rules : List Rule) (users : List User) (domains : List (List ℕ)) (class : Column) (row : List ℕ)
        → AsksForOther rules users domains class row → has_others rules users domains (columns_of rules users domains) class row ≡ true }
{}

/// What is decided as expected at an example of each class of questions is decided so everywhere: for each user and nobody, each operation,
/// each address of record and each minute of the day.
pub fn examples_stand_for_all()
    ensures { (rules : List Rule) (users : List User) (domains : List (List ℕ)) (e : Expectation)
        → are_plain (pattern_of e ∷ rules) users domains ≡ true → is_free rules users domains e ≡ true
        → (proven : Option (List ℕ)) (operation : Operation) (aor : Aor) (minute : ℕ) → is_fault rules users domains e proven operation aor minute ≡ false }
{}
