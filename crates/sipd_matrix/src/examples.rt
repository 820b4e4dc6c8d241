//! Worked examples of cells, and of lines of the text, as contracts that compute.
ghost use Rattle.std.specs.Prelude.{◌≡◌, [], ◌∷◌, codes};
ghost use Rattle.sip_policy.specs.declared.operation.Operation.{Operation};
ghost use Rattle.sip_policy.specs.Examples.{rule_1, rule_3, rule_4};
ghost use Rattle.sip_config_types.specs.Sample.{sample};
ghost use Rattle.sip_matrix.specs.declared.column.Column.TheVariants.{Elsewhere};
ghost use Rattle.sip_matrix.specs.Table.{named, begins};
ghost use Rattle.sipd_matrix.specs.Examples.{numbers_in, sample_line, sample_numbers, sample_of_mufasa, sample_with_a_denial};
ghost use Rattle.sipd_matrix.specs.Text.{row_line, unnamed, unused_line};
ghost use Rattle.sipd_matrix.specs.Unused.{group_line};

/// Lines of the sample's table for INVITE: of who asks, nobody, staff and the others.
pub fn invite_lines()
    ensures users { sample_line (Operation.Send (codes "INVITE")) (named (codes "Mufasa") (codes "host.com"))
        ≡ codes "6?         6+         6+          Mufasa@host.com alice@host.com\n" }
    ensures help { sample_line (Operation.Send (codes "INVITE")) (named (codes "help") (codes "host.com"))
        ≡ codes "4+         4+         4+          help@host.com\n" }
    ensures outside { sample_line (Operation.Send (codes "INVITE")) (begins (codes "9") (codes "host.com"))
        ≡ codes "5?         5>gw       6!          9*@host.com\n" }
    ensures others { sample_line (Operation.Send (codes "INVITE")) (begins [] (codes "host.com"))
        ≡ codes "6?         6!         6!          *@host.com\n" }
    ensures elsewhere { sample_line (Operation.Send (codes "INVITE")) Elsewhere
        ≡ codes "0-         0-         0-          any other host\n" }
{}

/// Each user registers his own address, and no other.
pub fn register_lines()
    ensures users { sample_line Operation.Register (named (codes "Mufasa") (codes "host.com"))
        ≡ codes "1?         0-/1+      0-/1+       Mufasa@host.com alice@host.com\n" }
    ensures outside { sample_line Operation.Register (begins (codes "9") (codes "host.com"))
        ≡ codes "0-         0-         0-          9*@host.com\n" }
{}

/// Which rules decide in a cell: where a user may ask for his own address, also the one that decides about that; and where no user of the
/// row may ask for another's, that one alone.
pub fn numbers_of_cells()
    ensures own { sample_numbers Operation.Register (named (codes "Mufasa") (codes "host.com")) (codes "Mufasa") ≡ 0 ∷ 1 ∷ [] }
    ensures others { sample_numbers Operation.Register (named (codes "help") (codes "host.com")) (codes "Mufasa") ≡ 0 ∷ [] }
    ensures alone { numbers_in sample_of_mufasa Operation.Register (named (codes "Mufasa") (codes "host.com")) (codes "Mufasa") ≡ 1 ∷ [] }
{}

/// Which users a row is of, and which groups that rules name.
pub fn row_lines()
    ensures staff { row_line sample (codes "Mufasa") ≡ codes "as Mufasa ask: Mufasa, of staff\n" }
    ensures others { row_line sample (codes "alice") ≡ codes "as alice ask: alice help\n" }
    ensures of_no_group { row_line sample_with_a_denial (codes "Mufasa") ≡ codes "as Mufasa ask: Mufasa alice help\n" }
{}

/// A rule for the operation that decides nothing is told, a hop by which none sends, and a group that none names; what is used isn't, nor is
/// a rule for another operation.
pub fn unused_lines()
    ensures rule { unused_line (Operation.Send (codes "INVITE")) (4 ∷ 6 ∷ []) rule_3 ≡ codes "rule 3 decides nothing here\n" }
    ensures used_rule { unused_line (Operation.Send (codes "INVITE")) (4 ∷ 6 ∷ []) rule_4 ≡ [] }
    ensures another_operation { unused_line (Operation.Send (codes "INVITE")) (4 ∷ 6 ∷ []) rule_1 ≡ [] }
    ensures hop_and_group { unnamed sample_with_a_denial ≡ codes "no rule sends by hop gw\nno rule names group staff of Mufasa\n" }
    ensures another_group { group_line sample.rules (codes "alice") (codes "interns") ≡ codes "no rule names group interns of alice\n" }
    ensures used { unnamed sample ≡ [] }
{}
