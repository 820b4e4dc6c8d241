//! Worked examples of the table, as contracts that compute.
ghost use Rattle.std.specs.Prelude.{◌≡◌, [], ◌∷◌, true, false, codes, Some, None};
ghost use Rattle.sip_uri.specs.Examples.{sample_domains};
ghost use Rattle.sip_policy.specs.declared.decision.Decision.{Decision};
ghost use Rattle.sip_policy.specs.Examples.{sample_rules, sample_users};
ghost use Rattle.sip_matrix.specs.declared.column.Column.TheVariants.{Elsewhere};
ghost use Rattle.sip_matrix.specs.Asker.{rows_of};
ghost use Rattle.sip_matrix.specs.Table.{columns_of, classes_of, named, begins};
ghost use Rattle.sip_matrix.specs.declared.expectation.Times.{Times};
ghost use Rattle.sip_matrix.specs.declared.expectation.ExpectedDestination.{ExpectedDestination};
ghost use Rattle.sip_matrix.specs.Examples.{column_at, invited, is_outside_fault};

/// The sample has two rows of users, since no rule tells `help` from `alice`, and seven columns: six at host.com, of
/// which two are decided alike.
pub fn sample_table()
    ensures rows { rows_of sample_rules sample_users ≡ codes "Mufasa" ∷ codes "alice" ∷ [] }
    ensures columns { columns_of sample_rules sample_users sample_domains
        ≡ named (codes "Mufasa") (codes "host.com")
        ∷ named (codes "alice") (codes "host.com")
        ∷ named (codes "help") (codes "host.com")
        ∷ begins [] (codes "host.com")
        ∷ named (codes "vault") (codes "host.com")
        ∷ begins (codes "9") (codes "host.com")
        ∷ Elsewhere
        ∷ [] }
    ensures classes { classes_of sample_rules sample_users sample_domains
        ≡ named (codes "Mufasa") (codes "host.com")
        ∷ named (codes "help") (codes "host.com")
        ∷ begins [] (codes "host.com")
        ∷ named (codes "vault") (codes "host.com")
        ∷ begins (codes "9") (codes "host.com")
        ∷ Elsewhere
        ∷ [] }
{}

/// In which column an address is.
pub fn sample_columns()
    ensures user { column_at (codes "alice") ≡ named (codes "alice") (codes "host.com") }
    ensures vault { column_at (codes "vault") ≡ named (codes "vault") (codes "host.com") }
    ensures outside { column_at (codes "911") ≡ begins (codes "9") (codes "host.com") }
    ensures nobody { column_at (codes "x") ≡ begins [] (codes "host.com") }
{}

/// What is decided of an INVITE in some cells.
pub fn sample_cells()
    ensures staff { invited (Some (codes "Mufasa")) (begins (codes "9") (codes "host.com")) ≡ Decision.Via 5 0 }
    ensures others { invited (Some (codes "alice")) (begins (codes "9") (codes "host.com")) ≡ Decision.Allow 6 }
    ensures nobody { invited None (begins (codes "9") (codes "host.com")) ≡ Decision.Challenge }
    ensures help { invited None (named (codes "help") (codes "host.com")) ≡ Decision.Allow 4 }
    ensures vault { invited (Some (codes "Mufasa")) (named (codes "vault") (codes "host.com")) ≡ Decision.Deny 3 }
    ensures elsewhere { invited (Some (codes "Mufasa")) Elsewhere ≡ Decision.Deny 0 }
{}

/// What of calls to 911, at 8:00, isn't as it is expected to be: staff goes by the hop, others are let through, and nobody is.
pub fn sample_faults()
    ensures staff { is_outside_fault Times.Always (ExpectedDestination.Hop 0) (Some (codes "Mufasa")) ≡ false }
    ensures others { is_outside_fault Times.Always (ExpectedDestination.Hop 0) (Some (codes "alice")) ≡ true }
    ensures anywhere { is_outside_fault Times.Always ExpectedDestination.Anywhere (Some (codes "alice")) ≡ false }
    ensures bindings { is_outside_fault Times.Always ExpectedDestination.Bindings (Some (codes "alice")) ≡ true }
    ensures no_user { is_outside_fault Times.Never ExpectedDestination.Anywhere (Some (codes "scar")) ≡ false }
    ensures nobody { is_outside_fault Times.Always ExpectedDestination.Anywhere None ≡ true }
    ensures never { is_outside_fault Times.Never ExpectedDestination.Anywhere None ≡ false }
    ensures outside_of_times { is_outside_fault (Times.Within (record { from = 481; until = 480 })) ExpectedDestination.Anywhere
        (Some (codes "alice")) ≡ true }
{}
