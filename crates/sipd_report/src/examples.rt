ghost use Rattle.std.specs.Prelude.{◌≡◌, Some, None, true, false, pos, negsuc, ◌++◌, ◌∷◌, [], codes};
ghost use Rattle.sipd_report.specs.declared.query.Form.TheVariants.{Table, Csv};
ghost use Rattle.sipd_report.specs.Calendar.{date_of};
ghost use Rattle.sipd_report.specs.Cells.{row_text, field_text};
ghost use Rattle.sipd_report.specs.Examples.{answered, office_of_2026};
ghost use Rattle.sipd_report.specs.SaidTimes.{AreTimes, AreNoTimes, AreMoments};
ghost use Rattle.sipd_report.specs.Chosen.{is_of_target, is_within};
ghost use Rattle.sipd_report.specs.Rows.{cells_of};
ghost use Rattle.sipd_report.specs.Entries.{lines_of, behind_prefix, is_servers_own, is_by_rule, is_of_user, is_denial, ruling_of};
ghost use Rattle.sipd_report.specs.Times.{offset_text, shown_seconds, time_text};
ghost use Rattle.sipd_report.specs.Zones.{offset_at};
ghost use Rattle.sip_audit.specs.declared.record.AuditOutcome.TheVariants.{Challenge, Deny, Answer};
ghost use Rattle.sipd_report.specs.Totals.{totals_of, in_order};

/// Dates by their number of days since 1 January 1970.
pub fn dates()
    ensures first { date_of 0 ≡ record { year = 1970; month = 1; day = 1 } }
    ensures leap { date_of 11016 ≡ record { year = 2000; month = 2; day = 29 } }
    ensures behind { date_of 11017 ≡ record { year = 2000; month = 3; day = 1 } }
    ensures later { date_of 20784 ≡ record { year = 2026; month = 11; day = 27 } }
    ensures no_leap { date_of 47540 ≡ record { year = 2100; month = 2; day = 28 } }
    ensures behind_it { date_of 47541 ≡ record { year = 2100; month = 3; day = 1 } }
{}

/// A row of CSV, where the office is an hour ahead of UTC.
pub fn csv_row()
    ensures { row_text Csv (cells_of Csv (pos 60) answered)
        ≡ codes "2026-11-27T14:03:36+01:00,7,INVITE,alice,help@host.com,send,4,answer 480,08:00" ++ 13 ∷ 10 ∷ [] }
{}

/// A row of a table, there.
pub fn table_row()
    ensures { row_text Table (cells_of Table (pos 60) answered)
        ≡ codes "2026-11-27 14:03:36+01:00  7         INVITE     alice             help@host.com                     send       4       answer 480      08:00" ++ 10 ∷ [] }
{}

/// Fields that are quoted, and one that isn't.
pub fn csv_field()
    ensures quote { field_text (codes "a\"b") ≡ codes "\"a\"\"b\"" }
    ensures comma { field_text (codes "a,b") ≡ codes "\"a,b\"" }
    ensures plain { field_text (codes "a b") ≡ codes "a b" }
{}

/// What stands behind what journalctl writes in front of a line, and which lines the server writes on standard error.
pub fn journal()
    ensures behind { behind_prefix (codes "Nov 30 10:00:00 host sipd[123]: 17 7") ≡ codes "17 7" }
    ensures none { behind_prefix (codes "17 7 INVITE alice bob@[2001:db8::1]") ≡ [] }
    ensures own { is_servers_own (codes "sipd: serving") ≡ true }
    ensures own_behind { is_servers_own (codes "Nov 30 10:00:00 host sipd[123]: sipd: serving") ≡ true }
    ensures other { is_servers_own (codes "Nov 30 10:00:00 host systemd[1]: Started sipd.service") ≡ false }
{}

/// Totals, each text at its first place.
pub fn totals()
    ensures { totals_of (codes "b" ∷ codes "a" ∷ codes "b" ∷ []) ≡ (codes "b", 2) ∷ (codes "a", 1) ∷ [] }
{}

/// Totals in order: the greatest count first, equal ones by their texts, of which a shorter one that begins alike stands first.
pub fn order_of_totals()
    ensures { in_order ((codes "bob", 2) ∷ (codes "-", 2) ∷ (codes "al", 1) ∷ (codes "bo", 2) ∷ (codes "carol", 7) ∷ [])
        ≡ (codes "carol", 7) ∷ (codes "-", 2) ∷ (codes "bo", 2) ∷ (codes "bob", 2) ∷ (codes "al", 1) ∷ [] }
{}

/// Which lines there are: an empty one is one, and the last may have no LF.
pub fn lines()
    ensures unended { lines_of (codes "a\n\nb") ≡ codes "a" ∷ [] ∷ codes "b" ∷ [] }
    ensures ended { lines_of (codes "a\nb\n") ≡ codes "a" ∷ codes "b" ∷ [] }
{}

/// Rule 0 asks for what no rule matched, which no challenge is; a name asks for that user's alone.
pub fn selection()
    ensures no_rule { is_by_rule (Some 0) (ruling_of (Deny 0)) ≡ true }
    ensures challenge { is_by_rule (Some 0) (ruling_of (Challenge 401)) ≡ false }
    ensures user { is_of_user (Some (codes "alice")) (Some (codes "alice")) ≡ true }
    ensures nobody { is_of_user (Some (codes "alice")) None ≡ false }
    ensures denied { is_denial (Deny 4) ≡ true }
    ensures refused { is_denial (Answer 4 480) ≡ false }
{}

/// A clock that is behind UTC, and one that would show a time before 1970.
pub fn offsets()
    ensures behind { offset_text (negsuc 89) ≡ codes "-01:30" }
    ensures ahead { offset_text (pos 345) ≡ codes "+05:45" }
    ensures start { shown_seconds 3600000 (negsuc 119) ≡ 0 }
{}

/// Dates and times that are said, with the seconds since 1970 began, as `date -u +%s` gives them.
pub fn said_times()
    ensures times { AreTimes }
    ensures none { AreNoTimes }
    ensures moments { AreMoments }
{}

/// A line is within times from the second on that it shows, 14:03:36 an hour ahead of UTC, and not from a later one on; it is before a later
/// one, and not before that; and whom it was for is said with or without the host.
pub fn choice()
    ensures since { is_within (Some 1795788216) None (shown_seconds answered.at (pos 60)) ≡ true }
    ensures later { is_within (Some 1795788217) None (shown_seconds answered.at (pos 60)) ≡ false }
    ensures until { is_within None (Some 1795788217) (shown_seconds answered.at (pos 60)) ≡ true }
    ensures not_before { is_within None (Some 1795788216) (shown_seconds answered.at (pos 60)) ≡ false }
    ensures user { is_of_target (Some (codes "help")) answered.target ≡ true }
    ensures whole { is_of_target (Some (codes "help@host.com")) answered.target ≡ true }
    ensures other { is_of_target (Some (codes "hel")) answered.target ≡ false }
{}

/// A clock that is set from two hours ahead of UTC to one, where that comes into force at 1:00 UTC on 25 October 2026: what it is ahead in front
/// of the first zone, in the one of summer, a millisecond before the change, and from then on.
pub fn clock_set_back()
    ensures front { offset_at office_of_2026 (pos 0) 1774745999999 ≡ pos 0 }
    ensures summer { offset_at office_of_2026 (pos 0) 1774746000000 ≡ pos 120 }
    ensures before { offset_at office_of_2026 (pos 0) 1792889999999 ≡ pos 120 }
    ensures behind { offset_at office_of_2026 (pos 0) 1792890000000 ≡ pos 60 }
    ensures row { time_text Table (offset_at office_of_2026 (pos 0) 1792886400000) 1792886400000 ≡ codes "2026-10-25 02:00:00+02:00" }
{}
