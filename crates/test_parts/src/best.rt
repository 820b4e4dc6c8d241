use crate::cases::Row;
use sip_best::{Final, better};

/// Two statuses, and whether the first outranks the second (RFC 3261 16.7 step 6).
pub(crate) const RANKS: &[Row] = &[
    Row::Rank(603, 302, true),
    Row::Rank(603, 604, false),
    Row::Rank(302, 603, false),
    Row::Rank(302, 404, true),
    Row::Rank(302, 300, false),
    Row::Rank(401, 404, true),
    Row::Rank(407, 486, true),
    Row::Rank(415, 400, true),
    Row::Rank(420, 499, true),
    Row::Rank(484, 408, true),
    Row::Rank(484, 401, false),
    Row::Rank(404, 401, false),
    Row::Rank(486, 404, false),
    Row::Rank(404, 500, true),
    Row::Rank(503, 500, false),
];

/// An answer that is made here.
fn made(status: u16) -> Final {
    Final {
        status,
        message: None,
    }
}

pub(crate) fn is_ranked(first: u16, second: u16, is_better: bool) -> bool {
    better(&made(first), &made(second)) == is_better
}
