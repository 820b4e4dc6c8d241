//! What comes of a decision, in words: the verdict, and where the request goes.
ghost use Rattle.std.specs.Prelude.{◌≡◌};
ghost use Rattle.std.specs.Option.{option_copied};
ghost use Rattle.sipd_matrix_forms.specs.Outcome as Definitions;

use sip_hops::Hop;
use sip_policy::{Decision, Operation, ruling_by};
use sipd_matrix::{Cell, Matrix, are_known, hop_at, rule_at};

/// Where what is let through without a hop goes.
fn sent_place(operation: &Operation, known: bool) -> &'static [u8]
    ensures { result.now ≡ Definitions.sent_place operation.now known }
{
    if !known {
        return b"nobody";
    }
    match operation {
        Operation::Register => b"registrar",
        Operation::List => b"registrar",
        Operation::Send(_) => b"bindings",
    }
}

/// Where it goes by a hop.
fn hop_place<'a>(operation: &Operation, known: bool, hop: Option<&'a Hop>) -> &'a [u8]
    ensures { result.now ≡ Definitions.hop_place operation.now known (option_copied hop.entry) }
{
    match operation {
        Operation::Register => sent_place(operation, known),
        Operation::List => sent_place(operation, known),
        Operation::Send(_) => match hop {
            None => b"nobody",
            Some(hop) => hop.name.as_slice(),
        },
    }
}

fn place_of<'a>(operation: &Operation, hops: &'a [Hop], known: bool, decision: Decision) -> &'a [u8]
    ensures { result.now ≡ Definitions.place_of operation.now hops.now known decision }
{
    match decision {
        Decision::Allow(_) => sent_place(operation, known),
        Decision::Via(_, place) => hop_place(operation, known, hop_at(hops, place)),
        Decision::Deny(_) => b"",
        Decision::Challenge => b"",
    }
}

fn via_word(operation: &Operation, hop: Option<&Hop>) -> &'static [u8]
    ensures { result.now ≡ Definitions.via_word operation.now (option_copied hop.entry) }
{
    match operation {
        Operation::Register => b"allow",
        Operation::List => b"allow",
        Operation::Send(_) => match hop {
            Some(_) => b"via",
            None => b"allow",
        },
    }
}

fn verdict_of(operation: &Operation, hops: &[Hop], decision: Decision) -> &'static [u8]
    ensures { result.now ≡ Definitions.verdict_of operation.now hops.now decision }
{
    match decision {
        Decision::Allow(_) => b"allow",
        Decision::Via(_, place) => via_word(operation, hop_at(hops, place)),
        Decision::Deny(_) => b"deny",
        Decision::Challenge => b"challenge",
    }
}

fn decision_at(matrix: &Matrix<'_>, cell: &Cell<'_>, own: bool) -> Decision
    ensures { result ≡ Definitions.decision_at matrix.now.config.now matrix.now.operation.now (option_copied cell.now.row) cell.now.class.now own
        cell.now.piece }
{
    let rule = rule_at(matrix.config, matrix.operation, cell, own);
    ruling_by(rule, cell.row, cell.piece).decision
}

/// The verdict of a cell: `allow`, `via`, `deny` or `challenge`.
pub(crate) fn verdict_at(matrix: &Matrix<'_>, cell: &Cell<'_>, own: bool) -> &'static [u8]
    ensures { result.now ≡ Definitions.verdict_at matrix.now.config.now matrix.now.operation.now (option_copied cell.now.row) cell.now.class.now own
        cell.now.piece }
{
    let decision = decision_at(matrix, cell, own);
    verdict_of(matrix.operation, matrix.config.hops.as_slice(), decision)
}

/// Where the requests of a cell go: to the registrar, to bindings, by a hop of this name, to nobody; nothing, where they aren't let through.
pub(crate) fn place_at<'a>(matrix: &Matrix<'a>, cell: &Cell<'_>, own: bool) -> &'a [u8]
    ensures { result.now ≡ Definitions.place_at matrix.now.config.now matrix.now.operation.now (option_copied cell.now.row) cell.now.class.now own
        cell.now.piece }
{
    let decision = decision_at(matrix, cell, own);
    let known = are_known(matrix.config, cell.class);
    let hops = matrix.config.hops.as_slice();
    place_of(matrix.operation, hops, known, decision)
}
