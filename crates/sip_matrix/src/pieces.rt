//! Pieces of the day, in each of which the same rules hold.
ghost use Rattle.std.specs.Prelude.{◌≡◌, ◌++◌, ◌∷◌, [], if◌then◌else◌, IfOk, OnOk};
ghost use Rattle.std.specs.List.{list_any};
ghost use Rattle.sip_matrix.specs.Day as Definitions;

use sip_policy::{Rule, Window};
use sip_text::Items;
use std::alloc::{AllocError, Global};

/// The minutes of a day.
pub(crate) const DAY: u16 = 1_440;

/// Whether a window, if there is one, begins or ends at a minute.
fn is_bound_of(minute: u16, window: Option<Window>) -> bool
    ensures { result ≡ Definitions.is_bound_of minute window }
{
    match window {
        Some(window) => minute == window.from || minute == window.until,
        None => false,
    }
}

/// Whether some rule's window begins or ends at a minute.
fn bounds_window(rules: &[Rule], minute: u16) -> bool
    ensures { result ≡ list_any (λ rule. Definitions.is_bound_of minute rule.window) rules.now }
{
    rules.iter().any(|rule| is_bound_of(minute, rule.window))
}

fn begins_piece(rules: &[Rule], minute: u16) -> bool
    ensures { result ≡ Definitions.begins_piece rules.now minute }
{
    minute == 0 || bounds_window(rules, minute)
}

/// Adds a minute, if a piece begins there.
fn add_piece(pieces: &mut Items<u16>, rules: &[Rule], minute: u16) -> Result<(), AllocError>
    ensures { OnOk result (pieces.new ≡ (if Definitions.begins_piece rules.now minute then pieces.old ++ minute ∷ [] else pieces.old)) }
{
    if begins_piece(rules, minute) {
        pieces.push(minute)
    } else {
        Ok(())
    }
}

/// The first minutes of the pieces of the day, rising. `AllocError` is the only refusal.
pub fn pieces_of(alloc: Global, rules: &[Rule]) -> Result<Items<u16>, AllocError>
    ensures { IfOk result (λ pieces. pieces ≡ Definitions.pieces_of rules.now) }
{
    let mut pieces = Items::new(alloc);
    for minute in 0..DAY {
        add_piece(&mut pieces, rules, minute)?;
    }
    Ok(pieces)
}
