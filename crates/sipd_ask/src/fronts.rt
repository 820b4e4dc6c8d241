ghost use Rattle.std.specs.Prelude.{◌≡◌};
ghost use Rattle.sipd_ask.specs.Fronts as Definitions;

use sip_text::split_once;

/// What stands before the first of a byte, the whole text where there is none. Takes no memory.
pub(crate) fn front_before(text: &[u8], mark: u8) -> &[u8]
    ensures { result.now ≡ Definitions.front_before mark text.now }
{
    match split_once(text, mark) {
        Some((front, _)) => front,
        None => text,
    }
}
