ghost use Rattle.std.specs.Prelude.{◌≡◌, true, fold};
ghost use Rattle.sip_dialog.specs.DialogId.{is_same_dialog};
ghost use Rattle.sip_dialog.specs.Naming.{in_order, text_fed, name_fed};

use crate::dialog::DialogId;
use sip_text::same_bytes;
use std::cmp::Ordering;
use std::hash::{Hash, Hasher};

/// Whether two names are of one dialog: one Call-ID, and the same tags in either order, since a proxy sees
/// the requests of both sides (RFC 3261 12). Takes no memory.
pub fn is_same_dialog(a: &DialogId, b: &DialogId) -> bool
    ensures { result ≡ is_same_dialog a.now b.now }
{
    let (a_from, a_to) = (a.from_tag.get().as_slice(), a.to_tag.as_slice());
    let (b_from, b_to) = (b.from_tag.get().as_slice(), b.to_tag.as_slice());
    a.call_id.get().as_slice() == b.call_id.get().as_slice()
        && ((a_from == b_from && a_to == b_to) || (a_from == b_to && a_to == b_from))
}

/// Only where two names are equal, byte by byte, the tags in their order. Takes no memory.
pub(crate) fn is_same_name(a: &DialogId, b: &DialogId) -> bool
    ensures { result ≡ true → a.now ≡ b.now }
{
    if !same_bytes(a.call_id.get().as_slice(), b.call_id.get().as_slice()) {
        return false;
    }
    if !same_bytes(a.from_tag.get().as_slice(), b.from_tag.get().as_slice()) {
        return false;
    }
    same_bytes(a.to_tag.as_slice(), b.to_tag.as_slice())
}

/// Two tags in one order, whichever came first.
fn in_order<'a>(a: &'a [u8], b: &'a [u8]) -> (&'a [u8], &'a [u8])
    ensures { (result.0.now, result.1.now) ≡ in_order a.now b.now }
{
    match a.cmp(b) {
        Ordering::Greater => (b, a),
        Ordering::Less | Ordering::Equal => (a, b),
    }
}

/// Feeds a text after its length, so that no text runs into the next one.
fn feed<H: Hasher>(state: &mut H, text: &[u8])
    ensures { state.new ≡ fold H.write state.old (text_fed text.now) }
{
    state.write_usize(text.len());
    state.write(text);
}

impl PartialEq for DialogId {
    ghost use Rattle.sip_dialog.specs.DialogId.{is_same_dialog};
    ghost use Rattle.sip_dialog.specs.SameNames.{alike_in_part};

    ghost eq = { λ a b. is_same_dialog b a };

    ghost laws = { alike_in_part };

    fn eq(&self, other: &DialogId) -> bool {
        is_same_dialog(other, self)
    }
}

impl Eq for DialogId {
    ghost use Rattle.sip_dialog.specs.SameNames.{alike};

    ghost laws = { alike };
}

impl Hash for DialogId {
    ghost use Rattle.sip_dialog.specs.Naming.{name_fed};
    ghost use Rattle.sip_dialog.specs.SameNames.{fed_alike};

    ghost hash_input = { name_fed };

    ghost respects_eq = { fed_alike };

    fn hash<H: Hasher>(&self, state: &mut H) {
        let (first, second) = in_order(self.from_tag.get().as_slice(), self.to_tag.as_slice());
        feed(state, self.call_id.get().as_slice());
        feed(state, first);
        feed(state, second);
    }
}
