ghost use Rattle.std.specs.Prelude.{◌≡◌};
ghost use Rattle.sipd_service.specs.Statuses;

use sip_guard::{Guard, Unheard};
use sip_transport::{Clock, Link};
use std::io::Write;

/// Writes how much of whom wasn't heard, in a line.
fn write_unheard<C: Write>(unheard: &Unheard, complaints: &mut C) {
    let total = unheard.total();
    let _ = write!(complaints, "sipd: {total} datagrams weren't heard:");
    for source in unheard.sources() {
        let [a, b, c, d] = source.ip;
        let count = source.count;
        let _ = write!(complaints, " {count} of {a}.{b}.{c}.{d}");
    }
    let _ = writeln!(complaints, "");
}

/// How many datagrams weren't heard, of which it wasn't said yet.
pub fn count_unheard<L: Link, C: Clock>(link: &Guard<L, C>) -> u64
    ensures { result ≡ Statuses.unheard_in link.now.allowances }
{
    match link.unheard() {
        Some(unheard) => unheard.total(),
        None => 0,
    }
}

/// Says how much of whom wasn't heard, and counts anew; whether something wasn't.
pub fn tell_unheard<L: Link, C: Clock, M: Write>(link: &mut Guard<L, C>, complaints: &mut M) -> bool
    ensures { link.new.link ≡ link.old.link }
{
    let Some(unheard) = link.unheard() else {
        return false;
    };
    if unheard.total() == 0 {
        return false;
    }
    write_unheard(unheard, complaints);
    link.clear_unheard();
    true
}
