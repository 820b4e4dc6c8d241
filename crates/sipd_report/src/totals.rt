ghost use Rattle.std.specs.Prelude.{◌≡◌, ◌++◌, [], ◌∷◌, None, map, IfOk, OnOk};
ghost use Rattle.std.specs.List.{flat_map};
ghost use Rattle.std.specs.Ordering.{nat_cmp};
ghost use Rattle.std.specs.Cmp.Lexicographic.{slice_cmp};
ghost use Rattle.sipd_report.specs.Totals.{one_more, shown_total, first_total, counted_at, place_of as place_in, AreFirst};
ghost use Rattle.sipd_report.specs.Totals.{in_order, lent_total, order_of, place_among, placed};
ghost use Rattle.sipd_report.specs.Report as Definitions;

use crate::cells::push_padded;
use sip_text::Bytes;
use std::alloc::{AllocError, Global};
use std::cmp::Ordering;
use std::collections::HashMap;
use std::marker::Model;

/// A text, and how often it came.
pub(crate) struct Total {
    text: Bytes,
    count: u64,
}

/// Written out, so that it is proved once and not wherever one is dropped.
impl Drop for Total {
    fn drop(self) {
        let Total { text: _, count: _ } = self;
    }
}

/// How often each of some texts came, in the order in which they came first. Memory is the limit of how many there may be.
pub(crate) struct Totals {
    list: Vec<Total>,
    /// Where the total of each text stands in the list.
    places: HashMap<Vec<u8>, usize>,
}

/// Written out, so that it is proved once and not wherever some are dropped.
impl Drop for Totals {
    fn drop(self) {
        let Totals { list: _, places: _ } = self;
    }
}

impl Model for Totals {
    ghost use Rattle.std.specs.Prelude.{ℕ, List, map};
    ghost use Rattle.sipd_report.specs.Totals.{shown_total, place_of, AreFirst};

    ghost Value = { List (List ℕ × ℕ) };

    ghost view = { λ t. map shown_total t.list.items };

    ghost invariant = { λ t. AreFirst (place_of t.places) t.list.items };
}

impl Totals {
    /// None yet. Takes no memory.
    pub(crate) fn new(alloc: Global) -> Self
        ensures { result ≡ [] }
    {
        Totals {
            list: Vec::new(alloc),
            places: HashMap::new(alloc),
        }
    }

    /// One more of a text.
    pub(crate) fn add(&mut self, alloc: Global, text: &[u8]) -> Result<(), AllocError>
        ensures { OnOk result (self.new ≡ one_more self.old text.now) }
    {
        add_to(alloc, &mut self.list, &mut self.places, text)
    }

    /// Adds a line for each text: the greatest count first, equal ones in the order of their texts.
    pub(crate) fn push_lines(&self, alloc: Global, text: &mut Bytes) -> Result<(), AllocError>
        ensures { OnOk result (text.new ≡ text.old ++ flat_map Definitions.total_text (in_order self.now)) }
    {
        let rows = rows_in_order(alloc, self.list.as_slice())?;
        push_all(text, rows.as_slice())
    }
}

/// One more of a text.
fn add_to(
    alloc: Global,
    list: &mut Vec<Total>,
    places: &mut HashMap<Vec<u8>, usize>,
    text: &[u8],
) -> Result<(), AllocError>
    requires { AreFirst (place_in places.old) list.old.items }
    ensures first { AreFirst (place_in places.new) list.new.items }
    ensures added { OnOk result (map shown_total list.new.items ≡ one_more (map shown_total list.old.items) text.now) }
{
    match places.get(text) {
        Some(place) => {
            count_at(list, *place);
            Ok(())
        }
        None => push_first(alloc, list, places, text),
    }
}

/// One more of the text at a place.
fn count_at(list: &mut Vec<Total>, place: usize)
    ensures { list.new.items ≡ counted_at place list.old.items }
{
    if place < list.len() {
        list[place].count = list[place].count.saturating_add(1);
    }
}

/// Adds a text that came for the first time behind the others.
fn push_first(
    alloc: Global,
    list: &mut Vec<Total>,
    places: &mut HashMap<Vec<u8>, usize>,
    text: &[u8],
) -> Result<(), AllocError>
    requires none { place_in places.old text.now ≡ None }
    requires first { AreFirst (place_in places.old) list.old.items }
    ensures first { AreFirst (place_in places.new) list.new.items }
    ensures pushed { OnOk result (list.new.items ≡ list.old.items ++ first_total text.now ∷ []) }
{
    let key = Vec::from_slice(alloc, text)?;
    let copy = Bytes::copy(alloc, text)?;
    list.reserve(1)?;
    let _ = places.insert(key, list.len())?;
    list.push_reserved(Total {
        text: copy,
        count: 1,
    });
    Ok(())
}

/// The order of two texts, byte by byte, the shorter of two that begin alike first.
fn compare_texts(left: &[u8], right: &[u8]) -> Ordering
    ensures { result ≡ slice_cmp nat_cmp left.now right.now }
{
    left.cmp(&right)
}

/// The order of two totals: the greater count first, equal ones by their texts.
fn compare(left: &Total, right: &Total) -> Ordering
    ensures { result ≡ order_of (shown_total left.now) (shown_total right.now) }
{
    match right.count.cmp(&left.count) {
        Ordering::Less => Ordering::Less,
        Ordering::Equal => compare_texts(left.text.as_slice(), right.text.as_slice()),
        Ordering::Greater => Ordering::Greater,
    }
}

/// Where a total belongs among others that stand in order.
fn place_of(rows: &[&Total], total: &Total) -> usize
    ensures { result ≡ place_among (shown_total total.now) rows.now }
{
    for (at, row) in rows.iter().enumerate() {
        if compare(total, row).is_lt() {
            return at;
        }
    }
    rows.len()
}

/// Puts a total among others that stand in order.
fn place<'a>(rows: &mut Vec<&'a Total>, total: &'a Total) -> Result<(), AllocError>
    ensures { OnOk result (map lent_total rows.new.items ≡ placed (shown_total total.now) (map lent_total rows.old.items)) }
{
    let at = place_of(rows.as_slice(), total);
    rows.insert(at, total)?;
    Ok(())
}

/// Totals in order. They are few, one for each user, rule or outcome, so that each is put where it belongs.
fn rows_in_order<'a>(alloc: Global, totals: &'a [Total]) -> Result<Vec<&'a Total>, AllocError>
    ensures { IfOk result (λ rows. map lent_total rows.items ≡ in_order (map shown_total totals.now)) }
{
    let mut rows = Vec::with_capacity(alloc, totals.len())?;
    for total in totals {
        place(&mut rows, total)?;
    }
    Ok(rows)
}

/// Adds a line for each of some totals.
fn push_all(text: &mut Bytes, rows: &[&Total]) -> Result<(), AllocError>
    ensures { OnOk result (text.new ≡ text.old ++ flat_map Definitions.total_text (map lent_total rows.now)) }
{
    for row in rows {
        push_total(text, row.text.as_slice(), row.count)?;
    }
    Ok(())
}

/// Adds a line of a total.
pub(crate) fn push_total(text: &mut Bytes, key: &[u8], count: u64) -> Result<(), AllocError>
    ensures { OnOk result (text.new ≡ text.old ++ Definitions.total_text (key.now, count)) }
{
    push_padded(text, 40, key)?;
    text.extend(b"  ")?;
    text.push_decimal(count)?;
    text.push(b'\n')
}
