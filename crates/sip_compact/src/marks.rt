//! Which of some events are chosen, marked one after the other.
use crate::row::Row;
use std::alloc::{AllocError, Global};
use std::collections::HashMap;

/// Whether the event at a place is marked.
pub(crate) fn is_marked(marks: &[bool], at: usize) -> bool {
    match marks.get(at) {
        Some(mark) => *mark,
        None => false,
    }
}

/// Marks of some events, of which the datagrams are found by their numbers.
pub(crate) struct Marks {
    places: HashMap<u64, usize>,
    marks: Vec<bool>,
}

/// Written out, so that it is proved once and not wherever one is dropped.
impl Drop for Marks {
    fn drop(self) {
        let Marks {
            places: _,
            marks: _,
        } = self;
    }
}

/// The place of each datagram of some events, by its number.
fn places_by_number(alloc: Global, rows: &[Row]) -> Result<HashMap<u64, usize>, AllocError> {
    let mut places = HashMap::new(alloc);
    for (at, row) in rows.iter().enumerate() {
        if row.is_datagram() {
            places.insert(row.number, at)?;
        }
    }
    Ok(places)
}

impl Marks {
    /// None of some events is marked.
    pub(crate) fn new(alloc: Global, rows: &[Row]) -> Result<Self, AllocError> {
        let places = places_by_number(alloc, rows)?;
        let marks = vec![in alloc; false; rows.len()]?;
        Ok(Marks { places, marks })
    }

    /// Marks the event at a place.
    pub(crate) fn mark_at(&mut self, at: usize) {
        if let Some(mark) = self.marks.get_mut(at) {
            *mark = true;
        }
    }

    /// Marks the datagram of a number, if it stands there.
    pub(crate) fn mark(&mut self, number: u64) {
        if let Some(at) = self.place_of(number) {
            self.mark_at(at);
        }
    }

    /// Marks the datagrams of these numbers.
    pub(crate) fn mark_all(&mut self, numbers: &[u64]) {
        for number in numbers {
            self.mark(*number);
        }
    }

    /// Where the datagram of a number stands.
    fn place_of(&self, number: u64) -> Option<usize> {
        match self.places.get(&number) {
            Some(at) => Some(*at),
            None => None,
        }
    }

    /// Whether the datagram of a number is marked.
    pub(crate) fn has(&self, number: u64) -> bool {
        match self.place_of(number) {
            Some(at) => is_marked(self.marks.as_slice(), at),
            None => false,
        }
    }

    /// The marks, in the order of the events.
    pub(crate) fn as_slice(&self) -> &[bool] {
        self.marks.as_slice()
    }
}
