//! Which REGISTERs bound which contacts.
use crate::marks::Marks;
use sip_base::KeyedHasher;
use sip_text::same_bytes;
use sip_uri::Aor;
use std::alloc::{AllocError, Global};
use std::collections::HashMap;

/// What the REGISTERs of one Call-ID bound at an address of record.
struct Bound {
    call_id: Vec<u8>,
    /// The number of the one with which the binding began: it is that by which bindings have their order.
    first: u64,
    /// The number of the last one.
    last: u64,
    /// Up to which moment it lasts, in milliseconds.
    until: u64,
}

/// Written out, so that it is proved once and not wherever one is dropped.
impl Drop for Bound {
    fn drop(self) {
        let Bound {
            call_id: _,
            first: _,
            last: _,
            until: _,
        } = self;
    }
}

/// How many of some bindings live at a moment.
fn count_living(rows: &[Bound], at: u64) -> usize {
    let mut count: usize = 0;
    for row in rows {
        if at < row.until {
            count = count.saturating_add(1);
        }
    }
    count
}

/// Adds the numbers of the REGISTERs that made those of some bindings that live at a moment: the last ones, and where there are
/// several bindings the first ones, too.
fn push_living(rows: &[Bound], at: u64, numbers: &mut Vec<u64>) -> Result<(), AllocError> {
    let several = count_living(rows, at) > 1;
    for row in rows {
        if at < row.until {
            if several {
                numbers.push(row.first)?;
            }
            numbers.push(row.last)?;
        }
    }
    Ok(())
}

/// Sets what a REGISTER bound, if its Call-ID bound something before; whether it did.
fn renew(rows: &mut Vec<Bound>, call_id: &[u8], number: u64, at: u64, until: u64) -> bool {
    for row in rows.iter_mut() {
        if same_bytes(row.call_id.as_slice(), call_id) {
            if row.until <= at {
                row.first = number;
            }
            row.last = number;
            row.until = until;
            return true;
        }
    }
    false
}

/// What a REGISTER bound.
fn bind(
    alloc: Global,
    rows: &mut Vec<Bound>,
    call_id: &[u8],
    number: u64,
    at: u64,
    until: u64,
) -> Result<(), AllocError> {
    if renew(rows, call_id, number, at, until) {
        return Ok(());
    }
    let call_id = Vec::from_slice(alloc, call_id)?;
    rows.push(Bound {
        call_id,
        first: number,
        last: number,
        until,
    })?;
    Ok(())
}

/// The bindings by address of record, which peers choose.
#[derive(Drop)]
pub(crate) struct BindingsByAor {
    alloc: Global,
    rows: HashMap<Aor, Vec<Bound>, KeyedHasher>,
}

impl BindingsByAor {
    /// None yet, under a secret. Takes no memory.
    pub(crate) fn new(alloc: Global, keys: u128) -> Self {
        BindingsByAor {
            alloc,
            rows: HashMap::with_hasher(alloc, KeyedHasher::new(keys)),
        }
    }

    /// A REGISTER that was proven bound a contact at a moment for so many milliseconds.
    pub(crate) fn bind(
        &mut self,
        aor: &Aor,
        call_id: &[u8],
        number: u64,
        at: u64,
        lasts: u64,
    ) -> Result<(), AllocError> {
        let until = at.saturating_add(lasts);
        if let Some(rows) = self.rows.get_mut(aor) {
            return bind(self.alloc, rows, call_id, number, at, until);
        }
        let mut rows = Vec::new(self.alloc);
        bind(self.alloc, &mut rows, call_id, number, at, until)?;
        self.rows.insert(aor.clone()?, rows)?;
        Ok(())
    }

    /// A REGISTER that was proven had all contacts go.
    pub(crate) fn clear(&mut self, aor: &Aor) {
        if let Some(rows) = self.rows.get_mut(aor) {
            rows.clear();
        }
    }

    /// The numbers of the REGISTERs by which an address of record is bound at a moment.
    pub(crate) fn bound(&self, aor: &Aor, at: u64) -> Result<Vec<u64>, AllocError> {
        let mut numbers = Vec::new(self.alloc);
        if let Some(rows) = self.rows.get(aor) {
            push_living(rows.as_slice(), at, &mut numbers)?;
        }
        Ok(numbers)
    }

    /// Marks the REGISTERs by which anything is bound at a moment.
    pub(crate) fn mark(&self, now: u64, marks: &mut Marks) -> Result<(), AllocError> {
        let mut numbers = Vec::new(self.alloc);
        for rows in self.rows.values() {
            push_living(rows.as_slice(), now, &mut numbers)?;
        }
        marks.mark_all(numbers.as_slice());
        Ok(())
    }

    /// Forgets what is bound no more.
    pub(crate) fn forget(&mut self, now: u64) {
        self.rows
            .retain(|_aor, rows| count_living(rows.as_slice(), now) > 0);
    }
}
