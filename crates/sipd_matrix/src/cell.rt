use sip_matrix::Column;

/// A cell of the table, lent: who asks, for whom and when.
#[derive(Clone, Copy)]
pub struct Cell<'a> {
    /// The first user of its row; without one, nobody's.
    pub row: Option<&'a [u8]>,
    /// The class of its addresses, by its first column.
    pub class: &'a Column,
    /// The first minute of its piece of the day.
    pub piece: u16,
}
