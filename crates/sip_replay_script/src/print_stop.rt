/// Why a text wasn't written.
#[derive(Clone, Copy)]
pub enum PrintStop {
    /// Memory ran out.
    NoMemory,
    /// The writer gave up.
    Write,
}
