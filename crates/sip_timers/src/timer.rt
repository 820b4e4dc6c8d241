use crate::Letter;

/// Which part of an open request a timer belongs to.
#[derive(Clone, Copy, PartialEq, Eq)]
pub enum Owner {
    /// Its server transaction.
    Server,
    /// The branch of this number.
    Branch(u32),
    /// The CANCEL that was sent to the branch of this number.
    Cancel(u32),
}

/// What a timer is for: the number of an open request, a part of it, and one of that part's timers.
#[derive(Clone, Copy, PartialEq, Eq)]
pub struct Name {
    pub request: u64,
    pub owner: Owner,
    pub letter: Letter,
}

/// A timer that stands: the key by which it is cancelled, the moment at which it is due, in
/// milliseconds, and its name.
#[derive(Clone, Copy)]
pub struct Timer {
    pub key: usize,
    pub due: u64,
    pub name: Name,
}
