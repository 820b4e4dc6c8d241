/// What a recorder does once it has failed: the server ends, or goes on without a record.
#[derive(Clone, Copy, Debug, PartialEq, Eq)]
pub enum OnFault {
    End,
    GoOn,
}
