/// The kinds of tables of a file: the whole of it, and the tables of its lists.
#[derive(Clone, Copy)]
pub enum TableKind {
    Whole,
    User,
    Hop,
    HostAddress,
    Rule,
}
