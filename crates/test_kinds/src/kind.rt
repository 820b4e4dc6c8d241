/// What a case is tried on.
#[derive(Clone, Copy)]
pub(crate) enum Kind {
    List,
    Wheel,
    Index,
    Memory,
    Path,
}

impl Kind {
    pub(crate) fn word(self) -> &'static str {
        match self {
            Kind::List => "a list",
            Kind::Wheel => "a wheel",
            Kind::Index => "an index",
            Kind::Memory => "memory",
            Kind::Path => "a path",
        }
    }
}
